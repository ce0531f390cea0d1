//! What a line's rule gives.
ghost use Rattle.std.specs.Prelude.{length};
ghost use Rattle.lt_nameless.specs.NamelessRules.{nameless_step};
ghost use Rattle.lt_store.specs.Trees.{Extends};
ghost use Rattle.lt_kernel.specs.Lines.{rule_at, IsGoodLine};
ghost use Rattle.lt_kernel.specs.Sequents.{sequents_at, statements_at, AreWithin, NamedWithin, Gives};

use crate::applying::cong;
use crate::assuming::{assume, thm, weaken};
use crate::binding::{abs, beta, eta};
use crate::choosing::{ccontr, select};
use crate::equating::{eqmp, iff, refl, sym, trans};
use crate::implying::{impI, mp};
use crate::quantifying::{allE, allI};
use crate::replacing::{inst, tinst};
use crate::rule_fault::RuleFault;
use crate::sequent::{Sequent, Step};
use indexmap::IndexMap;
use lt_hol::{Line, Name, Signature};
use lt_store::{Id, TermStore};
use std::alloc::Global;

/// The sequent that a line's rule gives over the lines so far.
pub(crate) fn derive<S: TermStore>(
    alloc: Global,
    store: &mut S,
    sig: &Signature,
    named: &IndexMap<Name, Id>,
    done: &[Step],
    line: &Line,
) -> Result<Sequent, RuleFault>
    requires done { AreWithin (length (S.nodes store.old)) done.now }
    requires named { NamedWithin (length (S.nodes store.old)) named.now.entries }
    requires line { IsGoodLine sig.now (S.nodes store.old) line.now }
    ensures kept { Extends (S.nodes store.old) (S.nodes store.new) }
    ensures step { Gives (S.nodes store.new) result
        (nameless_step sig.now (statements_at (S.nodes store.old) named.now.entries)
        (sequents_at (S.nodes store.old) done.now) (rule_at (S.nodes store.old) line.now)) }
{
    match line {
        Line::Assume(p) => assume(alloc, store, sig, *p),
        Line::Weaken(p, i) => weaken(alloc, store, sig, done, *p, *i),
        Line::Refl(t) => refl(alloc, store, sig, *t),
        Line::Sym(i) => sym(alloc, store, done, *i),
        Line::Trans(i, j) => trans(alloc, store, done, *i, *j),
        Line::Cong(i, j) => cong(alloc, store, done, *i, *j),
        Line::Abs(x, ty, i) => abs(alloc, store, done, x, ty, *i),
        Line::Beta(t) => beta(alloc, store, sig, *t),
        Line::Eta(t) => eta(alloc, store, sig, *t),
        Line::Eqmp(i, j) => eqmp(alloc, store, done, *i, *j),
        Line::ImpI(p, i) => impI(alloc, store, sig, done, *p, *i),
        Line::Mp(i, j) => mp(alloc, store, done, *i, *j),
        Line::AllI(x, ty, i) => allI(alloc, store, done, x, ty, *i),
        Line::AllE(t, i) => allE(alloc, store, sig, done, *t, *i),
        Line::Iff(i, j) => iff(alloc, store, done, *i, *j),
        Line::Inst(x, ty, t, i) => inst(alloc, store, sig, done, x, ty, *t, *i),
        Line::Tinst(a, ty, i) => tinst(alloc, store, done, a, ty, *i),
        Line::Select(p) => select(alloc, store, sig, *p),
        Line::Ccontr(p) => ccontr(alloc, store, sig, *p),
        Line::Thm(label) => thm(alloc, store, named, label),
    }
}
