//! Puts the types and terms of lines into the store.
ghost use Rattle.std.specs.Prelude.{◌≡◌, ◌<◌, [], length, true, get_or};
ghost use Rattle.lt_definitions.specs.Terms.{bound_name};
ghost use Rattle.lt_definitions.specs.Derivations.{term_fault};
ghost use Rattle.lt_hol.specs.Lines.{trees, rule_of, is_within};
ghost use Rattle.lt_kernel.specs.State.{Keeps};
ghost use Rattle.lt_hol.specs.Faults.{Checks};
ghost use Rattle.lt_extend.specs.Storing.{StoresTerm, StoresLine};

use lt_hol::{Line, Lines, Signature, Term, TryCopy, TypeFault};
use lt_kernel::Proof;
use lt_store::{Id, TermStore};
use std::alloc::Global;

/// The line with its terms in the store, where its types and terms have no fault.
pub(crate) fn store_line<S: TermStore>(
    alloc: Global,
    proof: &mut Proof<S>,
    lines: &Lines,
    line: &Line,
) -> Result<Line, TypeFault>
    requires { is_within (length lines.now.nodes) line.now ≡ true }
    ensures kept { Keeps proof.old proof.new }
    ensures stores { StoresLine proof.old.signature proof.new.nodes
        (rule_of (trees lines.now.nodes) line.now) result }
{
    match line {
        Line::Assume(p) => Ok(Line::Assume(store_term(alloc, proof, lines, *p)?)),
        Line::Weaken(p, i) => Ok(Line::Weaken(store_term(alloc, proof, lines, *p)?, *i)),
        Line::Refl(t) => Ok(Line::Refl(store_term(alloc, proof, lines, *t)?)),
        Line::Sym(i) => Ok(Line::Sym(*i)),
        Line::Trans(i, j) => Ok(Line::Trans(*i, *j)),
        Line::Cong(i, j) => Ok(Line::Cong(*i, *j)),
        Line::Abs(x, ty, i) => {
            proof.signature().check_type(alloc, ty)?;
            Ok(Line::Abs(x.copy(alloc)?, ty.copy(alloc)?, *i))
        }
        Line::Beta(t) => Ok(Line::Beta(store_term(alloc, proof, lines, *t)?)),
        Line::Eta(t) => Ok(Line::Eta(store_term(alloc, proof, lines, *t)?)),
        Line::Eqmp(i, j) => Ok(Line::Eqmp(*i, *j)),
        Line::ImpI(p, i) => Ok(Line::ImpI(store_term(alloc, proof, lines, *p)?, *i)),
        Line::Mp(i, j) => Ok(Line::Mp(*i, *j)),
        Line::AllI(x, ty, i) => {
            proof.signature().check_type(alloc, ty)?;
            Ok(Line::AllI(x.copy(alloc)?, ty.copy(alloc)?, *i))
        }
        Line::AllE(t, i) => Ok(Line::AllE(store_term(alloc, proof, lines, *t)?, *i)),
        Line::Iff(i, j) => Ok(Line::Iff(*i, *j)),
        Line::Inst(x, ty, t, i) => {
            proof.signature().check_type(alloc, ty)?;
            let t = store_term(alloc, proof, lines, *t)?;
            Ok(Line::Inst(x.copy(alloc)?, ty.copy(alloc)?, t, *i))
        }
        Line::Tinst(a, ty, i) => {
            proof.signature().check_type(alloc, ty)?;
            Ok(Line::Tinst(a.copy(alloc)?, ty.copy(alloc)?, *i))
        }
        Line::Select(p) => Ok(Line::Select(store_term(alloc, proof, lines, *p)?)),
        Line::Ccontr(p) => Ok(Line::Ccontr(store_term(alloc, proof, lines, *p)?)),
        Line::Thm(label) => Ok(Line::Thm(label.copy(alloc)?)),
    }
}

/// The term at a place of the lines' nodes, in the store, where it has no fault.
fn store_term<S: TermStore>(
    alloc: Global,
    proof: &mut Proof<S>,
    lines: &Lines,
    place: usize,
) -> Result<Id, TypeFault>
    requires { place < length lines.now.nodes }
    ensures kept { Keeps proof.old proof.new }
    ensures stores { StoresTerm proof.old.signature proof.new.nodes
        (get_or (trees lines.now.nodes) place (bound_name [])) result }
{
    let term = lines.term(alloc, place)?;
    check_term(alloc, proof.signature(), &term)?;
    Ok(proof.add_term(alloc, &term)?)
}

/// Refuses a term that has a fault.
fn check_term(alloc: Global, sig: &Signature, term: &Term) -> Result<(), TypeFault>
    ensures { Checks (term_fault sig.now term.now) result }
{
    match sig.type_of(alloc, term) {
        Ok(_) => Ok(()),
        Err(fault) => Err(fault),
    }
}
