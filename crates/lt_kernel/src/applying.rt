//! The rule on equal functions applied to equal arguments: `cong`.
ghost use Rattle.std.specs.Prelude.{length};
ghost use Rattle.lt_nameless.specs.NamelessRules.{nameless_cong_gives};
ghost use Rattle.lt_store.specs.Trees.{Extends};
ghost use Rattle.lt_kernel.specs.Sequents.{sequents_at, AreWithin, Gives};

use crate::premises::{equation_of, line_at};
use crate::rule_fault::RuleFault;
use crate::sequent::{Sequent, Step};
use lt_formulas::{joined_type, mk_applied_equation, union};
use lt_hol::Reason;
use lt_store::TermStore;
use std::alloc::Global;

/// From `H |- f = g` and `K |- a = b`: `H, K |- f a = g b`
pub(crate) fn cong<S: TermStore>(
    alloc: Global,
    store: &mut S,
    done: &[Step],
    i: usize,
    j: usize,
) -> Result<Sequent, RuleFault>
    requires { AreWithin (length (S.nodes store.old)) done.now }
    ensures kept { Extends (S.nodes store.old) (S.nodes store.new) }
    ensures step { Gives (S.nodes store.new) result
        (nameless_cong_gives (sequents_at (S.nodes store.old) done.now) i j) }
{
    let first = line_at(store, done, i)?;
    let second = line_at(store, done, j)?;
    let functions = equation_of(alloc, store, first.concl)?;
    let arguments = equation_of(alloc, store, second.concl)?;
    let Some(ty) = joined_type(alloc, &functions.ty, &arguments.ty)? else {
        return Err(RuleFault::Bad(Reason::TypeDiffers));
    };
    let (f, a) = (functions.left, arguments.left);
    let (g, b) = (functions.right, arguments.right);
    let hyps = union(alloc, store, &first.hyps, &second.hyps)?;
    let concl = mk_applied_equation(alloc, store, ty, f, a, g, b)?;
    Ok(Sequent { hyps, concl })
}
