//! Equations between relation expressions, solved one after another over bindings that can be undone.
ghost use Rattle.std.specs.Prelude.{◌≡◌, IfOk, OnOk, OnErr, IsErrOf, map};
ghost use Rattle.lt_unify.specs.Codes.{HasMore};
ghost use Rattle.lt_unify.specs.Standing.{EquationsBelow};
ghost use Rattle.lt_search.specs.Solving.{equation_trees_of, GoesOn, CannotGoOn, resolved_trees};
ghost use Rattle.lt_search.specs.ExpressionView.{expression_tree};

use crate::expression::{Equation, Expression};
use lt_unify::{Bindings, Memory, UnifyFault, unify};
use std::alloc::Global;

/// Solves further equations, one after another, or goes back to the bindings that there were.
pub fn solve_all(
    alloc: Global,
    bindings: &mut Bindings<Expression>,
    equations: &[Equation],
) -> Result<(), UnifyFault>
    requires below { EquationsBelow bindings.old.variables (equation_trees_of equations.now) }
    ensures solved { OnOk result (GoesOn bindings.old.pairs (equation_trees_of equations.now) bindings.new.pairs) }
    ensures kept { OnOk result (HasMore bindings.old bindings.new) }
    ensures none { IsErrOf result UnifyFault.NoSolution → CannotGoOn bindings.old.pairs (equation_trees_of equations.now) }
    ensures err { OnErr result (bindings.new ≡ bindings.old) }
{
    let mark = bindings.mark();
    for equation in equations {
        match unify(alloc, bindings, &equation.left, &equation.right) {
            Ok(()) => {}
            Err(fault) => {
                bindings.undo(mark);
                return Err(fault);
            }
        }
    }
    Ok(())
}

/// What each of some expressions is resolved to.
pub fn resolve_all(
    alloc: Global,
    bindings: &Bindings<Expression>,
    parts: &[Expression],
) -> Result<Vec<Expression>, Memory>
    ensures { IfOk result (λ all. map expression_tree all.items ≡ resolved_trees bindings.now.pairs parts.now) }
{
    let mut all = Vec::new(alloc);
    for part in parts {
        all.push(bindings.resolve(alloc, part)?)?;
    }
    Ok(all)
}
