//! The way to a normal form, from its begin to its end.
ghost use Rattle.std.specs.Prelude.{◌≡◌, ◌<◌, false, OnOk, true, None, ◌∷◌, reverse, IfSome};
ghost use Rattle.lt_store.specs.Trees.{tree_at};
ghost use Rattle.lt_store.specs.Typed.{IsTyped};
ghost use Rattle.lt_reductions.specs.Reducts.{nodes, normal_form_of};
ghost use Rattle.lt_formulas.specs.Shapes.{is_application};
ghost use Rattle.lt_conv.specs.declared.machine.Frame.TheVariants.{Function};
ghost use Rattle.lt_kernel.specs.Growing.{Carries};
ghost use Rattle.lt_conv.specs.Machines.{spot, IsNearerOrEnded, IsRunning, IsLess, IsNoHead, Ends, gone, Goes, Leads};

use crate::conversion::{is_lam, is_redex};
use crate::counting::{count, is_too_large};
use crate::machine::{ConvFault, Frame, Machine};
use crate::moves::{
    contract, enter_argument, enter_body, enter_head, join_head, leave_argument, leave_body,
};
use crate::opening::longest;
use lt_derived::equations::{refl, right};
use lt_formulas::is_application;
use lt_kernel::Proof;
use lt_store::{Id, TermStore};
use std::alloc::Global;

/// That a machine goes on, where a move was made.
fn going(moved: Result<(), ConvFault>) -> Result<bool, ConvFault>
    ensures { result ≡ gone moved }
{
    match moved {
        Ok(()) => Ok(false),
        Err(fault) => Err(fault),
    }
}

/// Whether a machine whose place is normal has ended; else it goes on behind that place.
fn go_up<S: TermStore>(
    alloc: Global,
    proof: &mut Proof<S>,
    machine: &mut Machine,
) -> Result<bool, ConvFault>
    requires running { IsRunning proof.old (spot machine.old) }
    requires up { machine.old.down ≡ false }
    ensures carries { Carries proof.old proof.new }
    ensures goes { (q : IsRunning proof.old (spot machine.old)) → Goes q.whole q.t proof.new (spot machine.new) result }
    ensures smaller { IsNearerOrEnded (spot machine.old) (spot machine.new) result }
{
    match machine.frames.pop() {
        None => Ok(true),
        Some(Frame::Function(whole)) => going(enter_argument(alloc, proof, machine, whole)),
        Some(Frame::Argument(whole, head)) => {
            going(leave_argument(alloc, proof, machine, whole, head))
        }
        Some(Frame::Body(whole, x, ty)) => going(leave_body(alloc, proof, machine, whole, x, ty)),
    }
}

/// The line of the application whose head the place is, with its frame taken off; None where the place is no head.
fn take_head(frames: &mut Vec<Frame>) -> Option<usize>
    ensures some { IfSome result (λ e. reverse frames.old.items ≡ Function e ∷ reverse frames.new.items) }
    ensures none { result ≡ None → (reverse frames.new.items ≡ reverse frames.old.items) × IsNoHead (reverse frames.old.items) }
{
    match frames.last() {
        Some(Frame::Function(_)) => match frames.pop() {
            Some(Frame::Function(whole)) => Some(whole),
            _ => unreachable!(),
        },
        _ => None,
    }
}

/// From a place that is to be visited.
fn go_down<S: TermStore>(
    alloc: Global,
    proof: &mut Proof<S>,
    machine: &mut Machine,
) -> Result<(), ConvFault>
    requires running { IsRunning proof.old (spot machine.old) }
    requires down { machine.old.down ≡ true }
    ensures carries { Carries proof.old proof.new }
    ensures leads { (q : IsRunning proof.old (spot machine.old)) → Leads q.whole q.t proof.new (spot machine.new) result }
    ensures less { OnOk result (IsLess (spot machine.old) (spot machine.new)) }
{
    let t = right(proof, machine.line);
    if is_redex(proof, t) {
        return contract(alloc, proof, machine);
    }
    if is_application(proof, t) {
        return enter_head(alloc, proof, machine);
    }
    if is_lam(proof, t) {
        return match take_head(&mut machine.frames) {
            Some(whole) => {
                join_head(alloc, proof, machine, whole)?;
                contract(alloc, proof, machine)
            }
            None => enter_body(alloc, proof, machine),
        };
    }
    machine.down = false;
    machine.room -= 1;
    Ok(())
}

/// An equation of a term with its beta normal form, by leftmost outermost steps.
///
/// `NormLimit` with the first step k, from 0 to 10,000, behind which the term has more than 65,536 nodes, or k = 10,000 where that term isn't normal.
pub fn normal_form<S: TermStore>(
    alloc: Global,
    proof: &mut Proof<S>,
    t: Id,
) -> Result<usize, ConvFault>
    requires { IsTyped proof.old.signature proof.old.nodes t }
    ensures carries { Carries proof.old proof.new }
    ensures ends { Ends proof.new (tree_at proof.old.nodes t) (normal_form_of (tree_at proof.old.nodes t)) result }
{
    let large = is_too_large(alloc, proof, t)?;
    if large {
        return Err(ConvFault::NormLimit(0));
    }
    let floor = longest(alloc, proof, t)?;
    let Some(size) = count(alloc, proof, t, floor, 65536)? else {
        return Err(ConvFault::NormLimit(0));
    };
    let line = refl(alloc, proof, t)?;
    let mut machine = Machine {
        frames: Vec::new(alloc),
        line,
        down: true,
        floor,
        steps: 0,
        size,
        room: 3 * size,
    };
    loop {
        if machine.down {
            match go_down(alloc, proof, &mut machine) {
                Ok(()) => continue,
                Err(fault) => return Err(fault),
            }
        }
        match go_up(alloc, proof, &mut machine) {
            Ok(ended) => {
                if ended {
                    return Ok(machine.line);
                }
            }
            Err(fault) => return Err(fault),
        }
    }
}
