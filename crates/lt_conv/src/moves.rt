//! Moves on the way to a normal form: one step, and those from a place to the next.
ghost use Rattle.std.specs.Prelude.{◌+◌, ◌≡◌, ◌<◌, OnOk, true};
ghost use Rattle.lt_conv.specs.declared.machine.Frame.TheVariants.{Function};
ghost use Rattle.lt_conv.specs.declared.machine.ConvFault.TheVariants.{Memory};
ghost use Rattle.lt_kernel.specs.Growing.{Carries};
ghost use Rattle.lt_conv.specs.Machines.{spot, IsAtRedex, IsAtApplication, IsAtAbstraction, IsBehindHead, IsBehindArgument, IsBehindBody, IsNearer, IsHeadAbstraction, IsRedexOf, Leads};

use crate::counting::count_right;
use crate::machine::{ConvFault, Frame, Machine};
use crate::opening::open_body;
use crate::steps::{argument, function, join, reduce, shut};
use lt_hol::{Memory, Name, Ty};
use lt_kernel::Proof;
use lt_store::TermStore;
use std::alloc::Global;

/// One step, at the place.
pub(crate) fn contract<S: TermStore>(
    alloc: Global,
    proof: &mut Proof<S>,
    machine: &mut Machine,
) -> Result<(), ConvFault>
    requires { IsAtRedex proof.old (spot machine.old) }
    ensures carries { Carries proof.old proof.new }
    ensures leads { (q : IsAtRedex proof.old (spot machine.old)) → Leads q.whole q.t proof.new (spot machine.new) result }
    ensures less { OnOk result (machine.new.steps ≡ machine.old.steps + 1) }
{
    if machine.steps == 10000 {
        return Err(ConvFault::NormLimit(10000));
    }
    let Some(before) = count_right(alloc, proof, machine.line, machine.floor, machine.size)? else {
        unreachable!();
    };
    let line = reduce(alloc, proof, machine.line)?;
    let rest = machine.size - before;
    let Some(behind) = count_right(alloc, proof, line, machine.floor, 65536 - rest)? else {
        return Err(ConvFault::NormLimit(machine.steps + 1));
    };
    machine.line = line;
    machine.steps += 1;
    machine.size = rest + behind;
    machine.room = 3 * machine.size;
    Ok(())
}

/// Into the head of an application.
pub(crate) fn enter_head<S: TermStore>(
    alloc: Global,
    proof: &mut Proof<S>,
    machine: &mut Machine,
) -> Result<(), ConvFault>
    requires { IsAtApplication proof.old (spot machine.old) }
    ensures carries { Carries proof.old proof.new }
    ensures leads { (q : IsAtApplication proof.old (spot machine.old)) → Leads q.whole q.t proof.new (spot machine.new) result }
    ensures smaller { OnOk result (IsNearer (spot machine.old) (spot machine.new)) }
{
    let head = function(alloc, proof, machine.line)?;
    machine.frames.push(Frame::Function(machine.line))?;
    machine.line = head;
    machine.room -= 1;
    Ok(())
}

/// From the head of an application, which is normal, into its argument.
pub(crate) fn enter_argument<S: TermStore>(
    alloc: Global,
    proof: &mut Proof<S>,
    machine: &mut Machine,
    whole: usize,
) -> Result<(), ConvFault>
    requires { IsBehindHead proof.old (spot machine.old) whole }
    ensures carries { Carries proof.old proof.new }
    ensures leads { (q : IsBehindHead proof.old (spot machine.old) whole) → Leads q.whole q.t proof.new (spot machine.new) result }
    ensures smaller { OnOk result (IsNearer (spot machine.old) (spot machine.new)) }
{
    let line = argument(alloc, proof, whole)?;
    machine.frames.push(Frame::Argument(whole, machine.line))?;
    machine.line = line;
    machine.down = true;
    machine.room -= 1;
    Ok(())
}

/// From the argument of an application, which is normal, to the application.
pub(crate) fn leave_argument<S: TermStore>(
    alloc: Global,
    proof: &mut Proof<S>,
    machine: &mut Machine,
    whole: usize,
    head: usize,
) -> Result<(), ConvFault>
    requires { IsBehindArgument proof.old (spot machine.old) whole head }
    ensures carries { Carries proof.old proof.new }
    ensures leads { (q : IsBehindArgument proof.old (spot machine.old) whole head) → Leads q.whole q.t proof.new (spot machine.new) result }
    ensures smaller { OnOk result (IsNearer (spot machine.old) (spot machine.new)) }
{
    let line = join(alloc, proof, whole, head, machine.line)?;
    machine.line = line;
    machine.room -= 1;
    Ok(())
}

/// From the body of an abstraction, which is normal, to the abstraction.
pub(crate) fn leave_body<S: TermStore>(
    alloc: Global,
    proof: &mut Proof<S>,
    machine: &mut Machine,
    whole: usize,
    x: Name,
    ty: Ty,
) -> Result<(), ConvFault>
    requires { IsBehindBody proof.old (spot machine.old) whole x ty }
    ensures carries { Carries proof.old proof.new }
    ensures leads { (q : IsBehindBody proof.old (spot machine.old) whole x ty) → Leads q.whole q.t proof.new (spot machine.new) result }
    ensures smaller { OnOk result (IsNearer (spot machine.old) (spot machine.new)) }
{
    let line = shut(alloc, proof, whole, x, ty, machine.line)?;
    machine.line = line;
    machine.room -= 1;
    Ok(())
}

/// From a head that became an abstraction, to the redex.
pub(crate) fn join_head<S: TermStore>(
    alloc: Global,
    proof: &mut Proof<S>,
    machine: &mut Machine,
    whole: usize,
) -> Result<(), Memory>
    requires { IsHeadAbstraction proof.old (spot machine.old) whole }
    ensures carries { Carries proof.old proof.new }
    ensures redex { (q : IsHeadAbstraction proof.old (spot machine.old) whole) → OnOk result (IsRedexOf q.whole q.t proof.new (spot machine.new)) }
    ensures steps { machine.new.steps ≡ machine.old.steps }
{
    let argument = argument(alloc, proof, whole)?;
    let line = join(alloc, proof, whole, machine.line, argument)?;
    machine.line = line;
    Ok(())
}

/// Into the body of an abstraction, opened by a new variable.
pub(crate) fn enter_body<S: TermStore>(
    alloc: Global,
    proof: &mut Proof<S>,
    machine: &mut Machine,
) -> Result<(), ConvFault>
    requires { IsAtAbstraction proof.old (spot machine.old) }
    ensures carries { Carries proof.old proof.new }
    ensures leads { (q : IsAtAbstraction proof.old (spot machine.old)) → Leads q.whole q.t proof.new (spot machine.new) result }
    ensures smaller { OnOk result (IsNearer (spot machine.old) (spot machine.new)) }
{
    let (line, x, ty) = open_body(alloc, proof, machine.line, machine.floor)?;
    machine.frames.push(Frame::Body(machine.line, x, ty))?;
    machine.line = line;
    machine.room -= 1;
    Ok(())
}
