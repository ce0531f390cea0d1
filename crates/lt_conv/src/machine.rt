//! Where a term is worked on on the way to its normal form.
ghost use Rattle.std.specs.Prelude.{◌≡◌};
ghost use Rattle.lt_conv.specs.declared.machine.ConvFault.TheVariants.{Memory};

use lt_hol::{Name, Ty};
use std::alloc::AllocFailed;

/// What is around the place that is worked on.
#[derive(Debug, Drop)]
pub(crate) enum Frame {
    /// A line `s = f a`; the place began at f.
    Function(usize),
    /// Lines `s = f a` and `f = g`; the place began at a.
    Argument(usize, usize),
    /// A line `s = \x. b`; the place began at b, opened by that variable.
    Body(usize, Name, Ty),
}

/// Why a normal form is refused.
#[derive(Debug, Drop)]
pub enum ConvFault {
    /// The first step behind which the term has more than 65,536 nodes, or which is the 10,000th and doesn't make it normal.
    NormLimit(usize),
    Memory,
}

/// The place that is worked on is the right side of `line`, whose left side is the term at which it began.
#[derive(Debug, Drop)]
pub(crate) struct Machine {
    pub frames: Vec<Frame>,
    pub line: usize,
    /// Whether the place is still to be visited; else its term is normal.
    pub down: bool,
    /// The greatest length of a free variable's name in the whole term. The variables of open binders have longer names.
    pub floor: usize,
    pub steps: usize,
    /// How many nodes the whole term has.
    pub size: usize,
    /// How many moves there may be to the next step.
    pub room: usize,
}

impl From<lt_hol::Memory> for ConvFault {
    ghost from_gives = { λ _ e. e ≡ Memory };

    fn from(_: lt_hol::Memory) -> ConvFault {
        ConvFault::Memory
    }
}

impl<T: Drop> From<AllocFailed<T>> for ConvFault {
    ghost from_gives = { λ _ e. e ≡ Memory };

    fn from(_: AllocFailed<T>) -> ConvFault {
        ConvFault::Memory
    }
}
