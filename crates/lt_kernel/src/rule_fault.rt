//! Why a call of the kernel is refused.
ghost use Rattle.std.specs.Prelude.{◌≡◌};
ghost use Rattle.lt_kernel.specs.declared.rule_fault.RuleFault.TheVariants.{Memory as OutOfMemory};

use lt_hol::{Memory, Name, Reason};
use std::alloc::AllocFailed;

/// Why a call of the kernel is refused.
#[derive(Debug, Drop)]
pub enum RuleFault {
    /// The rule gives no sequent.
    Bad(Reason),
    /// A statement has the label already.
    Duplicate(Name),
    /// Want of memory.
    Memory,
}

impl RuleFault {
    /// The fault of a call that can't be refused for another reason.
    pub fn into_memory(self) -> Memory
        requires { self ≡ OutOfMemory }
    {
        match self {
            RuleFault::Memory => Memory,
            _ => unreachable!(),
        }
    }
}

impl From<Memory> for RuleFault {
    ghost from_gives = { λ _ e. e ≡ OutOfMemory };

    fn from(_: Memory) -> RuleFault {
        RuleFault::Memory
    }
}

impl<T: Drop> From<AllocFailed<T>> for RuleFault {
    ghost from_gives = { λ _ e. e ≡ OutOfMemory };

    fn from(_: AllocFailed<T>) -> RuleFault {
        RuleFault::Memory
    }
}
