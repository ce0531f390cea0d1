//! Why a call on laws is refused.
ghost use Rattle.std.specs.Prelude.{◌≡◌};
ghost use Rattle.lt_laws.specs.declared.law_fault.LawFault.TheVariants.{Memory as OutOfMemory};

use lt_types::{Memory, Name};
use std::alloc::AllocFailed;

/// Why a call on laws is refused.
#[derive(Debug, Drop)]
pub enum LawFault {
    /// No law has the name.
    UnknownLaw(Name),
    /// The statement isn't that of the law.
    LawDiffers(Name),
    /// The law isn't registered.
    MissingLaw(Name),
    /// Want of memory.
    Memory,
}

impl From<Memory> for LawFault {
    ghost from_gives = { λ _ e. e ≡ OutOfMemory };

    fn from(_: Memory) -> LawFault {
        LawFault::Memory
    }
}

impl<T: Drop> From<AllocFailed<T>> for LawFault {
    ghost from_gives = { λ _ e. e ≡ OutOfMemory };

    fn from(_: AllocFailed<T>) -> LawFault {
        LawFault::Memory
    }
}
