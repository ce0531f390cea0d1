//! Why a statement is no rule, or a rule isn't registered.
ghost use Rattle.std.specs.Prelude.{◌≡◌};
ghost use Rattle.lt_rules.specs.declared.rule_read_fault.RuleReadFault.TheVariants.{Memory as OutOfMemory};

use lt_hol::{Memory, Name, RulePart};
use std::alloc::AllocFailed;

/// Why a statement is no rule, or a rule isn't registered.
#[derive(Debug, Drop)]
pub enum RuleReadFault {
    /// The first part of the statement that hasn't its form.
    RuleShape(RulePart),
    /// A rule has the label already.
    Duplicate(Name),
    /// Want of memory.
    Memory,
}

impl From<Memory> for RuleReadFault {
    ghost from_gives = { λ _ e. e ≡ OutOfMemory };

    fn from(_: Memory) -> RuleReadFault {
        RuleReadFault::Memory
    }
}

impl<T: Drop> From<AllocFailed<T>> for RuleReadFault {
    ghost from_gives = { λ _ e. e ≡ OutOfMemory };

    fn from(_: AllocFailed<T>) -> RuleReadFault {
        RuleReadFault::Memory
    }
}
