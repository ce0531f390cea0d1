//! Why something isn't registered.
ghost use Rattle.std.specs.Prelude.{◌≡◌};
ghost use Rattle.lt_relations.specs.declared.rel_fault.RelFault.TheVariants.{Memory as OutOfMemory};

use lt_hol::{Memory, Name, Property, PropertyPart, RelatorPart};
use std::alloc::AllocFailed;

/// Why something isn't registered.
#[derive(Debug, Drop)]
pub enum RelFault {
    /// The first part of a relator, or of a correspondence, that hasn't its form.
    RelatorShape(RelatorPart),
    /// The name is a relation constructor already, or that of a type constructor with a relator.
    Duplicate(Name),
    /// The first part of a property's statement that hasn't its form.
    PropertyShape(PropertyPart),
    /// The property and the head that has a rule for it already.
    DuplicateProperty(Property, Name),
    /// The statement is no domain equation.
    DomainShape,
    /// The head has a domain equation already.
    DuplicateDomain(Name),
    /// Want of memory.
    Memory,
}

impl From<Memory> for RelFault {
    ghost from_gives = { λ _ e. e ≡ OutOfMemory };

    fn from(_: Memory) -> RelFault {
        RelFault::Memory
    }
}

impl<T: Drop> From<AllocFailed<T>> for RelFault {
    ghost from_gives = { λ _ e. e ≡ OutOfMemory };

    fn from(_: AllocFailed<T>) -> RelFault {
        RelFault::Memory
    }
}
