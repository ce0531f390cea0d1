//! What is wrong with a type, a term or a declaration.
ghost use Rattle.std.specs.Prelude.{◌≡◌};
ghost use Rattle.lt_hol.specs.declared.type_fault.TypeFault.TheVariants.{Memory as OutOfMemory};

use lt_types::{Memory, Name, Ty};
use std::alloc::AllocFailed;

/// What is wrong with a type, a term or a declaration.
#[derive(Debug, Drop)]
pub enum TypeFault {
    /// The name is declared already.
    Duplicate(Name),
    /// No type has the name.
    UnknownType(Name),
    /// A type constructor has another number of arguments than was declared.
    Arity(Name),
    /// No constant has the name.
    UnknownConst(Name),
    /// A constant has another number of type arguments than its declared type has variables.
    TypeArgs(Name),
    /// A bound name has no binder.
    Unbound(Name),
    /// A function's type, and that of its argument, to which it can't be applied.
    Mismatch(Ty, Ty),
    /// Want of memory.
    Memory,
}

impl From<Memory> for TypeFault {
    ghost from_gives = { λ _ e. e ≡ OutOfMemory };

    fn from(_: Memory) -> TypeFault {
        TypeFault::Memory
    }
}

impl<T: Drop> From<AllocFailed<T>> for TypeFault {
    ghost from_gives = { λ _ e. e ≡ OutOfMemory };

    fn from(_: AllocFailed<T>) -> TypeFault {
        TypeFault::Memory
    }
}
