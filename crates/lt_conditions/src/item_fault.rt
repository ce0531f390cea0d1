//! Why an item isn't added.
ghost use Rattle.std.specs.Prelude.{◌≡◌};
ghost use Rattle.lt_conditions.specs.declared.item_fault.ItemFault.TheVariants.{Memory as OutOfMemory};
ghost use Rattle.lt_conditions.specs.Refusing.{item_fault};

use lt_hol::{Memory, Name, Reason, Term, Terms, Ty, TypeFault};
use std::alloc::AllocFailed;

/// Hypotheses and a conclusion, as terms.
#[derive(Debug, Drop)]
pub struct TermSequent {
    pub hyps: Terms,
    pub concl: Term,
}

/// Why an item isn't added.
#[derive(Debug, Drop)]
pub enum ItemFault {
    /// A type, a constant or a statement has the name already.
    Duplicate(Name),
    /// No type has the name.
    UnknownType(Name),
    /// A type constructor has another number of arguments than was declared.
    Arity(Name),
    /// No constant has the name.
    UnknownConst(Name),
    /// A constant has another number of type arguments than its declared type has variables.
    TypeArgs(Name),
    /// A bound name has no binder.
    Unbound(Name),
    /// A function's type, and that of its argument, to which it can't be applied; or the stated type
    /// of a definition, and that of its body.
    Mismatch(Ty, Ty),
    /// A statement has another type than that of truth values.
    NotBool(Ty),
    /// No statement has the label.
    UnknownLabel(Name),
    /// A statement, a body or a predicate has a free variable.
    OpenTerm,
    /// A body has a type variable that the stated type lacks, or a predicate one that is no parameter.
    LooseTypeVar(Name),
    /// A parameter stands twice, the predicate is none, or the named statement doesn't apply it.
    TypedefShape,
    /// A type or a term of the line with a number, from 1, has a fault.
    InLine(usize, TypeFault),
    /// The rule of the line with a number, from 1, gives nothing.
    BadLine(usize, Reason),
    /// The last line isn't the statement without hypotheses: its sequent, if there is a line.
    NotProved(Option<TermSequent>),
    /// Want of memory.
    Memory,
}

impl From<Memory> for ItemFault {
    ghost from_gives = { λ _ e. e ≡ OutOfMemory };

    fn from(_: Memory) -> ItemFault {
        ItemFault::Memory
    }
}

impl<T: Drop> From<AllocFailed<T>> for ItemFault {
    ghost from_gives = { λ _ e. e ≡ OutOfMemory };

    fn from(_: AllocFailed<T>) -> ItemFault {
        ItemFault::Memory
    }
}

/// The fault of an item that has a type or a term with this one.
pub fn of_type(fault: TypeFault) -> ItemFault
    ensures { result ≡ item_fault fault }
{
    match fault {
        TypeFault::Duplicate(name) => ItemFault::Duplicate(name),
        TypeFault::UnknownType(name) => ItemFault::UnknownType(name),
        TypeFault::Arity(name) => ItemFault::Arity(name),
        TypeFault::UnknownConst(name) => ItemFault::UnknownConst(name),
        TypeFault::TypeArgs(name) => ItemFault::TypeArgs(name),
        TypeFault::Unbound(name) => ItemFault::Unbound(name),
        TypeFault::Mismatch(function, argument) => ItemFault::Mismatch(function, argument),
        TypeFault::Memory => ItemFault::Memory,
    }
}
