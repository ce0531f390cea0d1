//! Faults of items as refusals.
ghost use Rattle.std.specs.Prelude.{◌≡◌, option_map};
ghost use Rattle.lt_plain.specs.Flattening.{as_terms, flat, flat_type, line_in};

use lt_commands::{Refusal, SequentTerms};
use lt_extend::{ItemFault, TermSequent};
use lt_hol::TypeFault;

/// A fault of an item as a refusal; that in which line of a lemma it stands is left out.
pub fn of_fault(fault: ItemFault) -> Refusal
    ensures { result ≡ flat fault }
{
    match fault {
        ItemFault::Duplicate(name) => Refusal::Duplicate(name),
        ItemFault::UnknownType(name) => Refusal::UnknownType(name),
        ItemFault::Arity(name) => Refusal::Arity(name),
        ItemFault::UnknownConst(name) => Refusal::UnknownConst(name),
        ItemFault::TypeArgs(name) => Refusal::TypeArgs(name),
        ItemFault::Unbound(name) => Refusal::Unbound(name),
        ItemFault::Mismatch(function, argument) => Refusal::Mismatch(function, argument),
        ItemFault::NotBool(ty) => Refusal::NotBool(ty),
        ItemFault::UnknownLabel(label) => Refusal::UnknownLabel(label),
        ItemFault::OpenTerm => Refusal::OpenTerm,
        ItemFault::LooseTypeVar(name) => Refusal::LooseTypeVar(name),
        ItemFault::TypedefShape => Refusal::TypedefShape,
        ItemFault::InLine(_, fault) => of_type_fault(fault),
        ItemFault::BadLine(number, reason) => Refusal::BadLine(number, reason),
        ItemFault::NotProved(last) => Refusal::NotProved(last_terms(last)),
        ItemFault::Memory => Refusal::Memory,
    }
}

/// The last sequent of a theory's lemma as a refusal keeps it.
fn last_terms(last: Option<TermSequent>) -> Option<SequentTerms>
    ensures { result ≡ option_map as_terms last }
{
    match last {
        Some(TermSequent { hyps, concl }) => Some(SequentTerms { hyps, concl }),
        None => None,
    }
}

/// A fault of a type or a term as a refusal.
fn of_type_fault(fault: TypeFault) -> Refusal
    ensures { result ≡ flat_type fault }
{
    match fault {
        TypeFault::Duplicate(name) => Refusal::Duplicate(name),
        TypeFault::UnknownType(name) => Refusal::UnknownType(name),
        TypeFault::Arity(name) => Refusal::Arity(name),
        TypeFault::UnknownConst(name) => Refusal::UnknownConst(name),
        TypeFault::TypeArgs(name) => Refusal::TypeArgs(name),
        TypeFault::Unbound(name) => Refusal::Unbound(name),
        TypeFault::Mismatch(function, argument) => Refusal::Mismatch(function, argument),
        TypeFault::Memory => Refusal::Memory,
    }
}

/// The number of the lemma's line in which a fault stands.
pub fn line_of(fault: &ItemFault) -> Option<usize>
    ensures { result ≡ line_in fault.now }
{
    match fault {
        ItemFault::InLine(number, _) | ItemFault::BadLine(number, _) => Some(*number),
        _ => None,
    }
}
