//! Why something isn't registered, as a refusal.
ghost use Rattle.std.specs.Prelude.{◌≡◌};
ghost use Rattle.lt_session.specs.Taking.{of_law, of_relation};

use lt_commands::Refusal;
use lt_laws::LawFault;
use lt_relations::RelFault;

/// Why a law isn't registered, as a refusal.
pub(crate) fn of_law_fault(fault: LawFault) -> Refusal
    ensures { result ≡ of_law fault }
{
    match fault {
        LawFault::UnknownLaw(law) => Refusal::UnknownLaw(law),
        LawFault::LawDiffers(law) => Refusal::LawDiffers(law),
        LawFault::MissingLaw(law) => Refusal::MissingLaw(law),
        LawFault::Memory => Refusal::Memory,
    }
}

/// Why nothing of relations is registered, as a refusal.
pub(crate) fn of_rel_fault(fault: RelFault) -> Refusal
    ensures { result ≡ of_relation fault }
{
    match fault {
        RelFault::RelatorShape(part) => Refusal::RelatorShape(part),
        RelFault::Duplicate(name) => Refusal::Duplicate(name),
        RelFault::PropertyShape(part) => Refusal::PropertyShape(part),
        RelFault::DuplicateProperty(property, head) => Refusal::DuplicateProperty(property, head),
        RelFault::DomainShape => Refusal::DomainShape,
        RelFault::DuplicateDomain(head) => Refusal::DuplicateDomain(head),
        RelFault::Memory => Refusal::Memory,
    }
}
