//! Instances of laws.
ghost use Rattle.std.specs.Prelude.{◌≡◌, map, None, Some};
ghost use Rattle.std.specs.List.{All};
ghost use Rattle.lt_definitions.specs.Types.{Chars, found, row, type_instance};
ghost use Rattle.lt_definitions.specs.Typing.{types_fault};
ghost use Rattle.lt_store.specs.Trees.{trees};
ghost use Rattle.lt_store.specs.Typed.{IsTyped};
ghost use Rattle.lt_kernel.specs.State.{sequents, statements};
ghost use Rattle.lt_kernel.specs.Growing.{Carries};
ghost use Rattle.lt_programs.specs.Openings.{HaveTypes};
ghost use Rattle.lt_laws.specs.Instances.{law_form, law_variables, GivesLaw};

use crate::law_fault::LawFault;
use crate::registered::Laws;
use lt_derived::instance;
use lt_kernel::Proof;
use lt_store::{Id, TermStore};
use lt_types::{Name, TryCopy, TyMap};
use std::alloc::Global;

impl Laws {
    /// A registered law at types and terms: `|-` its statement with the types put for its type
    /// variables at once, and then the terms for its variables.
    ///
    /// `MissingLaw` where the law isn't registered. It adds a line for the statement, one or two
    /// for each pair of the map, and one for each term.
    pub fn law_instance<S: TermStore>(
        &self,
        alloc: Global,
        proof: &mut Proof<S>,
        name: &Name,
        types: &TyMap,
        terms: &[Id],
    ) -> Result<usize, LawFault>
        requires stated { (l : Chars) → found name.now self.now ≡ Some l
            → found l (statements proof.old) ≡ Some (law_form name.now) }
        requires types { types_fault proof.old.signature (row (map (λ p. p.1) types.now)) ≡ None }
        requires terms { All (IsTyped proof.old.signature proof.old.nodes) terms.now }
        requires variables { HaveTypes proof.old.signature (trees proof.old.nodes terms.now)
            (map (type_instance types.now) (law_variables name.now)) }
        ensures gives { GivesLaw (sequents proof.new) self.now name.now types.now
            (trees proof.old.nodes terms.now) result }
        ensures carries { Carries proof.old proof.new }
    {
        let label = match self.label(name) {
            Some(label) => label,
            None => return Err(LawFault::MissingLaw(name.copy(alloc)?)),
        };
        match instance(alloc, proof, label, types, terms) {
            Ok(line) => Ok(line),
            Err(fault) => Err(LawFault::from(fault.into_memory())),
        }
    }
}
