//! Which laws are registered, and under which labels.
ghost use Rattle.std.specs.Prelude.{◌≡◌, [], is_some, IfOk, OnOk, OnErr};
ghost use Rattle.std.specs.Option.{option_copied};
ghost use Rattle.lt_definitions.specs.Types.{found};
ghost use Rattle.lt_laws.specs.Registering.{first_missing, with_law, Registers, Tests};

use crate::law_fault::LawFault;
use crate::statements::law_statement;
use indexmap::IndexMap;
use lt_terms::{Term, alpha_eq};
use lt_types::{Memory, Name, Names, TryCopy};
use std::alloc::Global;
use std::marker::Model;

/// The registered laws with their labels, in order of registration.
///
/// A look-up by name takes constant time.
#[derive(Debug, Drop)]
pub struct Laws {
    labels: IndexMap<Name, Name>,
}

impl Model for Laws {
    ghost use Rattle.std.specs.Prelude.{List, ℕ};
    ghost use Rattle.std.specs.Coded.{coded_list, coded×, coded_ℕ};

    ghost Value = { List (List ℕ × List ℕ) };

    ghost coded = { coded_list (coded× (coded_list coded_ℕ) (coded_list coded_ℕ)) };

    ghost view = { λ laws. laws.labels.entries };
}

impl Laws {
    /// No law is registered.
    pub fn new(alloc: Global) -> Result<Laws, Memory>
        ensures { IfOk result (λ laws. laws ≡ []) }
    {
        Ok(Laws {
            labels: IndexMap::new(alloc),
        })
    }

    /// The label under which a law is registered; None where it isn't.
    pub fn label(&self, name: &Name) -> Option<&Name>
        ensures { option_copied result ≡ found name.now self.now }
    {
        self.labels.get(name)
    }

    /// Whether a law is registered.
    fn is_registered(&self, name: &Name) -> bool
        ensures { result ≡ is_some (found name.now self.now) }
    {
        self.label(name).is_some()
    }

    /// Registers a law under the label of a statement. A law that is registered already keeps its
    /// first label.
    ///
    /// `UnknownLaw` where there is no such law, then `LawDiffers` where the statement isn't
    /// alpha-equal to the law's.
    pub fn register_law(
        &mut self,
        alloc: Global,
        name: &Name,
        label: Name,
        statement: &Term,
    ) -> Result<(), LawFault>
        ensures { Registers self.old self.new name.now label statement.now result }
    {
        if let Err(fault) = test_statement(alloc, name, statement) {
            return Err(fault);
        }
        self.keep(alloc, name, label)?;
        Ok(())
    }

    /// Keeps a law's label, where the law has none.
    fn keep(&mut self, alloc: Global, name: &Name, label: Name) -> Result<(), Memory>
        ensures ok { OnOk result (self.new ≡ with_law name.now label self.old) }
        ensures err { OnErr result (self.new ≡ self.old) }
    {
        if self.is_registered(name) {
            return Ok(());
        }
        self.labels.insert(name.copy(alloc)?, label)?;
        Ok(())
    }

    /// The first of these laws that isn't registered; None where all are.
    pub fn first_missing<'a>(&self, wanted: &'a Names) -> Option<&'a Name>
        ensures { option_copied result ≡ first_missing wanted.now self.now }
    {
        for i in 0..wanted.len() {
            let name = wanted.at(i);
            if !self.is_registered(name) {
                return Some(name);
            }
        }
        None
    }
}

/// Whether a statement is that of the law.
fn test_statement(alloc: Global, name: &Name, statement: &Term) -> Result<(), LawFault>
    ensures { Tests name.now statement.now result }
{
    match law_statement(alloc, name)? {
        None => Err(LawFault::UnknownLaw(name.copy(alloc)?)),
        Some(law) => {
            if alpha_eq(alloc, statement, &law)? {
                Ok(())
            } else {
                Err(LawFault::LawDiffers(name.copy(alloc)?))
            }
        }
    }
}
