//! Relators, correspondences, their parametrised forms, properties and domains, as registered.
ghost use Rattle.std.specs.Prelude.{◌≡◌, length, option_map, IfOk};
ghost use Rattle.std.specs.List.{list_any};
ghost use Rattle.std.specs.Option.{option_copied};
ghost use Rattle.lt_transport_definitions.specs.Relations.{built_in_registry, relator_of, relator_for, correspondence_of, form_for, form_named, property_rule_for, domain_rule_for, relator_named, kind_of};
ghost use Rattle.lt_relations.specs.Told.{property_name, relator_told, correspondence_told, param_told, property_rule_told, domain_rule_told};
ghost use Rattle.lt_relations.specs.Registries.{kind_told, kind_without_relators, kind_as_form, built_in_implication, cut, needs};

use crate::entries::{Correspondence, DomainRule, Param, PropertyRule, Relator};
use crate::property_rules::PropertyRules;
use crate::table::Table;
use lt_hol::{List, Memory, Name, Property, TryCopy, Ty};
use lt_tables::word;
use std::alloc::Global;
use std::marker::Model;

/// What is registered of relations, which contracts see as the registry of the definitions.
///
/// A look-up by name takes constant time.
#[derive(Debug, Drop)]
pub struct Relations {
    fun: Name,
    rel_fun: Name,
    /// By the type constructors.
    pub(crate) relators: Table<Relator>,
    /// The type constructors by their relators.
    pub(crate) relator_types: Table<Name>,
    pub(crate) correspondences: Table<Correspondence>,
    /// By the correspondences that have them.
    pub(crate) forms: Table<Param>,
    /// The correspondences by their forms.
    pub(crate) form_of: Table<Name>,
    pub(crate) property_rules: PropertyRules,
    pub(crate) domain_rules: Table<DomainRule>,
}

impl Model for Relations {
    ghost use Rattle.lt_transport_definitions.specs.Relations.{Registry};
    ghost use Rattle.lt_relations.specs.Registries.{registry_told, AreKept};

    ghost Value = { Registry };

    ghost use Rattle.std.specs.Coded.{codes};
    ghost use Rattle.lt_types.specs.Codes.{coded_type};
    ghost use Rattle.lt_terms.specs.Codes.{coded_term};

    ghost coded = { Prim.hlevel (codes, coded_type, coded_term) };

    ghost view = { λ r. registry_told r.relators r.correspondences r.forms r.property_rules
        r.domain_rules };

    ghost invariant = { λ r. AreKept r.fun r.rel_fun r.relators r.relator_types r.correspondences
        r.forms r.form_of r.domain_rules };
}

/// How many registrations of each sort there are.
#[derive(Clone, Copy, Debug, PartialEq, Eq)]
pub struct RelationsMark {
    pub relators: usize,
    pub correspondences: usize,
    pub forms: usize,
    pub property_rules: usize,
    pub domain_rules: usize,
}

/// What a name is as a relation constructor.
#[derive(Clone, Copy, Debug)]
pub enum Kind<'a> {
    /// It is none.
    NoConstructor,
    /// The relator of this type constructor.
    Relator(&'a Name),
    Correspondence(&'a Correspondence),
    /// The parametrised form of this correspondence.
    Form(&'a Correspondence),
}

impl Relations {
    /// What is built in: the relator of functions, and implication as a correspondence.
    pub fn new(alloc: Global) -> Result<Relations, Memory>
        ensures { IfOk result (λ r. r ≡ built_in_registry) }
    {
        let implication = implication(alloc)?;
        let mut correspondences = Table::new(alloc);
        correspondences.add(implication.name.copy(alloc)?, implication)?;
        Ok(Relations {
            fun: word(alloc, "fun")?,
            rel_fun: word(alloc, "rel_fun")?,
            relators: Table::new(alloc),
            relator_types: Table::new(alloc),
            correspondences,
            forms: Table::new(alloc),
            form_of: Table::new(alloc),
            property_rules: PropertyRules::new(alloc),
            domain_rules: Table::new(alloc),
        })
    }

    /// The relator that is registered for a type constructor. Functions have theirs built in, and
    /// here None.
    pub fn relator_of(&self, con: &Name) -> Option<&Relator>
        ensures { option_map relator_told (option_copied result) ≡ relator_of self.now con.now }
    {
        self.relators.get(con)
    }

    /// The constant of a type constructor's relator.
    pub fn relator_for(&self, con: &Name) -> Option<&Name>
        ensures { option_copied result ≡ relator_for self.now con.now }
    {
        if *con == self.fun {
            Some(&self.rel_fun)
        } else {
            self.constant_of(con)
        }
    }

    /// The constant of the relator that is registered for a type constructor.
    fn constant_of(&self, con: &Name) -> Option<&Name>
        ensures { option_copied result ≡ option_map (λ r. r.rel) (relator_of self.now con.now) }
    {
        match self.relator_of(con) {
            Some(relator) => Some(&relator.rel),
            None => None,
        }
    }

    /// The correspondence of a name.
    pub fn correspondence_of(&self, name: &Name) -> Option<&Correspondence>
        ensures { option_map correspondence_told (option_copied result)
            ≡ correspondence_of self.now name.now }
    {
        self.correspondences.get(name)
    }

    /// The parametrised form of a correspondence.
    pub fn param_of(&self, corr: &Name) -> Option<&Param>
        ensures { option_map param_told (option_copied result) ≡ form_for self.now corr.now }
    {
        self.forms.get(corr)
    }

    /// The rule that is registered for a property and a relation constructor.
    pub fn property_of(&self, property: Property, head: &Name) -> Option<&PropertyRule>
        ensures { option_map property_rule_told (option_copied result)
            ≡ property_rule_for self.now (property_name property) head.now }
    {
        self.property_rules.get(property, head)
    }

    /// The domain equation that is registered for a relation constructor.
    pub fn domain_of(&self, head: &Name) -> Option<&DomainRule>
        ensures { option_map domain_rule_told (option_copied result)
            ≡ domain_rule_for self.now head.now }
    {
        self.domain_rules.get(head)
    }

    /// What a name is as a relation constructor.
    pub fn kind_of(&self, name: &Name) -> Kind<'_>
        ensures { kind_told result ≡ kind_of self.now name.now }
    {
        match self.relator_named(name) {
            Some(con) => Kind::Relator(con),
            None => self.kind_without_relators(name),
        }
    }

    /// The type constructor whose relator has the name.
    fn relator_named(&self, name: &Name) -> Option<&Name>
        ensures { option_copied result ≡ relator_named self.now name.now }
    {
        if *name == self.rel_fun {
            Some(&self.fun)
        } else {
            self.relator_types.get(name)
        }
    }

    /// What a name is that is no relator.
    fn kind_without_relators(&self, name: &Name) -> Kind<'_>
        ensures { kind_told result ≡ kind_without_relators self.now name.now }
    {
        match self.correspondence_of(name) {
            Some(corr) => Kind::Correspondence(corr),
            None => self.kind_as_form(name),
        }
    }

    /// What a name is as a parametrised form.
    fn kind_as_form(&self, name: &Name) -> Kind<'_>
        ensures { kind_told result ≡ kind_as_form (form_named self.now name.now) }
    {
        match self.form_named(name) {
            Some(corr) => Kind::Form(corr),
            None => Kind::NoConstructor,
        }
    }

    /// The correspondence whose parametrised form has the name.
    fn form_named(&self, name: &Name) -> Option<&Correspondence>
        ensures { option_map correspondence_told (option_copied result)
            ≡ form_named self.now name.now }
    {
        match self.form_of.get(name) {
            Some(of) => self.correspondence_of(of),
            None => None,
        }
    }

    /// Whether a premise of a registered rule is of the property. It takes time linear in these.
    pub fn needs(&self, property: Property) -> bool
        ensures { result ≡ needs self.now (property_name property) }
    {
        self.property_rules.need(property)
    }

    /// How many registrations there are.
    pub fn mark(&self) -> RelationsMark
        ensures relators { result.relators ≡ length self.now.relators }
        ensures correspondences { result.correspondences ≡ length self.now.correspondences }
        ensures forms { result.forms ≡ length self.now.forms }
        ensures property_rules { result.property_rules ≡ length self.now.property_rules }
        ensures domain_rules { result.domain_rules ≡ length self.now.domain_rules }
    {
        RelationsMark {
            relators: self.relators.len(),
            correspondences: self.correspondences.len(),
            forms: self.forms.len(),
            property_rules: self.property_rules.len(),
            domain_rules: self.domain_rules.len(),
        }
    }

    /// Drops the registrations behind the mark.
    pub fn back(&mut self, mark: RelationsMark)
        ensures { self.new ≡ cut mark self.old }
    {
        self.relators.cut(mark.relators);
        self.relator_types.cut(mark.relators);
        self.correspondences.cut(mark.correspondences);
        self.forms.cut(mark.forms);
        self.form_of.cut(mark.forms);
        self.property_rules.cut(mark.property_rules);
        self.domain_rules.cut(mark.domain_rules);
    }
}

/// Implication, a correspondence of truth values with themselves.
fn implication(alloc: Global) -> Result<Correspondence, Memory>
    ensures { IfOk result (λ d. correspondence_told d ≡ built_in_implication) }
{
    Ok(Correspondence {
        name: word(alloc, "imp")?,
        raw: Ty::bool(alloc)?,
        con: word(alloc, "bool")?,
        parameters: List::new(alloc),
    })
}
