//! What is registered, at the end of what there is.
ghost use Rattle.std.specs.Prelude.{◌≡◌, None, false, find, is_some, OnOk, OnErr};
ghost use Rattle.lt_definitions.specs.Types.{same_name};
ghost use Rattle.lt_transport_definitions.specs.Relations.{relator_of, form_for, kind_of, is_constructor};
ghost use Rattle.lt_relations.specs.Told.{relator_told, correspondence_told, param_told, property_rule_told, domain_rule_told};
ghost use Rattle.lt_relations.specs.Registering.{with_relator, with_correspondence, with_form, with_property_rule, with_domain_rule};
ghost use Rattle.lt_relations.specs.Registering.{relator_fault, correspondence_fault, form_fault, property_fault, domain_fault, is_form, is_taken, Tests, Registers};

use crate::entries::{Correspondence, DomainRule, Param, PropertyRule, Relator};
use crate::rel_fault::RelFault;
use crate::relations::{Kind, Relations};
use lt_hol::{Memory, Name, TryCopy};
use std::alloc::Global;

impl Relations {
    /// Registers a relator.
    ///
    /// `Duplicate` where the type constructor has one, then where the relator is a relation
    /// constructor already.
    pub fn add_relator(&mut self, alloc: Global, relator: Relator) -> Result<(), RelFault>
        ensures { Registers (relator_fault self.old (relator_told relator)) self.old self.new
            (with_relator (relator_told relator) self.old) result }
    {
        if let Err(fault) = self.test_relator(alloc, &relator) {
            return Err(fault);
        }
        self.keep_relator(alloc, relator)?;
        Ok(())
    }

    /// Whether a relator may be registered.
    fn test_relator(&self, alloc: Global, relator: &Relator) -> Result<(), RelFault>
        ensures { Tests (relator_fault self.now (relator_told relator.now)) result }
    {
        if self.relator_for(&relator.con).is_some() {
            return Err(RelFault::Duplicate(relator.con.copy(alloc)?));
        }
        if self.is_constructor(&relator.rel) {
            return Err(RelFault::Duplicate(relator.rel.copy(alloc)?));
        }
        Ok(())
    }

    /// Keeps a relator that may be registered.
    fn keep_relator(&mut self, alloc: Global, relator: Relator) -> Result<(), Memory>
        requires con { relator_of self.old relator.con ≡ None }
        requires rel { find (λ r. same_name relator.rel r.rel) self.old.relators ≡ None }
        ensures ok { OnOk result (self.new ≡ with_relator (relator_told relator) self.old) }
        ensures err { OnErr result (self.new ≡ self.old) }
    {
        let count = self.relators.len();
        let con = relator.con.copy(alloc)?;
        let rel = relator.rel.copy(alloc)?;
        self.relator_types.add(rel, relator.con.copy(alloc)?)?;
        match self.relators.add(con, relator) {
            Ok(()) => Ok(()),
            Err(fault) => {
                self.relator_types.cut(count);
                Err(fault)
            }
        }
    }

    /// Registers a correspondence. `Duplicate` where its name is a relation constructor already.
    pub fn add_corr(&mut self, alloc: Global, corr: Correspondence) -> Result<(), RelFault>
        ensures { Registers (correspondence_fault self.old (correspondence_told corr)) self.old
            self.new (with_correspondence (correspondence_told corr) self.old) result }
    {
        if self.is_constructor(&corr.name) {
            return Err(RelFault::Duplicate(corr.name.copy(alloc)?));
        }
        self.keep_corr(alloc, corr)?;
        Ok(())
    }

    /// Registers a correspondence, unless one has its name.
    pub fn keep_corr(&mut self, alloc: Global, corr: Correspondence) -> Result<(), Memory>
        ensures ok { OnOk result
            (self.new ≡ with_correspondence (correspondence_told corr) self.old) }
        ensures err { OnErr result (self.new ≡ self.old) }
    {
        if self.correspondences.has(&corr.name) {
            return Ok(());
        }
        self.correspondences.add(corr.name.copy(alloc)?, corr)?;
        Ok(())
    }

    /// Registers the parametrised form of a correspondence.
    ///
    /// `Duplicate` where the correspondence has one, or the name is a relation constructor's or a
    /// form's.
    pub fn add_param(&mut self, alloc: Global, param: Param) -> Result<(), RelFault>
        ensures { Registers (form_fault self.old (param_told param)) self.old self.new
            (with_form (param_told param) self.old) result }
    {
        if self.is_taken(&param) {
            return Err(RelFault::Duplicate(param.name.copy(alloc)?));
        }
        self.keep_param(alloc, param)?;
        Ok(())
    }

    /// Whether the correspondence has a form, or the name stands for something.
    fn is_taken(&self, param: &Param) -> bool
        ensures { result ≡ is_taken self.now (param_told param.now) }
    {
        let formed = self.has_form(&param.of);
        let named = self.is_constructor(&param.name);
        let known = self.is_form(&param.name);
        formed || named || known
    }

    /// Whether the correspondence has a form.
    fn has_form(&self, corr: &Name) -> bool
        ensures { result ≡ is_some (form_for self.now corr.now) }
    {
        self.forms.has(corr)
    }

    /// Whether a form has the name.
    fn is_form(&self, name: &Name) -> bool
        ensures { result ≡ is_form self.now name.now }
    {
        self.form_of.has(name)
    }

    /// Keeps a form that may be registered.
    fn keep_param(&mut self, alloc: Global, param: Param) -> Result<(), Memory>
        requires of { form_for self.old param.of ≡ None }
        requires name { is_form self.old param.name ≡ false }
        ensures ok { OnOk result (self.new ≡ with_form (param_told param) self.old) }
        ensures err { OnErr result (self.new ≡ self.old) }
    {
        let count = self.forms.len();
        let of = param.of.copy(alloc)?;
        let name = param.name.copy(alloc)?;
        self.form_of.add(name, param.of.copy(alloc)?)?;
        match self.forms.add(of, param) {
            Ok(()) => Ok(()),
            Err(fault) => {
                self.form_of.cut(count);
                Err(fault)
            }
        }
    }

    /// Registers a property rule. `DuplicateProperty` where its head has one for the property.
    pub fn add_property(&mut self, alloc: Global, rule: PropertyRule) -> Result<(), RelFault>
        ensures { Registers (property_fault self.old rule.property rule.head) self.old self.new
            (with_property_rule (property_rule_told rule) self.old) result }
    {
        if self.property_of(rule.property, &rule.head).is_some() {
            let head = rule.head.copy(alloc)?;
            return Err(RelFault::DuplicateProperty(rule.property, head));
        }
        self.keep_property(alloc, rule)?;
        Ok(())
    }

    /// Registers a property rule, unless its head has one for the property.
    pub fn keep_property(&mut self, alloc: Global, rule: PropertyRule) -> Result<(), Memory>
        ensures ok { OnOk result
            (self.new ≡ with_property_rule (property_rule_told rule) self.old) }
        ensures err { OnErr result (self.new ≡ self.old) }
    {
        if self.property_rules.get(rule.property, &rule.head).is_some() {
            return Ok(());
        }
        self.property_rules.add(alloc, rule)?;
        Ok(())
    }

    /// Registers a domain equation. `DuplicateDomain` where its head has one.
    pub fn add_domain(&mut self, alloc: Global, rule: DomainRule) -> Result<(), RelFault>
        ensures { Registers (domain_fault self.old rule.head) self.old self.new
            (with_domain_rule (domain_rule_told rule) self.old) result }
    {
        if self.domain_of(&rule.head).is_some() {
            return Err(RelFault::DuplicateDomain(rule.head.copy(alloc)?));
        }
        self.keep_domain(alloc, rule)?;
        Ok(())
    }

    /// Registers a domain equation, unless its head has one.
    pub fn keep_domain(&mut self, alloc: Global, rule: DomainRule) -> Result<(), Memory>
        ensures ok { OnOk result (self.new ≡ with_domain_rule (domain_rule_told rule) self.old) }
        ensures err { OnErr result (self.new ≡ self.old) }
    {
        if self.domain_rules.has(&rule.head) {
            return Ok(());
        }
        self.domain_rules.add(rule.head.copy(alloc)?, rule)?;
        Ok(())
    }

    /// Whether a name is a relation constructor.
    pub fn is_constructor(&self, name: &Name) -> bool
        ensures { result ≡ is_constructor (kind_of self.now name.now) }
    {
        match self.kind_of(name) {
            Kind::NoConstructor => false,
            _ => true,
        }
    }
}
