//! The rules that are registered.
ghost use Rattle.std.specs.Prelude.{◌≡◌, ◌<◌, ◌-◌, [], ◌∷◌, ◌++◌, length, take, slice_get, Some, None, false, IfOk, OnOk, OnErr};
ghost use Rattle.lt_rules.specs.Told.{rule_told};
ghost use Rattle.lt_rules.specs.RuleIndexes.{rules_of, without_last};
ghost use Rattle.lt_rules.specs.Registering.{has_label, with_rule, label_fault, Registers};

use crate::rule::TransferRule;
use crate::rule_index::RuleIndex;
use crate::rule_list::RuleList;
use crate::rule_read_fault::RuleReadFault;
use crate::shared_rule::SharedRule;
use indexmap::IndexMap;
use lt_hol::{Memory, Name, TryCopy};
use std::alloc::Global;
use std::marker::Model;

/// The registered rules, which contracts see as the list of them in order of registration; no label
/// has two.
///
/// A look-up by constant, by label or by number takes constant time.
#[derive(Debug, Drop)]
pub struct RuleBase {
    /// By their labels, in order of registration.
    rules: IndexMap<Name, SharedRule>,
    by_constant: RuleIndex,
}

impl Model for RuleBase {
    ghost use Rattle.std.specs.Prelude.{List};
    ghost use Rattle.lt_transport_definitions.specs.RuleForm.{TransferRule};
    ghost use Rattle.std.specs.Coded.{coded_list, codes};
    ghost use Rattle.lt_types.specs.Codes.{coded_type};
    ghost use Rattle.lt_terms.specs.Codes.{coded_term};
    ghost use Rattle.lt_expressions.specs.Codes.{coded_relation};
    ghost use Rattle.lt_relations.specs.Tables.{AreKeyed};
    ghost use Rattle.lt_rules.specs.RuleIndexes.{things, IsIndex};

    ghost Value = { List TransferRule };

    ghost coded = { coded_list (Prim.hlevel (codes, coded_type, coded_term, coded_relation)) };

    ghost view = { λ b. things b.rules.entries };

    ghost invariant = { λ b. AreKeyed (λ r. r.label) b.rules.entries
        × IsIndex b.by_constant (things b.rules.entries) };
}

impl RuleBase {
    /// No rules.
    pub fn new(alloc: Global) -> Result<RuleBase, Memory>
        ensures { IfOk result (λ b. b ≡ []) }
    {
        Ok(RuleBase {
            rules: IndexMap::new(alloc),
            by_constant: RuleIndex::new(alloc),
        })
    }

    /// How many rules are registered.
    pub fn rule_count(&self) -> usize
        ensures { result ≡ length self.now }
    {
        self.rules.len()
    }

    /// The rule at a place in the order of registration, from 0.
    pub fn rule_at(&self, i: usize) -> &TransferRule
        requires { i < length self.now }
        ensures { slice_get self.now i ≡ Some (rule_told result.now) }
    {
        self.shared(i).rule()
    }

    /// The same rule, to be shared.
    fn shared(&self, i: usize) -> &SharedRule
        requires { i < length self.now }
        ensures { slice_get self.now i ≡ Some result.now }
    {
        match self.rules.get_index(i) {
            Some((_, rule)) => rule,
            None => unreachable!(),
        }
    }

    /// The rules of a constant, in order of registration.
    pub fn candidates(&self, constant: &Name) -> &RuleList
        ensures { result.now ≡ rules_of self.now constant.now }
    {
        self.by_constant.get(constant)
    }

    /// Whether a rule has the label.
    pub fn has_label(&self, label: &Name) -> bool
        ensures { result ≡ has_label self.now label.now }
    {
        self.rules.get(label).is_some()
    }

    /// Registers a rule that has its form. `Duplicate` where its label has one.
    pub fn add_rule(&mut self, alloc: Global, rule: TransferRule) -> Result<(), RuleReadFault>
        ensures { Registers (label_fault self.old rule.label) self.old self.new
            (with_rule (rule_told rule) self.old) result }
    {
        if self.has_label(&rule.label) {
            return Err(RuleReadFault::Duplicate(rule.label.copy(alloc)?));
        }
        self.keep_rule(alloc, rule)?;
        Ok(())
    }

    /// Registers a rule that has its form, unless its label has one.
    pub fn keep_rule(&mut self, alloc: Global, rule: TransferRule) -> Result<(), Memory>
        ensures ok { OnOk result (self.new ≡ with_rule (rule_told rule) self.old) }
        ensures err { OnErr result (self.new ≡ self.old) }
    {
        if self.has_label(&rule.label) {
            return Ok(());
        }
        let rule = SharedRule::new(alloc, rule)?;
        self.put(alloc, rule)?;
        Ok(())
    }

    /// Registers a rule whose label has none.
    fn put(&mut self, alloc: Global, rule: SharedRule) -> Result<(), Memory>
        requires { has_label self.old rule.label ≡ false }
        ensures ok { OnOk result (self.new ≡ self.old ++ rule ∷ []) }
        ensures err { OnErr result (self.new ≡ self.old) }
    {
        let count = self.rules.len();
        let label = rule.rule().label.copy(alloc)?;
        let constant = rule.rule().constant.copy(alloc)?;
        self.rules.insert(label, rule.copy(alloc)?)?;
        match self.by_constant.add(alloc, constant, rule) {
            Ok(()) => Ok(()),
            Err(fault) => {
                self.rules.truncate(count);
                Err(fault)
            }
        }
    }

    /// How many registrations there are.
    pub fn mark(&self) -> usize
        ensures { result ≡ length self.now }
    {
        self.rule_count()
    }

    /// Drops the registrations behind the mark. It takes time linear in what is dropped.
    pub fn back(&mut self, mark: usize)
        ensures { self.new ≡ take mark self.old }
    {
        for _ in mark..self.rule_count() {
            self.drop_last();
        }
    }

    /// Drops the last registration, if there is one.
    fn drop_last(&mut self)
        ensures { self.new ≡ without_last self.old }
    {
        match self.rules.pop() {
            Some((_, rule)) => self.by_constant.drop_last(&rule.rule().constant),
            None => {}
        }
    }
}
