//! Lists of rules.
ghost use Rattle.std.specs.Prelude.{◌≡◌, ◌<◌, [], ◌∷◌, ◌++◌, length, slice_get, Some, OnOk, OnErr};
ghost use Rattle.lt_rules.specs.Told.{rule_told};
ghost use Rattle.lt_rules.specs.RuleIndexes.{without_last};

use crate::rule::TransferRule;
use crate::shared_rule::SharedRule;
use lt_hol::Memory;
use std::alloc::Global;
use std::marker::Model;

/// Rules in order, which contracts see as a list of the definitions' rules.
#[derive(Debug, Drop)]
pub struct RuleList {
    rules: Vec<SharedRule>,
}

impl Model for RuleList {
    ghost use Rattle.std.specs.Prelude.{List};
    ghost use Rattle.lt_transport_definitions.specs.RuleForm.{TransferRule};
    ghost use Rattle.std.specs.Coded.{coded_list, codes};
    ghost use Rattle.lt_types.specs.Codes.{coded_type};
    ghost use Rattle.lt_terms.specs.Codes.{coded_term};
    ghost use Rattle.lt_expressions.specs.Codes.{coded_relation};

    ghost Value = { List TransferRule };

    ghost coded = { coded_list (Prim.hlevel (codes, coded_type, coded_term, coded_relation)) };

    ghost view = { λ l. l.rules.items };
}

impl RuleList {
    /// No rules.
    pub(crate) fn new(alloc: Global) -> RuleList
        ensures { result ≡ [] }
    {
        RuleList {
            rules: Vec::new(alloc),
        }
    }

    /// How many rules there are.
    pub fn len(&self) -> usize
        ensures { result ≡ length self.now }
    {
        self.rules.len()
    }

    /// The rule at a place, from 0.
    pub fn at(&self, i: usize) -> &TransferRule
        requires { i < length self.now }
        ensures { slice_get self.now i ≡ Some (rule_told result.now) }
    {
        self.shared(i).rule()
    }

    /// The rule at a place, to be shared.
    pub(crate) fn shared(&self, i: usize) -> &SharedRule
        requires { i < length self.now }
        ensures { slice_get self.now i ≡ Some result.now }
    {
        &self.rules[i]
    }

    /// Adds a rule at the end.
    pub(crate) fn push(&mut self, rule: SharedRule) -> Result<(), Memory>
        ensures ok { OnOk result (self.new ≡ self.old ++ rule ∷ []) }
        ensures err { OnErr result (self.new ≡ self.old) }
    {
        self.rules.push(rule)?;
        Ok(())
    }

    /// Drops the last rule, if there is one.
    pub(crate) fn drop_last(&mut self)
        ensures { self.new ≡ without_last self.old }
    {
        self.rules.pop();
    }
}
