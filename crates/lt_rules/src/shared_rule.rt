//! Rules that stand in two lists.
ghost use Rattle.std.specs.Prelude.{◌≡◌, IfOk};
ghost use Rattle.lt_rules.specs.Told.{rule_told};

use crate::rule::TransferRule;
use lt_hol::{Memory, TryCopy};
use std::alloc::Global;
use std::marker::Model;
use std::rc::Rc;

/// A rule whose copies share it, so that a copy takes constant time.
#[derive(Debug, Drop)]
pub(crate) struct SharedRule {
    rule: Rc<TransferRule>,
}

impl Model for SharedRule {
    ghost use Rattle.lt_transport_definitions.specs.RuleForm.{TransferRule};
    ghost use Rattle.std.specs.Coded.{codes};
    ghost use Rattle.lt_types.specs.Codes.{coded_type};
    ghost use Rattle.lt_terms.specs.Codes.{coded_term};
    ghost use Rattle.lt_expressions.specs.Codes.{coded_relation};

    ghost Value = { TransferRule };

    ghost coded = { Prim.hlevel (codes, coded_type, coded_term, coded_relation) };

    ghost use Rattle.lt_rules.specs.Told.{rule_told};

    ghost view = { λ r. rule_told r.rule.value };
}

impl SharedRule {
    /// A rule that is to be shared.
    pub(crate) fn new(alloc: Global, rule: TransferRule) -> Result<SharedRule, Memory>
        ensures { IfOk result (λ r. r ≡ rule_told rule) }
    {
        Ok(SharedRule {
            rule: Rc::new(alloc, rule)?,
        })
    }

    /// The rule.
    pub(crate) fn rule(&self) -> &TransferRule
        ensures { rule_told result.now ≡ self.now }
    {
        self.rule.as_ref()
    }
}

impl TryCopy for SharedRule {
    fn copy(&self, _alloc: Global) -> Result<SharedRule, Memory> {
        Ok(SharedRule {
            rule: self.rule.clone()?,
        })
    }
}
