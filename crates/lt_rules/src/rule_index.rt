//! The rules of each constant.
ghost use Rattle.std.specs.Prelude.{◌≡◌, [], ◌∷◌, ◌++◌, OnOk, OnErr, None};
ghost use Rattle.lt_definitions.specs.Types.{found};
ghost use Rattle.lt_rules.specs.RuleIndexes.{listed_under, without_last, Changes, Agree};

use crate::rule_list::RuleList;
use crate::shared_rule::SharedRule;
use indexmap::IndexMap;
use lt_hol::{Memory, Name, TryCopy};
use std::alloc::Global;
use std::marker::Model;

/// Lists of rules under constants.
///
/// A look-up takes constant time. A constant whose rules were dropped may keep an empty list.
#[derive(Debug, Drop)]
pub(crate) struct RuleIndex {
    lists: IndexMap<Name, RuleList>,
    /// The list of a constant that has none.
    none: RuleList,
}

impl Model for RuleIndex {
    ghost use Rattle.std.specs.Prelude.{◌≡◌, List, [], ℕ};
    ghost use Rattle.lt_transport_definitions.specs.RuleForm.{TransferRule};
    ghost use Rattle.std.specs.Coded.{coded_list, coded×, coded_ℕ, codes};
    ghost use Rattle.lt_types.specs.Codes.{coded_type};
    ghost use Rattle.lt_terms.specs.Codes.{coded_term};
    ghost use Rattle.lt_expressions.specs.Codes.{coded_relation};

    ghost Value = { List (List ℕ × List TransferRule) };

    ghost coded = { coded_list (coded× (coded_list coded_ℕ)
        (coded_list (Prim.hlevel (codes, coded_type, coded_term, coded_relation)))) };

    ghost view = { λ x. x.lists.entries };

    ghost invariant = { λ x. x.none ≡ [] };
}

impl RuleIndex {
    /// No lists.
    pub(crate) fn new(alloc: Global) -> RuleIndex
        ensures { result ≡ [] }
    {
        RuleIndex {
            lists: IndexMap::new(alloc),
            none: RuleList::new(alloc),
        }
    }

    /// The rules of a constant.
    pub(crate) fn get(&self, constant: &Name) -> &RuleList
        ensures { result.now ≡ listed_under constant.now self.now }
    {
        match self.lists.get(constant) {
            Some(list) => list,
            None => &self.none,
        }
    }

    /// Adds a rule of a constant.
    pub(crate) fn add(
        &mut self,
        alloc: Global,
        constant: Name,
        rule: SharedRule,
    ) -> Result<(), Memory>
        ensures ok { OnOk result
            (Changes constant (λ rules. rules ++ rule ∷ []) self.old self.new) }
        ensures err { OnErr result (Agree self.old self.new) }
    {
        match self.lists.get_mut(&constant) {
            Some(list) => Ok(list.push(rule)?),
            None => Ok(self.add_first(alloc, constant, rule)?),
        }
    }

    /// Adds the first rule of a constant that has no list.
    fn add_first(&mut self, alloc: Global, constant: Name, rule: SharedRule) -> Result<(), Memory>
        requires { found constant self.old ≡ None }
        ensures ok { OnOk result
            (Changes constant (λ rules. rules ++ rule ∷ []) self.old self.new) }
        ensures err { OnErr result (self.new ≡ self.old) }
    {
        let mut list = RuleList::new(alloc);
        list.push(rule)?;
        self.lists.insert(constant, list)?;
        Ok(())
    }

    /// Drops the last rule of a constant, if there is one.
    pub(crate) fn drop_last(&mut self, constant: &Name)
        ensures { Changes constant.now without_last self.old self.new }
    {
        match self.lists.get_mut(constant) {
            Some(list) => list.drop_last(),
            None => {}
        }
    }
}
