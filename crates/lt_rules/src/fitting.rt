//! Which rules fit type arguments of their constant.
ghost use Rattle.std.specs.Prelude.{◌≡◌, [], ◌∷◌, ◌++◌, false, if◌then◌else◌, IfOk, MatchOption};
ghost use Rattle.lt_definitions.specs.Types.{type_constructor, row};
ghost use Rattle.lt_transport_definitions.specs.Candidates.{fits, candidates};
ghost use Rattle.lt_rules.specs.Told.{rule_told};
ghost use Rattle.lt_rules.specs.Fitting.{IsFit};

use crate::rule::TransferRule;
use crate::rule_base::RuleBase;
use crate::rule_list::RuleList;
use crate::shared_rule::SharedRule;
use lt_hol::{Memory, Name, TryCopy, Ty, TyMap, Tys, match_type};
use std::alloc::Global;

/// The map that makes the rule's pattern the type arguments, on the pattern's type variables in
/// order of first appearance; None where there is none.
///
/// It takes time linear in both.
pub fn fits(alloc: Global, rule: &TransferRule, types: &Tys) -> Result<Option<TyMap>, Memory>
    ensures { IfOk result (λ o. MatchOption o
        (fits rule.now.constant types.now (rule_told rule.now) ≡ false)
        (IsFit (rule_told rule.now) types.now)) }
{
    let pattern = applied(alloc, &rule.constant, &rule.pattern)?;
    let ty = applied(alloc, &rule.constant, types)?;
    Ok(match_type(alloc, &pattern, &ty)?)
}

/// A constant with type arguments, as a type constructor with them.
fn applied(alloc: Global, constant: &Name, types: &Tys) -> Result<Ty, Memory>
    ensures { IfOk result (λ t. t ≡ type_constructor constant.now (row types.now)) }
{
    Ty::con(alloc, constant.copy(alloc)?, types.copy(alloc)?)
}

impl RuleBase {
    /// The rules that may be chosen for a constant with these type arguments: those that fit, in
    /// order of registration. Where there is none, equality is the one candidate.
    ///
    /// It takes time linear in the patterns of the constant's rules, and for each in the types.
    pub fn candidates_at(
        &self,
        alloc: Global,
        constant: &Name,
        types: &Tys,
    ) -> Result<RuleList, Memory>
        ensures { IfOk result (λ rules. rules ≡ candidates self.now constant.now types.now) }
    {
        let all = self.candidates(constant);
        let mut fitting = RuleList::new(alloc);
        for i in 0..all.len() {
            fitting = with_fitting(alloc, fitting, all.shared(i), types)?;
        }
        Ok(fitting)
    }
}

/// The rules with one more, where it fits.
fn with_fitting(
    alloc: Global,
    rules: RuleList,
    rule: &SharedRule,
    types: &Tys,
) -> Result<RuleList, Memory>
    ensures { IfOk result (λ more. more ≡ rules
        ++ (if fits rule.now.constant types.now rule.now then rule.now ∷ [] else [])) }
{
    let mut rules = rules;
    if is_fitting(alloc, rule, types)? {
        rules.push(rule.copy(alloc)?)?;
    }
    Ok(rules)
}

/// Whether a rule fits.
fn is_fitting(alloc: Global, rule: &SharedRule, types: &Tys) -> Result<bool, Memory>
    ensures { IfOk result (λ b. b ≡ fits rule.now.constant types.now rule.now) }
{
    match fits(alloc, rule.rule(), types)? {
        Some(_) => Ok(true),
        None => Ok(false),
    }
}
