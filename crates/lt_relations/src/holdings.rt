//! Equality throughout, and side conditions.
ghost use Rattle.std.specs.Prelude.{◌≡◌, ◌≤◌, ◌↔◌, List, [], ◌∷◌, ◌++◌, ◌&&◌, ◌||◌, length, true, map, IfOk, IsTrue};
ghost use Rattle.std.specs.List.{list_all};
ghost use Rattle.std.specs.Vec.{vec_len};
ghost use Rattle.lt_definitions.specs.Types.{TypeTree};
ghost use Rattle.lt_transport_definitions.specs.Relations.{Relation, constructed, relation_row, property_rule_for, kind_of};
ghost use Rattle.lt_transport_definitions.specs.Expressions.{is_equality, is_relator};
ghost use Rattle.lt_transport_definitions.specs.Below.{Side};
ghost use Rattle.lt_expressions.specs.Layout.{arguments, grow};
ghost use Rattle.lt_relations.specs.Told.{property_name};
ghost use Rattle.lt_relations.specs.Holdings.{holding, has_property, premise_test, rule_test, side_test_at, joined};

use crate::entries::Sides;
use crate::relations::{Kind, Relations};
use lt_expressions::{Rel, RelNode};
use lt_hol::{Memory, Name, Property};
use std::alloc::Global;

/// Whether an expression is equality throughout, and which properties it has.
#[derive(Clone, Copy, Debug)]
pub(crate) struct Holding {
    equality: bool,
    left_total: bool,
    right_total: bool,
    left_unique: bool,
    right_unique: bool,
    bi_total: bool,
    bi_unique: bool,
}

impl Holding {
    /// Everything holds, or nothing does.
    fn all(holds: bool) -> Holding
        ensures equality { result.equality ≡ holds }
        ensures properties { (p : Property) → has_property result p ≡ holds }
    {
        Holding {
            equality: holds,
            left_total: holds,
            right_total: holds,
            left_unique: holds,
            right_unique: holds,
            bi_total: holds,
            bi_unique: holds,
        }
    }

    /// Whether the property holds.
    fn has(&self, property: Property) -> bool
        ensures { result ≡ has_property self.now property }
    {
        match property {
            Property::LeftTotal => self.left_total,
            Property::RightTotal => self.right_total,
            Property::LeftUnique => self.left_unique,
            Property::RightUnique => self.right_unique,
            Property::BiTotal => self.bi_total,
            Property::BiUnique => self.bi_unique,
        }
    }
}

impl Relations {
    /// Whether an expression is equality throughout. It takes time linear in the expression.
    pub fn is_equality(&self, alloc: Global, rel: &Rel) -> Result<bool, Memory>
        ensures { IfOk result (λ b. b ≡ is_equality self.now rel.now) }
    {
        let holding = self.holding(alloc, rel)?;
        Ok(holding.equality)
    }

    /// Whether the side condition holds that an expression has a property: it is equality
    /// throughout, or the rule for the property and its head has all its premises.
    ///
    /// It takes time linear in the expression and the premises of its heads' rules.
    pub fn side_holds(&self, alloc: Global, property: Property, rel: &Rel) -> Result<bool, Memory>
        ensures { IfOk result (λ b. IsTrue b ↔ Side self.now rel.now (property_name property)) }
    {
        let holding = self.holding(alloc, rel)?;
        Ok(holding.has(property))
    }

    /// What holds of an expression.
    fn holding(&self, alloc: Global, rel: &Rel) -> Result<Holding, Memory>
        ensures { IfOk result (λ h. h ≡ holding self.now rel.now) }
    {
        let mut made = Vec::new(alloc);
        for node in rel.nodes() {
            made = self.put_holding(made, node)?;
        }
        Ok(only(&made))
    }

    /// Puts what holds of the expression that a node makes in the place of what holds of its
    /// arguments.
    fn put_holding(&self, made: Vec<Holding>, node: &RelNode) -> Result<Vec<Holding>, Memory>
        requires { arguments node.now ≤ vec_len made }
        ensures { IfOk result (λ v. (before : List Relation)
            → made.items ≡ map (holding self.now) before
            → v.items ≡ map (holding self.now) (grow before node.now)) }
    {
        match node {
            RelNode::Var(_, _) => Ok(with_holding(made, Holding::all(false))?),
            RelNode::Eq(_) => Ok(with_holding(made, Holding::all(true))?),
            RelNode::Con(name, _, places) => Ok(self.put_held(made, name, places.len())?),
        }
    }

    /// The same for a constructor over so many arguments.
    fn put_held(
        &self,
        made: Vec<Holding>,
        name: &Name,
        count: usize,
    ) -> Result<Vec<Holding>, Memory>
        requires { count ≤ vec_len made }
        ensures { IfOk result (λ v. (before : List Relation) → (ts : List TypeTree)
            → made.items ≡ map (holding self.now) before
            → v.items ≡ map (holding self.now) (joined name.now ts count before)) }
    {
        let mut made = made;
        let args = made.split_off(made.len() - count)?;
        let held = self.held_by(name, args.as_slice());
        Ok(with_holding(made, held)?)
    }

    /// What holds of a constructor over arguments of which so much holds.
    fn held_by(&self, name: &Name, args: &[Holding]) -> Holding
        ensures { (ts : List TypeTree) → (rs : List Relation)
            → args.now ≡ map (holding self.now) rs
            → result ≡ holding self.now (constructed name.now ts (relation_row rs)) }
    {
        let equality = self.is_equality_over(name, args);
        Holding {
            equality,
            left_total: self.has_over(equality, Property::LeftTotal, name, args),
            right_total: self.has_over(equality, Property::RightTotal, name, args),
            left_unique: self.has_over(equality, Property::LeftUnique, name, args),
            right_unique: self.has_over(equality, Property::RightUnique, name, args),
            bi_total: self.has_over(equality, Property::BiTotal, name, args),
            bi_unique: self.has_over(equality, Property::BiUnique, name, args),
        }
    }

    /// Whether a constructor over arguments is equality throughout.
    fn is_equality_over(&self, name: &Name, args: &[Holding]) -> bool
        ensures { result ≡ (is_relator (kind_of self.now name.now)
            && list_all (λ h. h.equality) args.now) }
    {
        let relator = self.is_relator(name);
        let equalities = are_equalities(args);
        relator && equalities
    }

    /// Whether a name is a relator.
    fn is_relator(&self, name: &Name) -> bool
        ensures { result ≡ is_relator (kind_of self.now name.now) }
    {
        match self.kind_of(name) {
            Kind::Relator(_) => true,
            _ => false,
        }
    }

    /// Whether a constructor over arguments has a property, where it is told whether it is equality
    /// throughout.
    fn has_over(&self, equality: bool, property: Property, name: &Name, args: &[Holding]) -> bool
        ensures { (rs : List Relation) → args.now ≡ map (holding self.now) rs
            → result ≡ (equality || rule_test
            (property_rule_for self.now (property_name property) name.now)
            (side_test_at self.now (relation_row rs))) }
    {
        if equality {
            return true;
        }
        self.rule_holds(property, name, args)
    }

    /// Whether the rule for a property and a head has all its premises.
    fn rule_holds(&self, property: Property, name: &Name, args: &[Holding]) -> bool
        ensures { (rs : List Relation) → args.now ≡ map (holding self.now) rs
            → result ≡ rule_test (property_rule_for self.now (property_name property) name.now)
            (side_test_at self.now (relation_row rs)) }
    {
        match self.property_of(property, name) {
            Some(rule) => premises_hold(&rule.premises, args),
            None => false,
        }
    }
}

/// Whether all arguments are equality throughout.
fn are_equalities(args: &[Holding]) -> bool
    ensures { result ≡ list_all (λ h. h.equality) args.now }
{
    args.iter().all(|holding| holding.equality)
}

/// Whether all premises hold of arguments.
fn premises_hold(premises: &Sides, args: &[Holding]) -> bool
    ensures { result ≡ list_all (premise_test args.now) premises.now }
{
    premises
        .as_slice()
        .iter()
        .all(|side| premise_holds(side.0, side.1, args))
}

/// Whether a property holds of an argument.
fn premise_holds(property: Property, number: usize, args: &[Holding]) -> bool
    ensures { result ≡ premise_test args.now (property, number) }
{
    match args.get(number) {
        Some(holding) => holding.has(property),
        None => false,
    }
}

/// One thing more at the end.
fn with_holding(made: Vec<Holding>, holding: Holding) -> Result<Vec<Holding>, Memory>
    ensures { IfOk result (λ v. v.items ≡ made.items ++ holding ∷ []) }
{
    let mut made = made;
    made.push(holding)?;
    Ok(made)
}

/// The one thing that there is.
fn only(made: &[Holding]) -> Holding
    requires { length made.now ≡ 1 }
    ensures { made.now ≡ result ∷ [] }
{
    made[0]
}
