//! The registered property rules.
ghost use Rattle.std.specs.Prelude.{◌≡◌, [], ◌∷◌, ◌++◌, length, take, find, None, Some, OnOk, OnErr, if◌then◌else◌};
ghost use Rattle.std.specs.List.{list_any};
ghost use Rattle.std.specs.Option.{option_copied, is_none};
ghost use Rattle.lt_definitions.specs.Types.{same_name};
ghost use Rattle.lt_relations.specs.Told.{property_name};
ghost use Rattle.lt_relations.specs.Places.{is_rule, rule_in, has_premise, place_in, place_of};
ghost use Rattle.lt_transport_definitions.specs.Answers.{only_where};

use crate::entries::{PropertyRule, Sides};
use indexmap::IndexMap;
use lt_hol::{Memory, Name, Property, TryCopy};
use std::alloc::Global;
use std::marker::Model;

/// For each property where a head's rule stands.
#[derive(Clone, Copy, Debug)]
pub(crate) struct Places {
    left_total: Option<usize>,
    right_total: Option<usize>,
    left_unique: Option<usize>,
    right_unique: Option<usize>,
    bi_total: Option<usize>,
    bi_unique: Option<usize>,
}

/// The property rules in order of registration, one for a property and a head.
///
/// A look-up takes constant time.
#[derive(Debug, Drop)]
pub(crate) struct PropertyRules {
    rules: Vec<PropertyRule>,
    // A head may have places of rules that were dropped, so a rule is asked before it is told.
    heads: IndexMap<Name, Places>,
}

impl Model for PropertyRules {
    ghost use Rattle.std.specs.Prelude.{List};
    ghost use Rattle.std.specs.Coded.{coded_list, codes};
    ghost use Rattle.lt_relations.specs.declared.entries.PropertyRule.{PropertyRule};

    ghost Value = { List PropertyRule };

    ghost coded = { coded_list (Prim.hlevel codes) };

    ghost view = { λ p. p.rules.items };

    ghost use Rattle.lt_relations.specs.Places.{ArePlaced};

    ghost invariant = { λ p. ArePlaced p.heads.entries p.rules.items };
}

impl Places {
    /// No places.
    fn new() -> Places
        ensures { (p : Property) → place_in result p ≡ None }
    {
        Places {
            left_total: None,
            right_total: None,
            left_unique: None,
            right_unique: None,
            bi_total: None,
            bi_unique: None,
        }
    }

    /// The place of the rule of a property.
    fn at(&self, property: Property) -> Option<usize>
        ensures { result ≡ place_in self.now property }
    {
        match property {
            Property::LeftTotal => self.left_total,
            Property::RightTotal => self.right_total,
            Property::LeftUnique => self.left_unique,
            Property::RightUnique => self.right_unique,
            Property::BiTotal => self.bi_total,
            Property::BiUnique => self.bi_unique,
        }
    }

    /// The same with another place for a property.
    fn with(self, property: Property, place: usize) -> Places
        ensures { (p : Property) → place_in result p
            ≡ (if same_name (property_name property) (property_name p) then Some place
            else place_in self p) }
    {
        let mut places = self;
        match property {
            Property::LeftTotal => places.left_total = Some(place),
            Property::RightTotal => places.right_total = Some(place),
            Property::LeftUnique => places.left_unique = Some(place),
            Property::RightUnique => places.right_unique = Some(place),
            Property::BiTotal => places.bi_total = Some(place),
            Property::BiUnique => places.bi_unique = Some(place),
        }
        places
    }
}

impl PropertyRules {
    /// No rules.
    pub(crate) fn new(alloc: Global) -> PropertyRules
        ensures { result ≡ [] }
    {
        PropertyRules {
            rules: Vec::new(alloc),
            heads: IndexMap::new(alloc),
        }
    }

    /// How many rules there are.
    pub(crate) fn len(&self) -> usize
        ensures { result ≡ length self.now }
    {
        self.rules.len()
    }

    /// The rule of a property and a head.
    pub(crate) fn get(&self, property: Property, head: &Name) -> Option<&PropertyRule>
        ensures { option_copied result ≡ find (is_rule property head.now) self.now }
    {
        match place_of(&self.heads, property, head) {
            Some(place) => rule_in(&self.rules, place, property, head),
            None => None,
        }
    }

    /// Adds a rule for a property and a head that have none.
    pub(crate) fn add(&mut self, alloc: Global, rule: PropertyRule) -> Result<(), Memory>
        requires { find (is_rule rule.property rule.head) self.old ≡ None }
        ensures ok { OnOk result (self.new ≡ self.old ++ rule ∷ []) }
        ensures err { OnErr result (self.new ≡ self.old) }
    {
        let places = places_of(&self.heads, &rule.head).with(rule.property, self.rules.len());
        self.heads.insert(rule.head.copy(alloc)?, places)?;
        self.rules.push(rule)?;
        Ok(())
    }

    /// Whether a premise of a rule is of the property.
    pub(crate) fn need(&self, property: Property) -> bool
        ensures { result ≡ list_any (λ r. has_premise property r.premises) self.now }
    {
        self.rules
            .iter()
            .any(|rule| has_premise(&rule.premises, property))
    }

    /// Drops the rules behind the first so many.
    pub(crate) fn cut(&mut self, count: usize)
        ensures { self.new ≡ take count self.old }
    {
        self.rules.truncate(count);
    }
}

/// The place that is told of the rule of a property and a head.
fn place_of(heads: &IndexMap<Name, Places>, property: Property, head: &Name) -> Option<usize>
    ensures { result ≡ place_of heads.now.entries property head.now }
{
    match heads.get(head) {
        Some(places) => places.at(property),
        None => None,
    }
}

/// The rule in a place, where it is that of the property and the head.
fn rule_in<'a>(
    rules: &'a [PropertyRule],
    place: usize,
    property: Property,
    head: &Name,
) -> Option<&'a PropertyRule>
    ensures { option_copied result ≡ rule_in rules.now property head.now place }
{
    match rules.get(place) {
        Some(rule) => only_where(is_rule(rule, property, head), rule),
        None => None,
    }
}

/// The rule, where the test holds.
fn only_where(holds: bool, rule: &PropertyRule) -> Option<&PropertyRule>
    ensures { option_copied result ≡ only_where holds rule.now }
{
    if holds { Some(rule) } else { None }
}

/// The places that are told of a head's rules.
fn places_of(heads: &IndexMap<Name, Places>, head: &Name) -> Places
    ensures { (p : Property) → place_in result p ≡ place_of heads.now.entries p head.now }
{
    match heads.get(head) {
        Some(places) => *places,
        None => Places::new(),
    }
}

/// Whether a rule is that of a property and a head.
fn is_rule(rule: &PropertyRule, property: Property, head: &Name) -> bool
    ensures { result ≡ is_rule property head.now rule.now }
{
    rule.property == property && rule.head == *head
}

/// Whether one of the premises is of the property.
fn has_premise(premises: &Sides, property: Property) -> bool
    ensures { result ≡ has_premise property premises.now }
{
    premises.as_slice().iter().any(|side| side.0 == property)
}
