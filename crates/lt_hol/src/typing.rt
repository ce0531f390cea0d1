//! The types of terms.
ghost use Rattle.std.specs.Prelude.{◌≡◌, ◌∷◌, ◌<◌, [], List as ListOf, Option as Maybe, Some as Just, Ok as Fine, length, reverse, slice_get, true, IfOk};
ghost use Rattle.lt_definitions.specs.Types.{TypeTree, row, fun};
ghost use Rattle.lt_definitions.specs.Typing.{typed, type_fault, types_fault, unless, with_ok, constant_type, declared_type, applied_type, bound_type};
ghost use Rattle.lt_definitions.specs.Derivations.{term_fault};
ghost use Rattle.lt_hol.specs.declared.type_fault.TypeFault.TheVariants.{Mismatch as MismatchOf};
ghost use Rattle.lt_hol.specs.Faults.{Checks, Gives};
ghost use Rattle.lt_hol.specs.Outcomes.{Typed, IsOutcome, AreOutcomes, IsWithin, AreWithin, IsHint, typed_step, applied_outcomes, abstracted_outcomes};
ghost use Rattle.lt_hol.specs.TypeTables.{type_at, all_below, types_at, Extends, ExtendsBy};

use crate::binder_types::{bound_types, hint_at};
use crate::outcome::Outcome;
use crate::signature::Signature;
use crate::type_fault::TypeFault;
use crate::type_table::TypeTable;
use lt_terms::{Term, TermNode};
use lt_types::{List, Memory, Name, TryCopy, Ty};
use std::alloc::Global;

impl Signature {
    /// The type of a term, or its first fault in the order of the text: a binder's type comes
    /// before its body,
    /// a function before its argument, and both before their application.
    ///
    /// `Unbound`, `UnknownConst`, `TypeArgs`, as `check_type`, and `Mismatch` with the types of a
    /// function and its argument.
    /// It takes time linear in the term, in the declared types of its constants and in what is
    /// answered, where a look-up counts as one.
    pub fn type_of(&self, alloc: Global, t: &Term) -> Result<Ty, TypeFault>
        ensures { Gives (typed self.now [] t.now) result }
    {
        let mut table = TypeTable::new(alloc)?;
        self.type_in(alloc, &mut table, t)
    }

    /// As `type_of`, over a table that keeps the types of terms that were typed before.
    pub fn type_in(&self, alloc: Global, table: &mut TypeTable, t: &Term) -> Result<Ty, TypeFault>
        ensures gives { Gives (typed self.now [] t.now) result }
        ensures grows { Extends table.old table.new }
    {
        match self.outcome_of(alloc, table, t)? {
            Outcome::Known(id) => Ok(table.ty(alloc, id)?),
            Outcome::Mismatch(t, u) => Err(mismatch(alloc, table, t, u)?),
            Outcome::Wrong(fault) => Err(fault),
        }
    }

    /// Ok where a term has a type, else its first fault, as `type_of`; the type isn't made.
    pub fn check_term(&self, alloc: Global, t: &Term) -> Result<(), TypeFault>
        ensures { Checks (term_fault self.now t.now) result }
    {
        let mut table = TypeTable::new(alloc)?;
        self.check_term_in(alloc, &mut table, t)
    }

    /// As `check_term`, over a table that keeps the types of terms that were typed before.
    pub fn check_term_in(
        &self,
        alloc: Global,
        table: &mut TypeTable,
        t: &Term,
    ) -> Result<(), TypeFault>
        ensures checks { Checks (term_fault self.now t.now) result }
        ensures grows { Extends table.old table.new }
    {
        match self.outcome_of(alloc, table, t)? {
            Outcome::Known(_) => Ok(()),
            Outcome::Mismatch(t, u) => Err(mismatch(alloc, table, t, u)?),
            Outcome::Wrong(fault) => Err(fault),
        }
    }

    /// What is known of a term.
    fn outcome_of(&self, alloc: Global, table: &mut TypeTable, t: &Term) -> Result<Outcome, Memory>
        ensures outcome { IfOk result (λ o. IsOutcome table.new o (typed self.now [] t.now)) }
        ensures grows { Extends table.old table.new }
    {
        let hints = bound_types(alloc, table, t)?;
        let nodes = t.nodes();
        let mut outcomes = Vec::new(alloc);
        for i in 0..nodes.len() {
            let hint = hint_at(hints.as_slice(), i);
            outcomes = self.visit(alloc, table, outcomes, &nodes[i], hint)?;
        }
        Ok(last(outcomes))
    }

    /// What a node makes of the last outcomes, where the number of the type of its binder is given.
    fn visit(
        &self,
        alloc: Global,
        table: &mut TypeTable,
        outcomes: Vec<Outcome>,
        node: &TermNode,
        hint: Option<usize>,
    ) -> Result<Vec<Outcome>, Memory>
        requires { AreWithin (length table.old) (reverse outcomes.items) }
        ensures outcomes { IfOk result (λ v. (rs : ListOf Typed) (bound : Maybe TypeTree)
            → AreOutcomes table.old (reverse outcomes.items) rs → IsHint table.old hint bound
            → AreOutcomes table.new (reverse v.items) (typed_step self.now rs node.now bound)) }
        ensures grows { Extends table.old table.new }
    {
        match node {
            TermNode::Free(_, ty) => {
                let outcome = self.of_type(alloc, table, ty)?;
                Ok(one_more(outcomes, outcome)?)
            }
            TermNode::Bound(name) => {
                let outcome = of_bound(alloc, name, hint)?;
                Ok(one_more(outcomes, outcome)?)
            }
            TermNode::Const(name, types) => {
                let outcome = self.of_constant(alloc, table, name, types)?;
                Ok(one_more(outcomes, outcome)?)
            }
            TermNode::App(_, _) => Ok(apply_last(table, outcomes)?),
            TermNode::Lam(_, ty, _) => Ok(self.abstract_last(alloc, table, outcomes, ty)?),
        }
    }

    /// What is known of a thing that has a given type.
    pub fn of_type(&self, alloc: Global, table: &mut TypeTable, ty: &Ty) -> Result<Outcome, Memory>
        ensures outcome { IfOk result
            (λ o. IsOutcome table.new o (unless (type_fault self.now ty.now) (Fine ty.now))) }
        ensures grows { Extends table.old table.new }
        ensures added { IfOk result (λ _. ExtendsBy (ty.now ∷ []) table.old table.new) }
    {
        match self.check_type(alloc, ty) {
            Ok(()) => Ok(Outcome::Known(table.intern(alloc, ty)?)),
            Err(fault) => Ok(Outcome::Wrong(fault)),
        }
    }

    /// What is known of a constant.
    pub fn of_constant(
        &self,
        alloc: Global,
        table: &mut TypeTable,
        name: &Name,
        types: &List<Ty>,
    ) -> Result<Outcome, Memory>
        ensures outcome { IfOk result
            (λ o. IsOutcome table.new o (constant_type self.now name.now types.now
            (declared_type self.now name.now))) }
        ensures grows { Extends table.old table.new }
    {
        match self.const_type(name) {
            None => Ok(Outcome::Wrong(TypeFault::UnknownConst(name.copy(alloc)?))),
            Some(declared) => Ok(self.of_instance(alloc, table, name, declared, types)?),
        }
    }

    /// What is known of a constant with its declared type.
    fn of_instance(
        &self,
        alloc: Global,
        table: &mut TypeTable,
        name: &Name,
        declared: &Ty,
        types: &List<Ty>,
    ) -> Result<Outcome, Memory>
        ensures outcome { IfOk result
            (λ o. IsOutcome table.new o (constant_type self.now name.now types.now
            (Just declared.now))) }
        ensures grows { Extends table.old table.new }
    {
        let args = intern_all(alloc, table, types.as_slice())?;
        let instance = table.instance(alloc, declared, args.as_slice())?;
        match instance {
            None => Ok(Outcome::Wrong(TypeFault::TypeArgs(name.copy(alloc)?))),
            Some(id) => match self.check_types(alloc, types.as_slice()) {
                Ok(()) => Ok(Outcome::Known(id)),
                Err(fault) => Ok(Outcome::Wrong(fault)),
            },
        }
    }

    /// As `check_type`, for types one after another.
    pub(crate) fn check_types(&self, alloc: Global, types: &[Ty]) -> Result<(), TypeFault>
        ensures { Checks (types_fault self.now (row types.now)) result }
    {
        for ty in types {
            if let Err(fault) = self.check_type(alloc, ty) {
                return Err(fault);
            }
        }
        Ok(())
    }

    /// Makes an abstraction of the last outcome.
    fn abstract_last(
        &self,
        alloc: Global,
        table: &mut TypeTable,
        outcomes: Vec<Outcome>,
        ty: &Ty,
    ) -> Result<Vec<Outcome>, Memory>
        requires { AreWithin (length table.old) (reverse outcomes.items) }
        ensures outcomes { IfOk result (λ v. (rs : ListOf Typed)
            → AreOutcomes table.old (reverse outcomes.items) rs
            → AreOutcomes table.new (reverse v.items) (abstracted_outcomes self.now ty.now rs)) }
        ensures grows { Extends table.old table.new }
    {
        let mut outcomes = outcomes;
        let Some(body) = outcomes.pop() else {
            return Ok(outcomes);
        };
        let outcome = self.abstracted(alloc, table, ty, body)?;
        Ok(one_more(outcomes, outcome)?)
    }

    /// What is known of an abstraction, by what is known of its body.
    fn abstracted(
        &self,
        alloc: Global,
        table: &mut TypeTable,
        ty: &Ty,
        body: Outcome,
    ) -> Result<Outcome, Memory>
        requires { IsWithin (length table.old) body }
        ensures outcome { IfOk result (λ o. (r : Typed) → IsOutcome table.old body r
            → IsOutcome table.new o (unless (type_fault self.now ty.now) (with_ok r
            (λ u. Fine (fun ty.now u))))) }
        ensures grows { Extends table.old table.new }
    {
        match self.check_type(alloc, ty) {
            Ok(()) => Ok(under_binder(alloc, table, ty, body)?),
            Err(fault) => Ok(Outcome::Wrong(fault)),
        }
    }
}

/// The fault that a function of one type isn't applied to an argument of another.
fn mismatch(alloc: Global, table: &TypeTable, t: usize, u: usize) -> Result<TypeFault, Memory>
    requires function { t < length table.now }
    requires argument { u < length table.now }
    ensures { IfOk result (λ fault. fault ≡ MismatchOf (type_at table.now t) (type_at table.now u)) }
{
    let function = table.ty(alloc, t)?;
    Ok(TypeFault::Mismatch(function, table.ty(alloc, u)?))
}

/// What is known of an abstraction whose binder's type has no fault.
fn under_binder(
    alloc: Global,
    table: &mut TypeTable,
    ty: &Ty,
    body: Outcome,
) -> Result<Outcome, Memory>
    requires { IsWithin (length table.old) body }
    ensures outcome { IfOk result (λ o. (r : Typed) → IsOutcome table.old body r
        → IsOutcome table.new o (with_ok r (λ u. Fine (fun ty.now u)))) }
    ensures grows { Extends table.old table.new }
{
    match body {
        Outcome::Known(to) => Ok(Outcome::Known(fun_from(alloc, table, ty, to)?)),
        wrong => Ok(wrong),
    }
}

/// The number of the type of functions from a type to the type of a number.
fn fun_from(alloc: Global, table: &mut TypeTable, ty: &Ty, to: usize) -> Result<usize, Memory>
    requires { to < length table.old }
    ensures ok { IfOk result (λ id. slice_get table.new id
        ≡ Just (fun ty.now (type_at table.old to))) }
    ensures grows { Extends table.old table.new }
{
    let from = table.intern(alloc, ty)?;
    Ok(table.fun(alloc, from, to)?)
}

/// What is known of a bound name, where the number of its binder's type is given.
fn of_bound(alloc: Global, name: &Name, hint: Option<usize>) -> Result<Outcome, Memory>
    ensures { IfOk result (λ o. (table : ListOf TypeTree) (bound : Maybe TypeTree)
        → IsHint table hint bound → IsOutcome table o (bound_type name.now bound)) }
{
    match hint {
        Some(id) => Ok(Outcome::Known(id)),
        None => Ok(Outcome::Wrong(TypeFault::Unbound(name.copy(alloc)?))),
    }
}

/// The numbers of types.
fn intern_all(alloc: Global, table: &mut TypeTable, types: &[Ty]) -> Result<Vec<usize>, Memory>
    ensures types { IfOk result (λ v. types_at table.new v.items ≡ types.now) }
    ensures below { IfOk result (λ v. all_below (length table.new) v.items ≡ true) }
    ensures grows { Extends table.old table.new }
{
    let mut numbers = Vec::new(alloc);
    for ty in types {
        let id = table.intern(alloc, ty)?;
        numbers.push(id)?;
    }
    Ok(numbers)
}

/// The one outcome.
fn last(outcomes: Vec<Outcome>) -> Outcome
    requires { 0 < length outcomes.items }
    ensures { (table : ListOf TypeTree) (r : Typed)
        → AreOutcomes table (reverse outcomes.items) (r ∷ []) → IsOutcome table result r }
{
    let mut outcomes = outcomes;
    outcomes.pop().unwrap()
}

/// One more outcome.
fn one_more(outcomes: Vec<Outcome>, outcome: Outcome) -> Result<Vec<Outcome>, Memory>
    ensures { IfOk result (λ v. reverse v.items ≡ outcome ∷ reverse outcomes.items) }
{
    let mut outcomes = outcomes;
    outcomes.push(outcome)?;
    Ok(outcomes)
}

/// Applies the last outcome but one to the last.
fn apply_last(table: &TypeTable, outcomes: Vec<Outcome>) -> Result<Vec<Outcome>, Memory>
    requires { AreWithin (length table.now) (reverse outcomes.items) }
    ensures { IfOk result (λ v. (rs : ListOf Typed)
        → AreOutcomes table.now (reverse outcomes.items) rs
        → AreOutcomes table.now (reverse v.items) (applied_outcomes rs)) }
{
    let mut outcomes = outcomes;
    let Some(argument) = outcomes.pop() else {
        return Ok(outcomes);
    };
    Ok(apply_to(table, outcomes, argument)?)
}

/// Applies the last outcome to another.
fn apply_to(
    table: &TypeTable,
    outcomes: Vec<Outcome>,
    argument: Outcome,
) -> Result<Vec<Outcome>, Memory>
    requires outcomes { AreWithin (length table.now) (reverse outcomes.items) }
    requires argument { IsWithin (length table.now) argument }
    ensures { IfOk result (λ v. (s : Typed) (rs : ListOf Typed) → IsOutcome table.now argument s
        → AreOutcomes table.now (reverse outcomes.items) rs
        → AreOutcomes table.now (reverse v.items) (applied_outcomes (s ∷ rs))) }
{
    let mut outcomes = outcomes;
    let Some(function) = outcomes.pop() else {
        return Ok(outcomes);
    };
    Ok(one_more(outcomes, applied(table, function, argument))?)
}

/// What is known of an application, by what is known of its parts.
fn applied(table: &TypeTable, function: Outcome, argument: Outcome) -> Outcome
    requires function { IsWithin (length table.now) function }
    requires argument { IsWithin (length table.now) argument }
    ensures { (r s : Typed) → IsOutcome table.now function r → IsOutcome table.now argument s
        → IsOutcome table.now result (with_ok r (λ t. with_ok s (λ u. applied_type t u))) }
{
    match function {
        Outcome::Known(t) => applied_at(table, t, argument),
        wrong => wrong,
    }
}

/// What is known of an application of a function of a type.
fn applied_at(table: &TypeTable, t: usize, argument: Outcome) -> Outcome
    requires function { t < length table.now }
    requires argument { IsWithin (length table.now) argument }
    ensures { (s : Typed) → IsOutcome table.now argument s
        → IsOutcome table.now result (with_ok s (λ u. applied_type (type_at table.now t) u)) }
{
    match argument {
        Outcome::Known(u) => applied_types(table, t, u),
        wrong => wrong,
    }
}

/// What is known of an application of a function of a type to an argument of another.
pub fn applied_types(table: &TypeTable, t: usize, u: usize) -> Outcome
    requires function { t < length table.now }
    requires argument { u < length table.now }
    ensures { IsOutcome table.now result (applied_type (type_at table.now t)
        (type_at table.now u)) }
{
    match table.as_fun(t) {
        Some((from, to)) => {
            if table.same(from, u) {
                Outcome::Known(to)
            } else {
                Outcome::Mismatch(t, u)
            }
        }
        None => Outcome::Mismatch(t, u),
    }
}
