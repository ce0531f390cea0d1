//! The types of terms that are known to have one.
ghost use Rattle.std.specs.Prelude.{◌≡◌, ◌<◌, [], length, reverse, slice_get, slice_index_or, Some, IfOk, MatchOption};
ghost use Rattle.std.specs.Result.{result_unwrap_or};
ghost use Rattle.lt_definitions.specs.Types.{bool, found};
ghost use Rattle.lt_definitions.specs.Typing.{Signature as Declared, constant_type};
ghost use Rattle.lt_nameless.specs.NamelessRules.{nameless_type_of};
ghost use Rattle.lt_hol.specs.TypeTables.{type_at};
ghost use Rattle.lt_store.specs.KnownTypes.{head_type, outward, outwards, whole_type, IsLeaf};
ghost use Rattle.lt_store.specs.Trees.{tree_at};
ghost use Rattle.lt_store.specs.TypeNumbers.{Has};
ghost use Rattle.lt_store.specs.Typed.{IsTyped};

use crate::node::{Id, View};
use crate::term_store::TermStore;
use crate::type_numbers::constant_number;
use lt_hol::{Memory, Name, Signature, TryCopy, Ty, TypeTable, Tys};
use std::alloc::Global;

/// A step from a term into the part that tells its type: into the function of an application, or
/// into the body of an abstraction over a binder of the type.
#[derive(Debug, Drop)]
pub enum TypeStep {
    Apply,
    Cover(Ty),
}

/// A step into the part that tells a term's type, or None at a leaf.
fn enter<S: TermStore>(
    alloc: Global,
    store: &S,
    steps: &mut Vec<TypeStep>,
    binders: &mut Vec<Ty>,
    at: Id,
) -> Result<Option<Id>, Memory>
    requires { at < length (S.nodes store.now) }
    ensures { IfOk result (λ o. MatchOption o
        (IsLeaf (tree_at (S.nodes store.now) at) × (steps.new.items ≡ steps.old.items)
        × (binders.new.items ≡ binders.old.items))
        (λ part. (part < at) × ((sig : Declared)
        → whole_type sig (reverse steps.new.items) (reverse binders.new.items)
        (tree_at (S.nodes store.now) part)
        ≡ whole_type sig (reverse steps.old.items) (reverse binders.old.items)
        (tree_at (S.nodes store.now) at)))) }
{
    match store.view(at) {
        View::App(function, _) => {
            steps.push(TypeStep::Apply)?;
            Ok(Some(function))
        }
        View::Lam(ty, body) => {
            binders.push(ty.copy(alloc)?)?;
            steps.push(TypeStep::Cover(ty.copy(alloc)?))?;
            Ok(Some(body))
        }
        View::Free(_, _) | View::Bound(_) | View::Const(_, _) => Ok(None),
    }
}

/// Steps into the parts that tell a term's type, down to a leaf.
fn descend<S: TermStore>(
    alloc: Global,
    store: &S,
    steps: &mut Vec<TypeStep>,
    binders: &mut Vec<Ty>,
    t: Id,
) -> Result<Id, Memory>
    requires t { t < length (S.nodes store.now) }
    ensures within { IfOk result (λ leaf. leaf < length (S.nodes store.now)) }
    ensures leaf { IfOk result (λ leaf. IsLeaf (tree_at (S.nodes store.now) leaf)) }
    ensures whole { IfOk result (λ leaf. (sig : Declared)
        → whole_type sig (reverse steps.new.items) (reverse binders.new.items)
        (tree_at (S.nodes store.now) leaf)
        ≡ whole_type sig (reverse steps.old.items) (reverse binders.old.items)
        (tree_at (S.nodes store.now) t)) }
{
    let mut at = t;
    while let Some(part) = enter(alloc, store, steps, binders, at)? {
        at = part;
    }
    Ok(at)
}

/// The type of a bound name's binder, under binders of these types, the innermost one last.
fn binder_at(binders: &[Ty], index: usize) -> &Ty
    requires { index < length binders.now }
    ensures { slice_get (reverse binders.now) index ≡ Some result.now }
{
    &binders[binders.len() - 1 - index]
}

/// The same, or `bool` where there is no binder.
fn binder_type(alloc: Global, binders: &[Ty], index: usize) -> Result<Ty, Memory>
    ensures { IfOk result (λ ty. ty ≡ slice_index_or (reverse binders.now) index bool) }
{
    if index < binders.len() {
        let ty = binder_at(binders, index).copy(alloc)?;
        return Ok(ty);
    }
    let ty = Ty::bool(alloc)?;
    Ok(ty)
}

/// The number of a constant's type, where it has one.
fn known_constant(
    alloc: Global,
    sig: &Signature,
    types: &mut TypeTable,
    name: &Name,
    args: &Tys,
) -> Result<usize, Memory>
    ensures { IfOk result (λ n. Has types.new n (result_unwrap_or
        (constant_type sig.now name.now args.now (found name.now sig.now.consts)) bool)) }
{
    match constant_number(alloc, sig, types, name, args) {
        Ok(number) => Ok(number),
        Err(_) => Err(Memory),
    }
}

/// The number of a leaf's type, under binders of these types, the innermost one last.
fn leaf_number<S: TermStore>(
    alloc: Global,
    store: &S,
    sig: &Signature,
    types: &mut TypeTable,
    binders: &[Ty],
    leaf: Id,
) -> Result<usize, Memory>
    requires within { leaf < length (S.nodes store.now) }
    requires leaf { IsLeaf (tree_at (S.nodes store.now) leaf) }
    ensures { IfOk result (λ n. Has types.new n
        (head_type sig.now (reverse binders.now) (tree_at (S.nodes store.now) leaf))) }
{
    match store.view(leaf) {
        View::Free(_, ty) => {
            let number = types.intern(alloc, ty)?;
            Ok(number)
        }
        View::Bound(index) => {
            let ty = binder_type(alloc, binders, index)?;
            let number = types.intern(alloc, &ty)?;
            Ok(number)
        }
        View::Const(name, args) => {
            let number = known_constant(alloc, sig, types, name, args)?;
            Ok(number)
        }
        View::App(_, _) | View::Lam(_, _) => unreachable!(),
    }
}

/// The number of the type of the whole, from that of the part into which a step goes.
fn step_out(
    alloc: Global,
    types: &mut TypeTable,
    step: TypeStep,
    number: usize,
) -> Result<usize, Memory>
    requires { number < length types.old }
    ensures { IfOk result (λ n. Has types.new n (outward step (type_at types.old number))) }
{
    match step {
        TypeStep::Apply => match types.as_fun(number) {
            Some((_, to)) => Ok(to),
            None => Ok(number),
        },
        TypeStep::Cover(ty) => {
            let from = types.intern(alloc, &ty)?;
            let made = types.fun(alloc, from, number)?;
            Ok(made)
        }
    }
}

/// The number of the type of the whole, from that of the leaf to which the steps go.
fn ascend(
    alloc: Global,
    types: &mut TypeTable,
    steps: &mut Vec<TypeStep>,
    leaf: usize,
) -> Result<usize, Memory>
    requires { leaf < length types.old }
    ensures { IfOk result (λ n. Has types.new n
        (outwards (reverse steps.old.items) (type_at types.old leaf))) }
{
    let mut number = leaf;
    while let Some(step) = steps.pop() {
        number = step_out(alloc, types, step, number)?;
    }
    Ok(number)
}

/// The type of a term that has one.
///
/// Only the way down to the term's head is gone: from an application into its function, from an
/// abstraction into its body. Arguments aren't looked at.
pub fn known_type<S: TermStore>(
    alloc: Global,
    store: &S,
    sig: &Signature,
    t: Id,
) -> Result<Ty, Memory>
    requires { IsTyped sig.now (S.nodes store.now) t }
    ensures { IfOk result (λ ty. ty ≡ nameless_type_of sig.now (tree_at (S.nodes store.now) t)) }
{
    let mut steps = Vec::new(alloc);
    let mut binders = Vec::new(alloc);
    let leaf = descend(alloc, store, &mut steps, &mut binders, t)?;
    let mut types = TypeTable::new(alloc)?;
    let of_leaf = leaf_number(alloc, store, sig, &mut types, binders.as_slice(), leaf)?;
    let of_whole = ascend(alloc, &mut types, &mut steps, of_leaf)?;
    let ty = types.ty(alloc, of_whole)?;
    Ok(ty)
}
