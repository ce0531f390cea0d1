//! Constants unfolded by named equations.
ghost use Rattle.std.specs.Prelude.{◌≡◌, ◌<◌, length, IfOk};
ghost use Rattle.lt_definitions.specs.Types.{found, row, type_constructor};
ghost use Rattle.lt_store.specs.Trees.{tree_at};
ghost use Rattle.lt_store.specs.Typed.{IsTyped};
ghost use Rattle.lt_kernel.specs.State.{statements};
ghost use Rattle.lt_kernel.specs.Growing.{Carries, IsSound};
ghost use Rattle.lt_conv.specs.Unfolding.{unfolded, FitsRows, FitsBy, IsStated, AreTypesOf};

use crate::conversion::Conversion;
use lt_derived::instance;
use lt_formulas::{as_equation, constant, is_constant};
use lt_hol::{Memory, Name, TryCopy, Ty, TyMap, Tys, match_type};
use lt_kernel::{Proof, RuleFault};
use lt_store::{Id, TermStore};
use std::alloc::Global;

/// The body of a constant, where `label` is the label of a statement `c = b` with c a constant:
/// b at the types that make c the term, exactly where the term is an instance of c.
#[derive(Debug, Drop)]
pub struct Unfold {
    pub label: Name,
}

impl Conversion for Unfold {
    ghost gives = { λ c named t. unfolded (found c.label named) t };

    fn convert<S: TermStore>(
        &self,
        alloc: Global,
        proof: &mut Proof<S>,
        t: Id,
    ) -> Result<Option<usize>, Memory> {
        let Some(types) = types_of(alloc, proof, &self.label, t)? else {
            return Ok(None);
        };
        match instance(alloc, proof, &self.label, &types, &[]) {
            Ok(line) => Ok(Some(line)),
            Err(fault) => Err(fault.into_memory()),
        }
    }
}

/// The line of a named statement; None where no statement has the label.
fn stated<S: TermStore>(
    alloc: Global,
    proof: &mut Proof<S>,
    label: &Name,
) -> Result<Option<usize>, Memory>
    ensures carries { Carries proof.old proof.new }
    ensures stated { IfOk result (IsStated proof.new (found label.now (statements proof.old))) }
{
    let label = label.copy(alloc)?;
    match proof.thm(alloc, label) {
        Ok(number) => Ok(Some(number)),
        Err(RuleFault::Memory) => Err(Memory),
        Err(_) => Ok(None),
    }
}

/// The types that make one row of types another, as arguments of one constructor.
fn match_rows(
    alloc: Global,
    name: &Name,
    pattern: &Tys,
    types: &Tys,
) -> Result<Option<TyMap>, Memory>
    ensures { IfOk result (FitsRows (type_constructor name.now (row pattern.now))
        (type_constructor name.now (row types.now))) }
{
    let pattern = Ty::con(alloc, name.copy(alloc)?, pattern.copy(alloc)?)?;
    let ty = Ty::con(alloc, name.copy(alloc)?, types.copy(alloc)?)?;
    match match_type(alloc, &pattern, &ty)? {
        Some(map) => {
            let _unique = map.len();
            Ok(Some(map))
        }
        None => Ok(None),
    }
}

/// The types that make a constant a term; None where the term is no instance of it.
fn match_constants<S: TermStore>(
    alloc: Global,
    store: &S,
    c: Id,
    t: Id,
) -> Result<Option<TyMap>, Memory>
    requires c { c < length (S.nodes store.now) }
    requires t { t < length (S.nodes store.now) }
    ensures { IfOk result (FitsBy (tree_at (S.nodes store.now) c)
        (tree_at (S.nodes store.now) t)) }
{
    if !is_constant(store, c) {
        return Ok(None);
    }
    if !is_constant(store, t) {
        return Ok(None);
    }
    let (name, pattern) = constant(store, c);
    let (other, types) = constant(store, t);
    let same = *other == *name;
    if !same {
        return Ok(None);
    }
    let map = match_rows(alloc, name, pattern, types)?;
    Ok(map)
}

/// The types that make the constant of a named equation the term; None where there are none.
fn types_of<S: TermStore>(
    alloc: Global,
    proof: &mut Proof<S>,
    label: &Name,
    t: Id,
) -> Result<Option<TyMap>, Memory>
    requires { IsTyped proof.old.signature proof.old.nodes t }
    ensures carries { Carries proof.old proof.new }
    ensures types { IfOk result (AreTypesOf proof.old.signature
        (found label.now (statements proof.old)) (tree_at proof.old.nodes t)) }
{
    if !is_constant(proof, t) {
        return Ok(None);
    }
    let Some(line) = stated(alloc, proof, label)? else {
        return Ok(None);
    };
    let concl = proof.conclusion(line);
    let Some(equation) = as_equation(alloc, proof, concl)? else {
        return Ok(None);
    };
    let types = match_constants(alloc, proof, equation.left, t)?;
    Ok(types)
}
