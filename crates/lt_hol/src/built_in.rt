//! What is declared before the first item.
ghost use Rattle.std.specs.Prelude.{◌≡◌, IfOk, codes};
ghost use Rattle.lt_definitions.specs.Types.{bool, fun, type_variable};
ghost use Rattle.lt_definitions.specs.Typing.{built_in};

use indexmap::IndexMap;
use lt_types::{Memory, Name, Ty};
use std::alloc::Global;

/// The built-in types: `bool`, and `fun` of two arguments.
pub(crate) fn built_in_types(alloc: Global) -> Result<IndexMap<Name, usize>, Memory>
    ensures { IfOk result (λ m. m.entries ≡ built_in.types) }
{
    let mut types = IndexMap::new(alloc);
    types.insert(Name::word(alloc, "bool")?, 0)?;
    types.insert(Name::word(alloc, "fun")?, 2)?;
    Ok(types)
}

/// The built-in constants: equality, implication, the universal quantifier and choice.
pub(crate) fn built_in_consts(alloc: Global) -> Result<IndexMap<Name, Ty>, Memory>
    ensures { IfOk result (λ m. m.entries ≡ built_in.consts) }
{
    let mut consts = IndexMap::new(alloc);
    consts.insert(Name::word(alloc, "eq")?, relation(alloc)?)?;
    consts.insert(Name::word(alloc, "imp")?, connective(alloc)?)?;
    consts.insert(Name::word(alloc, "all")?, quantifier(alloc)?)?;
    consts.insert(Name::word(alloc, "eps")?, choice(alloc)?)?;
    Ok(consts)
}

/// The type variable 'a.
fn any_type(alloc: Global) -> Result<Ty, Memory>
    ensures { IfOk result (λ t. t ≡ type_variable (codes "a")) }
{
    Ok(Ty::var(alloc, Name::word(alloc, "a")?)?)
}

/// The type of predicates over 'a.
fn predicate(alloc: Global) -> Result<Ty, Memory>
    ensures { IfOk result (λ t. t ≡ fun (type_variable (codes "a")) bool) }
{
    Ok(Ty::fun(alloc, any_type(alloc)?, Ty::bool(alloc)?)?)
}

/// The type of equality.
fn relation(alloc: Global) -> Result<Ty, Memory>
    ensures { IfOk result (λ t. t ≡ fun (type_variable (codes "a"))
        (fun (type_variable (codes "a")) bool)) }
{
    Ok(Ty::fun(alloc, any_type(alloc)?, predicate(alloc)?)?)
}

/// The type of implication.
fn connective(alloc: Global) -> Result<Ty, Memory>
    ensures { IfOk result (λ t. t ≡ fun bool (fun bool bool)) }
{
    let operator = Ty::fun(alloc, Ty::bool(alloc)?, Ty::bool(alloc)?)?;
    Ok(Ty::fun(alloc, Ty::bool(alloc)?, operator)?)
}

/// The type of the universal quantifier.
fn quantifier(alloc: Global) -> Result<Ty, Memory>
    ensures { IfOk result (λ t. t ≡ fun (fun (type_variable (codes "a")) bool) bool) }
{
    Ok(Ty::fun(alloc, predicate(alloc)?, Ty::bool(alloc)?)?)
}

/// The type of choice.
fn choice(alloc: Global) -> Result<Ty, Memory>
    ensures { IfOk result (λ t. t ≡ fun (fun (type_variable (codes "a")) bool)
        (type_variable (codes "a"))) }
{
    Ok(Ty::fun(alloc, predicate(alloc)?, any_type(alloc)?)?)
}
