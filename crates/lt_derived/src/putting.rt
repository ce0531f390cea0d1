//! Types put for type variables in lines.
ghost use Rattle.std.specs.Prelude.{◌≡◌, ◌≤◌, length, map, None, Some, true, is_some, IfOk};
ghost use Rattle.std.specs.Option.{option_map};
ghost use Rattle.lt_definitions.specs.Types.{row};
ghost use Rattle.lt_definitions.specs.Typing.{type_fault, types_fault};
ghost use Rattle.lt_definitions.specs.Rules.{line_at};
ghost use Rattle.lt_nameless.specs.Nameless.{Nameless};
ghost use Rattle.lt_nameless.specs.NamelessRules.{nameless_instance, put_one};
ghost use Rattle.lt_kernel.specs.State.{sequents};
ghost use Rattle.lt_kernel.specs.Growing.{Carries};
ghost use Rattle.lt_programs.specs.Programs.{theorem, put_each, paired};
ghost use Rattle.lt_programs.specs.TypeLengths.{longest_type_variable};

use crate::type_lengths::longest_type_variable;
use lt_hol::{
    Memory, Name, Names, TryCopy, Ty, TyMap, Tys, are_clear, long_names, longest, variables,
};
use lt_kernel::Proof;
use lt_kernel::sure::tinst;
use lt_store::TermStore;
use std::alloc::Global;

/// From `H |- p`: `H |- p`, with a type put for a type variable.
pub(crate) fn put_one<S: TermStore>(
    alloc: Global,
    proof: &mut Proof<S>,
    i: usize,
    a: &Name,
    ty: &Ty,
) -> Result<usize, Memory>
    requires there { is_some (line_at (sequents proof.old) i) ≡ true }
    requires sound { type_fault proof.old.signature ty.now ≡ None }
    ensures carries { Carries proof.old proof.new }
    ensures line { IfOk result (λ n. line_at (sequents proof.new) n
        ≡ option_map (put_one a.now ty.now) (line_at (sequents proof.old) i)) }
{
    let line = tinst(alloc, proof, a, ty, i)?;
    Ok(line)
}

/// The same for each name and its type, one after another.
fn put_each<S: TermStore>(
    alloc: Global,
    proof: &mut Proof<S>,
    i: usize,
    names: &[Name],
    types: &[Ty],
) -> Result<usize, Memory>
    requires there { is_some (line_at (sequents proof.old) i) ≡ true }
    requires count { length names.now ≡ length types.now }
    requires sound { types_fault proof.old.signature (row types.now) ≡ None }
    ensures carries { Carries proof.old proof.new }
    ensures line { IfOk result (λ n. line_at (sequents proof.new) n
        ≡ option_map (put_each (paired names.now types.now)) (line_at (sequents proof.old) i)) }
{
    let mut line = i;
    for k in 0..names.len() {
        line = put_one(alloc, proof, line, &names[k], &types[k])?;
    }
    Ok(line)
}

/// The same through new names, so that no type has a variable that is still to be replaced. They are longer than `least`.
fn put_renamed<S: TermStore>(
    alloc: Global,
    proof: &mut Proof<S>,
    i: usize,
    names: &[Name],
    types: &[Ty],
    least: usize,
) -> Result<usize, Memory>
    requires there { is_some (line_at (sequents proof.old) i) ≡ true }
    requires count { length names.now ≡ length types.now }
    requires sound { types_fault proof.old.signature (row types.now) ≡ None }
    ensures carries { Carries proof.old proof.new }
    ensures line { (p : Nameless) → line_at (sequents proof.old) i ≡ Some (theorem p)
        → longest_type_variable p ≤ least → IfOk result (λ n. line_at (sequents proof.new) n
        ≡ Some (theorem (nameless_instance (paired names.now types.now) p))) }
{
    let longest = longest(names, types).max(least);
    if longest.checked_add(names.len()).is_none() {
        return Err(Memory);
    }
    let new = long_names(alloc, longest, names.len())?;
    let vars = variables(alloc, new.as_slice())?;
    let renamed = put_each(alloc, proof, i, names, vars.as_slice())?;
    let line = put_each(alloc, proof, renamed, new.as_slice(), types)?;
    Ok(line)
}

/// From `|- p`: `|- p` with the types put for the names at once.
///
/// It adds a line for each name, and two where a type has a variable of one of the names; then the statement is walked once.
pub(crate) fn put_at_once<S: TermStore>(
    alloc: Global,
    proof: &mut Proof<S>,
    i: usize,
    names: &[Name],
    types: &[Ty],
) -> Result<usize, Memory>
    requires there { is_some (line_at (sequents proof.old) i) ≡ true }
    requires count { length names.now ≡ length types.now }
    requires sound { types_fault proof.old.signature (row types.now) ≡ None }
    ensures carries { Carries proof.old proof.new }
    ensures line { (p : Nameless) → line_at (sequents proof.old) i ≡ Some (theorem p)
        → IfOk result (λ n. line_at (sequents proof.new) n
        ≡ Some (theorem (nameless_instance (paired names.now types.now) p))) }
{
    if are_clear(names, types) {
        return Ok(put_each(alloc, proof, i, names, types)?);
    }
    let concl = proof.conclusion(i);
    let least = longest_type_variable(alloc, proof, concl)?;
    Ok(put_renamed(alloc, proof, i, names, types, least)?)
}

/// The names of a map's pairs.
pub(crate) fn names_of(alloc: Global, pairs: &TyMap) -> Result<Names, Memory>
    ensures { IfOk result (λ names. names ≡ map (λ p. p.0) pairs.now) }
{
    let mut names = Names::new(alloc);
    for i in 0..pairs.len() {
        let (name, _) = pairs.at(i);
        names.push(alloc, name.copy(alloc)?)?;
    }
    Ok(names)
}

/// The types of a map's pairs.
pub(crate) fn types_of(alloc: Global, pairs: &TyMap) -> Result<Tys, Memory>
    ensures { IfOk result (λ types. types ≡ map (λ p. p.1) pairs.now) }
{
    let mut types = Tys::new(alloc);
    for i in 0..pairs.len() {
        let (_, ty) = pairs.at(i);
        types.push(alloc, ty.copy(alloc)?)?;
    }
    Ok(types)
}
