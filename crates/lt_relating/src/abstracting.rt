//! Functions that are related, from values that are.
ghost use Rattle.std.specs.Prelude.{◌≡◌, ◌<◌, [], is_some, true, None, Some, length, IfOk};
ghost use Rattle.lt_definitions.specs.Typing.{type_fault};
ghost use Rattle.lt_definitions.specs.Rules.{line_at, with_line};
ghost use Rattle.lt_nameless.specs.NamelessRules.{nameless_union};
ghost use Rattle.lt_store.specs.Trees.{tree_at};
ghost use Rattle.lt_store.specs.Typed.{IsTyped};
ghost use Rattle.lt_kernel.specs.State.{sequents, statements};
ghost use Rattle.lt_kernel.specs.Growing.{Carries, IsSound};
ghost use Rattle.lt_kernel.specs.Reaching.{Reaches};
ghost use Rattle.lt_derived.specs.Equations.{Stands};
ghost use Rattle.lt_relating.specs.TypedRelations.{related};
ghost use Rattle.lt_relating.specs.RelatedSteps.{abstracted_by, abstraction_types, closed_over_both};
ghost use Rattle.lt_relating.specs.Pairs.{binding_of, IsPair};
ghost use Rattle.lt_relating.specs.Expansions.{IsExpansion, IsRelatedLine, Replaces, AreSides};

use crate::expansion::{Expansion, Sides};
use crate::reading::{related_parts, relator_names};
use crate::variable_pair::VariablePair;
use lt_derived::equations::{beta, cong, refl, sym};
use lt_derived::instance_at;
use lt_formulas::type_of;
use lt_hol::{Memory, Name, Reason, TryCopy, Ty, Tys};
use lt_kernel::{Proof, RuleFault, sure};
use lt_store::{Id, TermStore};
use std::alloc::Global;

/// A term as a function applied to a variable: `|- (\x. t) x = t`.
fn expand<S: TermStore>(
    alloc: Global,
    proof: &mut Proof<S>,
    x: &Name,
    ty: &Ty,
    t: Id,
) -> Result<Expansion, Memory>
    requires ty { type_fault proof.old.signature ty.now ≡ None }
    requires t { IsTyped proof.old.signature proof.old.nodes t }
    ensures carries { Carries proof.old proof.new }
    ensures expands { IfOk result (λ e. IsExpansion proof.new e x.now ty.now
        (tree_at proof.old.nodes t)) }
{
    let name = x.copy(alloc)?;
    let of = ty.copy(alloc)?;
    let function = proof.close(alloc, x, ty, t)?;
    let variable = proof.mk_free(alloc, name, of)?;
    let applied = proof.mk_app(alloc, function, variable)?;
    let line = beta(alloc, proof, applied)?;
    Ok(Expansion {
        function,
        variable,
        line,
    })
}

/// From `k = f`, `m = g` and `H |- S f g`: `H |- S k m`.
fn replaced<S: TermStore>(
    alloc: Global,
    proof: &mut Proof<S>,
    relation: Id,
    image: usize,
    given: usize,
    i: usize,
) -> Result<usize, Memory>
    requires { Replaces proof.old relation image given i }
    ensures carries { Carries proof.old proof.new }
    ensures line { (q : Replaces proof.old relation image given i) → IfOk result (λ n.
        line_at (sequents proof.new) n ≡ Some (record {
          hyps = nameless_union [] q.hyps;
          concl =
              related (tree_at proof.old.nodes relation) q.k q.m;
        })) }
{
    let same = refl(alloc, proof, relation)?;
    let first = cong(alloc, proof, same, image)?;
    let both = cong(alloc, proof, first, given)?;
    let back = sym(alloc, proof, both)?;
    let line = sure::eqmp(alloc, proof, back, i)?;
    Ok(line)
}

/// `R x y`.
fn relate_variables<S: TermStore>(
    alloc: Global,
    proof: &mut Proof<S>,
    relation: Id,
    x: Id,
    y: Id,
) -> Result<Id, Memory>
    requires relation { relation < length proof.old.nodes }
    requires x { x < length proof.old.nodes }
    requires y { y < length proof.old.nodes }
    ensures carries { Carries proof.old proof.new }
    ensures stands { IfOk result (λ p. Stands proof.new p (related
        (tree_at proof.old.nodes relation) (tree_at proof.old.nodes x)
        (tree_at proof.old.nodes y))) }
{
    let first = proof.mk_app(alloc, relation, x)?;
    let both = proof.mk_app(alloc, first, y)?;
    Ok(both)
}

/// From `H |- S f g`: `H |- S ((\x. f) x) ((\y. g) y)`, with the parts that were made.
fn expand_both<S: TermStore>(
    alloc: Global,
    proof: &mut Proof<S>,
    pair: &VariablePair,
    s: Id,
    f: Id,
    g: Id,
    i: usize,
) -> Result<Sides, Memory>
    requires pair { IsPair proof.old pair.now }
    requires line { IsRelatedLine proof.old s f g i }
    ensures carries { Carries proof.old proof.new }
    ensures sides { (q : IsRelatedLine proof.old s f g i) → IfOk result (λ made. AreSides proof.new made
        (binding_of proof.old.nodes pair.now) (tree_at proof.old.nodes s)
        (tree_at proof.old.nodes f) (tree_at proof.old.nodes g) q.hyps) }
{
    let image = expand(alloc, proof, &pair.image, &pair.left, f)?;
    let given = expand(alloc, proof, &pair.given, &pair.right, g)?;
    let line = replaced(alloc, proof, s, image.line, given.line, i)?;
    let related = relate_variables(alloc, proof, pair.relation, image.variable, given.variable)?;
    Ok(Sides {
        related,
        image: image.function,
        given: given.function,
        line,
    })
}

/// From `H |- q`: `H` without `p |- all x y. p --> q`, for the variables of the pair.
fn close_over_both<S: TermStore>(
    alloc: Global,
    proof: &mut Proof<S>,
    pair: &VariablePair,
    p: Id,
    i: usize,
) -> Result<usize, RuleFault>
    requires there { is_some (line_at (sequents proof.old) i) ≡ true }
    requires left { type_fault proof.old.signature pair.now.left ≡ None }
    requires right { type_fault proof.old.signature pair.now.right ≡ None }
    requires p { IsTyped proof.old.signature proof.old.nodes p }
    ensures reaches { Reaches proof.new result (with_line (sequents proof.old) i
        (closed_over_both proof.old.signature (binding_of proof.old.nodes pair.now)
        (tree_at proof.old.nodes p))) }
    ensures carries { Carries proof.old proof.new }
{
    let given = pair.given.copy(alloc)?;
    let right = pair.right.copy(alloc)?;
    let image = pair.image.copy(alloc)?;
    let left = pair.left.copy(alloc)?;
    let implied = match proof.impI(alloc, p, i) {
        Ok(number) => number,
        Err(fault) => return Err(fault),
    };
    let inner = match proof.allI(alloc, given, right, implied) {
        Ok(number) => number,
        Err(fault) => return Err(fault),
    };
    proof.allI(alloc, image, left, inner)
}

/// The type arguments of `rel_fun R S`, where `S f g`.
fn abstraction_types<S: TermStore>(
    alloc: Global,
    proof: &Proof<S>,
    pair: &VariablePair,
    f: Id,
    g: Id,
) -> Result<Tys, Memory>
    requires f { IsTyped proof.now.signature proof.now.nodes f }
    requires g { IsTyped proof.now.signature proof.now.nodes g }
    ensures { IfOk result (λ types. types ≡ abstraction_types proof.now.signature
        (binding_of proof.now.nodes pair.now) (tree_at proof.now.nodes f)
        (tree_at proof.now.nodes g)) }
{
    let image = type_of(alloc, proof, proof.signature(), f)?;
    let given = type_of(alloc, proof, proof.signature(), g)?;
    let types = vec![in alloc;
        pair.left.copy(alloc)?,
        pair.right.copy(alloc)?,
        image,
        given,
    ]?;
    Ok(Tys::from_vec(types))
}

/// From `H |- S f g`: `H` without `R x y |- rel_fun R S (\x. f) (\y. g)`, by the law of the label.
///
/// `MiddleDiffers` where the line hasn't this form; `VariableInHypothesis` where a variable of the
/// pair is free in a hypothesis that stays; then the reasons of the law's instance and of the `mp`.
pub fn abstract_related<S: TermStore>(
    alloc: Global,
    proof: &mut Proof<S>,
    law: &Name,
    pair: &VariablePair,
    i: usize,
) -> Result<usize, RuleFault>
    requires sound { IsSound proof.old }
    requires pair { IsPair proof.old pair.now }
    requires there { is_some (line_at (sequents proof.old) i) ≡ true }
    ensures reaches { Reaches proof.new result (with_line (sequents proof.old) i
        (abstracted_by proof.old.signature (statements proof.old) law.now
        (binding_of proof.old.nodes pair.now))) }
    ensures carries { Carries proof.old proof.new }
{
    let concl = proof.conclusion(i);
    let (s, f, g) = match related_parts(proof, concl) {
        Some(parts) => parts,
        None => return Err(RuleFault::Bad(Reason::MiddleDiffers)),
    };
    let types = abstraction_types(alloc, proof, pair, f, g)?;
    let names = relator_names(alloc)?;
    let made = expand_both(alloc, proof, pair, s, f, g, i)?;
    let premise = match close_over_both(alloc, proof, pair, made.related, made.line) {
        Ok(number) => number,
        Err(fault) => return Err(fault),
    };
    let line = match instance_at(
        alloc,
        proof,
        law,
        names.as_slice(),
        types.as_slice(),
        &[pair.relation, s, made.image, made.given],
    ) {
        Ok(number) => number,
        Err(fault) => return Err(fault),
    };
    proof.mp(alloc, line, premise)
}
