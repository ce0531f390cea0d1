//! Bodies opened by new variables.
ghost use Rattle.std.specs.Prelude.{◌≡◌, ◌<◌, false, length, IfOk};
ghost use Rattle.lt_definitions.specs.Types.{TypeTree};
ghost use Rattle.lt_nameless.specs.Nameless.{nameless_free, nameless_application};
ghost use Rattle.lt_nameless.specs.NamelessRules.{nameless_has_free};
ghost use Rattle.lt_store.specs.Trees.{tree_at};
ghost use Rattle.lt_store.specs.Views.{node_of};
ghost use Rattle.lt_kernel.specs.Growing.{Carries};
ghost use Rattle.lt_reductions.specs.Reducts.{IsShort};
ghost use Rattle.lt_derived.specs.Equations.{Stands};
ghost use Rattle.lt_conv.specs.Conversions.{IsUnder, node_length, IsOpened};

use lt_derived::equations::{beta, refl, right};
use lt_derived::type_lengths::push_children;
use lt_hol::{Memory, Name, TryCopy, Ty};
use lt_kernel::Proof;
use lt_store::{Id, TermStore, View};
use std::alloc::Global;

/// The length of a free variable's name.
fn name_length(view: View<'_>) -> usize
    ensures { result ≡ node_length (node_of view.entry) }
{
    match view {
        View::Free(name, _) => name.len(),
        _ => 0,
    }
}

/// The greatest length of a free variable's name.
///
/// It walks the term as a tree where the store doesn't know.
pub(crate) fn longest<S: TermStore>(alloc: Global, store: &S, t: Id) -> Result<usize, Memory>
    requires { t < length (S.nodes store.now) }
    ensures { IfOk result (λ n. IsShort n (tree_at (S.nodes store.now) t)) }
{
    if let Some(known) = store.bounds(t) {
        return Ok(known.names);
    }
    let mut todo: Vec<Id> = Vec::new(alloc);
    todo.push(t)?;
    let mut longest: usize = 0;
    while let Some(id) = todo.pop() {
        let view = store.view(id);
        longest = longest.max(name_length(view));
        push_children(&mut todo, view)?;
    }
    Ok(longest)
}

/// A name that no free variable of a term has, and that is longer than the floor.
fn new_name<S: TermStore>(alloc: Global, store: &S, t: Id, floor: usize) -> Result<Name, Memory>
    requires { t < length (S.nodes store.now) }
    ensures new { IfOk result (λ x. (ty : TypeTree)
        → nameless_has_free x ty (tree_at (S.nodes store.now) t) ≡ false) }
    ensures long { IfOk result (λ x. floor < length x) }
{
    let longest = longest(alloc, store, t)?.max(floor);
    let name = Name::repeated(alloc, 't', longest)?;
    Ok(name)
}

/// The type and the body of an abstraction that is a right side.
fn under<S: TermStore>(alloc: Global, proof: &Proof<S>, i: usize) -> Result<(Ty, Id), Memory>
    requires { IsUnder proof.now i }
    ensures ty { (q : IsUnder proof.now i) → IfOk result (λ r. r.0 ≡ q.ty) }
    ensures body { (q : IsUnder proof.now i) → IfOk result (λ r. Stands proof.now r.1 q.b) }
{
    match proof.sequent(i) {
        Some(sequent) => match proof.store().view(sequent.concl) {
            View::App(_, to) => match proof.store().view(to) {
                View::Lam(ty, body) => Ok((ty.copy(alloc)?, body)),
                _ => unreachable!(),
            },
            _ => unreachable!(),
        },
        None => unreachable!(),
    }
}

/// A term applied to a free variable.
fn at_variable<S: TermStore>(
    alloc: Global,
    proof: &mut Proof<S>,
    t: Id,
    x: &Name,
    ty: &Ty,
) -> Result<Id, Memory>
    requires { t < length proof.old.nodes }
    ensures carries { Carries proof.old proof.new }
    ensures made { IfOk result (λ r. Stands proof.new r (nameless_application (tree_at proof.old.nodes t) (nameless_free x.now ty.now))) }
{
    let x = x.copy(alloc)?;
    let ty = ty.copy(alloc)?;
    let variable = proof.mk_free(alloc, x, ty)?;
    let applied = proof.mk_app(alloc, t, variable)?;
    Ok(applied)
}

/// From `s = \x. b`: `b = b`, with b opened by a new variable.
pub(crate) fn open_body<S: TermStore>(
    alloc: Global,
    proof: &mut Proof<S>,
    i: usize,
    floor: usize,
) -> Result<(usize, Name, Ty), Memory>
    requires { IsUnder proof.old i }
    ensures carries { Carries proof.old proof.new }
    ensures opened { (q : IsUnder proof.old i) → IfOk result (λ r. IsOpened proof.new q.ty q.b r.0 floor r.1 r.2) }
{
    let t = right(proof, i);
    let (ty, body) = under(alloc, proof, i)?;
    let x = new_name(alloc, proof, body, floor)?;
    let redex = at_variable(alloc, proof, t, &x, &ty)?;
    let opened = beta(alloc, proof, redex)?;
    let place = right(proof, opened);
    let line = refl(alloc, proof, place)?;
    Ok((line, x, ty))
}
