//! A node whose parts were converted, and its parts.
ghost use Rattle.std.specs.Prelude.{◌≡◌, ◌<◌, List, length, true, false, IfOk};
ghost use Rattle.lt_definitions.specs.Types.{Chars};
ghost use Rattle.lt_nameless.specs.Nameless.{Nameless, nameless_abstraction};
ghost use Rattle.lt_formulas.specs.Shapes.{is_application};
ghost use Rattle.lt_store.specs.Trees.{tree_at};
ghost use Rattle.lt_store.specs.Typed.{IsTyped};
ghost use Rattle.lt_kernel.specs.State.{statements};
ghost use Rattle.lt_kernel.specs.Growing.{Carries, IsSound};
ghost use Rattle.lt_reductions.specs.Reducts.{is_abstraction};
ghost use Rattle.lt_derived.specs.Equations.{Equates, IsEquation};
ghost use Rattle.lt_conv.specs.Everywhere.{settled, everywhere};
ghost use Rattle.lt_conv.specs.Places.{IsBodyOf};
ghost use Rattle.lt_conv.specs.Settling.{HasParts, HasBody};

use crate::conversion::Conversion;
use crate::new_names::least_new_name;
use lt_derived::equations::{abs, cong, refl, right, trans};
use lt_hol::{Memory, Name, TryCopy, Ty};
use lt_kernel::Proof;
use lt_store::{Id, TermStore, View};
use std::alloc::Global;

/// From `t = u`: `t = r`, where the conversion gives r for u; else the line itself.
fn settle<A: Conversion, S: TermStore>(
    alloc: Global,
    proof: &mut Proof<S>,
    inner: &A,
    line: usize,
) -> Result<usize, Memory>
    requires line { IsEquation proof.old line }
    requires sound { IsSound proof.old }
    ensures carries { Carries proof.old proof.new }
    ensures line { (named : List (Chars × Nameless)) → statements proof.old ≡ named
        → (q : IsEquation proof.old line) → IfOk result
        (λ n. Equates proof.new n q.from (settled (A.gives inner.now named) q.to)) }
{
    let made = right(proof, line);
    match inner.convert(alloc, proof, made)? {
        Some(second) => {
            let whole = trans(alloc, proof, line, second)?;
            Ok(whole)
        }
        None => Ok(line),
    }
}

/// A node without parts, converted.
pub(crate) fn settle_leaf<A: Conversion, S: TermStore>(
    alloc: Global,
    proof: &mut Proof<S>,
    inner: &A,
    id: Id,
) -> Result<usize, Memory>
    requires typed { IsTyped proof.old.signature proof.old.nodes id }
    requires application { is_application (tree_at proof.old.nodes id) ≡ false }
    requires abstraction { is_abstraction (tree_at proof.old.nodes id) ≡ false }
    requires sound { IsSound proof.old }
    ensures carries { Carries proof.old proof.new }
    ensures line { (named : List (Chars × Nameless)) → statements proof.old ≡ named
        → IfOk result (λ n. Equates proof.new n (tree_at proof.old.nodes id)
        (everywhere (A.gives inner.now named) (tree_at proof.old.nodes id))) }
{
    let line = refl(alloc, proof, id)?;
    let settled = settle(alloc, proof, inner, line)?;
    Ok(settled)
}

/// An application, from the lines of its head and its argument.
pub(crate) fn settle_application<A: Conversion, S: TermStore>(
    alloc: Global,
    proof: &mut Proof<S>,
    inner: &A,
    id: Id,
    head: usize,
    argument: usize,
) -> Result<usize, Memory>
    requires parts { HasParts (A.gives inner.now) proof.old id head argument }
    requires sound { IsSound proof.old }
    ensures carries { Carries proof.old proof.new }
    ensures line { (q : HasParts (A.gives inner.now) proof.old id head argument)
        → IfOk result (λ n. Equates proof.new n (tree_at proof.old.nodes id)
        (everywhere (A.gives inner.now q.named) (tree_at proof.old.nodes id))) }
{
    let both = cong(alloc, proof, head, argument)?;
    let settled = settle(alloc, proof, inner, both)?;
    Ok(settled)
}

/// An abstraction, from the line of its body, which was opened by that variable.
pub(crate) fn settle_abstraction<A: Conversion, S: TermStore>(
    alloc: Global,
    proof: &mut Proof<S>,
    inner: &A,
    id: Id,
    x: &Name,
    ty: &Ty,
    body: usize,
) -> Result<usize, Memory>
    requires body { HasBody (A.gives inner.now) proof.old id x.now ty.now body }
    requires sound { IsSound proof.old }
    ensures carries { Carries proof.old proof.new }
    ensures line { (q : HasBody (A.gives inner.now) proof.old id x.now ty.now body)
        → IfOk result (λ n. Equates proof.new n (tree_at proof.old.nodes id)
        (everywhere (A.gives inner.now q.named) (tree_at proof.old.nodes id))) }
{
    let closed = abs(alloc, proof, x, ty, body)?;
    let settled = settle(alloc, proof, inner, closed)?;
    Ok(settled)
}

/// The type and the body of an abstraction.
fn abstraction_parts<S: TermStore>(alloc: Global, store: &S, t: Id) -> Result<(Ty, Id), Memory>
    requires t { t < length (S.nodes store.now) }
    requires abstraction { is_abstraction (tree_at (S.nodes store.now) t) ≡ true }
    ensures within { IfOk result (λ r. r.1 < length (S.nodes store.now)) }
    ensures is { IfOk result (λ r. tree_at (S.nodes store.now) t
        ≡ nameless_abstraction r.0 (tree_at (S.nodes store.now) r.1)) }
{
    match store.view(t) {
        View::Lam(ty, body) => Ok((ty.copy(alloc)?, body)),
        _ => unreachable!(),
    }
}

/// The body of an abstraction, opened by the new variable with the least number.
pub(crate) fn open<S: TermStore>(
    alloc: Global,
    proof: &mut Proof<S>,
    id: Id,
) -> Result<(Id, Name, Ty), Memory>
    requires typed { IsTyped proof.old.signature proof.old.nodes id }
    requires abstraction { is_abstraction (tree_at proof.old.nodes id) ≡ true }
    ensures carries { Carries proof.old proof.new }
    ensures typed { IfOk result (λ r. IsTyped proof.new.signature proof.new.nodes r.0) }
    ensures opened { IfOk result (λ r. IsBodyOf proof.new id r.1 r.2
        (tree_at proof.new.nodes r.0)) }
{
    let (ty, body) = abstraction_parts(alloc, proof, id)?;
    let x = least_new_name(alloc, proof, body)?;
    let name = x.copy(alloc)?;
    let of = ty.copy(alloc)?;
    let variable = proof.mk_free(alloc, name, of)?;
    let opened = proof.instantiate(alloc, body, variable)?;
    Ok((opened, x, ty))
}
