//! Conversions at every place of a term.
ghost use Rattle.std.specs.Prelude.{◌≡◌, ◌<◌, ◌∷◌, Some, true, false, IfOk, IfSome};
ghost use Rattle.lt_formulas.specs.Shapes.{is_application};
ghost use Rattle.lt_store.specs.Trees.{tree_at};
ghost use Rattle.lt_store.specs.Typed.{IsTyped};
ghost use Rattle.lt_kernel.specs.State.{statements};
ghost use Rattle.lt_kernel.specs.Growing.{Carries, IsSound};
ghost use Rattle.lt_derived.specs.Equations.{Equates};
ghost use Rattle.lt_reductions.specs.Reducts.{is_abstraction};
ghost use Rattle.lt_conv.specs.declared.places.Level.TheVariants.{Function, Argument, Body};
ghost use Rattle.lt_conv.specs.declared.places.Place.TheVariants.{Node as AtNode, Line as AtLine};
ghost use Rattle.lt_conv.specs.Everywhere.{everywhere};
ghost use Rattle.lt_conv.specs.Places.{levels_of, IsAtWork, LeadsOn, LeadsOrEnds, moves_left};

use crate::conversion::{Conversion, is_lam};
use crate::places::{Level, Place, Work, keep, known};
use crate::settling::{open, settle_abstraction, settle_application, settle_leaf};
use lt_formulas::{application, is_application};
use lt_hol::{Memory, Name, Ty};
use lt_kernel::Proof;
use lt_store::{Id, TermStore};
use std::alloc::Global;
use std::collections::HashMap;

/// What `inner` gives at every place of a term, the parts of a term before the term that they make.
///
/// The body of an abstraction is opened by the variable `vN` with the least N such that no free
/// variable of it has that name, and closed again.
/// There is always a result. In a store that shares, a node is converted once.
#[derive(Debug, Drop)]
pub struct Everywhere<A> {
    pub inner: A,
}

/// Into the head of an application.
fn enter_application<A: Conversion, S: TermStore>(
    _inner: &A,
    proof: &Proof<S>,
    work: &mut Work,
    id: Id,
) -> Result<Place, Memory>
    requires at { IsAtWork (A.gives _inner.now) proof.now (levels_of work.old) work.old.lines
        (AtNode id) }
    requires application { is_application (tree_at proof.now.nodes id) ≡ true }
    ensures leads { (q : IsAtWork (A.gives _inner.now) proof.now (levels_of work.old)
        work.old.lines (AtNode id)) → IfOk result (LeadsOn (A.gives _inner.now q.named) q.root
        proof.now (levels_of work.new) work.new.lines) }
    ensures less { IfOk result (λ p. moves_left proof.now.nodes (levels_of work.new) p
        < moves_left proof.now.nodes (levels_of work.old) (AtNode id)) }
{
    let (head, _) = application(proof, id);
    work.levels.push(Level::Function(id))?;
    Ok(Place::Node(head))
}

/// Into the body of an abstraction.
fn enter_abstraction<A: Conversion, S: TermStore>(
    alloc: Global,
    _inner: &A,
    proof: &mut Proof<S>,
    work: &mut Work,
    id: Id,
) -> Result<Place, Memory>
    requires at { IsAtWork (A.gives _inner.now) proof.old (levels_of work.old) work.old.lines
        (AtNode id) }
    requires abstraction { is_abstraction (tree_at proof.old.nodes id) ≡ true }
    ensures carries { Carries proof.old proof.new }
    ensures leads { (q : IsAtWork (A.gives _inner.now) proof.old (levels_of work.old)
        work.old.lines (AtNode id)) → IfOk result (LeadsOn (A.gives _inner.now q.named) q.root
        proof.new (levels_of work.new) work.new.lines) }
    ensures less { IfOk result (λ p. moves_left proof.new.nodes (levels_of work.new) p
        < moves_left proof.old.nodes (levels_of work.old) (AtNode id)) }
{
    let (opened, x, ty) = open(alloc, proof, id)?;
    work.levels.push(Level::Body(id, x, ty))?;
    Ok(Place::Node(opened))
}

/// The line of a node without parts.
fn enter_leaf<A: Conversion, S: TermStore>(
    alloc: Global,
    inner: &A,
    proof: &mut Proof<S>,
    work: &mut Work,
    id: Id,
) -> Result<Place, Memory>
    requires at { IsAtWork (A.gives inner.now) proof.old (levels_of work.old) work.old.lines
        (AtNode id) }
    requires application { is_application (tree_at proof.old.nodes id) ≡ false }
    requires abstraction { is_abstraction (tree_at proof.old.nodes id) ≡ false }
    ensures carries { Carries proof.old proof.new }
    ensures leads { (q : IsAtWork (A.gives inner.now) proof.old (levels_of work.old)
        work.old.lines (AtNode id)) → IfOk result (LeadsOn (A.gives inner.now q.named) q.root
        proof.new (levels_of work.new) work.new.lines) }
    ensures less { IfOk result (λ p. moves_left proof.new.nodes (levels_of work.new) p
        < moves_left proof.old.nodes (levels_of work.old) (AtNode id)) }
{
    let line = settle_leaf(alloc, proof, inner, id)?;
    keep(&mut work.lines, id, line)?;
    Ok(Place::Line(line))
}

/// From a node that is still to be converted: its line, or the first of its parts.
fn enter<A: Conversion, S: TermStore>(
    alloc: Global,
    inner: &A,
    proof: &mut Proof<S>,
    work: &mut Work,
    id: Id,
) -> Result<Place, Memory>
    requires { IsAtWork (A.gives inner.now) proof.old (levels_of work.old) work.old.lines
        (AtNode id) }
    ensures carries { Carries proof.old proof.new }
    ensures leads { (q : IsAtWork (A.gives inner.now) proof.old (levels_of work.old)
        work.old.lines (AtNode id)) → IfOk result (LeadsOn (A.gives inner.now q.named) q.root
        proof.new (levels_of work.new) work.new.lines) }
    ensures less { IfOk result (λ p. moves_left proof.new.nodes (levels_of work.new) p
        < moves_left proof.old.nodes (levels_of work.old) (AtNode id)) }
{
    if let Some(line) = known(&work.lines, id) {
        return Ok(Place::Line(line));
    }
    if is_application(proof, id) {
        let place = enter_application(inner, proof, work, id)?;
        return Ok(place);
    }
    if is_lam(proof, id) {
        let place = enter_abstraction(alloc, inner, proof, work, id)?;
        return Ok(place);
    }
    let place = enter_leaf(alloc, inner, proof, work, id)?;
    Ok(place)
}

/// From the head of an application, which is converted, into its argument.
fn enter_argument<A: Conversion, S: TermStore>(
    _inner: &A,
    proof: &Proof<S>,
    work: &mut Work,
    id: Id,
    line: usize,
) -> Result<Place, Memory>
    requires { IsAtWork (A.gives _inner.now) proof.now (Function id ∷ levels_of work.old)
        work.old.lines (AtLine line) }
    ensures leads { (q : IsAtWork (A.gives _inner.now) proof.now
        (Function id ∷ levels_of work.old) work.old.lines (AtLine line)) → IfOk result
        (LeadsOn (A.gives _inner.now q.named) q.root proof.now (levels_of work.new)
        work.new.lines) }
    ensures less { IfOk result (λ p. moves_left proof.now.nodes (levels_of work.new) p
        < moves_left proof.now.nodes (Function id ∷ levels_of work.old) (AtLine line)) }
{
    let (_, argument) = application(proof, id);
    work.levels.push(Level::Argument(id, line))?;
    Ok(Place::Node(argument))
}

/// From the argument of an application, which is converted, to the application.
fn leave_argument<A: Conversion, S: TermStore>(
    alloc: Global,
    inner: &A,
    proof: &mut Proof<S>,
    work: &mut Work,
    id: Id,
    head: usize,
    line: usize,
) -> Result<Place, Memory>
    requires { IsAtWork (A.gives inner.now) proof.old (Argument id head ∷ levels_of work.old)
        work.old.lines (AtLine line) }
    ensures carries { Carries proof.old proof.new }
    ensures leads { (q : IsAtWork (A.gives inner.now) proof.old
        (Argument id head ∷ levels_of work.old) work.old.lines (AtLine line)) → IfOk result
        (LeadsOn (A.gives inner.now q.named) q.root proof.new (levels_of work.new)
        work.new.lines) }
    ensures less { IfOk result (λ p. moves_left proof.new.nodes (levels_of work.new) p
        < moves_left proof.old.nodes (Argument id head ∷ levels_of work.old) (AtLine line)) }
{
    let whole = settle_application(alloc, proof, inner, id, head, line)?;
    keep(&mut work.lines, id, whole)?;
    Ok(Place::Line(whole))
}

/// From the body of an abstraction, which is converted, to the abstraction.
fn leave_body<A: Conversion, S: TermStore>(
    alloc: Global,
    inner: &A,
    proof: &mut Proof<S>,
    work: &mut Work,
    id: Id,
    x: &Name,
    ty: &Ty,
    line: usize,
) -> Result<Place, Memory>
    requires { IsAtWork (A.gives inner.now) proof.old
        (Body id x.now ty.now ∷ levels_of work.old) work.old.lines (AtLine line) }
    ensures carries { Carries proof.old proof.new }
    ensures leads { (q : IsAtWork (A.gives inner.now) proof.old
        (Body id x.now ty.now ∷ levels_of work.old) work.old.lines (AtLine line)) → IfOk result
        (LeadsOn (A.gives inner.now q.named) q.root proof.new (levels_of work.new)
        work.new.lines) }
    ensures less { IfOk result (λ p. moves_left proof.new.nodes (levels_of work.new) p
        < moves_left proof.old.nodes (Body id x.now ty.now ∷ levels_of work.old) (AtLine line)) }
{
    let whole = settle_abstraction(alloc, proof, inner, id, x, ty, line)?;
    keep(&mut work.lines, id, whole)?;
    Ok(Place::Line(whole))
}

/// From a node's line: what is next at the level around it; None where there is none.
fn leave<A: Conversion, S: TermStore>(
    alloc: Global,
    inner: &A,
    proof: &mut Proof<S>,
    work: &mut Work,
    line: usize,
) -> Result<Option<Place>, Memory>
    requires { IsAtWork (A.gives inner.now) proof.old (levels_of work.old) work.old.lines
        (AtLine line) }
    ensures carries { Carries proof.old proof.new }
    ensures leads { (q : IsAtWork (A.gives inner.now) proof.old (levels_of work.old)
        work.old.lines (AtLine line)) → IfOk result (LeadsOrEnds (A.gives inner.now q.named)
        q.root proof.new (levels_of work.new) work.new.lines line) }
    ensures less { IfOk result (λ o. IfSome o (λ p. moves_left proof.new.nodes (levels_of work.new) p
        < moves_left proof.old.nodes (levels_of work.old) (AtLine line))) }
{
    match work.levels.pop() {
        None => Ok(None),
        Some(Level::Function(id)) => {
            let place = enter_argument(inner, proof, work, id, line)?;
            Ok(Some(place))
        }
        Some(Level::Argument(id, head)) => {
            let place = leave_argument(alloc, inner, proof, work, id, head, line)?;
            Ok(Some(place))
        }
        Some(Level::Body(id, x, ty)) => {
            let place = leave_body(alloc, inner, proof, work, id, &x, &ty, line)?;
            Ok(Some(place))
        }
    }
}

/// The line of a term, converted at every place.
fn convert_everywhere<A: Conversion, S: TermStore>(
    alloc: Global,
    inner: &A,
    proof: &mut Proof<S>,
    t: Id,
) -> Result<usize, Memory>
    requires t { IsTyped proof.old.signature proof.old.nodes t }
    requires sound { IsSound proof.old }
    ensures carries { Carries proof.old proof.new }
    ensures line { IfOk result (λ n. Equates proof.new n (tree_at proof.old.nodes t)
        (everywhere (A.gives inner.now (statements proof.old)) (tree_at proof.old.nodes t))) }
{
    let levels = Vec::new(alloc);
    let lines = HashMap::new(alloc);
    let mut work = Work { levels, lines };
    let mut place = Place::Node(t);
    loop {
        match place {
            Place::Node(id) => {
                let next = enter(alloc, inner, proof, &mut work, id)?;
                place = next;
                continue;
            }
            Place::Line(line) => {
                let behind = leave(alloc, inner, proof, &mut work, line)?;
                match behind {
                    Some(next) => {
                        place = next;
                        continue;
                    }
                    None => return Ok(line),
                }
            }
        }
    }
}

impl<A: Conversion> Conversion for Everywhere<A> {
    ghost gives = { λ c named t. Some (everywhere (A.gives c.inner named) t) };

    fn convert<S: TermStore>(
        &self,
        alloc: Global,
        proof: &mut Proof<S>,
        t: Id,
    ) -> Result<Option<usize>, Memory> {
        let line = convert_everywhere(alloc, &self.inner, proof, t)?;
        Ok(Some(line))
    }
}
