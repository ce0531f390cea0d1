//! Conversions: each equates a term with its result.
ghost use Rattle.std.specs.Prelude.{◌≡◌, ◌<◌, List, Option, None, length, is_some, IfOk};
ghost use Rattle.lt_definitions.specs.Types.{Chars};
ghost use Rattle.lt_nameless.specs.Nameless.{Nameless};
ghost use Rattle.lt_nameless.specs.NamelessRules.{nameless_beta};
ghost use Rattle.lt_store.specs.Trees.{tree_at};
ghost use Rattle.lt_store.specs.Typed.{IsTyped};
ghost use Rattle.lt_kernel.specs.State.{statements};
ghost use Rattle.lt_reductions.specs.Reducts.{is_abstraction};
ghost use Rattle.lt_kernel.specs.Growing.{Carries, IsSound};
ghost use Rattle.lt_conv.specs.Conversions.{Converts, and_then, or_else};

use lt_derived::equations::{beta, right, trans};
use lt_hol::Memory;
use lt_kernel::Proof;
use lt_store::{Id, TermStore, View};
use std::alloc::Global;

/// What equates a term with its result, by a derivation over any store.
pub trait Conversion {
    /// The result, from the named statements and the term.
    ghost gives: { Self → List (Chars × Nameless) → Nameless → Option Nameless };

    /// The number of a line without hypotheses that equates the term with its result; None exactly where there is no result.
    fn convert<S: TermStore>(
        &self,
        alloc: Global,
        proof: &mut Proof<S>,
        t: Id,
    ) -> Result<Option<usize>, Memory>
        requires t { IsTyped proof.old.signature proof.old.nodes t }
        requires sound { IsSound proof.old }
        ensures carries { Carries proof.old proof.new }
        ensures converts { IfOk result (Converts proof.new (tree_at proof.old.nodes t)
            (gives self.now (statements proof.old) (tree_at proof.old.nodes t))) };
}

/// Whether a term is an abstraction that is applied.
pub(crate) fn is_redex<S: TermStore>(store: &S, t: Id) -> bool
    requires { t < length (S.nodes store.now) }
    ensures { result ≡ is_some (nameless_beta (tree_at (S.nodes store.now) t)) }
{
    match store.view(t) {
        View::App(f, _) => is_lam(store, f),
        _ => false,
    }
}

/// Whether a term is an abstraction.
pub(crate) fn is_lam<S: TermStore>(store: &S, t: Id) -> bool
    requires { t < length (S.nodes store.now) }
    ensures { result ≡ is_abstraction (tree_at (S.nodes store.now) t) }
{
    match store.view(t) {
        View::Lam(_, _) => true,
        _ => false,
    }
}

/// The opened body of a redex.
#[derive(Debug, Drop)]
pub struct Beta;

impl Conversion for Beta {
    ghost gives = { λ c named t. nameless_beta t };

    fn convert<S: TermStore>(
        &self,
        alloc: Global,
        proof: &mut Proof<S>,
        t: Id,
    ) -> Result<Option<usize>, Memory> {
        if is_redex(proof.store(), t) {
            let line = beta(alloc, proof, t)?;
            Ok(Some(line))
        } else {
            Ok(None)
        }
    }
}

/// What `second` gives for what `first` gives.
#[derive(Debug, Drop)]
pub struct Then<A, B> {
    pub first: A,
    pub second: B,
}

impl<A: Conversion, B: Conversion> Conversion for Then<A, B> {
    ghost gives = { λ c named t. and_then (A.gives c.first named t) (B.gives c.second named) };

    fn convert<S: TermStore>(
        &self,
        alloc: Global,
        proof: &mut Proof<S>,
        t: Id,
    ) -> Result<Option<usize>, Memory> {
        let Some(first) = self.first.convert(alloc, proof, t)? else {
            return Ok(None);
        };
        let middle = right(proof, first);
        let Some(second) = self.second.convert(alloc, proof, middle)? else {
            return Ok(None);
        };
        let line = trans(alloc, proof, first, second)?;
        Ok(Some(line))
    }
}

/// What `first` gives, else what `second` gives.
#[derive(Debug, Drop)]
pub struct OrElse<A, B> {
    pub first: A,
    pub second: B,
}

impl<A: Conversion, B: Conversion> Conversion for OrElse<A, B> {
    ghost gives = { λ c named t. or_else (A.gives c.first named t) (B.gives c.second named t) };

    fn convert<S: TermStore>(
        &self,
        alloc: Global,
        proof: &mut Proof<S>,
        t: Id,
    ) -> Result<Option<usize>, Memory> {
        if let Some(line) = self.first.convert(alloc, proof, t)? {
            return Ok(Some(line));
        }
        let line = self.second.convert(alloc, proof, t)?;
        Ok(line)
    }
}
