//! Proofs are sound where what they stand on is.
ghost use Rattle.std.specs.List.{All};
ghost use Rattle.lt_nameless.specs.Booleans.{IsSoundSignature};
ghost use Rattle.lt_nameless.specs.NamelessRules.{IsBooleanNameless};
ghost use Rattle.lt_kernel.specs.State.{statements};
ghost use Rattle.lt_kernel.specs.Growing.{IsSound};

use lt_kernel::Proof;
use lt_store::TermStore;

/// A proof over sound declarations and boolean statements is sound, since each of its lines was
/// derived. The call does nothing: a caller that is lent the proof of a theory learns by it what the
/// calls here ask for.
pub fn sound<S: TermStore>(proof: &Proof<S>)
    requires signature { IsSoundSignature proof.now.signature }
    requires statements { All (λ p. IsBooleanNameless proof.now.signature p.1)
        (statements proof.now) }
    ensures { IsSound proof.now }
{
    let _ = proof.steps();
}
