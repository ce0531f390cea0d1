//! Sequents and lines, by the ids of their terms.
ghost use Rattle.std.specs.Prelude.{◌≡◌, []};

use lt_hol::{Ids, Line};
use lt_store::Id;
use std::alloc::Global;

/// Hypotheses and a conclusion, by their ids in a store.
#[derive(Debug, Drop)]
pub struct Sequent {
    pub hyps: Ids,
    pub concl: Id,
}

impl Sequent {
    /// A conclusion under no hypotheses.
    pub(crate) fn without_hyps(alloc: Global, concl: Id) -> Sequent
        ensures { result ≡ record { hyps = []; concl = concl } }
    {
        Sequent {
            hyps: Ids::new(alloc),
            concl,
        }
    }
}

/// A line of a derivation, and the sequent that its rule gave.
#[derive(Debug, Drop)]
pub struct Step {
    pub line: Line,
    pub sequent: Sequent,
}
