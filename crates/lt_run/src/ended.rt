//! What comes of a call.
ghost use Rattle.std.specs.Prelude.{◌≡◌, []};

use lt_hol::{Items, List};
use std::alloc::Global;

/// What comes of a call: the status, and the accepted items with the lines of their lemmas.
#[derive(Debug, Drop)]
pub struct Ended {
    pub status: u8,
    pub items: Items,
}

/// A status without items.
pub(crate) fn without_items(alloc: Global, status: u8) -> Ended
    ensures status { result.status ≡ status }
    ensures items { result.items ≡ [] }
{
    Ended {
        status,
        items: List::new(alloc),
    }
}
