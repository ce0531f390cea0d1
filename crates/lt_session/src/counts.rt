//! How many items there are, by kind.
ghost use Rattle.std.specs.Prelude.{◌≡◌, map, length};
ghost use Rattle.lt_hol.specs.Items.{item_of};
ghost use Rattle.lt_session.specs.Counts.{counts_of};

use lt_hol::Item;

/// How many items there are, and how many of them are axioms and lemmas.
#[derive(Clone, Copy)]
pub struct Counts {
    pub items: usize,
    pub axioms: usize,
    pub lemmas: usize,
}

/// The counts of some items. It takes time linear in their number.
pub fn count(items: &[Item]) -> Counts
    ensures { result ≡ counts_of (map item_of items.now) }
{
    let mut counts = Counts {
        items: items.len(),
        axioms: 0,
        lemmas: 0,
    };
    for item in items {
        match item {
            Item::Axiom(_, _) => counts.axioms += 1,
            Item::Lemma(_, _, _) => counts.lemmas += 1,
            _ => {}
        }
    }
    counts
}
