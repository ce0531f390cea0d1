//! The words of a text, each with the name that was made for it.
ghost use Rattle.std.specs.Prelude.{◌≡◌, true, chars, IfOk};
ghost use Rattle.lt_definitions.specs.Characters.{is_name};
ghost use Rattle.lt_script.specs.Words.{IsFound};

use lt_types::{Memory, Name, TryCopy};
use std::alloc::Global;

/// The words that were met, each with its name. What is asked for again is a copy, which shares
/// the text of the first.
///
/// The slots are a table with open addressing. Each has 0, or one more than the place of a name.
#[derive(Drop)]
pub struct KnownWords {
    names: Vec<Name>,
    slots: Vec<usize>,
}

/// Where the search for a word ends: at its name, or at a slot that is free.
#[derive(Clone, Copy, Debug)]
pub enum Found<'a> {
    Known(&'a Name),
    Free(usize),
}

impl KnownWords {
    /// No words yet.
    pub fn new(alloc: Global) -> KnownWords {
        KnownWords {
            names: Vec::new(alloc),
            slots: Vec::new(alloc),
        }
    }

    /// The name that the text is. It takes time in the text's length, in the mean.
    pub fn name(&mut self, alloc: Global, text: &str) -> Result<Name, Memory>
        requires { is_name (chars text.now) ≡ true }
        ensures { IfOk result (λ n. n ≡ chars text.now) }
    {
        match self.find(text) {
            Found::Known(name) => Ok(name.copy(alloc)?),
            Found::Free(slot) => Ok(self.add(alloc, slot, text)?),
        }
    }

    /// The text's name, or the slot in which it is to stand.
    fn find(&self, text: &str) -> Found<'_>
        ensures { IsFound text.now result }
    {
        let count = self.slots.len();
        let last = count.wrapping_sub(1);
        let mut slot = hash(text) & last;
        for _ in 0..count {
            let Some(place) = self.slots.get(slot) else {
                return Found::Free(slot);
            };
            let Some(name) = self.names.get(place.wrapping_sub(1)) else {
                return Found::Free(slot);
            };
            if name.text() == text {
                return Found::Known(name);
            }
            slot = slot.wrapping_add(1) & last;
        }
        Found::Free(slot)
    }

    /// Adds a text that doesn't stand there, and answers its name.
    fn add(&mut self, alloc: Global, slot: usize, text: &str) -> Result<Name, Memory>
        requires { is_name (chars text.now) ≡ true }
        ensures { IfOk result (λ n. n ≡ chars text.now) }
    {
        let name = Name::word(alloc, text)?;
        self.names.push(name.copy(alloc)?)?;
        if self.names.len() > self.slots.len() / 2 {
            self.spread(alloc)?;
        } else if let Some(place) = self.slots.get_mut(slot) {
            *place = self.names.len();
        }
        Ok(name)
    }

    /// Puts all names into twice as many slots.
    fn spread(&mut self, alloc: Global) -> Result<(), Memory> {
        let count = if self.slots.is_empty() {
            64
        } else {
            self.slots.len().saturating_mul(2)
        };
        self.slots = vec![in alloc; 0; count]?;
        for place in 0..self.names.len() {
            self.settle(place);
        }
        Ok(())
    }

    /// Puts the name at a place into its slot.
    fn settle(&mut self, place: usize) {
        let Some(name) = self.names.get(place) else {
            return;
        };
        if let Found::Free(slot) = self.find(name.text()) {
            if let Some(free) = self.slots.get_mut(slot) {
                *free = place.wrapping_add(1);
            }
        }
    }
}

/// A number that the text determines.
fn hash(text: &str) -> usize {
    let mut hash: usize = 5381;
    for byte in text.as_bytes() {
        hash = (hash ^ *byte as usize).wrapping_mul(16_777_619);
    }
    hash ^ (hash >> 15)
}
