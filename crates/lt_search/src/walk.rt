//! The walk over the prefixes of choice lists, in their order, down to the first whole one that has a solution.
ghost use Rattle.std.specs.Prelude.{◌≡◌, ◌↔◌, ◌<◌, ℕ, List, [], ◌∷◌, ◌++◌, IfOk, IsErrOf, IsTrue, MatchOption};
ghost use Rattle.std.specs.Bool.{OnTrue, OnFalse};
ghost use Rattle.lt_transport_definitions.specs.Search.{Question, Solution, IsWhole, HasNoImage, HasMoreVisits};
ghost use Rattle.lt_search_laws.specs.Walk.{IsSound};
ghost use Rattle.lt_search.specs.Walks.{IsNext, IsBack, IsFirst};

use lt_hol::Memory;
use std::alloc::Global;

/// Why a walk finds no choice list.
#[derive(Debug, Drop)]
pub enum WalkFault {
    /// None has a solution.
    NoAnswer,
    /// There are more visits than the limit.
    Limit,
    /// Want of memory.
    Memory,
}

/// A live prefix of a choice list, which grows and shrinks at its end.
pub trait Prefixes: Drop {
    /// What is asked.
    ghost question: { Self → Question };

    /// The prefix.
    ghost choices: { Self → List ℕ };

    /// How many candidates the place behind the prefix has: none behind a whole list.
    fn candidates(&self) -> usize
        ensures { (i : ℕ) → (i < result) ↔ IsNext (question self.now) (choices self.now) i };

    /// Whether the prefix is a whole list.
    fn is_whole(&self) -> bool
        ensures { IsTrue result ↔ IsWhole (question self.now) (choices self.now) };

    /// Adds a candidate of the place behind the prefix, where the prefix then has a solution, and tells whether it has.
    fn add(&mut self, alloc: Global, candidate: usize) -> Result<bool, Memory>
        requires { IsNext (question self.old) (choices self.old) candidate }
        ensures asked { question self.new ≡ question self.old }
        ensures live { IfOk result (λ b. OnTrue b (Solution (question self.old) (choices self.old ++ candidate ∷ []))) }
        ensures dead { IfOk result (λ b. OnFalse b (Solution (question self.old) (choices self.old ++ candidate ∷ []) → ⊥)) }
        ensures longer { IfOk result (λ b. OnTrue b (choices self.new ≡ choices self.old ++ candidate ∷ [])) }
        ensures kept { IfOk result (λ b. OnFalse b (choices self.new ≡ choices self.old)) };

    /// Takes the last candidate away, and tells the number behind it, or None where the prefix is empty.
    fn back(&mut self) -> Option<usize>
        ensures asked { question self.new ≡ question self.old }
        ensures back { MatchOption result (choices self.old ≡ []) (λ n. IsBack (question self.old) (choices self.old) (choices self.new) n) };
}

/// Goes to the first whole choice list that has a solution, and tells how many prefixes were visited.
///
/// Each visit is one call of `add`, and there are at most as many calls of `back`.
pub fn first_answer<P: Prefixes>(
    alloc: Global,
    prefixes: &mut P,
    limit: u64,
) -> Result<u64, WalkFault>
    requires sound { IsSound (P.question prefixes.old) }
    requires start { P.choices prefixes.old ≡ [] }
    ensures asked { IfOk result (λ n. P.question prefixes.new ≡ P.question prefixes.old) }
    ensures found { IfOk result (λ n. IsFirst (P.question prefixes.old) (P.choices prefixes.new) limit n) }
    ensures none { IsErrOf result WalkFault.NoAnswer → HasNoImage (P.question prefixes.old) limit }
    ensures limit { IsErrOf result WalkFault.Limit → HasMoreVisits (P.question prefixes.old) limit }
{
    let mut visits = 0;
    let mut next = 0;
    'walk: loop {
        if next >= prefixes.candidates() {
            match prefixes.back() {
                Some(later) => {
                    next = later;
                    continue;
                }
                None => return Err(WalkFault::NoAnswer),
            }
        }
        if visits >= limit {
            return Err(WalkFault::Limit);
        }
        visits += 1;
        let live = match prefixes.add(alloc, next) {
            Ok(live) => live,
            Err(_) => return Err(WalkFault::Memory),
        };
        if live {
            if prefixes.is_whole() {
                return Ok(visits);
            }
            next = 0;
            continue;
        }
        next += 1;
    }
}
