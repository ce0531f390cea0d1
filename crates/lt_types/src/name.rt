//! Names, as texts that their copies share.
ghost use Rattle.std.specs.Prelude.{◌≡◌, ◌+◌, length, IfOk, MatchOption, IsTrue, nat_eq, nat_lt, true, false, replicate, if◌then◌else◌};
ghost use Rattle.std.specs.Char.{is_ascii_alphabetic};
ghost use Rattle.std.specs.List.{list_all};
ghost use Rattle.std.specs.Str.{chars, encode_utf8_all};
ghost use Rattle.std.specs.Cmp.{partial_equiv_from_equiv, partial_order_from_own_ties};
ghost use Rattle.std.specs.Cmp.Lexicographic.{pointwise, slice_cmp};
ghost use Rattle.std.specs.Cmp.Rules.{comparing, hashing};
ghost use Rattle.std.specs.Ordering.{nat_cmp, as_partial_cmp};
ghost use Rattle.std.specs.Hash as fed;
ghost use Rattle.std.proofs.Common.{rules};
ghost use Rattle.std.proofs.lemmas.Cmp.{nat_list_eq_equiv, nat_list_cmp_total};
ghost use Rattle.unicode_ident.specs.Ident.{is_xid_continue};
ghost use Rattle.lt_definitions.specs.Characters.{is_name, starts_name};
ghost use Rattle.lt_definitions.specs.Types.{same_name};

use crate::list::TryCopy;
use crate::memory::Memory;
use std::alloc::Global;
use std::cmp::Ordering;
use std::hash::{Hash, Hasher};
use std::marker::Model;
use std::rc::Rc;
use unicode_ident::{is_xid_continue, is_xid_start};

/// A name, which contracts see as its list of characters. A copy shares the text and takes constant
/// time.
#[derive(Debug, Drop)]
pub struct Name {
    text: Rc<String>,
}

impl Model for Name {
    ghost use Rattle.std.specs.Prelude.{◌≡◌, List, ℕ, true, string_bytes};
    ghost use Rattle.std.specs.Coded.{coded_list, coded_ℕ};
    ghost use Rattle.std.specs.Str.{chars};

    ghost Value = { List ℕ };

    ghost coded = { coded_list coded_ℕ };

    ghost view = { λ n. chars (string_bytes n.text.value) };

    ghost use Rattle.lt_definitions.specs.Characters.{is_name};

    ghost invariant = { λ n. is_name (chars (string_bytes n.text.value)) ≡ true };
}

impl Name {
    /// The name that the text is, if it is one.
    pub fn new(alloc: Global, text: &str) -> Result<Option<Name>, Memory>
        ensures { IfOk result (λ o. MatchOption o (is_name (chars text.now) ≡ false)
            (λ n. (n ≡ chars text.now) × (is_name n ≡ true))) }
    {
        if is_name(text) {
            Ok(Some(Name::word(alloc, text)?))
        } else {
            Ok(None)
        }
    }

    /// The name that the text is; the text has to be one.
    pub fn word(alloc: Global, text: &str) -> Result<Name, Memory>
        requires { is_name (chars text.now) ≡ true }
        ensures { IfOk result (λ n. n ≡ chars text.now) }
    {
        Ok(Name {
            text: Rc::new(alloc, String::from_str(alloc, text)?)?,
        })
    }

    /// The name that is one letter, `more` times and once.
    pub fn repeated(alloc: Global, letter: char, more: usize) -> Result<Name, Memory>
        requires { is_ascii_alphabetic letter ≡ true }
        ensures { IfOk result (λ n. n ≡ replicate (more + 1) letter) }
    {
        let mut text = String::new(alloc);
        text.push(letter)?;
        for _ in 0..more {
            text.push(letter)?;
        }
        Ok(Name::word(alloc, text.as_str())?)
    }

    /// Whether the name is that word of ASCII characters.
    pub fn is_word(&self, word: &str) -> bool
        requires { IsTrue (list_all (λ c. nat_lt c 128) word.now) }
        ensures { result ≡ same_name self.now word.now }
    {
        self.text() == word
    }

    /// How many characters the name has.
    pub fn len(&self) -> usize
        ensures { result ≡ length self.now }
    {
        self.text().chars().count()
    }

    /// The name's characters.
    pub fn text(&self) -> &str
        ensures same { chars result.now ≡ self.now }
        ensures name { is_name self.now ≡ true }
    {
        self.text.as_ref().as_str()
    }
}

/// Whether the text is a name: a character that may start an identifier or an underscore,
/// then characters that may continue an identifier.
pub fn is_name(text: &str) -> bool
    ensures { result ≡ is_name (chars text.now) }
{
    let mut first = true;
    for c in text.chars() {
        if !may_stand(first, c) {
            return false;
        }
        first = false;
    }
    !first
}

impl TryCopy for Name {
    fn copy(&self, _alloc: Global) -> Result<Name, Memory> {
        Ok(Name {
            text: self.text.clone()?,
        })
    }
}

impl PartialEq for Name {
    ghost eq = { λ a b. pointwise nat_eq a b };

    ghost laws = { partial_equiv_from_equiv nat_list_eq_equiv };

    fn eq(&self, other: &Name) -> bool {
        self.text() == other.text()
    }
}

impl Eq for Name {
    ghost laws = { nat_list_eq_equiv };
}

impl Ord for Name {
    ghost cmp = { slice_cmp nat_cmp };

    ghost total = { nat_list_cmp_total };

    ghost matches_partial_cmp = { Prim.search (comparing, rules) };

    ghost matches_eq = { Prim.search (comparing, rules) };

    fn cmp(&self, other: &Name) -> Ordering {
        self.text().chars().cmp(other.text().chars())
    }
}

impl PartialOrd for Name {
    ghost partial_cmp = { as_partial_cmp (slice_cmp nat_cmp) };

    ghost laws = { partial_order_from_own_ties (Prim.search (comparing, rules)) (Prim.search (comparing, rules)) };

    fn partial_cmp(&self, other: &Name) -> Option<Ordering> {
        Some(self.cmp(other))
    }
}

impl Hash for Name {
    ghost hash_input = { λ a. fed.str (encode_utf8_all a) };

    ghost respects_eq = { Prim.search (hashing, rules) };

    fn hash<H: Hasher>(&self, state: &mut H) {
        self.text().hash(state);
    }
}

/// Whether a character may stand in a name, first or later.
fn may_stand(first: bool, c: char) -> bool
    ensures { result ≡ (if first then starts_name c else is_xid_continue c) }
{
    if first {
        is_xid_start(c) || c == '_'
    } else {
        is_xid_continue(c)
    }
}
