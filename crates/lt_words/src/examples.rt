//! Words that are accepted, and words that aren't. The functions do nothing: their contracts are
//! the rows.
ghost use Rattle.std.specs.Prelude.{◌≡◌, ◌∷◌, [], Some, None, true, false, codes};
ghost use Rattle.lt_words.specs.Calls.{call_of};
ghost use Rattle.lt_words.specs.declared.mode.Mode.TheVariants.{Check, Gen, Laws, Run};

/// Options stand anywhere, `-` and the empty word are files, and behind `--` no word is an option.
pub fn words_that_are_accepted()
    ensures plain { call_of (codes "check" ∷ codes "a.lt" ∷ [])
        ≡ Some (record {
          mode = Check;
          summary = false;
          limit = 100000;
          files = codes "a.lt" ∷ [];
        }) }
    ensures options { call_of (codes "run" ∷ codes "--summary" ∷ codes "--limit" ∷ codes "12"
        ∷ codes "a.lt" ∷ codes "b.lt" ∷ [])
        ≡ Some (record {
          mode = Run;
          summary = true;
          limit = 12;
          files = codes "a.lt" ∷ codes "b.lt" ∷ [];
        }) }
    ensures between { call_of (codes "run" ∷ codes "a.lt" ∷ codes "--limit=00000007" ∷ codes "b.lt"
        ∷ codes "--summary" ∷ [])
        ≡ Some (record {
          mode = Run;
          summary = true;
          limit = 7;
          files = codes "a.lt" ∷ codes "b.lt" ∷ [];
        }) }
    ensures ended { call_of (codes "check" ∷ codes "--" ∷ codes "--summary" ∷ codes "--" ∷ [])
        ≡ Some (record {
          mode = Check;
          summary = false;
          limit = 100000;
          files = codes "--summary" ∷ codes "--" ∷ [];
        }) }
    ensures odd { call_of (codes "check" ∷ codes "-" ∷ [] ∷ [])
        ≡ Some (record {
          mode = Check;
          summary = false;
          limit = 100000;
          files = codes "-" ∷ [] ∷ [];
        }) }
    ensures laws { call_of (codes "--summary" ∷ codes "laws" ∷ [])
        ≡ Some (record { mode = Laws; summary = true; limit = 100000; files = [] }) }
    ensures generator { call_of (codes "gen" ∷ codes "0200" ∷ [])
        ≡ Some (record { mode = Gen 200; summary = false; limit = 100000; files = [] }) }
{}

/// Modes without what they want, numbers out of range, and options that there aren't or that stand
/// twice.
pub fn words_that_are_refused()
    ensures nothing { call_of [] ≡ None }
    ensures mode { call_of (codes "prove" ∷ codes "a.lt" ∷ []) ≡ None }
    ensures file { call_of (codes "check" ∷ []) ≡ None }
    ensures no_file { call_of (codes "laws" ∷ codes "a.lt" ∷ []) ≡ None }
    ensures size { call_of (codes "gen" ∷ codes "1001" ∷ []) ≡ None }
    ensures zero { call_of (codes "run" ∷ codes "--limit" ∷ codes "0" ∷ codes "a.lt" ∷ []) ≡ None }
    ensures value { call_of (codes "run" ∷ codes "a.lt" ∷ codes "--limit" ∷ []) ≡ None }
    ensures negative { call_of (codes "run" ∷ codes "--limit" ∷ codes "-5" ∷ codes "a.lt" ∷ [])
        ≡ None }
    ensures twice { call_of
        (codes "run" ∷ codes "--summary" ∷ codes "a.lt" ∷ codes "--summary" ∷ [])
        ≡ None }
    ensures flag { call_of (codes "run" ∷ codes "--summary=x" ∷ codes "a.lt" ∷ []) ≡ None }
    ensures help { call_of (codes "--help" ∷ []) ≡ None }
    ensures short { call_of (codes "check" ∷ codes "-a.lt" ∷ []) ≡ None }
{}
