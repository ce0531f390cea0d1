//! Numbers as words.
ghost use Rattle.std.specs.Prelude.{◌≡◌};
ghost use Rattle.std.specs.Str.{all_ascii_digits};
ghost use Rattle.lt_words.specs.Numbers.{number};

/// The number that a word names: so many decimal digits at most, for a number from 1 to the
/// largest.
pub(crate) fn number(word: &str, digits: usize, most: u32) -> Option<u32>
    ensures { result ≡ number digits most word.now }
{
    if !are_digits(word) {
        return None;
    }
    if word.len() > digits {
        return None;
    }
    let Ok(value) = word.parse::<u32>() else {
        return None;
    };
    if value < 1 {
        return None;
    }
    if value > most {
        return None;
    }
    Some(value)
}

/// Whether each byte of a word is a decimal digit.
fn are_digits(word: &str) -> bool
    ensures { result ≡ all_ascii_digits word.now }
{
    for byte in word.as_bytes() {
        if !byte.is_ascii_digit() {
            return false;
        }
    }
    true
}
