//! The value of a number.
ghost use Rattle.std.specs.Prelude.{◌≡◌, chars};
ghost use Rattle.lt_definitions.specs.Characters.{number_of};
ghost use Rattle.lt_lex.specs.Numbers.{with_digit};

use crate::scan::char_at;

/// The value of a row of the digits 0 to 9, or None where the text is none or the value is over 2^32 - 1. It takes time in the text's length.
pub fn parse_number(text: &str) -> Option<u32>
    ensures { result ≡ number_of (chars text.now) }
{
    if text.is_empty() {
        return None;
    }
    let mut value: u32 = 0;
    let mut at = 0;
    'digits: while let Some((c, behind)) = char_at(text, at) {
        let Some(more) = with_digit(value, c) else {
            return None;
        };
        value = more;
        at = behind;
    }
    Some(value)
}

/// The number with one more digit, or None where the character is no digit or the number is over 2^32 - 1.
fn with_digit(value: u32, c: char) -> Option<u32>
    ensures { result ≡ with_digit value c }
{
    if !c.is_ascii_digit() {
        return None;
    }
    value.checked_mul(10)?.checked_add(c as u32 - 48)
}
