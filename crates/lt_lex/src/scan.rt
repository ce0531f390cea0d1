//! What stands at a place of a text: characters, runs of them, and tokens. A place is a number of bytes, and a character's bound.
ghost use Rattle.std.specs.Prelude.{◌≡◌, ℕ, ◌<◌, ◌≤◌, [], ◌∷◌, MatchOption, ⊤, length, take, not, false, ◌==◌, IsUtf8, IsCharBoundary, encode_utf8_all};
ghost use Rattle.std.specs.Char.{is_ascii_digit};
ghost use Rattle.std.specs.Str.Lossy.{utf8_valid_len};
ghost use Rattle.unicode_ident.specs.Ident.{is_xid_continue};
ghost use Rattle.lt_definitions.specs.Characters.{is_white, starts_name, behind_run, behind_gap};
ghost use Rattle.lt_texts.specs.Tokens.{token_from, variable_at, colon_at, sign_of};
ghost use Rattle.lt_lex.specs.Places.{ahead_at, IsFound, IsBehind, Begins};

use crate::TokenKind;
use crate::ascii::{GOES_ON, STARTS};
use unicode_ident::{is_xid_continue, is_xid_start};

/// The longest front that is UTF-8.
pub(crate) fn valid_front<'a>(source: &'a [u8]) -> &'a str
    ensures { result.now ≡ take (utf8_valid_len source.now) source.now }
{
    match str::from_utf8(source) {
        Ok(text) => text,
        Err(error) => unsafe { str::from_utf8_unchecked(&source[..error.valid_up_to()]) },
    }
}

/// The place, where a character begins there or the text ends, and else the text's end.
pub(crate) fn boundary_at(text: &str, at: usize) -> usize
    ensures place { IsCharBoundary text.now result }
    ensures inside { IsCharBoundary text.now at → result ≡ at }
    ensures outside { (IsCharBoundary text.now at → ⊥) → result ≡ length text.now }
{
    if text.is_char_boundary(at) {
        return at;
    }
    text.len()
}

/// The character at a place, and the place behind it.
#[inline(always)]
pub(crate) fn char_at(text: &str, at: usize) -> Option<(char, usize)>
    requires { IsCharBoundary text.now at }
    ensures chars { MatchOption result (ahead_at text.now at ≡ []) (λ p. ahead_at text.now at ≡ p.0 ∷ ahead_at text.now p.1) }
    ensures boundary { MatchOption result ⊤ (λ p. IsCharBoundary text.now p.1) }
    ensures place { MatchOption result (at ≡ length text.now) (λ p. at < p.1) }
{
    let bytes = text.as_bytes();
    if at == bytes.len() {
        return None;
    }
    let byte = bytes[at];
    if byte < 128 {
        return Some((byte as char, at + 1));
    }
    wide_char_at(text, at)
}

/// The same where the character is longer than one byte.
fn wide_char_at(text: &str, at: usize) -> Option<(char, usize)>
    requires { IsCharBoundary text.now at }
    ensures chars { MatchOption result (ahead_at text.now at ≡ []) (λ p. ahead_at text.now at ≡ p.0 ∷ ahead_at text.now p.1) }
    ensures boundary { MatchOption result ⊤ (λ p. IsCharBoundary text.now p.1) }
    ensures place { MatchOption result (at ≡ length text.now) (λ p. at < p.1) }
{
    let mut left = text[at..].chars();
    let c = left.next()?;
    Some((c, text.len() - left.as_str().len()))
}

/// The first character behind white space and comments: its place, itself, and the place behind it.
#[inline(always)]
pub(crate) fn first_char(text: &str, mut at: usize) -> Option<(usize, char, usize)>
    requires { IsCharBoundary text.now at }
    ensures { MatchOption result (behind_gap false (ahead_at text.now at) ≡ []) (λ p. Begins text.now at p.0 p.1 p.2) }
{
    'gap: while let Some((c, behind)) = char_at(text, at) {
        if is_white(c) {
            at = behind;
        } else if c == '#' {
            at = past_line(text, behind);
        } else {
            return Some((at, c, behind));
        }
    }
    None
}

/// The place of the next line feed, or of the text's end.
fn past_line(text: &str, mut at: usize) -> usize
    requires { IsCharBoundary text.now at }
    ensures { IsBehind text.now at (behind_run (λ c. not (c == 10))) result }
{
    'line: while let Some((c, behind)) = char_at(text, at) {
        if c == '\n' {
            return at;
        }
        at = behind;
    }
    at
}

fn is_white(c: char) -> bool
    ensures { result ≡ is_white c }
{
    c == ' ' || c == '\t' || c == '\r' || c == '\n'
}

/// The place behind the characters that go on a name.
fn past_name(text: &str, mut at: usize) -> usize
    requires { IsCharBoundary text.now at }
    ensures { IsBehind text.now at (behind_run is_xid_continue) result }
{
    let bytes = text.as_bytes();
    'name: while at < bytes.len() {
        let byte = bytes[at];
        if byte >= 128 {
            return past_wide_name(text, at);
        }
        if !GOES_ON[byte as usize] {
            return at;
        }
        at += 1;
    }
    at
}

/// The place behind the characters that go on a name, where some are longer than one byte.
#[cold]
#[inline(never)]
fn past_wide_name(text: &str, mut at: usize) -> usize
    requires { IsCharBoundary text.now at }
    ensures { IsBehind text.now at (behind_run is_xid_continue) result }
{
    'name: while let Some((c, behind)) = char_at(text, at) {
        if !is_xid_continue(c) {
            return at;
        }
        at = behind;
    }
    at
}

/// The place behind the digits.
fn past_digits(text: &str, mut at: usize) -> usize
    requires { IsCharBoundary text.now at }
    ensures { IsBehind text.now at (behind_run is_ascii_digit) result }
{
    'digits: while let Some((c, behind)) = char_at(text, at) {
        if !c.is_ascii_digit() {
            return at;
        }
        at = behind;
    }
    at
}

fn starts_name(c: char) -> bool
    ensures { result ≡ starts_name c }
{
    if (c as u32) < 128 {
        return STARTS[c as usize];
    }
    is_xid_start(c)
}

/// The token that begins with this character, and the place behind it.
pub(crate) fn token_from(text: &str, first: char, behind: usize) -> Option<(TokenKind, usize)>
    requires { IsCharBoundary text.now behind }
    ensures { IsFound text.now behind (token_from first (ahead_at text.now behind)) result }
{
    if starts_name(first) {
        return Some((TokenKind::Name, past_name(text, behind)));
    }
    match first {
        '\'' => variable_at(text, behind),
        ':' => Some(colon_at(text, behind)),
        _ => match sign_of(first) {
            Some(kind) => Some((kind, behind)),
            None if first.is_ascii_digit() => Some((TokenKind::Number, past_digits(text, behind))),
            None => None,
        },
    }
}

/// The type variable behind a quote.
fn variable_at(text: &str, at: usize) -> Option<(TokenKind, usize)>
    requires { IsCharBoundary text.now at }
    ensures { IsFound text.now at (variable_at (ahead_at text.now at)) result }
{
    let (c, behind) = char_at(text, at)?;
    if !starts_name(c) {
        return None;
    }
    Some((TokenKind::TypeVariable, past_name(text, behind)))
}

/// The sign that a colon begins.
fn colon_at(text: &str, at: usize) -> (TokenKind, usize)
    requires { IsCharBoundary text.now at }
    ensures { IsFound text.now at (Some (colon_at (ahead_at text.now at))) (Some result) }
{
    if let Some((c, behind)) = char_at(text, at) {
        if c == '=' {
            return (TokenKind::Becomes, behind);
        }
    }
    (TokenKind::Colon, at)
}

/// The sign that is one character, but for the colon.
fn sign_of(c: char) -> Option<TokenKind>
    ensures { result ≡ sign_of c }
{
    match c {
        '(' => Some(TokenKind::Open),
        ')' => Some(TokenKind::Close),
        '[' => Some(TokenKind::OpenSquare),
        ']' => Some(TokenKind::CloseSquare),
        '{' => Some(TokenKind::OpenBrace),
        '}' => Some(TokenKind::CloseBrace),
        ';' => Some(TokenKind::Semicolon),
        '$' => Some(TokenKind::Dollar),
        '%' => Some(TokenKind::Percent),
        '\\' => Some(TokenKind::Backslash),
        _ => None,
    }
}
