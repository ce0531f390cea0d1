//! The tokens of a text, one at a time, with their places.
#![tactic(auto)]

mod ascii;
mod number;
mod scan;

ghost use Rattle.std.specs.Prelude.{◌≡◌, ◌<◌, [], length, drop, chars, IsCharBoundary};
ghost use Rattle.lt_lex.specs.Places.{front_of};
ghost use Rattle.lt_texts.specs.Slices.{IsSlice, IsRead, bytes_of, OnToken, OnNone};
ghost use Rattle.lt_texts.specs.Texts.{Left, left_of, here, lexed, after, ending, IsToken};

pub use lt_texts::lexical::{Lexed, Token, TokenKind};
pub use number::parse_number;
use std::marker::Model;

/// A text that is read token by token. Contracts see its bytes and the characters that are still ahead.
#[derive(Drop)]
pub struct Lexer<'a> {
    source: &'a [u8],
    text: &'a str,
    at: usize,
}

impl<'a> Model for Lexer<'a> {
    ghost use Rattle.std.specs.Prelude.{chars, drop};
    ghost use Rattle.lt_texts.specs.Texts.{Left};
    ghost use Rattle.lt_lex.specs.Places.{IsOpened};

    ghost Value = { Left };

    ghost view = { λ s. record { source = s.source.now; ahead = chars (drop s.at s.text.now) } };

    ghost invariant = { λ s. IsOpened s.source.now s.text.now s.at };
}

impl<'a> Lexer<'a> {
    /// The text from its begin. This tests once how far the bytes are UTF-8, so it takes time in the text's length; keep one lexer over a text.
    pub fn new(source: &'a [u8]) -> Lexer<'a>
        ensures { result ≡ left_of source.now }
    {
        let text = scan::valid_front(source);
        Lexer {
            source,
            text,
            at: 0,
        }
    }

    /// The text from a place on, a number of bytes. Where no character begins there, and behind the
    /// first byte that is no UTF-8, nothing is ahead. It takes time in the text's length.
    pub fn at(source: &'a [u8], from: usize) -> Lexer<'a>
        ensures source { result.source ≡ source.now }
        ensures inside { IsCharBoundary (front_of source.now) from
            → result.ahead ≡ chars (drop from (front_of source.now)) }
        ensures outside { (IsCharBoundary (front_of source.now) from → ⊥) → result.ahead ≡ [] }
    {
        let text = scan::valid_front(source);
        let at = scan::boundary_at(text, from);
        Lexer { source, text, at }
    }

    /// The place that the reading has come to, a number of bytes from the text's begin.
    pub fn place(&self) -> usize
        ensures { result ≡ here self.now }
    {
        self.at
    }

    /// The same text at the same place. It takes constant time.
    pub fn copy(&self) -> Lexer<'a>
        ensures { result ≡ self.now }
    {
        Lexer {
            source: self.source,
            text: self.text,
            at: self.at,
        }
    }

    /// The next token, or why there is none; then the lexer stays where it is and answers the same again. It takes time in the bytes that it passes over. It is inlined, since a call costs as much as a short token.
    #[inline(always)]
    pub fn next_token(&mut self) -> Lexed
        ensures token { result ≡ lexed self.old }
        ensures left { self.new ≡ after self.old }
        ensures read { OnToken result (IsRead self.old self.new) }
        ensures stays { OnNone result (self.new ≡ self.old) }
        ensures shorter { IsToken result → length self.new.ahead < length self.old.ahead }
    {
        let Some((from, first, behind)) = scan::first_char(self.text, self.at) else {
            return self.ending();
        };
        let Some((kind, to)) = scan::token_from(self.text, first, behind) else {
            return Lexed::BadChar(from);
        };
        self.at = to;
        Lexed::Token(Token { kind, from, to })
    }

    /// The bytes of a token of this text.
    pub fn bytes(&self, token: Token) -> &'a [u8]
        requires { IsSlice self.now.source token }
        ensures { result.now ≡ bytes_of self.now.source token }
    {
        &self.source[token.from..token.to]
    }

    /// The characters of a token of this text.
    pub fn text(&self, token: Token) -> &'a str
        requires { IsSlice self.now.source token }
        ensures { result.now ≡ bytes_of self.now.source token }
    {
        let bytes = self.bytes(token);
        unsafe { str::from_utf8_unchecked(bytes) }
    }

    /// What stands where no character is left.
    fn ending(&self) -> Lexed
        ensures { result ≡ ending self.now }
    {
        let end = self.text.len();
        if end == self.source.len() {
            Lexed::End
        } else {
            Lexed::BadByte(end)
        }
    }
}
