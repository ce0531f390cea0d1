//! Types and terms that are read from a text, one after another.
ghost use Rattle.std.specs.Prelude.{◌≡◌, [], length, drop, chars, IsCharBoundary, IfOk, IfErr, OnErr};
ghost use Rattle.lt_lex.specs.Places.{front_of};
ghost use Rattle.lt_texts.specs.Texts.{left_of, here};
ghost use Rattle.lt_texts.specs.WrongPlaces.{IsTypeAt, IsTermAt};
ghost use Rattle.lt_script.specs.Promises.{RefusesType, RefusesTerm};

use crate::alone::{read_term, read_type};
use crate::known_words::KnownWords;
use crate::read_error::ReadError;
use lt_lex::Lexer;
use lt_terms::Term;
use lt_types::Ty;
use std::alloc::Global;
use std::marker::Model;

/// A text from which types and terms are read, with a place. Contracts see what is left of it.
#[derive(Drop)]
pub struct Reader<'a> {
    lexer: Lexer<'a>,
    end: usize,
    words: KnownWords,
}

impl<'a> Model for Reader<'a> {
    ghost use Rattle.lt_texts.specs.Texts.{Left};

    ghost Value = { Left };

    ghost view = { λ r. r.lexer };

    ghost use Rattle.std.specs.Prelude.{◌≡◌, length};

    ghost invariant = { λ r. r.end ≡ length r.lexer.source };
}

impl<'a> Reader<'a> {
    /// A text from its begin. It takes time in the text's length.
    pub fn new(alloc: Global, text: &'a [u8]) -> Reader<'a>
        ensures { result ≡ left_of text.now }
    {
        Reader {
            lexer: Lexer::new(text),
            end: text.len(),
            words: KnownWords::new(alloc),
        }
    }

    /// A text from a place on, a number of bytes. Where no character begins there, and behind the
    /// first byte that is no UTF-8, nothing is ahead. It takes time in the text's length.
    pub fn at(alloc: Global, text: &'a [u8], from: usize) -> Reader<'a>
        ensures source { result.source ≡ text.now }
        ensures inside { IsCharBoundary (front_of text.now) from
            → result.ahead ≡ chars (drop from (front_of text.now)) }
        ensures outside { (IsCharBoundary (front_of text.now) from → ⊥) → result.ahead ≡ [] }
    {
        Reader {
            lexer: Lexer::at(text, from),
            end: text.len(),
            words: KnownWords::new(alloc),
        }
    }

    /// The place that the reading has come to, a number of bytes from the text's begin.
    pub fn place(&self) -> usize
        ensures { result ≡ here self.now }
    {
        self.lexer.place()
    }

    /// The type that stands next.
    ///
    /// `Syntax` has the first place at which no type goes on; `BadByte` and `BadChar` come before
    /// it. After a refusal the reader is as before. It takes time in the bytes that it passes over.
    pub fn parse_type(&mut self, alloc: Global) -> Result<Ty, ReadError>
        ensures ty { IfOk result (λ t. IsTypeAt self.old t self.new) }
        ensures wrong { IfErr result (λ e. RefusesType self.old e) }
        ensures err { OnErr result (self.new ≡ self.old) }
    {
        let mut lexer = self.lexer.copy();
        match read_type(alloc, &mut self.words, &mut lexer, self.end) {
            Ok(ty) => {
                self.lexer = lexer;
                Ok(ty)
            }
            Err(error) => Err(error),
        }
    }

    /// The term that stands next, as long as it can be: a constant without type arguments takes
    /// those that stand behind it. The rest is as in `parse_type`.
    pub fn parse_term(&mut self, alloc: Global) -> Result<Term, ReadError>
        ensures term { IfOk result (λ t. IsTermAt self.old t self.new) }
        ensures wrong { IfErr result (λ e. RefusesTerm self.old e) }
        ensures err { OnErr result (self.new ≡ self.old) }
    {
        let mut lexer = self.lexer.copy();
        match read_term(alloc, &mut self.words, &mut lexer, self.end) {
            Ok(term) => {
                self.lexer = lexer;
                Ok(term)
            }
            Err(error) => Err(error),
        }
    }
}
