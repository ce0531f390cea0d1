//! Reads what begins a sentence, and what stands behind its word.
ghost use Rattle.std.specs.Prelude.{◌≡◌, [], List, reverse, IfOk, IfErr, true, length, chars, drop};
ghost use Rattle.lt_texts.specs.Lexemes.{lexeme};
ghost use Rattle.lt_texts.specs.Slices.{IsSlice, bytes_of};
ghost use Rattle.lt_texts.specs.Spelling.{is_spelt, is_type_variable};
ghost use Rattle.lt_texts.specs.Texts.{here};
ghost use Rattle.lt_commands.specs.declared.note.Note.{Note};
ghost use Rattle.lt_commands.specs.Making.{nothing, put_all};
ghost use Rattle.lt_commands.specs.Views.{made_of};
ghost use Rattle.lt_script.specs.Machine.{meant, expected};
ghost use Rattle.lt_script.specs.Marks.{ReadsLines};
ghost use Rattle.lt_script.specs.Openings.{form_of};
ghost use Rattle.lt_script.specs.Stops.{IsWaiting, IsStopped, SaysNext, Heads, call_of};

use crate::expecting::expect_head;
use crate::form::{Allowed, Opening};
use crate::known_words::KnownWords;
use crate::read_error::ReadError;
use crate::symbol::Symbol;
use crate::table::head_of;
use crate::taking::take;
use crate::word::Word;
use lt_commands::Maker;
use lt_grammar::words::Head;
use lt_lex::{Lexer, parse_number};
use lt_texts::lexical::{Lexed, Token, TokenKind};
use lt_types::{Memory, Name};
use std::alloc::Global;

/// What stands next where a sentence may begin.
#[derive(Clone, Copy, Debug)]
pub enum Next {
    End,
    /// What begins a sentence, and its place.
    Begins(Head, usize),
    /// A token that begins none, by its place.
    Other(usize),
    BadByte(usize),
    BadChar(usize),
}

/// What was read behind the word of a sentence: what it makes, the places at which the lines of a
/// lemma begin, and the place behind it.
#[derive(Drop)]
pub(crate) struct Behind {
    pub(crate) maker: Maker,
    pub(crate) places: Vec<usize>,
    pub(crate) to: usize,
}

/// What stands next where a sentence of a text of this form may begin.
pub fn next_head(
    alloc: Global,
    words: &mut KnownWords,
    lexer: &mut Lexer<'_>,
    opening: &Opening,
    allowed: Allowed,
) -> Result<Next, Memory>
    ensures next { IfOk result
        (λ n. SaysNext (form_of opening.now allowed) lexer.old lexer.new n) }
{
    let token = match lexer.next_token() {
        Lexed::Token(token) => token,
        Lexed::End => return Ok(Next::End),
        Lexed::BadByte(at) => return Ok(Next::BadByte(at)),
        Lexed::BadChar(at) => return Ok(Next::BadChar(at)),
    };
    let word = word_of(alloc, words, lexer, token)?;
    Ok(head_at(opening, allowed, word, token.from))
}

/// What a word at a place begins.
fn head_at(opening: &Opening, allowed: Allowed, word: Word, at: usize) -> Next
    ensures { Heads (form_of opening.now allowed) (meant word) at result }
{
    let Word::Name(name) = word else {
        return Next::Other(at);
    };
    match head_of(opening, allowed, &name) {
        Some(head) => Next::Begins(head, at),
        None => Next::Other(at),
    }
}

/// What stands next, behind the word of a sentence; `end` is the text's length.
pub(crate) fn read(
    alloc: Global,
    words: &mut KnownWords,
    lexer: &mut Lexer<'_>,
    end: usize,
    number: u32,
    head: Head,
) -> Result<Behind, ReadError>
    requires { end ≡ length lexer.old.source }
    ensures read { IfOk result (λ r. (b : List Note)
        × ReadsLines (expected number head) [] lexer.old b r.places.items lexer.new
        × (made_of r.maker ≡ put_all b nothing) × (r.to ≡ here lexer.new)) }
    ensures wrong { IfErr result
        (λ e. IsStopped (expected number head) [] (call_of head) lexer.old e) }
{
    let mut stack = Vec::new(alloc);
    expect_head(&mut stack, number, head)?;
    read_from(alloc, words, lexer, end, stack, head)
}

/// What stands next, from a stack of expectations on. A wrong place is called by the head.
pub(crate) fn read_from(
    alloc: Global,
    words: &mut KnownWords,
    lexer: &mut Lexer<'_>,
    end: usize,
    symbols: Vec<Symbol>,
    head: Head,
) -> Result<Behind, ReadError>
    requires end { end ≡ length lexer.old.source }
    requires waits { IsWaiting (reverse symbols.items) }
    ensures read { IfOk result (λ r. (b : List Note)
        × ReadsLines (reverse symbols.items) [] lexer.old b r.places.items lexer.new
        × (made_of r.maker ≡ put_all b nothing) × (r.to ≡ here lexer.new)) }
    ensures wrong { IfErr result
        (λ e. IsStopped (reverse symbols.items) [] (call_of head) lexer.old e) }
{
    let mut stack = symbols;
    let mut maker = Maker::new(alloc);
    let mut places = Vec::new(alloc);
    'words: loop {
        let token = match lexer.next_token() {
            Lexed::Token(token) => token,
            Lexed::End => return Err(wrong_at(head, end)),
            Lexed::BadByte(at) => return Err(ReadError::BadByte(at)),
            Lexed::BadChar(at) => return Err(ReadError::BadChar(at)),
        };
        let word = word_of(alloc, words, lexer, token)?;
        if !take(alloc, &mut stack, &mut maker, &mut places, word, token.from)? {
            return Err(refused_at(head, token));
        }
        if stack.is_empty() {
            return Ok(Behind {
                maker,
                places,
                to: token.to,
            });
        }
    }
}

/// What a wrong place behind the word of a sentence is.
pub fn wrong_at(head: Head, at: usize) -> ReadError
    ensures { result ≡ call_of head at }
{
    match head {
        Head::Header => ReadError::BadHeader(at),
        _ => ReadError::Syntax(at),
    }
}

/// What a token that isn't taken behind the word of a sentence is, at its begin.
fn refused_at(head: Head, token: Token) -> ReadError
    ensures { result ≡ call_of head token.from }
{
    wrong_at(head, token.from)
}

/// The word that a token is.
pub(crate) fn word_of(
    alloc: Global,
    words: &mut KnownWords,
    lexer: &Lexer<'_>,
    token: Token,
) -> Result<Word, Memory>
    requires slice { IsSlice lexer.now.source token }
    requires spelt { is_spelt token.kind (chars (bytes_of lexer.now.source token)) ≡ true }
    ensures { IfOk result
        (λ word. meant word ≡ lexeme token.kind (chars (bytes_of lexer.now.source token))) }
{
    match token.kind {
        TokenKind::Name => Ok(Word::Name(words.name(alloc, lexer.text(token))?)),
        TokenKind::TypeVariable => {
            Ok(Word::Variable(variable_of(alloc, words, lexer.text(token))?))
        }
        TokenKind::Number => Ok(Word::Number(parse_number(lexer.text(token)))),
        kind => Ok(Word::Sign(kind)),
    }
}

/// The name of a type variable, behind the quote.
fn variable_of(alloc: Global, words: &mut KnownWords, text: &str) -> Result<Name, Memory>
    requires { is_type_variable (chars text.now) ≡ true }
    ensures { IfOk result (λ n. n ≡ drop 1 (chars text.now)) }
{
    let mut left = text.chars();
    let Some(_quote) = left.next() else {
        unreachable!()
    };
    words.name(alloc, left.as_str())
}
