//! Reads a type or a term alone.
ghost use Rattle.std.specs.Prelude.{◌≡◌, length, IfOk, IfErr};
ghost use Rattle.lt_texts.specs.WrongPlaces.{IsTypeAt, IsTermAt};
ghost use Rattle.lt_script.specs.TermsAlone.{MakesTerm, is_brackets, StandsOpen, IsOver};
ghost use Rattle.lt_script.specs.Promises.{RefusesType, RefusesTerm};
ghost use Rattle.lt_commands.specs.Views.{made_of};

use crate::known_words::KnownWords;
use crate::read_error::ReadError;
use crate::reading::{Behind, read_from, word_of};
use crate::symbol::Symbol;
use crate::taking::take;
use lt_commands::{Maker, Note};
use lt_grammar::words::Head;
use lt_lex::Lexer;
use lt_terms::Term;
use lt_texts::lexical::{Lexed, TokenKind};
use lt_types::Ty;
use std::alloc::Global;

/// The type that stands next. `end` is the text's length.
pub(crate) fn read_type(
    alloc: Global,
    words: &mut KnownWords,
    lexer: &mut Lexer<'_>,
    end: usize,
) -> Result<Ty, ReadError>
    requires { end ≡ length lexer.old.source }
    ensures ty { IfOk result (λ t. IsTypeAt lexer.old t lexer.new) }
    ensures wrong { IfErr result (λ e. RefusesType lexer.old e) }
{
    let mut stack = Vec::new(alloc);
    stack.push(Symbol::Type)?;
    match read_from(alloc, words, lexer, end, stack, Head::Lemma) {
        Ok(behind) => {
            let Behind { maker, .. } = behind;
            let made = maker.ty(alloc)?;
            let Some(ty) = made else { unreachable!() };
            Ok(ty)
        }
        Err(error) => Err(error),
    }
}

/// The term that stands next, as long as it can be. `end` is the text's length.
pub(crate) fn read_term(
    alloc: Global,
    words: &mut KnownWords,
    lexer: &mut Lexer<'_>,
    end: usize,
) -> Result<Term, ReadError>
    requires { end ≡ length lexer.old.source }
    ensures term { IfOk result (λ t. IsTermAt lexer.old t lexer.new) }
    ensures wrong { IfErr result (λ e. RefusesTerm lexer.old e) }
{
    match make_term(alloc, words, lexer, end) {
        Ok(maker) => {
            let made = maker.term(alloc)?;
            let Some(term) = made else { unreachable!() };
            Ok(term)
        }
        Err(error) => Err(error),
    }
}

/// What the term that stands next makes.
fn make_term(
    alloc: Global,
    words: &mut KnownWords,
    lexer: &mut Lexer<'_>,
    end: usize,
) -> Result<Maker, ReadError>
    requires { end ≡ length lexer.old.source }
    ensures term { IfOk result (λ m. MakesTerm lexer.old lexer.new (made_of m)) }
    ensures wrong { IfErr result (λ e. RefusesTerm lexer.old e) }
{
    let mut stack = Vec::new(alloc);
    stack.push(Symbol::Term)?;
    let mut maker = Maker::new(alloc);
    let mut places = Vec::new(alloc);
    'words: loop {
        let token = match lexer.next_token() {
            Lexed::Token(token) => token,
            Lexed::End => return Err(ReadError::Syntax(end)),
            Lexed::BadByte(at) => return Err(ReadError::BadByte(at)),
            Lexed::BadChar(at) => return Err(ReadError::BadChar(at)),
        };
        let word = word_of(alloc, words, lexer, token)?;
        if !take(alloc, &mut stack, &mut maker, &mut places, word, token.from)? {
            return Err(ReadError::Syntax(token.from));
        }
        if stack.is_empty() {
            return Ok(maker);
        }
        if is_over(&stack, lexer) {
            maker.put(alloc, Note::NoArguments)?;
            return Ok(maker);
        }
    }
}

/// Whether the term ends here: nothing but the type arguments of a constant may still stand there,
/// and none do.
fn is_over(stack: &Vec<Symbol>, lexer: &Lexer<'_>) -> bool
    ensures { IsOver result stack.now.items lexer.now }
{
    if !is_brackets(stack) {
        return false;
    }
    !opens_next(lexer)
}

/// Whether nothing but the type arguments of a constant may still stand there.
fn is_brackets(stack: &[Symbol]) -> bool
    ensures { result ≡ is_brackets stack.now }
{
    match stack {
        [Symbol::Brackets] => true,
        _ => false,
    }
}

/// Whether an opening square bracket stands next.
fn opens_next(lexer: &Lexer<'_>) -> bool
    ensures { StandsOpen lexer.now result }
{
    let mut ahead = lexer.copy();
    match ahead.next_token() {
        Lexed::Token(token) => matches!(token.kind, TokenKind::OpenSquare),
        _ => false,
    }
}
