//! What a word makes of a stack of expectations.
ghost use Rattle.std.specs.Prelude.{◌≡◌, ◌++◌, reverse, true, IfOk, OnOk};
ghost use Rattle.lt_commands.specs.Views.{made_of};
ghost use Rattle.lt_script.specs.Machine.{meant, passed, step, step_on};
ghost use Rattle.lt_script.specs.Marks.{begins_by, begins_line, marked};
ghost use Rattle.lt_script.specs.Moves.{MovesTo, TakesTo, SettlesTo};

use crate::expecting::{take_end_line, take_line};
use crate::symbol::Symbol;
use crate::taking_parts::{is_number, take_part_of};
use crate::taking_terms::{
    take_arguments, take_body, take_bound_name, take_brackets, take_close_free, take_close_lambda,
    take_constructor, take_free_name, take_inside, take_lambda_name, take_more_terms,
    take_more_types, take_term, take_type,
};
use crate::word::Word;
use lt_commands::{Maker, Note};
use lt_texts::lexical::TokenKind;
use lt_types::Memory;
use std::alloc::Global;

/// Takes a word where the newest symbol is expected, and tells whether it was taken. What may be
/// passed over is passed over first. The word's place is added where a line begins with it.
#[inline(always)]
pub(crate) fn take(
    alloc: Global,
    stack: &mut Vec<Symbol>,
    made: &mut Maker,
    places: &mut Vec<usize>,
    word: Word,
    at: usize,
) -> Result<bool, Memory>
    ensures takes { IfOk result (λ b. TakesTo b
        (step_on (reverse stack.old.items) (meant word)) (reverse stack.new.items)
        (made_of made.old) (made_of made.new)) }
    ensures marks { IfOk result (λ b. b ≡ true → places.new.items ≡ places.old.items
        ++ marked (begins_by (step_on (reverse stack.old.items) (meant word))) at) }
{
    let next = next_symbol(alloc, stack, made, &word)?;
    match next {
        Some(symbol) => {
            mark(places, symbol, &word, at)?;
            Ok(take_symbol(alloc, stack, made, symbol, word)?)
        }
        None => Ok(false),
    }
}

/// Adds the place of a word where a line begins with it.
fn mark(places: &mut Vec<usize>, symbol: Symbol, word: &Word, at: usize) -> Result<(), Memory>
    ensures { OnOk result (places.new.items
        ≡ places.old.items ++ marked (begins_line symbol (meant word.now)) at) }
{
    if begins_line(symbol, word) {
        places.push(at)?;
    }
    Ok(())
}

/// Whether a line begins with a word, if it is taken where this symbol is expected.
fn begins_line(symbol: Symbol, word: &Word) -> bool
    ensures { result ≡ begins_line symbol (meant word.now) }
{
    matches!((symbol, word), (Symbol::Lines, Word::Name(_)))
}

/// Takes off the newest symbol that isn't passed over.
fn next_symbol(
    alloc: Global,
    stack: &mut Vec<Symbol>,
    made: &mut Maker,
    word: &Word,
) -> Result<Option<Symbol>, Memory>
    ensures { IfOk result (λ o. SettlesTo (meant word.now) o
        (reverse stack.old.items) (made_of made.old) (reverse stack.new.items) (made_of made.new)) }
{
    'symbols: while let Some(symbol) = stack.pop() {
        match passed(symbol, word) {
            Some(note) => made.put(alloc, note)?,
            None => return Ok(Some(symbol)),
        }
    }
    Ok(None)
}

/// What is noted where a symbol is passed over before this word, if it is.
fn passed(symbol: Symbol, word: &Word) -> Option<Note>
    ensures { result ≡ passed symbol (meant word.now) }
{
    match symbol {
        Symbol::KeepType => Some(Note::KeepType),
        Symbol::KeepTerm => Some(Note::KeepTerm),
        Symbol::Brackets => match word {
            Word::Sign(TokenKind::OpenSquare) => None,
            _ => Some(Note::NoArguments),
        },
        _ => None,
    }
}

/// Takes a word where this symbol is expected.
fn take_symbol(
    alloc: Global,
    stack: &mut Vec<Symbol>,
    made: &mut Maker,
    symbol: Symbol,
    word: Word,
) -> Result<bool, Memory>
    ensures { IfOk result (λ b. MovesTo b (step symbol (meant word))
        (reverse stack.old.items) (reverse stack.new.items) (made_of made.old) (made_of made.new)) }
{
    match symbol {
        Symbol::Type => Ok(take_type(alloc, stack, made, word)?),
        Symbol::Constructor => Ok(take_constructor(alloc, stack, made, word)?),
        Symbol::MoreTypes => Ok(take_more_types(alloc, stack, made, word)?),
        Symbol::Term => Ok(take_term(alloc, stack, made, word)?),
        Symbol::Inside => Ok(take_inside(alloc, stack, made, word)?),
        Symbol::Brackets => Ok(take_brackets(alloc, stack, word)?),
        Symbol::Arguments => Ok(take_arguments(alloc, stack, made, word)?),
        Symbol::MoreTerms => Ok(take_more_terms(alloc, stack, made, word)?),
        Symbol::BoundName => Ok(take_bound_name(alloc, made, word)?),
        Symbol::FreeName => Ok(take_free_name(alloc, stack, made, word)?),
        Symbol::CloseFree => Ok(take_close_free(alloc, made, word)?),
        Symbol::LambdaName => Ok(take_lambda_name(alloc, stack, made, word)?),
        Symbol::Body => Ok(take_body(alloc, stack, made, word)?),
        Symbol::CloseLambda => Ok(take_close_lambda(alloc, made, word)?),
        Symbol::KeepType | Symbol::KeepTerm => Ok(false),
        Symbol::Part(part) => Ok(take_part_of(alloc, stack, made, part, word)?),
        Symbol::HeaderNumber(number) => Ok(is_number(number, &word)),
        Symbol::Lines => Ok(take_line(alloc, stack, made, word)?),
        Symbol::EndLine(rule) => Ok(take_end_line(alloc, made, rule, word)?),
    }
}
