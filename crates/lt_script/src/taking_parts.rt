//! What a word makes where a part of a row is expected.
ghost use Rattle.std.specs.Prelude.{◌≡◌, [], reverse, IfOk};
ghost use Rattle.lt_grammar.specs.declared.words.Part.TheVariants as parts;
ghost use Rattle.lt_commands.specs.Views.{made_of};
ghost use Rattle.lt_script.specs.Machine.{meant, is_fixed, is_number, step_label, step_number, step_variable, step_parameters, step_part_of};
ghost use Rattle.lt_script.specs.Moves.{MovesTo};

use crate::symbol::Symbol;
use crate::table::is_word;
use crate::taking_terms::{take_term, take_type};
use crate::word::Word;
use lt_commands::{Maker, Note};
use lt_grammar::words::{Fixed, Part};
use lt_texts::lexical::TokenKind;
use lt_types::Memory;
use std::alloc::Global;

/// Takes a word where a part of a row is expected.
pub(crate) fn take_part_of(
    alloc: Global,
    stack: &mut Vec<Symbol>,
    made: &mut Maker,
    part: Part,
    word: Word,
) -> Result<bool, Memory>
    ensures { IfOk result (λ b. MovesTo b (step_part_of part (meant word))
        (reverse stack.old.items) (reverse stack.new.items) (made_of made.old) (made_of made.new)) }
{
    match part {
        Part::Label => Ok(take_label(alloc, made, word)?),
        Part::Number => Ok(take_number(alloc, made, word)?),
        Part::Variable => Ok(take_variable(alloc, made, word)?),
        Part::Parameters => Ok(take_parameters(alloc, stack, made, word)?),
        Part::AType => Ok(take_whole_type(alloc, stack, made, word)?),
        Part::AStatement => Ok(take_whole_term(alloc, stack, made, word)?),
        Part::ATerm => Ok(take_whole_term(alloc, stack, made, word)?),
        Part::Fixed(fixed) => Ok(is_fixed(fixed, &word)),
    }
}

/// Takes a name or a label.
fn take_label(alloc: Global, made: &mut Maker, word: Word) -> Result<bool, Memory>
    ensures { IfOk result (λ b. MovesTo b (step_label (meant word)) [] []
        (made_of made.old) (made_of made.new)) }
{
    let Word::Name(name) = word else {
        return Ok(false);
    };
    made.put(alloc, Note::Label(name))?;
    Ok(true)
}

/// Takes a number.
fn take_number(alloc: Global, made: &mut Maker, word: Word) -> Result<bool, Memory>
    ensures { IfOk result (λ b. MovesTo b (step_number (meant word)) [] []
        (made_of made.old) (made_of made.new)) }
{
    let Word::Number(Some(number)) = word else {
        return Ok(false);
    };
    made.put(alloc, Note::Count(number))?;
    Ok(true)
}

/// Takes a type variable.
fn take_variable(alloc: Global, made: &mut Maker, word: Word) -> Result<bool, Memory>
    ensures { IfOk result (λ b. MovesTo b (step_variable (meant word)) [] []
        (made_of made.old) (made_of made.new)) }
{
    let Word::Variable(name) = word else {
        return Ok(false);
    };
    made.put(alloc, Note::Variable(name))?;
    Ok(true)
}

/// Takes one of several type variables, or the colon behind them.
fn take_parameters(
    alloc: Global,
    stack: &mut Vec<Symbol>,
    made: &mut Maker,
    word: Word,
) -> Result<bool, Memory>
    ensures { IfOk result (λ b. MovesTo b (step_parameters (meant word))
        (reverse stack.old.items) (reverse stack.new.items) (made_of made.old) (made_of made.new)) }
{
    match word {
        Word::Variable(name) => {
            made.put(alloc, Note::Parameter(name))?;
            stack.push(Symbol::Part(Part::Parameters))?;
        }
        Word::Sign(TokenKind::Colon) => made.put(alloc, Note::KeepParameters)?,
        _ => return Ok(false),
    }
    Ok(true)
}

/// Takes a word where a type is expected that is a part of a row.
fn take_whole_type(
    alloc: Global,
    stack: &mut Vec<Symbol>,
    made: &mut Maker,
    word: Word,
) -> Result<bool, Memory>
    ensures { IfOk result (λ b. MovesTo b (step_part_of parts.AType (meant word))
        (reverse stack.old.items) (reverse stack.new.items) (made_of made.old) (made_of made.new)) }
{
    stack.push(Symbol::KeepType)?;
    Ok(take_type(alloc, stack, made, word)?)
}

/// Takes a word where a term is expected that is a part of a row.
fn take_whole_term(
    alloc: Global,
    stack: &mut Vec<Symbol>,
    made: &mut Maker,
    word: Word,
) -> Result<bool, Memory>
    ensures { IfOk result (λ b. MovesTo b (step_part_of parts.ATerm (meant word))
        (reverse stack.old.items) (reverse stack.new.items) (made_of made.old) (made_of made.new)) }
{
    stack.push(Symbol::KeepTerm)?;
    Ok(take_term(alloc, stack, made, word)?)
}

/// Whether it is the word that stands as it is.
fn is_fixed(fixed: Fixed, word: &Word) -> bool
    ensures { result ≡ is_fixed fixed (meant word.now) }
{
    match (fixed, word) {
        (Fixed::Semicolon, Word::Sign(TokenKind::Semicolon)) => true,
        (Fixed::Colon, Word::Sign(TokenKind::Colon)) => true,
        (Fixed::Becomes, Word::Sign(TokenKind::Becomes)) => true,
        (Fixed::OpenBrace, Word::Sign(TokenKind::OpenBrace)) => true,
        (Fixed::By, Word::Name(name)) => is_word(name, "by"),
        (Fixed::Abs, Word::Name(name)) => is_word(name, "abs"),
        (Fixed::Rep, Word::Name(name)) => is_word(name, "rep"),
        _ => false,
    }
}

/// Whether it is that number.
pub(crate) fn is_number(number: u32, word: &Word) -> bool
    ensures { result ≡ is_number number (meant word.now) }
{
    match word {
        Word::Number(Some(n)) => *n == number,
        _ => false,
    }
}
