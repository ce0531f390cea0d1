//! What a word makes where a type, a term or a part of one is expected.
ghost use Rattle.std.specs.Prelude.{◌≡◌, [], reverse, IfOk};
ghost use Rattle.lt_commands.specs.Making.{nothing};
ghost use Rattle.lt_commands.specs.Views.{made_of};
ghost use Rattle.lt_script.specs.declared.symbol.Symbol.TheVariants as symbols;
ghost use Rattle.lt_script.specs.Machine.{meant, step, step_type, step_constructor, step_more_types, step_term, step_inside, step_brackets, step_arguments, step_bound_name, step_free_name, step_close_free, step_lambda_name, step_close_lambda};
ghost use Rattle.lt_script.specs.Moves.{MovesTo};

use crate::symbol::Symbol;
use crate::word::Word;
use lt_commands::{Maker, Note};
use lt_texts::lexical::TokenKind;
use lt_types::Memory;
use std::alloc::Global;

/// Takes a word where a type is expected.
pub(crate) fn take_type(
    alloc: Global,
    stack: &mut Vec<Symbol>,
    made: &mut Maker,
    word: Word,
) -> Result<bool, Memory>
    ensures { IfOk result (λ b. MovesTo b (step_type (meant word))
        (reverse stack.old.items) (reverse stack.new.items) (made_of made.old) (made_of made.new)) }
{
    match word {
        Word::Variable(name) => made.put(alloc, Note::TypeVar(name))?,
        Word::Name(name) => made.put(alloc, Note::TypeAlone(name))?,
        Word::Sign(TokenKind::Open) => stack.push(Symbol::Constructor)?,
        _ => return Ok(false),
    }
    Ok(true)
}

/// Takes a word where a constructor with arguments is expected.
pub(crate) fn take_constructor(
    alloc: Global,
    stack: &mut Vec<Symbol>,
    made: &mut Maker,
    word: Word,
) -> Result<bool, Memory>
    ensures { IfOk result (λ b. MovesTo b (step_constructor (meant word))
        (reverse stack.old.items) (reverse stack.new.items) (made_of made.old) (made_of made.new)) }
{
    let Word::Name(name) = word else {
        return Ok(false);
    };
    made.put(alloc, Note::TypeOpen(name))?;
    stack.push(Symbol::MoreTypes)?;
    stack.push(Symbol::Type)?;
    Ok(true)
}

/// Takes a word where more arguments of a constructor, or the closing bracket, are expected.
pub(crate) fn take_more_types(
    alloc: Global,
    stack: &mut Vec<Symbol>,
    made: &mut Maker,
    word: Word,
) -> Result<bool, Memory>
    ensures { IfOk result (λ b. MovesTo b (step_more_types (meant word))
        (reverse stack.old.items) (reverse stack.new.items) (made_of made.old) (made_of made.new)) }
{
    if let Word::Sign(TokenKind::Close) = word {
        made.put(alloc, Note::TypeClose)?;
        return Ok(true);
    }
    stack.push(Symbol::MoreTypes)?;
    Ok(take_type(alloc, stack, made, word)?)
}

/// Takes a word where a term is expected.
pub(crate) fn take_term(
    alloc: Global,
    stack: &mut Vec<Symbol>,
    made: &mut Maker,
    word: Word,
) -> Result<bool, Memory>
    ensures { IfOk result (λ b. MovesTo b (step_term (meant word))
        (reverse stack.old.items) (reverse stack.new.items) (made_of made.old) (made_of made.new)) }
{
    match word {
        Word::Name(name) => {
            made.put(alloc, Note::ConstantName(name))?;
            stack.push(Symbol::Brackets)?;
        }
        Word::Sign(TokenKind::Percent) => stack.push(Symbol::BoundName)?,
        Word::Sign(TokenKind::Open) => stack.push(Symbol::Inside)?,
        _ => return Ok(false),
    }
    Ok(true)
}

/// Takes a word behind a term's opening bracket.
pub(crate) fn take_inside(
    alloc: Global,
    stack: &mut Vec<Symbol>,
    made: &mut Maker,
    word: Word,
) -> Result<bool, Memory>
    ensures { IfOk result (λ b. MovesTo b (step_inside (meant word))
        (reverse stack.old.items) (reverse stack.new.items) (made_of made.old) (made_of made.new)) }
{
    match word {
        Word::Sign(TokenKind::Dollar) => {
            stack.push(Symbol::FreeName)?;
            Ok(true)
        }
        Word::Sign(TokenKind::Backslash) => {
            stack.push(Symbol::LambdaName)?;
            Ok(true)
        }
        _ => {
            stack.push(Symbol::MoreTerms)?;
            stack.push(Symbol::Term)?;
            Ok(take_term(alloc, stack, made, word)?)
        }
    }
}

/// Takes the opening bracket of type arguments.
pub(crate) fn take_brackets(
    alloc: Global,
    stack: &mut Vec<Symbol>,
    word: Word,
) -> Result<bool, Memory>
    ensures { IfOk result (λ b. MovesTo b (step_brackets (meant word))
        (reverse stack.old.items) (reverse stack.new.items) nothing nothing) }
{
    let Word::Sign(TokenKind::OpenSquare) = word else {
        return Ok(false);
    };
    stack.push(Symbol::Arguments)?;
    stack.push(Symbol::Type)?;
    Ok(true)
}

/// Takes a word where more type arguments, or the closing bracket, are expected.
pub(crate) fn take_arguments(
    alloc: Global,
    stack: &mut Vec<Symbol>,
    made: &mut Maker,
    word: Word,
) -> Result<bool, Memory>
    ensures { IfOk result (λ b. MovesTo b (step_arguments (meant word))
        (reverse stack.old.items) (reverse stack.new.items) (made_of made.old) (made_of made.new)) }
{
    made.put(alloc, Note::KeepType)?;
    if let Word::Sign(TokenKind::CloseSquare) = word {
        made.put(alloc, Note::Arguments)?;
        return Ok(true);
    }
    stack.push(Symbol::Arguments)?;
    Ok(take_type(alloc, stack, made, word)?)
}

/// Takes a word where more arguments of a function, or the closing bracket, are expected.
pub(crate) fn take_more_terms(
    alloc: Global,
    stack: &mut Vec<Symbol>,
    made: &mut Maker,
    word: Word,
) -> Result<bool, Memory>
    ensures { IfOk result (λ b. MovesTo b (step symbols.MoreTerms (meant word))
        (reverse stack.old.items) (reverse stack.new.items) (made_of made.old) (made_of made.new)) }
{
    made.put(alloc, Note::Apply)?;
    if let Word::Sign(TokenKind::Close) = word {
        return Ok(true);
    }
    stack.push(Symbol::MoreTerms)?;
    Ok(take_term(alloc, stack, made, word)?)
}

/// Takes the name of a bound name.
pub(crate) fn take_bound_name(alloc: Global, made: &mut Maker, word: Word) -> Result<bool, Memory>
    ensures { IfOk result (λ b. MovesTo b (step_bound_name (meant word)) [] []
        (made_of made.old) (made_of made.new)) }
{
    let Word::Name(name) = word else {
        return Ok(false);
    };
    made.put(alloc, Note::Bound(name))?;
    Ok(true)
}

/// Takes the name of a free variable.
pub(crate) fn take_free_name(
    alloc: Global,
    stack: &mut Vec<Symbol>,
    made: &mut Maker,
    word: Word,
) -> Result<bool, Memory>
    ensures { IfOk result (λ b. MovesTo b (step_free_name (meant word))
        (reverse stack.old.items) (reverse stack.new.items) (made_of made.old) (made_of made.new)) }
{
    let Word::Name(name) = word else {
        return Ok(false);
    };
    made.put(alloc, Note::FreeName(name))?;
    stack.push(Symbol::CloseFree)?;
    stack.push(Symbol::Type)?;
    Ok(true)
}

/// Takes the closing bracket of a free variable.
pub(crate) fn take_close_free(alloc: Global, made: &mut Maker, word: Word) -> Result<bool, Memory>
    ensures { IfOk result (λ b. MovesTo b (step_close_free (meant word)) [] []
        (made_of made.old) (made_of made.new)) }
{
    let Word::Sign(TokenKind::Close) = word else {
        return Ok(false);
    };
    made.put(alloc, Note::KeepType)?;
    made.put(alloc, Note::FreeClose)?;
    Ok(true)
}

/// Takes the name of an abstraction.
pub(crate) fn take_lambda_name(
    alloc: Global,
    stack: &mut Vec<Symbol>,
    made: &mut Maker,
    word: Word,
) -> Result<bool, Memory>
    ensures { IfOk result (λ b. MovesTo b (step_lambda_name (meant word))
        (reverse stack.old.items) (reverse stack.new.items) (made_of made.old) (made_of made.new)) }
{
    let Word::Name(name) = word else {
        return Ok(false);
    };
    made.put(alloc, Note::LambdaName(name))?;
    stack.push(Symbol::CloseLambda)?;
    stack.push(Symbol::Body)?;
    stack.push(Symbol::Type)?;
    Ok(true)
}

/// Takes a word where an abstraction's body is expected.
pub(crate) fn take_body(
    alloc: Global,
    stack: &mut Vec<Symbol>,
    made: &mut Maker,
    word: Word,
) -> Result<bool, Memory>
    ensures { IfOk result (λ b. MovesTo b (step symbols.Body (meant word))
        (reverse stack.old.items) (reverse stack.new.items) (made_of made.old) (made_of made.new)) }
{
    made.put(alloc, Note::KeepType)?;
    Ok(take_term(alloc, stack, made, word)?)
}

/// Takes the closing bracket of an abstraction.
pub(crate) fn take_close_lambda(alloc: Global, made: &mut Maker, word: Word) -> Result<bool, Memory>
    ensures { IfOk result (λ b. MovesTo b (step_close_lambda (meant word)) [] []
        (made_of made.old) (made_of made.new)) }
{
    let Word::Sign(TokenKind::Close) = word else {
        return Ok(false);
    };
    made.put(alloc, Note::LambdaClose)?;
    Ok(true)
}
