//! What is expected behind a word: the parts of a line, of an item or of a command.
ghost use Rattle.std.specs.Prelude.{◌≡◌, ◌++◌, [], map, reverse, IfOk, OnOk};
ghost use Rattle.lt_commands.specs.Views.{made_of};
ghost use Rattle.lt_script.specs.declared.symbol.Symbol.TheVariants as symbols;
ghost use Rattle.lt_script.specs.Machine.{meant, step_lines, step_end_line, expected};
ghost use Rattle.lt_script.specs.Moves.{MovesTo};

use crate::symbol::Symbol;
use crate::table::{command_parts, item_parts, lemma_parts, rule_of, rule_parts};
use crate::word::Word;
use lt_commands::{Maker, Note};
use lt_grammar::words::{Fixed, Head, Part, RuleWord};
use lt_texts::lexical::TokenKind;
use lt_types::Memory;
use std::alloc::Global;

/// Takes the word of a rule, or the closing brace.
pub(crate) fn take_line(
    alloc: Global,
    stack: &mut Vec<Symbol>,
    made: &mut Maker,
    word: Word,
) -> Result<bool, Memory>
    ensures { IfOk result (λ b. MovesTo b (step_lines (meant word))
        (reverse stack.old.items) (reverse stack.new.items) (made_of made.old) (made_of made.new)) }
{
    match word {
        Word::Sign(TokenKind::CloseBrace) => Ok(true),
        Word::Name(name) => {
            let Some(rule) = rule_of(&name) else {
                return Ok(false);
            };
            made.put(alloc, Note::BeginLine(rule))?;
            stack.push(Symbol::Lines)?;
            stack.push(Symbol::EndLine(rule))?;
            expect(stack, rule_parts(rule))?;
            Ok(true)
        }
        _ => Ok(false),
    }
}

/// Takes the end of a line.
pub(crate) fn take_end_line(
    alloc: Global,
    made: &mut Maker,
    rule: RuleWord,
    word: Word,
) -> Result<bool, Memory>
    ensures { IfOk result (λ b. MovesTo b (step_end_line rule (meant word)) [] []
        (made_of made.old) (made_of made.new)) }
{
    let Word::Sign(TokenKind::Semicolon) = word else {
        return Ok(false);
    };
    made.put(alloc, Note::EndLine(rule))?;
    Ok(true)
}

/// Expects what stands behind the word of a sentence, where the header has this number.
pub(crate) fn expect_head(stack: &mut Vec<Symbol>, number: u32, head: Head) -> Result<(), Memory>
    ensures { OnOk result (reverse stack.new.items
        ≡ expected number head ++ reverse stack.old.items) }
{
    stack.push(Symbol::Part(Part::Fixed(Fixed::Semicolon)))?;
    match head {
        Head::Header => stack.push(Symbol::HeaderNumber(number))?,
        Head::Lemma => {
            stack.push(Symbol::Lines)?;
            stack.push(Symbol::Part(Part::Fixed(Fixed::OpenBrace)))?;
            expect(stack, lemma_parts())?;
        }
        Head::Item(item) => expect(stack, item_parts(item))?,
        Head::Command(command) => expect(stack, command_parts(command))?,
    }
    Ok(())
}

/// Expects the parts of a row, the first one first.
fn expect(stack: &mut Vec<Symbol>, row: &[Part]) -> Result<(), Memory>
    ensures { OnOk result (reverse stack.new.items
        ≡ map symbols.Part row.now ++ reverse stack.old.items) }
{
    'row: for behind in 0..row.len() {
        stack.push(Symbol::Part(row[row.len() - 1 - behind]))?;
    }
    Ok(())
}
