//! Reads headers, and commands behind headers.
ghost use Rattle.std.specs.Prelude.{◌≡◌, ◌<◌, ⊤, List, [], length, IfOk, IfErr, OnOk, MatchOption};
ghost use Rattle.lt_definitions.specs.Types.{Chars};
ghost use Rattle.lt_grammar.specs.RowTexts.{header, text_lexemes};
ghost use Rattle.lt_texts.specs.CommandPlaces.{NextPlaced};
ghost use Rattle.lt_texts.specs.Forms.{header_text};
ghost use Rattle.lt_texts.specs.Lexemes.{Spans};
ghost use Rattle.lt_texts.specs.WrongPlaces as texts;
ghost use Rattle.lt_script.specs.Promises.{Refuses, RefusesHeader};
ghost use Rattle.lt_commands.specs.Views.{command_of};
ghost use Rattle.lt_script.specs.Openings.{form_of, opened, word_of, is_opening};
ghost use Rattle.lt_script.specs.Machine.{meant};
ghost use Rattle.lt_script.specs.Reading.{AtEnd, Fails, HeaderFails};
ghost use Rattle.lt_script.specs.Stops.{is_header};

use crate::form::{Allowed, Opening};
use crate::known_words::KnownWords;
use crate::read_error::ReadError;
use crate::reading::{Behind, Next, next_head, read, word_of};
use crate::spanned::Spanned;
use crate::table::is_header_word;
use crate::word::Word;
use lt_grammar::words::Head;
use lt_lex::Lexer;
use lt_texts::lexical::Lexed;
use lt_types::List;
use std::alloc::Global;

/// The next command, or None at the text's end, by the rows of the table. Headers before it are
/// passed over. `end` is the text's length.
fn next_spanned(
    alloc: Global,
    words: &mut KnownWords,
    lexer: &mut Lexer<'_>,
    end: usize,
    opening: &Opening,
    allowed: Allowed,
) -> Result<Option<Spanned>, ReadError>
    requires { end ≡ length lexer.old.source }
    ensures command { IfOk result
        (λ o. MatchOption o (AtEnd (form_of opening.now allowed) lexer.old)
        (λ d. NextPlaced (form_of opening.now allowed) lexer.old
        (command_of d.command) d.from d.lines d.to lexer.new)) }
    ensures shorter { IfOk result (λ o. MatchOption o ⊤
        (λ d. length lexer.new.ahead < length lexer.old.ahead)) }
    ensures source { IfOk result (λ o. MatchOption o ⊤
        (λ d. end ≡ length lexer.new.source)) }
    ensures wrong { IfErr result (λ e. Fails (form_of opening.now allowed) lexer.old e) }
{
    'parts: loop {
        match next_head(alloc, words, lexer, opening, allowed)? {
            Next::End => return Ok(None),
            Next::Begins(head, from) => {
                match read(alloc, words, lexer, end, opening.number, head) {
                    Ok(behind) => {
                        if !is_header(head) {
                            let Behind { maker, places, to } = behind;
                            let Some(command) = maker.command(head) else {
                                unreachable!()
                            };
                            let lines = List::from_vec(places);
                            return Ok(Some(Spanned {
                                command,
                                from,
                                to,
                                lines,
                            }));
                        }
                    }
                    Err(error) => return Err(error),
                }
            }
            Next::Other(at) => return Err(ReadError::BadCommand(at)),
            Next::BadByte(at) => return Err(ReadError::BadByte(at)),
            Next::BadChar(at) => return Err(ReadError::BadChar(at)),
        }
    }
}

/// Reads a header. `end` is the text's length.
fn read_header(
    alloc: Global,
    words: &mut KnownWords,
    lexer: &mut Lexer<'_>,
    end: usize,
    opening: &Opening,
) -> Result<(), ReadError>
    requires { end ≡ length lexer.old.source }
    ensures header { IfOk result (λ _. (commands : List Chars)
        → Spans lexer.old (text_lexemes (opened opening.now commands) header []) lexer.new) }
    ensures source { OnOk result (end ≡ length lexer.new.source) }
    ensures wrong { IfErr result (λ e. (commands : List Chars)
        → HeaderFails (opened opening.now commands) lexer.old e) }
{
    let token = match lexer.next_token() {
        Lexed::Token(token) => token,
        Lexed::End => return Err(ReadError::BadHeader(end)),
        Lexed::BadByte(at) => return Err(ReadError::BadByte(at)),
        Lexed::BadChar(at) => return Err(ReadError::BadChar(at)),
    };
    let word = word_of(alloc, words, lexer, token)?;
    if !is_opening(opening, &word) {
        return Err(ReadError::BadHeader(token.from));
    }
    match read(alloc, words, lexer, end, opening.number, Head::Header) {
        Ok(_behind) => return Ok(()),
        Err(error) => return Err(error),
    }
}

/// The next command behind headers, or None at the text's end. `end` is the text's length.
pub(crate) fn next_command(
    alloc: Global,
    words: &mut KnownWords,
    lexer: &mut Lexer<'_>,
    end: usize,
    opening: &Opening,
    allowed: Allowed,
) -> Result<Option<Spanned>, ReadError>
    requires { end ≡ length lexer.old.source }
    ensures command { IfOk result
        (λ o. MatchOption o (texts.AtEnd (form_of opening.now allowed) lexer.old)
        (λ d. NextPlaced (form_of opening.now allowed) lexer.old
        (command_of d.command) d.from d.lines d.to lexer.new)) }
    ensures shorter { IfOk result (λ o. MatchOption o ⊤
        (λ d. length lexer.new.ahead < length lexer.old.ahead)) }
    ensures source { IfOk result (λ o. MatchOption o ⊤
        (λ d. end ≡ length lexer.new.source)) }
    ensures wrong { IfErr result (λ e. Refuses (form_of opening.now allowed) lexer.old e) }
{
    next_spanned(alloc, words, lexer, end, opening, allowed)
}

/// The header with this word and number. `end` is the text's length.
pub(crate) fn open_header(
    alloc: Global,
    words: &mut KnownWords,
    lexer: &mut Lexer<'_>,
    end: usize,
    opening: &Opening,
) -> Result<(), ReadError>
    requires { end ≡ length lexer.old.source }
    ensures header { IfOk result (λ _. (commands : List Chars) → texts.Stands lexer.old
        (header_text (opened opening.now commands)) lexer.new) }
    ensures source { OnOk result (end ≡ length lexer.new.source) }
    ensures wrong { IfErr result (λ e. (commands : List Chars)
        → RefusesHeader (opened opening.now commands) lexer.old e) }
{
    read_header(alloc, words, lexer, end, opening)
}

/// Whether it is the word of the header.
fn is_opening(opening: &Opening, word: &Word) -> bool
    ensures { result ≡ is_opening (word_of opening.now) (meant word.now) }
{
    match word {
        Word::Name(name) => is_header_word(opening, name),
        _ => false,
    }
}

/// Whether the header begins so.
fn is_header(head: Head) -> bool
    ensures { result ≡ is_header head }
{
    matches!(head, Head::Header)
}
