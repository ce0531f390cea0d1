//! A text that is read command by command.
ghost use Rattle.std.specs.Prelude.{◌≡◌, ◌<◌, ⊤, List, length, chars, IfOk, IfErr, OnOk, OnErr, MatchOption};
ghost use Rattle.lt_definitions.specs.Types.{Chars};
ghost use Rattle.lt_texts.specs.CommandPlaces.{NextPlaced};
ghost use Rattle.lt_texts.specs.Forms.{header_text};
ghost use Rattle.lt_texts.specs.WrongPlaces.{AtEnd, Stands};
ghost use Rattle.lt_commands.specs.Views.{command_of};
ghost use Rattle.lt_script.specs.Openings.{allowed_words};
ghost use Rattle.lt_script.specs.Promises.{Refuses, RefusesHeader};
ghost use Rattle.lt_script.specs.Scripts.{Begun, begun_of, form_in, headed};
ghost use Rattle.lt_script.specs.declared.form.Allowed.TheVariants as kinds;

use crate::form::{Allowed, Opening, no_opening};
use crate::known_words::KnownWords;
use crate::read_error::ReadError;
use crate::sentences::{next_command, open_header};
use crate::spanned::Spanned;
use lt_lex::Lexer;
use std::alloc::Global;
use std::marker::Model;

/// A text that is read command by command. Contracts see what is left of it, and the word and the
/// number of the header that was read last.
#[derive(Drop)]
pub struct Script<'a> {
    lexer: Lexer<'a>,
    end: usize,
    opening: Opening,
    words: KnownWords,
}

impl<'a> Model for Script<'a> {
    ghost use Rattle.lt_script.specs.Openings.{word_of};
    ghost use Rattle.lt_script.specs.Scripts.{Begun};

    ghost Value = { Begun };

    ghost view = { λ s. record {
      left = s.lexer;
      word = word_of s.opening;
      number = s.opening.number;
    } };

    ghost use Rattle.std.specs.Prelude.{◌≡◌, length};

    ghost invariant = { λ s. s.end ≡ length s.lexer.source };
}

impl<'a> Script<'a> {
    /// A text from its begin, of which no header was read. It takes time in the text's length.
    pub fn new(alloc: Global, text: &'a [u8]) -> Script<'a>
        ensures { result ≡ begun_of text.now }
    {
        Script {
            lexer: Lexer::new(text),
            end: text.len(),
            opening: no_opening(alloc),
            words: KnownWords::new(alloc),
        }
    }

    /// Reads the header with this word and this number.
    ///
    /// `BadHeader` has the first place at which the text can't go on as that header; `BadByte` and
    /// `BadChar` come before it. After a refusal the script is as before.
    pub fn header(&mut self, alloc: Global, word: &str, number: u32) -> Result<(), ReadError>
        ensures ok { OnOk result ((self.new.word ≡ chars word.now) × (self.new.number ≡ number)) }
        ensures header { IfOk result (λ _. (commands : List Chars) → Stands self.old.left
            (header_text (headed (chars word.now) number commands)) self.new.left) }
        ensures wrong { IfErr result (λ e. (commands : List Chars)
            → RefusesHeader (headed (chars word.now) number commands) self.old.left e) }
        ensures err { OnErr result (self.new ≡ self.old) }
    {
        let opening = Opening {
            word: String::from_str(alloc, word)?,
            number,
        };
        let mut lexer = self.lexer.copy();
        match open_header(alloc, &mut self.words, &mut lexer, self.end, &opening) {
            Ok(()) => {
                self.lexer = lexer;
                self.opening = opening;
                Ok(())
            }
            Err(error) => Err(error),
        }
    }

    /// The next command with its places, behind repetitions of the header that was read last, or
    /// None at the text's end.
    ///
    /// `BadCommand` has the place of a token that stands where a command begins and is no command's
    /// word, `BadHeader` the first place at which the text can't go on as the header whose word
    /// stands there, and `Syntax` any other first place at which no text goes on; `BadByte` and
    /// `BadChar` come before them. After a refusal, and at the end, the script is as before. It
    /// takes time in the bytes that it passes over.
    pub fn parse_command(&mut self, alloc: Global) -> Result<Option<Spanned>, ReadError>
        ensures command { IfOk result
            (λ o. MatchOption o (AtEnd (form_in self.old (allowed_words kinds.All)) self.old.left)
            (λ d. NextPlaced (form_in self.old (allowed_words kinds.All)) self.old.left
            (command_of d.command) d.from d.lines d.to self.new.left)) }
        ensures wrong { IfErr result
            (λ e. Refuses (form_in self.old (allowed_words kinds.All)) self.old.left e) }
        ensures shorter { IfOk result (λ o. MatchOption o ⊤
            (λ d. length self.new.left.ahead < length self.old.left.ahead)) }
        ensures header { (self.new.word ≡ self.old.word) × (self.new.number ≡ self.old.number) }
        ensures end { IfOk result (λ o. MatchOption o (self.new ≡ self.old) (λ d. ⊤)) }
        ensures err { OnErr result (self.new ≡ self.old) }
    {
        self.parse(alloc, Allowed::All)
    }

    /// The same for items alone: another command's word is `BadCommand`.
    pub fn parse_item(&mut self, alloc: Global) -> Result<Option<Spanned>, ReadError>
        ensures command { IfOk result
            (λ o. MatchOption o (AtEnd (form_in self.old (allowed_words kinds.Items)) self.old.left)
            (λ d. NextPlaced (form_in self.old (allowed_words kinds.Items)) self.old.left
            (command_of d.command) d.from d.lines d.to self.new.left)) }
        ensures wrong { IfErr result
            (λ e. Refuses (form_in self.old (allowed_words kinds.Items)) self.old.left e) }
        ensures shorter { IfOk result (λ o. MatchOption o ⊤
            (λ d. length self.new.left.ahead < length self.old.left.ahead)) }
        ensures header { (self.new.word ≡ self.old.word) × (self.new.number ≡ self.old.number) }
        ensures end { IfOk result (λ o. MatchOption o (self.new ≡ self.old) (λ d. ⊤)) }
        ensures err { OnErr result (self.new ≡ self.old) }
    {
        self.parse(alloc, Allowed::Items)
    }

    /// The next of the commands that may stand.
    fn parse(&mut self, alloc: Global, allowed: Allowed) -> Result<Option<Spanned>, ReadError>
        ensures command { IfOk result
            (λ o. MatchOption o (AtEnd (form_in self.old (allowed_words allowed)) self.old.left)
            (λ d. NextPlaced (form_in self.old (allowed_words allowed)) self.old.left
            (command_of d.command) d.from d.lines d.to self.new.left)) }
        ensures wrong { IfErr result
            (λ e. Refuses (form_in self.old (allowed_words allowed)) self.old.left e) }
        ensures shorter { IfOk result (λ o. MatchOption o ⊤
            (λ d. length self.new.left.ahead < length self.old.left.ahead)) }
        ensures header { (self.new.word ≡ self.old.word) × (self.new.number ≡ self.old.number) }
        ensures end { IfOk result (λ o. MatchOption o (self.new ≡ self.old) (λ d. ⊤)) }
        ensures err { OnErr result (self.new ≡ self.old) }
    {
        let mut lexer = self.lexer.copy();
        match next_command(
            alloc,
            &mut self.words,
            &mut lexer,
            self.end,
            &self.opening,
            allowed,
        ) {
            Ok(Some(spanned)) => {
                self.lexer = lexer;
                Ok(Some(spanned))
            }
            Ok(None) => Ok(None),
            Err(error) => Err(error),
        }
    }
}
