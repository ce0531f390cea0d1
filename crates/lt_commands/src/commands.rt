//! Makes items and commands of the newest things.
ghost use Rattle.std.specs.Prelude.{◌≡◌, IfOk, Option, option_map};
ghost use Rattle.lt_grammar.specs.declared.words.Part.TheVariants as parts;
ghost use Rattle.lt_commands.specs.declared.note.Note.TheVariants as notes;
ghost use Rattle.lt_grammar.specs.declared.words.ItemWord.TheVariants as items;
ghost use Rattle.lt_grammar.specs.declared.words.CommandWord.TheVariants as words;
ghost use Rattle.lt_grammar.specs.declared.words.Head.TheVariants as heads;
ghost use Rattle.lt_grammar.specs.Table.{item_row, command_row};
ghost use Rattle.lt_hol.specs.Lines.{rules_of};
ghost use Rattle.lt_commands.specs.Making.{pop, put, make_row, as_item, lemma_of, command_made};
ghost use Rattle.lt_commands.specs.Views.{made_of, command_of};

use crate::command::Command;
use crate::maker::Maker;
use crate::note::Note;
use crate::term_sink::TermSink;
use lt_grammar::words::{CommandWord, Head, ItemWord};
use lt_hol::Lines;
use lt_terms::Term;
use lt_types::{Memory, Name, Ty};
use std::alloc::Global;

impl Maker {
    fn type_decl(&mut self) -> Option<Command>
        ensures { option_map command_of result
            ≡ as_item (make_row (item_row items.TypeItem) (made_of self.old)).0 }
    {
        let number = self.number();
        let label = self.newest_label();
        Some(Command::TypeDecl(label?, number?))
    }

    fn const_decl(&mut self) -> Option<Command>
        ensures { option_map command_of result
            ≡ as_item (make_row (item_row items.Const) (made_of self.old)).0 }
    {
        let ty = self.whole_type();
        let label = self.newest_label();
        Some(Command::ConstDecl(label?, ty?))
    }

    fn axiom(&mut self) -> Option<Command>
        ensures { option_map command_of result
            ≡ as_item (make_row (item_row items.Axiom) (made_of self.old)).0 }
    {
        let term = self.whole();
        let label = self.newest_label();
        Some(Command::Axiom(label?, term?))
    }

    fn def(&mut self) -> Option<Command>
        ensures { option_map command_of result
            ≡ as_item (make_row (item_row items.Def) (made_of self.old)).0 }
    {
        let term = self.whole();
        let ty = self.whole_type();
        let label = self.newest_label();
        Some(Command::Def(label?, ty?, term?))
    }

    fn typedef(&mut self) -> Option<Command>
        ensures { option_map command_of result
            ≡ as_item (make_row (item_row items.Typedef) (made_of self.old)).0 }
    {
        let fourth_label = self.newest_label();
        let third_label = self.newest_label();
        let second_label = self.newest_label();
        let term = self.whole();
        let params = self.row_of_names();
        let first_label = self.newest_label();
        Some(Command::Typedef(
            first_label?,
            params?,
            term?,
            second_label?,
            third_label?,
            fourth_label?,
        ))
    }

    /// The item that begins so, of the newest things.
    fn item(&mut self, item: ItemWord) -> Option<Command>
        ensures { option_map command_of result
            ≡ as_item (make_row (item_row item) (made_of self.old)).0 }
    {
        match item {
            ItemWord::TypeItem => self.type_decl(),
            ItemWord::Const => self.const_decl(),
            ItemWord::Axiom => self.axiom(),
            ItemWord::Def => self.def(),
            ItemWord::Typedef => self.typedef(),
        }
    }

    fn law(&mut self) -> Option<Command>
        ensures { option_map command_of result
            ≡ (make_row (command_row words.Law) (made_of self.old)).0 }
    {
        let second_label = self.newest_label();
        let first_label = self.newest_label();
        Some(Command::Law(first_label?, second_label?))
    }

    fn corr(&mut self) -> Option<Command>
        ensures { option_map command_of result
            ≡ (make_row (command_row words.Corr) (made_of self.old)).0 }
    {
        let label = self.newest_label();
        Some(Command::Corr(label?))
    }

    fn relator(&mut self) -> Option<Command>
        ensures { option_map command_of result
            ≡ (make_row (command_row words.Relator) (made_of self.old)).0 }
    {
        let sixth_label = self.newest_label();
        let fifth_label = self.newest_label();
        let fourth_label = self.newest_label();
        let third_label = self.newest_label();
        let second_label = self.newest_label();
        let first_label = self.newest_label();
        Some(Command::Relator(
            first_label?,
            second_label?,
            third_label?,
            fourth_label?,
            fifth_label?,
            sixth_label?,
        ))
    }

    fn property(&mut self) -> Option<Command>
        ensures { option_map command_of result
            ≡ (make_row (command_row words.Property) (made_of self.old)).0 }
    {
        let label = self.newest_label();
        Some(Command::Property(label?))
    }

    fn domain(&mut self) -> Option<Command>
        ensures { option_map command_of result
            ≡ (make_row (command_row words.Domain) (made_of self.old)).0 }
    {
        let label = self.newest_label();
        Some(Command::Domain(label?))
    }

    fn rule(&mut self) -> Option<Command>
        ensures { option_map command_of result
            ≡ (make_row (command_row words.Rule) (made_of self.old)).0 }
    {
        let label = self.newest_label();
        Some(Command::Rule(label?))
    }

    fn lifting(&mut self) -> Option<Command>
        ensures { option_map command_of result
            ≡ (make_row (command_row words.Lifting) (made_of self.old)).0 }
    {
        let label = self.newest_label();
        Some(Command::Lifting(label?))
    }

    fn lifting_typedef(&mut self) -> Option<Command>
        ensures { option_map command_of result
            ≡ (make_row (command_row words.LiftingTypedef) (made_of self.old)).0 }
    {
        let label = self.newest_label();
        Some(Command::LiftingTypedef(label?))
    }

    fn quotient_type(&mut self) -> Option<Command>
        ensures { option_map command_of result
            ≡ (make_row (command_row words.QuotientType) (made_of self.old)).0 }
    {
        let second_label = self.newest_label();
        let term = self.whole();
        let params = self.row_of_names();
        let first_label = self.newest_label();
        Some(Command::QuotientType(first_label?, params?, term?, second_label?))
    }

    fn lift(&mut self) -> Option<Command>
        ensures { option_map command_of result
            ≡ (make_row (command_row words.Lift) (made_of self.old)).0 }
    {
        let second_label = self.newest_label();
        let term = self.whole();
        let ty = self.whole_type();
        let first_label = self.newest_label();
        Some(Command::Lift(first_label?, ty?, term?, second_label?))
    }

    fn parametric(&mut self) -> Option<Command>
        ensures { option_map command_of result
            ≡ (make_row (command_row words.Parametric) (made_of self.old)).0 }
    {
        let label = self.newest_label();
        Some(Command::Parametric(label?))
    }

    fn param_rule(&mut self) -> Option<Command>
        ensures { option_map command_of result
            ≡ (make_row (command_row words.ParamRule) (made_of self.old)).0 }
    {
        let third_label = self.newest_label();
        let second_label = self.newest_label();
        let first_label = self.newest_label();
        Some(Command::ParamRule(first_label?, second_label?, third_label?))
    }

    fn equiv(&mut self) -> Option<Command>
        ensures { option_map command_of result
            ≡ (make_row (command_row words.Equiv) (made_of self.old)).0 }
    {
        let term = self.whole();
        let label = self.newest_label();
        Some(Command::Equiv(label?, term?))
    }

    fn implies(&mut self) -> Option<Command>
        ensures { option_map command_of result
            ≡ (make_row (command_row words.Implies) (made_of self.old)).0 }
    {
        let term = self.whole();
        let label = self.newest_label();
        Some(Command::Implies(label?, term?))
    }

    fn carry(&mut self) -> Option<Command>
        ensures { option_map command_of result
            ≡ (make_row (command_row words.Carry) (made_of self.old)).0 }
    {
        let third_label = self.newest_label();
        let second_label = self.newest_label();
        let first_label = self.newest_label();
        Some(Command::Carry(first_label?, second_label?, third_label?))
    }

    fn abs_eq(&mut self) -> Option<Command>
        ensures { option_map command_of result
            ≡ (make_row (command_row words.AbsEq) (made_of self.old)).0 }
    {
        let label = self.newest_label();
        Some(Command::AbsEq(label?))
    }

    fn rep_eq(&mut self) -> Option<Command>
        ensures { option_map command_of result
            ≡ (make_row (command_row words.RepEq) (made_of self.old)).0 }
    {
        let label = self.newest_label();
        Some(Command::RepEq(label?))
    }

    /// The command that begins so, of the newest things.
    fn further(&mut self, command: CommandWord) -> Option<Command>
        ensures { option_map command_of result
            ≡ (make_row (command_row command) (made_of self.old)).0 }
    {
        match command {
            CommandWord::Law => self.law(),
            CommandWord::Corr => self.corr(),
            CommandWord::Relator => self.relator(),
            CommandWord::Property => self.property(),
            CommandWord::Domain => self.domain(),
            CommandWord::Rule => self.rule(),
            CommandWord::Lifting => self.lifting(),
            CommandWord::LiftingTypedef => self.lifting_typedef(),
            CommandWord::QuotientType => self.quotient_type(),
            CommandWord::Lift => self.lift(),
            CommandWord::Parametric => self.parametric(),
            CommandWord::ParamRule => self.param_rule(),
            CommandWord::Equiv => self.equiv(),
            CommandWord::Implies => self.implies(),
            CommandWord::Carry => self.carry(),
            CommandWord::AbsEq => self.abs_eq(),
            CommandWord::RepEq => self.rep_eq(),
        }
    }

    /// The one type that was made.
    pub fn ty(self, alloc: Global) -> Result<Option<Ty>, Memory>
        ensures { IfOk result
            (λ o. o ≡ (pop parts.AType (put notes.KeepType (made_of self))).0) }
    {
        let mut maker = self;
        maker.put(alloc, Note::KeepType)?;
        Ok(maker.whole_type())
    }

    /// The one term that was made, no line having begun.
    pub fn term(self, alloc: Global) -> Result<Option<Term>, Memory>
        ensures { IfOk result
            (λ o. o ≡ (pop parts.AStatement (put notes.KeepTerm (made_of self))).0) }
    {
        let mut maker = self;
        maker.put(alloc, Note::KeepTerm)?;
        Ok(maker.whole())
    }

    fn lemma(self) -> Option<Command>
        ensures { option_map command_of result ≡ command_made heads.Lemma (made_of self) }
    {
        let mut maker = self;
        let statement = maker.whole();
        let label = maker.newest_label();
        let Maker { terms, .. } = maker;
        let TermSink { lines, .. } = terms;
        lemma_from(statement, label, lines)
    }

    /// The command that begins so.
    pub fn command(self, head: Head) -> Option<Command>
        ensures { option_map command_of result ≡ command_made head (made_of self) }
    {
        let mut maker = self;
        match head {
            Head::Header => None,
            Head::Lemma => maker.lemma(),
            Head::Item(item) => maker.item(item),
            Head::Command(command) => maker.further(command),
        }
    }
}

/// The lemma of its parts, if they are there.
fn lemma_from(statement: Option<Term>, label: Option<Name>, lines: Lines) -> Option<Command>
    ensures { option_map command_of result
        ≡ lemma_of statement label (rules_of lines.nodes lines.lines) }
{
    Some(Command::Lemma(label?, statement?, lines))
}
