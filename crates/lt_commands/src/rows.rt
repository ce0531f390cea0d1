//! Makes lines of the newest things.
ghost use Rattle.std.specs.Prelude.{◌≡◌, Option, option_map};
ghost use Rattle.lt_grammar.specs.declared.words.Part.TheVariants as parts;
ghost use Rattle.lt_grammar.specs.declared.words.RuleWord.TheVariants as words;
ghost use Rattle.lt_grammar.specs.Table.{rule_row};
ghost use Rattle.lt_hol.specs.Lines.{rule_of, trees};
ghost use Rattle.lt_commands.specs.Making.{pop, make_row};
ghost use Rattle.lt_commands.specs.Places.{term_at, IsPlaceWithin, IsLineWithin};
ghost use Rattle.lt_commands.specs.Views.{made_of};

use crate::maker::Maker;
use lt_grammar::words::RuleWord;
use lt_hol::Line;
use lt_terms::Term;
use lt_types::{List, Name, Ty};

impl Maker {
    /// The newest label.
    pub(crate) fn newest_label(&mut self) -> Option<Name>
        ensures newest { result ≡ (pop parts.Label (made_of self.old)).0 }
        ensures left { made_of self.new ≡ (pop parts.Label (made_of self.old)).1 }
        ensures nodes { self.new.terms.lines.nodes ≡ self.old.terms.lines.nodes }
    {
        self.labels.pop()
    }

    /// The newest number.
    pub(crate) fn number(&mut self) -> Option<usize>
        ensures newest { result ≡ (pop parts.Number (made_of self.old)).0 }
        ensures left { made_of self.new ≡ (pop parts.Number (made_of self.old)).1 }
        ensures nodes { self.new.terms.lines.nodes ≡ self.old.terms.lines.nodes }
    {
        self.numbers.pop()
    }

    /// The newest type that is whole.
    pub(crate) fn whole_type(&mut self) -> Option<Ty>
        ensures newest { result ≡ (pop parts.AType (made_of self.old)).0 }
        ensures left { made_of self.new ≡ (pop parts.AType (made_of self.old)).1 }
        ensures nodes { self.new.terms.lines.nodes ≡ self.old.terms.lines.nodes }
    {
        self.types.pop()
    }

    /// The newest term of a statement that is whole.
    pub(crate) fn whole(&mut self) -> Option<Term>
        ensures newest { result ≡ (pop parts.AStatement (made_of self.old)).0 }
        ensures left { made_of self.new ≡ (pop parts.AStatement (made_of self.old)).1 }
    {
        self.terms.wholes.pop()
    }

    /// The place of the newest term of a line that is whole.
    fn place(&mut self) -> Option<usize>
        ensures newest { option_map (term_at self.old.terms.lines.nodes) result
            ≡ (pop parts.ATerm (made_of self.old)).0 }
        ensures left { made_of self.new ≡ (pop parts.ATerm (made_of self.old)).1 }
        ensures nodes { self.new.terms.lines.nodes ≡ self.old.terms.lines.nodes }
        ensures within { IsPlaceWithin self.old.terms.lines.nodes result }
    {
        self.terms.place()
    }

    /// The newest row of parameters.
    pub(crate) fn row_of_names(&mut self) -> Option<List<Name>>
        ensures newest { result ≡ (pop parts.Parameters (made_of self.old)).0 }
        ensures left { made_of self.new ≡ (pop parts.Parameters (made_of self.old)).1 }
    {
        self.names.pop()
    }

    fn assume_line(&mut self) -> Option<Line>
        ensures line { option_map (rule_of (trees self.old.terms.lines.nodes)) result
            ≡ (make_row (rule_row words.Assume) (made_of self.old)).0 }
        ensures left { made_of self.new ≡ (make_row (rule_row words.Assume) (made_of self.old)).1 }
        ensures nodes { self.new.terms.lines.nodes ≡ self.old.terms.lines.nodes }
        ensures within { IsLineWithin self.old.terms.lines.nodes result }
    {
        let place = self.place();
        Some(Line::Assume(place?))
    }

    fn weaken_line(&mut self) -> Option<Line>
        ensures line { option_map (rule_of (trees self.old.terms.lines.nodes)) result
            ≡ (make_row (rule_row words.Weaken) (made_of self.old)).0 }
        ensures left { made_of self.new ≡ (make_row (rule_row words.Weaken) (made_of self.old)).1 }
        ensures nodes { self.new.terms.lines.nodes ≡ self.old.terms.lines.nodes }
        ensures within { IsLineWithin self.old.terms.lines.nodes result }
    {
        let number = self.number();
        let place = self.place();
        Some(Line::Weaken(place?, number?))
    }

    fn refl_line(&mut self) -> Option<Line>
        ensures line { option_map (rule_of (trees self.old.terms.lines.nodes)) result
            ≡ (make_row (rule_row words.Refl) (made_of self.old)).0 }
        ensures left { made_of self.new ≡ (make_row (rule_row words.Refl) (made_of self.old)).1 }
        ensures nodes { self.new.terms.lines.nodes ≡ self.old.terms.lines.nodes }
        ensures within { IsLineWithin self.old.terms.lines.nodes result }
    {
        let place = self.place();
        Some(Line::Refl(place?))
    }

    fn sym_line(&mut self) -> Option<Line>
        ensures line { option_map (rule_of (trees self.old.terms.lines.nodes)) result
            ≡ (make_row (rule_row words.Sym) (made_of self.old)).0 }
        ensures left { made_of self.new ≡ (make_row (rule_row words.Sym) (made_of self.old)).1 }
        ensures nodes { self.new.terms.lines.nodes ≡ self.old.terms.lines.nodes }
        ensures within { IsLineWithin self.old.terms.lines.nodes result }
    {
        let number = self.number();
        Some(Line::Sym(number?))
    }

    fn trans_line(&mut self) -> Option<Line>
        ensures line { option_map (rule_of (trees self.old.terms.lines.nodes)) result
            ≡ (make_row (rule_row words.Trans) (made_of self.old)).0 }
        ensures left { made_of self.new ≡ (make_row (rule_row words.Trans) (made_of self.old)).1 }
        ensures nodes { self.new.terms.lines.nodes ≡ self.old.terms.lines.nodes }
        ensures within { IsLineWithin self.old.terms.lines.nodes result }
    {
        let second_number = self.number();
        let first_number = self.number();
        Some(Line::Trans(first_number?, second_number?))
    }

    fn cong_line(&mut self) -> Option<Line>
        ensures line { option_map (rule_of (trees self.old.terms.lines.nodes)) result
            ≡ (make_row (rule_row words.Cong) (made_of self.old)).0 }
        ensures left { made_of self.new ≡ (make_row (rule_row words.Cong) (made_of self.old)).1 }
        ensures nodes { self.new.terms.lines.nodes ≡ self.old.terms.lines.nodes }
        ensures within { IsLineWithin self.old.terms.lines.nodes result }
    {
        let second_number = self.number();
        let first_number = self.number();
        Some(Line::Cong(first_number?, second_number?))
    }

    fn abs_line(&mut self) -> Option<Line>
        ensures line { option_map (rule_of (trees self.old.terms.lines.nodes)) result
            ≡ (make_row (rule_row words.Abs) (made_of self.old)).0 }
        ensures left { made_of self.new ≡ (make_row (rule_row words.Abs) (made_of self.old)).1 }
        ensures nodes { self.new.terms.lines.nodes ≡ self.old.terms.lines.nodes }
        ensures within { IsLineWithin self.old.terms.lines.nodes result }
    {
        let number = self.number();
        let ty = self.whole_type();
        let label = self.newest_label();
        Some(Line::Abs(label?, ty?, number?))
    }

    fn beta_line(&mut self) -> Option<Line>
        ensures line { option_map (rule_of (trees self.old.terms.lines.nodes)) result
            ≡ (make_row (rule_row words.Beta) (made_of self.old)).0 }
        ensures left { made_of self.new ≡ (make_row (rule_row words.Beta) (made_of self.old)).1 }
        ensures nodes { self.new.terms.lines.nodes ≡ self.old.terms.lines.nodes }
        ensures within { IsLineWithin self.old.terms.lines.nodes result }
    {
        let place = self.place();
        Some(Line::Beta(place?))
    }

    fn eta_line(&mut self) -> Option<Line>
        ensures line { option_map (rule_of (trees self.old.terms.lines.nodes)) result
            ≡ (make_row (rule_row words.Eta) (made_of self.old)).0 }
        ensures left { made_of self.new ≡ (make_row (rule_row words.Eta) (made_of self.old)).1 }
        ensures nodes { self.new.terms.lines.nodes ≡ self.old.terms.lines.nodes }
        ensures within { IsLineWithin self.old.terms.lines.nodes result }
    {
        let place = self.place();
        Some(Line::Eta(place?))
    }

    fn eqmp_line(&mut self) -> Option<Line>
        ensures line { option_map (rule_of (trees self.old.terms.lines.nodes)) result
            ≡ (make_row (rule_row words.Eqmp) (made_of self.old)).0 }
        ensures left { made_of self.new ≡ (make_row (rule_row words.Eqmp) (made_of self.old)).1 }
        ensures nodes { self.new.terms.lines.nodes ≡ self.old.terms.lines.nodes }
        ensures within { IsLineWithin self.old.terms.lines.nodes result }
    {
        let second_number = self.number();
        let first_number = self.number();
        Some(Line::Eqmp(first_number?, second_number?))
    }

    fn imp_i_line(&mut self) -> Option<Line>
        ensures line { option_map (rule_of (trees self.old.terms.lines.nodes)) result
            ≡ (make_row (rule_row words.ImpI) (made_of self.old)).0 }
        ensures left { made_of self.new ≡ (make_row (rule_row words.ImpI) (made_of self.old)).1 }
        ensures nodes { self.new.terms.lines.nodes ≡ self.old.terms.lines.nodes }
        ensures within { IsLineWithin self.old.terms.lines.nodes result }
    {
        let number = self.number();
        let place = self.place();
        Some(Line::ImpI(place?, number?))
    }

    fn mp_line(&mut self) -> Option<Line>
        ensures line { option_map (rule_of (trees self.old.terms.lines.nodes)) result
            ≡ (make_row (rule_row words.Mp) (made_of self.old)).0 }
        ensures left { made_of self.new ≡ (make_row (rule_row words.Mp) (made_of self.old)).1 }
        ensures nodes { self.new.terms.lines.nodes ≡ self.old.terms.lines.nodes }
        ensures within { IsLineWithin self.old.terms.lines.nodes result }
    {
        let second_number = self.number();
        let first_number = self.number();
        Some(Line::Mp(first_number?, second_number?))
    }

    fn all_i_line(&mut self) -> Option<Line>
        ensures line { option_map (rule_of (trees self.old.terms.lines.nodes)) result
            ≡ (make_row (rule_row words.AllI) (made_of self.old)).0 }
        ensures left { made_of self.new ≡ (make_row (rule_row words.AllI) (made_of self.old)).1 }
        ensures nodes { self.new.terms.lines.nodes ≡ self.old.terms.lines.nodes }
        ensures within { IsLineWithin self.old.terms.lines.nodes result }
    {
        let number = self.number();
        let ty = self.whole_type();
        let label = self.newest_label();
        Some(Line::AllI(label?, ty?, number?))
    }

    fn all_e_line(&mut self) -> Option<Line>
        ensures line { option_map (rule_of (trees self.old.terms.lines.nodes)) result
            ≡ (make_row (rule_row words.AllE) (made_of self.old)).0 }
        ensures left { made_of self.new ≡ (make_row (rule_row words.AllE) (made_of self.old)).1 }
        ensures nodes { self.new.terms.lines.nodes ≡ self.old.terms.lines.nodes }
        ensures within { IsLineWithin self.old.terms.lines.nodes result }
    {
        let number = self.number();
        let place = self.place();
        Some(Line::AllE(place?, number?))
    }

    fn iff_line(&mut self) -> Option<Line>
        ensures line { option_map (rule_of (trees self.old.terms.lines.nodes)) result
            ≡ (make_row (rule_row words.Iff) (made_of self.old)).0 }
        ensures left { made_of self.new ≡ (make_row (rule_row words.Iff) (made_of self.old)).1 }
        ensures nodes { self.new.terms.lines.nodes ≡ self.old.terms.lines.nodes }
        ensures within { IsLineWithin self.old.terms.lines.nodes result }
    {
        let second_number = self.number();
        let first_number = self.number();
        Some(Line::Iff(first_number?, second_number?))
    }

    fn inst_line(&mut self) -> Option<Line>
        ensures line { option_map (rule_of (trees self.old.terms.lines.nodes)) result
            ≡ (make_row (rule_row words.Inst) (made_of self.old)).0 }
        ensures left { made_of self.new ≡ (make_row (rule_row words.Inst) (made_of self.old)).1 }
        ensures nodes { self.new.terms.lines.nodes ≡ self.old.terms.lines.nodes }
        ensures within { IsLineWithin self.old.terms.lines.nodes result }
    {
        let number = self.number();
        let place = self.place();
        let ty = self.whole_type();
        let label = self.newest_label();
        Some(Line::Inst(label?, ty?, place?, number?))
    }

    fn tinst_line(&mut self) -> Option<Line>
        ensures line { option_map (rule_of (trees self.old.terms.lines.nodes)) result
            ≡ (make_row (rule_row words.Tinst) (made_of self.old)).0 }
        ensures left { made_of self.new ≡ (make_row (rule_row words.Tinst) (made_of self.old)).1 }
        ensures nodes { self.new.terms.lines.nodes ≡ self.old.terms.lines.nodes }
        ensures within { IsLineWithin self.old.terms.lines.nodes result }
    {
        let number = self.number();
        let ty = self.whole_type();
        let variable = self.newest_label();
        Some(Line::Tinst(variable?, ty?, number?))
    }

    fn select_line(&mut self) -> Option<Line>
        ensures line { option_map (rule_of (trees self.old.terms.lines.nodes)) result
            ≡ (make_row (rule_row words.Select) (made_of self.old)).0 }
        ensures left { made_of self.new ≡ (make_row (rule_row words.Select) (made_of self.old)).1 }
        ensures nodes { self.new.terms.lines.nodes ≡ self.old.terms.lines.nodes }
        ensures within { IsLineWithin self.old.terms.lines.nodes result }
    {
        let place = self.place();
        Some(Line::Select(place?))
    }

    fn ccontr_line(&mut self) -> Option<Line>
        ensures line { option_map (rule_of (trees self.old.terms.lines.nodes)) result
            ≡ (make_row (rule_row words.Ccontr) (made_of self.old)).0 }
        ensures left { made_of self.new ≡ (make_row (rule_row words.Ccontr) (made_of self.old)).1 }
        ensures nodes { self.new.terms.lines.nodes ≡ self.old.terms.lines.nodes }
        ensures within { IsLineWithin self.old.terms.lines.nodes result }
    {
        let place = self.place();
        Some(Line::Ccontr(place?))
    }

    fn thm_line(&mut self) -> Option<Line>
        ensures line { option_map (rule_of (trees self.old.terms.lines.nodes)) result
            ≡ (make_row (rule_row words.Thm) (made_of self.old)).0 }
        ensures left { made_of self.new ≡ (make_row (rule_row words.Thm) (made_of self.old)).1 }
        ensures nodes { self.new.terms.lines.nodes ≡ self.old.terms.lines.nodes }
        ensures within { IsLineWithin self.old.terms.lines.nodes result }
    {
        let label = self.newest_label();
        Some(Line::Thm(label?))
    }

    /// The line of a rule, of the newest things.
    pub(crate) fn line(&mut self, rule: RuleWord) -> Option<Line>
        ensures line { option_map (rule_of (trees self.old.terms.lines.nodes)) result
            ≡ (make_row (rule_row rule) (made_of self.old)).0 }
        ensures left { made_of self.new ≡ (make_row (rule_row rule) (made_of self.old)).1 }
        ensures nodes { self.new.terms.lines.nodes ≡ self.old.terms.lines.nodes }
        ensures within { IsLineWithin self.old.terms.lines.nodes result }
    {
        match rule {
            RuleWord::Assume => self.assume_line(),
            RuleWord::Weaken => self.weaken_line(),
            RuleWord::Refl => self.refl_line(),
            RuleWord::Sym => self.sym_line(),
            RuleWord::Trans => self.trans_line(),
            RuleWord::Cong => self.cong_line(),
            RuleWord::Abs => self.abs_line(),
            RuleWord::Beta => self.beta_line(),
            RuleWord::Eta => self.eta_line(),
            RuleWord::Eqmp => self.eqmp_line(),
            RuleWord::ImpI => self.imp_i_line(),
            RuleWord::Mp => self.mp_line(),
            RuleWord::AllI => self.all_i_line(),
            RuleWord::AllE => self.all_e_line(),
            RuleWord::Iff => self.iff_line(),
            RuleWord::Inst => self.inst_line(),
            RuleWord::Tinst => self.tinst_line(),
            RuleWord::Select => self.select_line(),
            RuleWord::Ccontr => self.ccontr_line(),
            RuleWord::Thm => self.thm_line(),
        }
    }
}
