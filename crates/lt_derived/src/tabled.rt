//! Lines by the tables of lt_tables.
ghost use Rattle.std.specs.Prelude.{◌≡◌, [], ◌∷◌, None, IfOk};
ghost use Rattle.lt_definitions.specs.Derivations.{rule_fault};
ghost use Rattle.lt_definitions.specs.Rules.{with_line};
ghost use Rattle.lt_nameless.specs.Nameless.{IsWhole};
ghost use Rattle.lt_nameless.specs.NamelessRules.{nameless_fault};
ghost use Rattle.lt_kernel.specs.Lines.{IsGoodLine, rule_at};
ghost use Rattle.lt_kernel.specs.State.{Keeps, sequents};
ghost use Rattle.lt_kernel.specs.Growing.{Carries};
ghost use Rattle.lt_kernel.specs.Reaching.{Reaches};
ghost use Rattle.lt_programs.specs.Programs.{followed, AreGood};
ghost use Rattle.lt_tables.specs.Rules.{form_with, rule_of, rules_of};
ghost use Rattle.lt_derived.specs.Equations.{Stands};
ghost use Rattle.lt_derived.specs.Tabled.{number_at, renumbered};

use lt_hol::{Line, Memory, Reason};
use lt_kernel::{Proof, RuleFault};
use lt_store::{Id, TermStore};
use lt_tables::{Row, term_with, type_with, variable_name};
use std::alloc::Global;

/// Puts the term of a text into the store.
pub(crate) fn put_text<S: TermStore>(
    alloc: Global,
    proof: &mut Proof<S>,
    types: &str,
    text: &str,
) -> Result<Id, Memory>
    requires { IsWhole 0 (form_with types.now text.now) }
    ensures keeps { Keeps proof.old proof.new }
    ensures carries { Carries proof.old proof.new }
    ensures stands { IfOk result (λ id. Stands proof.new id (form_with types.now text.now)) }
{
    match term_with(alloc, types, text)? {
        Some(term) => {
            let id = proof.add_term(alloc, &term)?;
            Ok(id)
        }
        None => unreachable!(),
    }
}

/// The number at a place, from 1; 0 where there is none.
fn number_at(numbers: &[usize], place: usize) -> usize
    ensures { result ≡ number_at numbers.now place }
{
    if place == 0 || numbers.len() < place {
        return 0;
    }
    numbers[place - 1]
}

/// The line of a row, whose numbers are places among these.
fn row_line<S: TermStore>(
    alloc: Global,
    proof: &mut Proof<S>,
    types: &str,
    numbers: &[usize],
    row: Row,
) -> Result<Line, Memory>
    requires { rule_fault proof.old.signature (nameless_fault proof.old.signature)
        (rule_of types.now row) ≡ None }
    ensures keeps { Keeps proof.old proof.new }
    ensures carries { Carries proof.old proof.new }
    ensures good { IfOk result (λ line. IsGoodLine proof.new.signature proof.new.nodes line) }
    ensures rule { IfOk result (λ line. rule_at proof.new.nodes line
        ≡ renumbered (number_at numbers.now) (rule_of types.now row)) }
{
    match row {
        Row::Assume(p) => {
            let p = put_text(alloc, proof, types, p)?;
            Ok(Line::Assume(p))
        }
        Row::Refl(t) => {
            let t = put_text(alloc, proof, types, t)?;
            Ok(Line::Refl(t))
        }
        Row::Beta(t) => {
            let t = put_text(alloc, proof, types, t)?;
            Ok(Line::Beta(t))
        }
        Row::Select(p) => {
            let p = put_text(alloc, proof, types, p)?;
            Ok(Line::Select(p))
        }
        Row::ImpI(p, i) => {
            let p = put_text(alloc, proof, types, p)?;
            Ok(Line::ImpI(p, number_at(numbers, i)))
        }
        Row::AllE(t, i) => {
            let t = put_text(alloc, proof, types, t)?;
            Ok(Line::AllE(t, number_at(numbers, i)))
        }
        Row::AllI(x, i) => {
            let ty = type_with(alloc, types, x)?;
            let x = variable_name(alloc, x)?;
            Ok(Line::AllI(x, ty, number_at(numbers, i)))
        }
        Row::Sym(i) => Ok(Line::Sym(number_at(numbers, i))),
        Row::Trans(i, j) => Ok(Line::Trans(number_at(numbers, i), number_at(numbers, j))),
        Row::Cong(i, j) => Ok(Line::Cong(number_at(numbers, i), number_at(numbers, j))),
        Row::Eqmp(i, j) => Ok(Line::Eqmp(number_at(numbers, i), number_at(numbers, j))),
        Row::Mp(i, j) => Ok(Line::Mp(number_at(numbers, i), number_at(numbers, j))),
    }
}

/// From a line: what a table gives, whose first line it is.
///
/// `MissingLine` where there is no line, else the reason of the first row that gives nothing.
pub(crate) fn tabled<S: TermStore>(
    alloc: Global,
    proof: &mut Proof<S>,
    given: usize,
    types: &str,
    rows: &[Row],
) -> Result<usize, RuleFault>
    requires { AreGood proof.old.signature (rules_of types.now rows.now) }
    ensures reaches { Reaches proof.new result (with_line (sequents proof.old) given
        (λ s. followed proof.old.signature (s ∷ []) (rules_of types.now rows.now))) }
    ensures carries { Carries proof.old proof.new }
{
    if !proof.is_line(given) {
        return Err(RuleFault::Bad(Reason::MissingLine));
    }
    let mut numbers: Vec<usize> = Vec::new(alloc);
    numbers.push(given)?;
    for k in 0..rows.len() {
        let line = row_line(alloc, proof, types, numbers.as_slice(), rows[k])?;
        let number = match proof.apply(alloc, &line) {
            Ok(number) => number,
            Err(fault) => return Err(fault),
        };
        numbers.push(number)?;
    }
    Ok(number_at(numbers.as_slice(), numbers.len()))
}
