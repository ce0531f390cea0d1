//! Derives the lines of a lemma.
ghost use Rattle.std.specs.Prelude.{◌≡◌, ◌+◌, ◌<◌, [], List, length, true, OnOk, IfOk};
ghost use Rattle.lt_definitions.specs.Items.{Context};
ghost use Rattle.lt_definitions.specs.Rules.{Sequent};
ghost use Rattle.lt_hol.specs.Lines.{trees, rule_of, rules_of, is_within};
ghost use Rattle.lt_kernel.specs.State.{Stays};
ghost use Rattle.lt_extend.specs.Standing.{StandsFor};
ghost use Rattle.lt_extend.specs.Deriving.{HasSequents, DerivesLine, DerivesLines, line_fault};

use crate::storing::store_line;
use lt_conditions::ItemFault;
use lt_hol::{Line, Lines, TypeFault};
use lt_kernel::{Proof, RuleFault};
use lt_store::TermStore;
use std::alloc::Global;

/// Derives the lines.
pub(crate) fn add_lines<S: TermStore>(
    alloc: Global,
    proof: &mut Proof<S>,
    lines: &Lines,
) -> Result<(), ItemFault>
    requires { proof.old.steps ≡ [] }
    ensures stays { Stays proof.old proof.new }
    ensures count { OnOk result (length proof.new.steps ≡ length lines.now.lines) }
    ensures derives { (ctx : Context) → StandsFor ctx proof.old → DerivesLines ctx
        (rules_of lines.now.nodes lines.now.lines) proof.new result }
{
    for i in 0..lines.len() {
        match add_line(alloc, proof, lines, lines.at(i), i + 1) {
            Ok(()) => {}
            Err(fault) => return Err(fault),
        }
    }
    Ok(())
}

/// Derives one more line, which has this number.
fn add_line<S: TermStore>(
    alloc: Global,
    proof: &mut Proof<S>,
    lines: &Lines,
    line: &Line,
    number: usize,
) -> Result<(), ItemFault>
    requires within { is_within (length lines.now.nodes) line.now ≡ true }
    requires number { number ≡ length proof.old.steps + 1 }
    ensures stays { Stays proof.old proof.new }
    ensures count { OnOk result (length proof.new.steps ≡ number) }
    ensures derives { (ctx : Context) (done : List Sequent) → StandsFor ctx proof.old
        → HasSequents proof.old done
        → DerivesLine ctx done (rule_of (trees lines.now.nodes) line.now) number proof.new
        result }
{
    let stored = match store_line(alloc, proof, lines, line) {
        Ok(stored) => stored,
        Err(fault) => return Err(in_line(number, fault)),
    };
    match proof.apply(alloc, &stored) {
        Ok(_) => Ok(()),
        Err(RuleFault::Bad(reason)) => Err(ItemFault::BadLine(number, reason)),
        Err(RuleFault::Memory) => Err(ItemFault::Memory),
        Err(RuleFault::Duplicate(_)) => unreachable!(),
    }
}

/// The fault of a lemma whose line with a number has this one.
fn in_line(number: usize, fault: TypeFault) -> ItemFault
    ensures { result ≡ line_fault number fault }
{
    match fault {
        TypeFault::Memory => ItemFault::Memory,
        fault => ItemFault::InLine(number, fault),
    }
}
