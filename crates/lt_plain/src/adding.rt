//! Items are added to a theory.
ghost use Rattle.std.specs.Prelude.{◌≡◌};
ghost use Rattle.lt_hol.specs.Items.{item_of};
ghost use Rattle.lt_texts.specs.Commands.{item_command};
ghost use Rattle.lt_texts.specs.Forms.{plain_text, a_command, IsAllowed};
ghost use Rattle.lt_commands.specs.Views.{command_of};
ghost use Rattle.lt_extend.specs.Theories.{IsInStep};
ghost use Rattle.lt_plain.specs.Stepping.{AddsOrNot, IsItemOr};

use lt_commands::Command;
use lt_extend::{ItemFault, Theory};
use lt_hol::Item;
use lt_store::TermStore;
use std::alloc::Global;

/// Adds an item where it is valid over those before it, and else answers its first refusal.
pub fn add_item<S: TermStore>(
    alloc: Global,
    th: &mut Theory<S>,
    item: Item,
) -> Result<(), ItemFault>
    requires { IsInStep th.old }
    ensures adds { AddsOrNot th.old item th.new result }
    ensures in_step { IsInStep th.new }
{
    match item {
        Item::TypeDecl(name, arity) => th.declare_type(alloc, name, arity),
        Item::ConstDecl(name, ty) => th.declare_const(alloc, name, ty),
        Item::Axiom(label, statement) => th.add_axiom(alloc, label, statement),
        Item::Def(name, ty, body) => th.define(alloc, name, ty, body),
        Item::Typedef(name, params, predicate, by, abs, rep) => {
            th.typedef(alloc, name, params, predicate, &by, abs, rep)
        }
        Item::Lemma(label, statement, lines) => th.add_lemma(alloc, label, statement, lines),
    }
}

/// The item that a command adds, or else the command.
pub fn item_or_command(command: Command) -> Result<Item, Command>
    ensures { IsItemOr command result }
{
    match command {
        Command::TypeDecl(name, arity) => Ok(Item::TypeDecl(name, arity)),
        Command::ConstDecl(name, ty) => Ok(Item::ConstDecl(name, ty)),
        Command::Axiom(label, statement) => Ok(Item::Axiom(label, statement)),
        Command::Def(name, ty, body) => Ok(Item::Def(name, ty, body)),
        Command::Typedef(name, params, predicate, by, abs, rep) => {
            Ok(Item::Typedef(name, params, predicate, by, abs, rep))
        }
        Command::Lemma(label, statement, lines) => Ok(Item::Lemma(label, statement, lines)),
        other => Err(other),
    }
}

/// A command that may stand in a plain text, as an item.
pub(crate) fn item_from(command: Command) -> Item
    requires { IsAllowed plain_text (a_command (command_of command)) }
    ensures { command_of command ≡ item_command (item_of result) }
{
    match item_or_command(command) {
        Ok(item) => item,
        Err(_) => unreachable!(),
    }
}
