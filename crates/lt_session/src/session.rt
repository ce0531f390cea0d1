//! A session, and the commands that it takes.
ghost use Rattle.std.specs.Prelude.{◌≡◌, ◌≤◌, length, drop, None, IfOk};
ghost use Rattle.lt_definitions.specs.Theory.{IsPlainTheory};
ghost use Rattle.lt_texts.specs.Commands.{item_command, law_command, corr_command};
ghost use Rattle.lt_hol.specs.Items.{item_of};
ghost use Rattle.lt_commands.specs.Views.{command_of};
ghost use Rattle.lt_extend.specs.Theories.{items_of};
ghost use Rattle.lt_session.specs.Sessions.{new_holding};
ghost use Rattle.lt_session.specs.Taking.{Takes};

use crate::faults::{of_law_fault, of_rel_fault};
use lt_commands::{Command, Refusal, Refused};
use lt_extend::Theory;
use lt_hol::{Item, Items, Memory, Name};
use lt_laws::Laws;
use lt_plain::{add_item, item_or_command, line_of, of_fault};
use lt_relations::Relations;
use lt_shared::SharedStore;
use std::alloc::Global;
use std::marker::Model;

/// The block of a command: the session's items from this number on, as it stands behind the command.
#[derive(Debug, Clone, Copy)]
pub struct Block {
    pub from: usize,
}

/// What a theory text's commands have declared, stated and registered so far, and how many visits a
/// search may make. Contracts see the items, the registered laws, what is registered of relations,
/// and the limit.
#[derive(Drop)]
pub struct Session {
    theory: Theory<SharedStore>,
    laws: Laws,
    relations: Relations,
    limit: u64,
}

impl Model for Session {
    ghost use Rattle.lt_extend.specs.Theories.{IsInStep};
    ghost use Rattle.lt_session.specs.Sessions.{Holding};

    ghost Value = { Holding };

    ghost use Rattle.std.specs.Coded.{codes};
    ghost use Rattle.lt_types.specs.Codes.{coded_type};
    ghost use Rattle.lt_terms.specs.Codes.{coded_term};

    ghost coded = { Prim.hlevel (codes, coded_type, coded_term) };

    ghost view = { λ s. record {
      items = s.theory.items;
      laws = s.laws;
      registry = s.relations;
      limit = s.limit;
    } };

    ghost invariant = { λ s. IsInStep s.theory };
}

impl Session {
    /// The session in which nothing is declared, stated or registered.
    pub fn new(alloc: Global, limit: u64) -> Result<Session, Memory>
        ensures empty { IfOk result (λ s. s ≡ new_holding s.limit) }
        ensures limit { IfOk result (λ s. s.limit ≡ limit) }
    {
        let store = SharedStore::new(alloc);
        let theory = Theory::new(alloc, store)?;
        let laws = Laws::new(alloc)?;
        let relations = Relations::new(alloc)?;
        Ok(Session {
            theory,
            laws,
            relations,
            limit,
        })
    }

    /// Takes a command: adds the items of its block, registers what it registers, and answers the
    /// block. A command that is refused leaves the session as it was.
    ///
    /// `NotBuilt` where the command isn't built yet; else the command's first refusal, with the line
    /// of its lemma in which it stands.
    pub fn step(&mut self, alloc: Global, command: Command) -> Result<Block, Refused>
        ensures { Takes self.old (command_of command) self.new result }
    {
        match item_or_command(command) {
            Ok(item) => self.take_item(alloc, item),
            Err(Command::Law(law, label)) => self.take_law(alloc, &law, label),
            Err(Command::Corr(name)) => self.take_corr(alloc, name),
            Err(_) => Err(refused(Refusal::NotBuilt)),
        }
    }

    /// Adds an item.
    fn take_item(&mut self, alloc: Global, item: Item) -> Result<Block, Refused>
        ensures { Takes self.old (item_command (item_of item)) self.new result }
    {
        let block = self.next_block();
        match add_item(alloc, &mut self.theory, item) {
            Ok(()) => Ok(block),
            Err(fault) => {
                let line = line_of(&fault);
                Err(Refused {
                    refusal: of_fault(fault),
                    line,
                })
            }
        }
    }

    /// Registers a law under the label of a statement.
    fn take_law(&mut self, alloc: Global, law: &Name, label: Name) -> Result<Block, Refused>
        ensures { Takes self.old (law_command law.now label) self.new result }
    {
        let block = self.next_block();
        let Some(statement) = self.theory.statement(&label) else {
            return Err(refused(Refusal::UnknownLabel(label)));
        };
        match self.laws.register_law(alloc, law, label, statement) {
            Ok(()) => Ok(block),
            Err(fault) => Err(refused(of_law_fault(fault))),
        }
    }

    /// Registers the correspondence that a constant is by its declared type.
    fn take_corr(&mut self, alloc: Global, name: Name) -> Result<Block, Refused>
        ensures { Takes self.old (corr_command name) self.new result }
    {
        let block = self.next_block();
        let sig = self.theory.signature();
        let Some(_) = sig.const_type(&name) else {
            return Err(refused(Refusal::UnknownConst(name)));
        };
        match self.relations.register_corr(alloc, sig, &name) {
            Ok(()) => Ok(block),
            Err(fault) => Err(refused(of_rel_fault(fault))),
        }
    }

    /// The block of the items that are yet to come.
    fn next_block(&self) -> Block
        ensures { result.from ≡ length self.now.items }
    {
        Block {
            from: self.items().len(),
        }
    }

    /// The items of a block.
    pub fn block(&self, block: Block) -> &[Item]
        requires { block.from ≤ length self.now.items }
        ensures { result.now ≡ drop block.from self.now.items }
    {
        &self.items().as_slice()[block.from..]
    }

    /// The items so far.
    pub fn items(&self) -> &Items
        ensures items { result.now ≡ self.now.items }
        ensures valid { IsPlainTheory (items_of self.now.items) }
    {
        self.theory.items()
    }

    /// Gives up the session, and answers its items.
    pub fn into_items(self) -> Items
        ensures items { result ≡ self.items }
        ensures valid { IsPlainTheory (items_of result) }
    {
        let Session {
            theory,
            laws: _,
            relations: _,
            limit: _,
        } = self;
        theory.into_items()
    }
}

/// A refusal that stands in no line of a lemma.
fn refused(refusal: Refusal) -> Refused
    ensures { result ≡ record { refusal = refusal; line = None } }
{
    Refused {
        refusal,
        line: None,
    }
}
