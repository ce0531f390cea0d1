//! A theory that grows item by item.
ghost use Rattle.std.specs.Prelude.{◌≡◌, ◌≤◌, [], length, take, IfOk};
ghost use Rattle.std.specs.Borrow.{Lends, sem};
ghost use Rattle.std.specs.Option.{option_copied};
ghost use Rattle.lt_definitions.specs.Types.{found};
ghost use Rattle.lt_definitions.specs.Theory.{IsPlainTheory};
ghost use Rattle.lt_hol.specs.declared.item.Item.TheVariants.{TypeDecl, ConstDecl, Axiom, Def, Typedef, Lemma};
ghost use Rattle.lt_extend.specs.Theories.{items_of, context_behind, IsInStep, Adds, AddsLemma, KeepsLemma};

use crate::drafts::{commit, go_back, mark_before, mark_of, truncate};
use crate::entering::{enter_const, enter_definition, enter_statement, enter_type, enter_typedef};
use crate::lemmas::{check_kept, derive_lemma, enter_lemma};
use crate::telling::told_lines;
use indexmap::IndexMap;
use lt_conditions::{
    ItemFault, Statements, test_const, test_definition, test_statement, test_type, test_typedef,
};
use lt_hol::{Item, Items, Lines, List, Memory, Name, Names, Signature, Term, TryCopy, Ty};
use lt_kernel::Proof;
use lt_store::TermStore;
use std::alloc::Global;
use std::marker::Model;

/// Items that are valid one after another, with the kernel that knows what they declare and state.
/// Contracts see the items, and the kernel's state.
#[derive(Drop)]
pub struct Theory<S: TermStore> {
    alloc: Global,
    items: Items,
    statements: Statements,
    proof: Proof<S>,
}

impl<S: TermStore> Model for Theory<S> {
    ghost use Rattle.lt_extend.specs.Theories.{Holding, IsHeld};

    ghost Value = { Holding };

    ghost use Rattle.std.specs.Coded.{codes};
    ghost use Rattle.lt_types.specs.Codes.{coded_type};
    ghost use Rattle.lt_terms.specs.Codes.{coded_term};

    ghost coded = { Prim.hlevel (codes, coded_type, coded_term) };

    ghost view = { λ t. record { items = t.items; proof = t.proof } };

    ghost invariant = { λ t. IsHeld t.items t.statements.entries };
}

impl<S: TermStore> Theory<S> {
    /// The theory without items, over a store.
    pub fn new(alloc: Global, store: S) -> Result<Theory<S>, Memory>
        ensures items { IfOk result (λ t. t.items ≡ []) }
        ensures lines { IfOk result (λ t. t.proof.steps ≡ []) }
        ensures nodes { IfOk result (λ t. t.proof.nodes ≡ S.nodes store) }
        ensures in_step { IfOk result (λ t. IsInStep t) }
    {
        let signature = Signature::new(alloc)?;
        Ok(Theory {
            alloc,
            items: List::new(alloc),
            statements: IndexMap::new(alloc),
            proof: Proof::new(alloc, signature, store),
        })
    }

    /// Adds a type: `Duplicate` where one has the name.
    pub fn declare_type(&mut self, alloc: Global, name: Name, arity: usize) -> Result<(), ItemFault>
        requires { IsInStep self.old }
        ensures adds { Adds self.old (TypeDecl name arity) self.new result }
        ensures in_step { IsInStep self.new }
    {
        let sig = self.proof.signature();
        match test_type(alloc, sig, &self.statements, &name, arity) {
            Ok(()) => {}
            Err(fault) => return Err(fault),
        }
        let mark = mark_of(&self.proof, &self.statements);
        let entered = enter_type(alloc, &mut self.proof, &name, arity);
        let item = Item::TypeDecl(name, arity);
        commit(
            alloc,
            &mut self.proof,
            &mut self.statements,
            &mut self.items,
            mark,
            entered,
            item,
        )
    }

    /// Adds a constant: what is wrong with its type, then `Duplicate` where one has the name.
    pub fn declare_const(&mut self, alloc: Global, name: Name, ty: Ty) -> Result<(), ItemFault>
        requires { IsInStep self.old }
        ensures adds { Adds self.old (ConstDecl name ty) self.new result }
        ensures in_step { IsInStep self.new }
    {
        let sig = self.proof.signature();
        match test_const(alloc, sig, &self.statements, &name, &ty) {
            Ok(()) => {}
            Err(fault) => return Err(fault),
        }
        let mark = mark_of(&self.proof, &self.statements);
        let entered = enter_const(alloc, &mut self.proof, &name, &ty);
        let item = Item::ConstDecl(name, ty);
        commit(
            alloc,
            &mut self.proof,
            &mut self.statements,
            &mut self.items,
            mark,
            entered,
            item,
        )
    }

    /// Adds an axiom: what is wrong with its statement, `NotBool`, `Duplicate` where a statement
    /// has the label, `OpenTerm`.
    pub fn add_axiom(
        &mut self,
        alloc: Global,
        label: Name,
        statement: Term,
    ) -> Result<(), ItemFault>
        requires { IsInStep self.old }
        ensures adds { Adds self.old (Axiom label statement) self.new result }
        ensures in_step { IsInStep self.new }
    {
        let sig = self.proof.signature();
        match test_statement(alloc, sig, &self.statements, &label, &statement) {
            Ok(()) => {}
            Err(fault) => return Err(fault),
        }
        let mark = mark_of(&self.proof, &self.statements);
        let entered = enter_statement(
            alloc,
            &mut self.proof,
            &mut self.statements,
            &label,
            &statement,
        );
        let item = Item::Axiom(label, statement);
        commit(
            alloc,
            &mut self.proof,
            &mut self.statements,
            &mut self.items,
            mark,
            entered,
            item,
        )
    }

    /// Adds a definition: what is wrong with the type, then with the body, `Duplicate` for the
    /// constant and then for the label, `Mismatch` with the stated type and that of the body,
    /// `OpenTerm`, `LooseTypeVar`.
    pub fn define(&mut self, alloc: Global, name: Name, ty: Ty, body: Term) -> Result<(), ItemFault>
        requires { IsInStep self.old }
        ensures adds { Adds self.old (Def name ty body) self.new result }
        ensures in_step { IsInStep self.new }
    {
        let sig = self.proof.signature();
        match test_definition(alloc, sig, &self.statements, &name, &ty, &body) {
            Ok(()) => {}
            Err(fault) => return Err(fault),
        }
        let mark = mark_of(&self.proof, &self.statements);
        let entered = enter_definition(
            alloc,
            &mut self.proof,
            &mut self.statements,
            &name,
            &ty,
            &body,
        );
        let item = Item::Def(name, ty, body);
        commit(
            alloc,
            &mut self.proof,
            &mut self.statements,
            &mut self.items,
            mark,
            entered,
            item,
        )
    }

    /// Adds a typedef: what is wrong with the predicate, `UnknownLabel` for the statement that
    /// applies it, `Duplicate` for the type, the constants `rep` and `abs` and the three labels,
    /// `OpenTerm`, `LooseTypeVar`, `TypedefShape`.
    pub fn typedef(
        &mut self,
        alloc: Global,
        name: Name,
        params: Names,
        pred: Term,
        by: &Name,
        abs: Name,
        rep: Name,
    ) -> Result<(), ItemFault>
        requires { IsInStep self.old }
        ensures adds { Adds self.old (Typedef name params pred by.now abs rep) self.new result }
        ensures in_step { IsInStep self.new }
    {
        let sig = self.proof.signature();
        let tested = test_typedef(
            alloc,
            sig,
            &self.statements,
            &name,
            &params,
            &pred,
            by,
            &abs,
            &rep,
        );
        let raw = match tested {
            Ok(raw) => raw,
            Err(fault) => return Err(fault),
        };
        let label = by.copy(alloc)?;
        let mark = mark_of(&self.proof, &self.statements);
        let entered = enter_typedef(
            alloc,
            &mut self.proof,
            &mut self.statements,
            &name,
            &params,
            &pred,
            &raw,
            &abs,
            &rep,
        );
        let item = Item::Typedef(name, params, pred, label, abs, rep);
        commit(
            alloc,
            &mut self.proof,
            &mut self.statements,
            &mut self.items,
            mark,
            entered,
            item,
        )
    }

    /// Adds a lemma: the refusals of an axiom, then that of its first line that has one,
    /// `NotProved` with the last sequent. The lines that were there are dropped.
    pub fn add_lemma(
        &mut self,
        alloc: Global,
        label: Name,
        statement: Term,
        lines: Lines,
    ) -> Result<(), ItemFault>
        requires { IsInStep self.old }
        ensures adds { AddsLemma self.old (Lemma label statement lines) self.new result }
        ensures in_step { IsInStep self.new }
    {
        let sig = self.proof.signature();
        match test_statement(alloc, sig, &self.statements, &label, &statement) {
            Ok(()) => {}
            Err(fault) => return Err(fault),
        }
        let id = match derive_lemma(alloc, &mut self.proof, &statement, &lines) {
            Ok(id) => id,
            Err(fault) => return Err(fault),
        };
        enter_lemma(
            alloc,
            &mut self.proof,
            &mut self.statements,
            &mut self.items,
            label,
            statement,
            lines,
            id,
        )
    }

    /// Adds the lemma whose lines are those of the kernel up to the one with a number: the refusals
    /// of an axiom, then `NotProved` with the sequent of that line, none where there is no such
    /// line. The kernel's lines are dropped.
    ///
    /// It takes time linear in the terms of these lines, as trees.
    pub fn keep_lemma(
        &mut self,
        alloc: Global,
        label: Name,
        statement: Term,
        line: usize,
    ) -> Result<(), ItemFault>
        requires { IsInStep self.old }
        ensures keeps { KeepsLemma self.old label statement line self.new result }
        ensures in_step { IsInStep self.new }
    {
        let _lines = self.proof.steps();
        let sig = self.proof.signature();
        match test_statement(alloc, sig, &self.statements, &label, &statement) {
            Ok(()) => {}
            Err(fault) => return Err(fault),
        }
        let id = match check_kept(alloc, &mut self.proof, &statement, line) {
            Ok(id) => id,
            Err(fault) => return Err(fault),
        };
        let lines = told_lines(alloc, &self.proof, line)?;
        enter_lemma(
            alloc,
            &mut self.proof,
            &mut self.statements,
            &mut self.items,
            label,
            statement,
            lines,
            id,
        )
    }

    /// How many items there are.
    pub fn mark(&self) -> usize
        ensures { result ≡ length self.now.items }
    {
        self.items.len()
    }

    /// Drops the items that came after the mark, with what they declare and state, and all lines.
    ///
    /// It takes time linear in the items that are dropped.
    pub fn back(&mut self, mark: usize)
        requires within { mark ≤ length self.old.items }
        requires in_step { IsInStep self.old }
        ensures items { self.new.items ≡ take mark self.old.items }
        ensures lines { self.new.proof.steps ≡ [] }
        ensures nodes { self.new.proof.nodes ≡ self.old.proof.nodes }
        ensures in_step { IsInStep self.new }
    {
        let now = mark_of(&self.proof, &self.statements);
        let then = mark_before(now, &self.items, mark);
        go_back(&mut self.proof, &mut self.statements, then);
        truncate(self.alloc, &mut self.items, mark);
    }

    /// The statement of a label; None where no statement has it.
    pub fn statement(&self, label: &Name) -> Option<&Term>
        ensures { option_copied result
            ≡ found label.now (context_behind self.now.items).statements }
    {
        self.statements.get(label)
    }

    /// What is declared.
    pub fn signature(&self) -> &Signature
        ensures { result.now ≡ self.now.proof.signature }
    {
        self.proof.signature()
    }

    /// The items so far.
    pub fn items(&self) -> &Items
        ensures items { result.now ≡ self.now.items }
        ensures valid { IsPlainTheory (items_of self.now.items) }
    {
        &self.items
    }

    /// Gives up the theory, and answers its items.
    pub fn into_items(self) -> Items
        ensures items { result ≡ self.items }
        ensures valid { IsPlainTheory (items_of result) }
    {
        let Theory {
            alloc: _,
            items,
            statements: _,
            proof: _,
        } = self;
        items
    }
}

impl<S: TermStore> Theory<S> {
    ghost use Rattle.lt_kernel.specs.contracts.proof.Proof.{the_row as proof_row};
    ghost use Rattle.lt_extend.specs.contracts.theory.Theory.{the_row};

    /// The kernel, to derive lines.
    pub fn proof(&mut self) -> &mut Proof<S>
        ensures* lends { sem 𝓛 (Lends (the_row S.row S.TermStore) (proof_row S.row S.TermStore)
            self.entry result
            (λ p. record self.old { proof = p })) }
        ensures is { result.now ≡ self.old.proof }
    {
        &mut self.proof
    }
}
