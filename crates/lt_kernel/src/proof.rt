//! What a theory has declared and stated, and the lines of a derivation, over a store of terms.
ghost use Rattle.std.specs.Prelude.{◌≡◌, ◌<◌, [], ◌∷◌, ◌++◌, length, take, is_some, true, Some, None, IfOk, IfSome, OnOk, OnErr};
ghost use Rattle.std.specs.Option.{option_copied, option_map};
ghost use Rattle.lt_definitions.specs.Types.{found};
ghost use Rattle.lt_definitions.specs.Rules.{line_at};
ghost use Rattle.lt_nameless.specs.Nameless.{nameless, IsWhole};
ghost use Rattle.lt_hol.specs.Faults.{DeclaresType, DeclaresConst, cut};
ghost use Rattle.lt_store.specs.Building.{Builds};
ghost use Rattle.lt_store.specs.Trees.{tree_at};
ghost use Rattle.lt_kernel.specs.Lines.{IsGoodLine};
ghost use Rattle.lt_kernel.specs.Sequents.{IsWithin};
ghost use Rattle.lt_kernel.specs.State.{sequents, step_of, Answers, Keeps, Names};
ghost use Rattle.lt_kernel.specs.Growing.{Carries};
ghost use Rattle.lt_kernel.specs.Reaching.{Reaches};
ghost use Rattle.lt_kernel.specs.Derived.{AreDerived};

use crate::derive::derive;
use crate::rule_fault::RuleFault;
use crate::sequent::{Sequent, Step};
use crate::steps::step_at;
use indexmap::IndexMap;
use lt_hol::{Line, Memory, Name, SigMark, Signature, Term, TryCopy, Ty, TypeFault};
use lt_store::{Id, TermStore, to_store};
use std::alloc::Global;
use std::marker::Model;

/// What is declared, the named statements, and the lines of a derivation, over a store of terms.
#[derive(Drop)]
pub struct Proof<S: TermStore> {
    signature: Signature,
    pub(crate) store: S,
    named: IndexMap<Name, Id>,
    steps: Vec<Step>,
}

impl<S: TermStore> Model for Proof<S> {
    ghost use Rattle.lt_kernel.specs.State.{State};

    ghost Value = { State };

    ghost use Rattle.std.specs.Coded.{codes};
    ghost use Rattle.lt_types.specs.Codes.{coded_type};

    ghost coded = { Prim.hlevel (codes, coded_type) };

    ghost use Rattle.std.specs.Prelude.{length};
    ghost use Rattle.lt_kernel.specs.Sequents.{AreWithin, NamedWithin};
    ghost use Rattle.lt_kernel.specs.Derived.{AreDerived};

    ghost view = { λ p. record { nodes = S.nodes p.store; signature = p.signature; named = p.named.entries; steps = p.steps.items } };

    ghost invariant = { λ p. record { steps : AreWithin (length (S.nodes p.store)) p.steps.items; named : NamedWithin (length (S.nodes p.store)) p.named.entries; derived : AreDerived (record { nodes = S.nodes p.store; signature = p.signature; named = p.named.entries; steps = p.steps.items }) } };
}

/// How many types, constants and named statements there are.
#[derive(Clone, Copy, Debug, PartialEq, Eq)]
pub struct ProofMark {
    pub sig: SigMark,
    pub statements: usize,
}

impl<S: TermStore> Proof<S> {
    /// A proof without named statements and lines, over a signature and a store.
    pub fn new(alloc: Global, signature: Signature, store: S) -> Proof<S>
        ensures nodes { result.nodes ≡ S.nodes store }
        ensures signature { result.signature ≡ signature }
        ensures named { result.named ≡ [] }
        ensures steps { result.steps ≡ [] }
    {
        Proof {
            signature,
            store,
            named: IndexMap::new(alloc),
            steps: Vec::new(alloc),
        }
    }

    /// Names a statement. `Duplicate` where one has the label already.
    pub fn add_statement(
        &mut self,
        _alloc: Global,
        label: Name,
        statement: Id,
    ) -> Result<(), RuleFault>
        requires { statement < length self.old.nodes }
        ensures { Names self.old self.new label statement result }
    {
        if is_named(&self.named, &label) {
            return Err(RuleFault::Duplicate(label));
        }
        self.named.insert(label, statement)?;
        Ok(())
    }

    /// Adds the line with the sequent that its rule gives, and answers its number, from 1.
    ///
    /// `Bad` where the rule gives none, with the first reason. What was there stays, also after a refusal.
    pub fn apply(&mut self, alloc: Global, line: &Line) -> Result<usize, RuleFault>
        requires { IsGoodLine self.old.signature self.old.nodes line.now }
        ensures answers { Answers self.old self.new line.now result (step_of self.old line.now) }
        ensures reaches { Reaches self.new result (step_of self.old line.now) }
        ensures carries { Carries self.old self.new }
    {
        let sequent = match derive(
            alloc,
            &mut self.store,
            &self.signature,
            &self.named,
            self.steps.as_slice(),
            line,
        ) {
            Ok(sequent) => sequent,
            Err(fault) => return Err(fault),
        };
        let number = add_step(alloc, &mut self.steps, line, sequent)?;
        Ok(number)
    }

    /// The sequent of the line with a number; None where there is no such line.
    pub fn sequent(&self, number: usize) -> Option<&Sequent>
        ensures is { option_copied result ≡ option_map (λ s. s.sequent)
            (line_at self.now.steps number) }
        ensures within { IfSome result (λ s. IsWithin (length self.now.nodes) s.now) }
    {
        match step_at(self.steps.as_slice(), number) {
            Some(step) => Some(&step.sequent),
            None => None,
        }
    }

    /// The line with a number; None where there is no such line.
    pub fn line(&self, number: usize) -> Option<&Line>
        ensures { option_copied result ≡ option_map (λ s. s.line) (line_at self.now.steps number) }
    {
        match step_at(self.steps.as_slice(), number) {
            Some(step) => Some(&step.line),
            None => None,
        }
    }

    /// The lines with their sequents: each line's is what its rule gave from the lines before it.
    pub fn steps(&self) -> &[Step]
        ensures is { result.now ≡ self.now.steps }
        ensures derived { AreDerived self.now }
    {
        self.steps.as_slice()
    }

    /// Whether there is a line with the number.
    pub fn is_line(&self, number: usize) -> bool
        ensures { result ≡ is_some (line_at (sequents self.now) number) }
    {
        match self.sequent(number) {
            Some(_) => true,
            None => false,
        }
    }

    /// The conclusion of a line; `is_line` is the test.
    pub fn conclusion(&self, number: usize) -> Id
        requires { is_some (line_at (sequents self.now) number) ≡ true }
        ensures within { result < length self.now.nodes }
        ensures is { option_map (λ s. s.concl) (line_at (sequents self.now) number) ≡ Some
            (tree_at self.now.nodes result) }
    {
        match self.sequent(number) {
            Some(sequent) => sequent.concl,
            None => unreachable!(),
        }
    }

    /// The store of the terms.
    pub fn store(&self) -> &S
        ensures { S.nodes result.now ≡ self.now.nodes }
    {
        &self.store
    }

    /// Puts a term into the store. What is declared, the named statements and the lines stay.
    pub fn add_term(&mut self, alloc: Global, t: &Term) -> Result<Id, Memory>
        requires { IsWhole 0 (nameless [] t.now) }
        ensures keeps { Keeps self.old self.new }
        ensures carries { Carries self.old self.new }
        ensures builds { Builds self.old.nodes self.new.nodes result (nameless [] t.now) }
    {
        let id = to_store(alloc, &mut self.store, t)?;
        Ok(id)
    }

    /// What is declared.
    pub fn signature(&self) -> &Signature
        ensures { result.now ≡ self.now.signature }
    {
        &self.signature
    }

    /// Declares a type, as `Signature::add_type`.
    pub fn add_type(&mut self, alloc: Global, name: Name, arity: usize) -> Result<(), TypeFault>
        ensures declares { DeclaresType self.old.signature self.new.signature name arity result }
        ensures rest { self.new ≡ record self.old { signature = self.new.signature } }
    {
        self.signature.add_type(alloc, name, arity)
    }

    /// Declares a constant, as `Signature::add_const`.
    pub fn add_const(&mut self, alloc: Global, name: Name, ty: Ty) -> Result<(), TypeFault>
        ensures declares { DeclaresConst self.old.signature self.new.signature name ty result }
        ensures rest { self.new ≡ record self.old { signature = self.new.signature } }
    {
        self.signature.add_const(alloc, name, ty)
    }

    /// Drops the lines.
    pub fn clear(&mut self)
        ensures { self.new ≡ record self.old { steps = [] } }
    {
        self.steps.clear();
    }

    /// How many types, constants and named statements there are.
    pub fn mark(&self) -> ProofMark
        ensures types { result.sig.types ≡ length self.now.signature.types }
        ensures constants { result.sig.constants ≡ length self.now.signature.consts }
        ensures statements { result.statements ≡ length self.now.named }
    {
        ProofMark {
            sig: self.signature.mark(),
            statements: self.named.len(),
        }
    }

    /// Drops the types, constants and named statements that came after the mark, and all lines.
    pub fn back(&mut self, mark: ProofMark)
        ensures { self.new
            ≡ record self.old { signature = cut mark.sig.types mark.sig.constants self.old.signature; named = take mark.statements self.old.named; steps = [] } }
    {
        self.signature.back(mark.sig);
        self.named.truncate(mark.statements);
        self.steps.clear();
    }
}

/// Whether a statement has the label.
fn is_named(named: &IndexMap<Name, Id>, label: &Name) -> bool
    ensures { result ≡ is_some (found label.now named.now.entries) }
{
    named.get(label).is_some()
}

/// Adds a line with its sequent, and answers its number.
fn add_step(
    alloc: Global,
    steps: &mut Vec<Step>,
    line: &Line,
    sequent: Sequent,
) -> Result<usize, Memory>
    ensures ok { OnOk result
        (steps.new.items ≡ steps.old.items ++ record { line = line.now; sequent = sequent } ∷ []) }
    ensures number { IfOk result (λ n. n ≡ length steps.new.items) }
    ensures err { OnErr result (steps.new.items ≡ steps.old.items) }
{
    let line = line.copy(alloc)?;
    steps.push(Step { line, sequent })?;
    Ok(steps.len())
}
