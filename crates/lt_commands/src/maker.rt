//! What is being made.
ghost use Rattle.std.specs.Prelude.{◌≡◌, OnOk};
ghost use Rattle.lt_commands.specs.declared.note.Note.TheVariants as notes;
ghost use Rattle.lt_commands.specs.Making.{nothing, put};
ghost use Rattle.lt_commands.specs.Views.{made_of};

use crate::note::Note;
use crate::term_sink::TermSink;
use lt_grammar::words::RuleWord;
use lt_terms::TermNode;
use lt_types::{List, Memory, Name, Ty, TyBuilder};
use std::alloc::Global;
use std::mem;

/// What is being made.
#[derive(Drop)]
pub struct Maker {
    pub forming: TyBuilder,
    pub pending: Vec<(Name, usize)>,
    pub types: Vec<Ty>,
    pub heads: Vec<(Name, List<Ty>)>,
    pub binders: Vec<Name>,
    pub terms: TermSink,
    pub labels: Vec<Name>,
    pub numbers: Vec<usize>,
    pub params: Vec<Name>,
    pub names: Vec<List<Name>>,
}

impl Maker {
    /// Nothing is made yet.
    pub fn new(alloc: Global) -> Maker
        ensures { made_of result ≡ nothing }
    {
        Maker {
            forming: TyBuilder::new(alloc),
            pending: Vec::new(alloc),
            types: Vec::new(alloc),
            heads: Vec::new(alloc),
            binders: Vec::new(alloc),
            terms: TermSink::new(alloc),
            labels: Vec::new(alloc),
            numbers: Vec::new(alloc),
            params: Vec::new(alloc),
            names: Vec::new(alloc),
        }
    }

    fn type_var(&mut self, alloc: Global, name: Name) -> Result<(), Memory>
        ensures { OnOk result (made_of self.new ≡ put (notes.TypeVar name) (made_of self.old)) }
    {
        let forming = mem::replace(&mut self.forming, TyBuilder::new(alloc));
        self.forming = forming.var(alloc, name)?;
        Ok(())
    }

    fn type_alone(&mut self, alloc: Global, name: Name) -> Result<(), Memory>
        ensures { OnOk result (made_of self.new ≡ put (notes.TypeAlone name) (made_of self.old)) }
    {
        let forming = mem::replace(&mut self.forming, TyBuilder::new(alloc));
        self.forming = forming.con(alloc, name, 0)?;
        Ok(())
    }

    fn type_open(&mut self, name: Name) -> Result<(), Memory>
        ensures { OnOk result (made_of self.new ≡ put (notes.TypeOpen name) (made_of self.old)) }
    {
        self.pending.push((name, self.forming.len()))?;
        Ok(())
    }

    fn bound(&mut self, alloc: Global, name: Name) -> Result<(), Memory>
        ensures { OnOk result (made_of self.new ≡ put (notes.Bound name) (made_of self.old)) }
    {
        self.terms.leaf(alloc, TermNode::Bound(name))
    }

    fn constant_name(&mut self, alloc: Global, name: Name) -> Result<(), Memory>
        ensures { OnOk result (made_of self.new
            ≡ put (notes.ConstantName name) (made_of self.old)) }
    {
        let before = mem::replace(&mut self.types, Vec::new(alloc));
        self.heads.push((name, List::from_vec(before)))?;
        Ok(())
    }

    fn no_arguments(&mut self, alloc: Global) -> Result<(), Memory>
        ensures { OnOk result (made_of self.new ≡ put notes.NoArguments (made_of self.old)) }
    {
        if let Some((name, before)) = self.heads.pop() {
            self.types = before.into_vec();
            self.terms
                .leaf(alloc, TermNode::Const(name, List::new(alloc)))?;
        }
        Ok(())
    }

    fn type_close(&mut self, alloc: Global) -> Result<(), Memory>
        ensures { OnOk result (made_of self.new ≡ put notes.TypeClose (made_of self.old)) }
    {
        if let Some((name, before)) = self.pending.pop() {
            let count = self.forming.len().saturating_sub(before);
            let forming = mem::replace(&mut self.forming, TyBuilder::new(alloc));
            self.forming = forming.con(alloc, name, count)?;
        }
        Ok(())
    }

    fn keep_type(&mut self, alloc: Global) -> Result<(), Memory>
        ensures { OnOk result (made_of self.new ≡ put notes.KeepType (made_of self.old)) }
    {
        if self.forming.len() == 1 {
            let forming = mem::replace(&mut self.forming, TyBuilder::new(alloc));
            let ty = forming.finish(alloc)?;
            self.types.push(ty)?;
        }
        Ok(())
    }

    fn with_arguments(&mut self, alloc: Global) -> Result<(), Memory>
        ensures { OnOk result (made_of self.new ≡ put notes.Arguments (made_of self.old)) }
    {
        if let Some((name, before)) = self.heads.pop() {
            let types = mem::replace(&mut self.types, before.into_vec());
            self.terms
                .leaf(alloc, TermNode::Const(name, List::from_vec(types)))?;
        }
        Ok(())
    }

    fn free_name(&mut self, name: Name) -> Result<(), Memory>
        ensures { OnOk result (made_of self.new ≡ put (notes.FreeName name) (made_of self.old)) }
    {
        self.binders.push(name)?;
        Ok(())
    }

    fn free_close(&mut self, alloc: Global) -> Result<(), Memory>
        ensures { OnOk result (made_of self.new ≡ put notes.FreeClose (made_of self.old)) }
    {
        if let Some(name) = self.binders.pop() {
            if let Some(ty) = self.types.pop() {
                self.terms.leaf(alloc, TermNode::Free(name, ty))?;
            }
        }
        Ok(())
    }

    fn lambda_name(&mut self, name: Name) -> Result<(), Memory>
        ensures { OnOk result (made_of self.new ≡ put (notes.LambdaName name) (made_of self.old)) }
    {
        self.binders.push(name)?;
        Ok(())
    }

    fn lambda_close(&mut self, alloc: Global) -> Result<(), Memory>
        ensures { OnOk result (made_of self.new ≡ put notes.LambdaClose (made_of self.old)) }
    {
        if let Some(name) = self.binders.pop() {
            if let Some(ty) = self.types.pop() {
                self.terms.lam(alloc, name, ty)?;
            }
        }
        Ok(())
    }

    fn apply(&mut self, alloc: Global) -> Result<(), Memory>
        ensures { OnOk result (made_of self.new ≡ put notes.Apply (made_of self.old)) }
    {
        self.terms.app(alloc)
    }

    fn keep_term(&mut self, alloc: Global) -> Result<(), Memory>
        ensures { OnOk result (made_of self.new ≡ put notes.KeepTerm (made_of self.old)) }
    {
        self.terms.keep(alloc)
    }

    fn begin_line(&mut self, rule: RuleWord)
        ensures { made_of self.new ≡ put (notes.BeginLine rule) (made_of self.old) }
    {
        let _word = rule;
        self.terms.begin();
    }

    fn label(&mut self, name: Name) -> Result<(), Memory>
        ensures { OnOk result (made_of self.new ≡ put (notes.Label name) (made_of self.old)) }
    {
        self.labels.push(name)?;
        Ok(())
    }

    fn count(&mut self, number: u32) -> Result<(), Memory>
        ensures { OnOk result (made_of self.new ≡ put (notes.Count number) (made_of self.old)) }
    {
        self.numbers.push(number as usize)?;
        Ok(())
    }

    fn variable(&mut self, name: Name) -> Result<(), Memory>
        ensures { OnOk result (made_of self.new ≡ put (notes.Variable name) (made_of self.old)) }
    {
        self.labels.push(name)?;
        Ok(())
    }

    fn parameter(&mut self, name: Name) -> Result<(), Memory>
        ensures { OnOk result (made_of self.new ≡ put (notes.Parameter name) (made_of self.old)) }
    {
        self.params.push(name)?;
        Ok(())
    }

    fn keep_parameters(&mut self, alloc: Global) -> Result<(), Memory>
        ensures { OnOk result (made_of self.new ≡ put notes.KeepParameters (made_of self.old)) }
    {
        let params = mem::replace(&mut self.params, Vec::new(alloc));
        self.names.push(List::from_vec(params))?;
        Ok(())
    }

    fn end_line(&mut self, alloc: Global, rule: RuleWord) -> Result<(), Memory>
        ensures { OnOk result (made_of self.new ≡ put (notes.EndLine rule) (made_of self.old)) }
    {
        match self.line(rule) {
            Some(line) => self.terms.push_line(alloc, line),
            None => Ok(()),
        }
    }

    /// What a note makes.
    pub fn put(&mut self, alloc: Global, note: Note) -> Result<(), Memory>
        ensures { OnOk result (made_of self.new ≡ put note (made_of self.old)) }
    {
        match note {
            Note::TypeVar(name) => self.type_var(alloc, name),
            Note::TypeAlone(name) => self.type_alone(alloc, name),
            Note::TypeOpen(name) => self.type_open(name),
            Note::TypeClose => self.type_close(alloc),
            Note::KeepType => self.keep_type(alloc),
            Note::ConstantName(name) => self.constant_name(alloc, name),
            Note::NoArguments => self.no_arguments(alloc),
            Note::Arguments => self.with_arguments(alloc),
            Note::Bound(name) => self.bound(alloc, name),
            Note::FreeName(name) => self.free_name(name),
            Note::FreeClose => self.free_close(alloc),
            Note::LambdaName(name) => self.lambda_name(name),
            Note::LambdaClose => self.lambda_close(alloc),
            Note::Apply => self.apply(alloc),
            Note::KeepTerm => self.keep_term(alloc),
            Note::Label(name) => self.label(name),
            Note::Count(number) => self.count(number),
            Note::Variable(name) => self.variable(name),
            Note::Parameter(name) => self.parameter(name),
            Note::KeepParameters => self.keep_parameters(alloc),
            Note::BeginLine(rule) => {
                self.begin_line(rule);
                Ok(())
            }
            Note::EndLine(rule) => self.end_line(alloc, rule),
        }
    }
}
