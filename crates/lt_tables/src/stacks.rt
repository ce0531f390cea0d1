//! What the letters and signs of a text make.
ghost use Rattle.std.specs.Prelude.{◌≡◌, [], ◌∷◌, IfOk, OnOk};
ghost use Rattle.lt_tables.specs.Stacks.{nothing, type_of, functions, relations, declare, constant_of, all_over, bound_of, free_of, abstraction_of, applied, term_sign, put_sign};
ghost use Rattle.lt_tables.specs.Views.{stacks_of};

use crate::letters::{constant_name, letter_type, variable_name, word};
use lt_terms::TermBuilder;
use lt_types::{List, Memory, TryCopy, Ty, Tys};
use std::alloc::Global;
use std::mem;

/// The last letter, the letters that are declared with their types, and the types and terms that were made.
#[derive(Drop)]
pub struct Making {
    pub last: u8,
    pub declared: Vec<(u8, Ty)>,
    pub types: Vec<Ty>,
    pub terms: TermBuilder,
}

/// A list of one type.
fn one_type(alloc: Global, ty: Ty) -> Result<Tys, Memory>
    ensures { IfOk result (λ types. types ≡ ty ∷ []) }
{
    let mut types = List::new(alloc);
    types.push(alloc, ty)?;
    Ok(types)
}

impl Making {
    /// Nothing is made yet.
    pub fn new(alloc: Global) -> Making
        ensures { stacks_of result ≡ nothing }
    {
        Making {
            last: 0,
            declared: Vec::new(alloc),
            types: Vec::new(alloc),
            terms: TermBuilder::new(alloc),
        }
    }

    /// The type of the last letter.
    fn last_type(&self, alloc: Global) -> Result<Ty, Memory>
        ensures { IfOk result (λ ty. ty ≡ type_of (stacks_of self.now).declared self.now.last) }
    {
        Ok(self.type_of(alloc, self.last)?)
    }

    /// The type of a letter.
    pub fn type_of(&self, alloc: Global, letter: u8) -> Result<Ty, Memory>
        ensures { IfOk result (λ ty. ty ≡ type_of (stacks_of self.now).declared letter) }
    {
        match self.declared.iter().rev().find(|d| d.0 == letter) {
            Some(d) => Ok(d.1.copy(alloc)?),
            None => Ok(letter_type(alloc, letter)?),
        }
    }

    fn push_type(&mut self, alloc: Global) -> Result<(), Memory>
        ensures { OnOk result (stacks_of self.new ≡ put_sign 58 (stacks_of self.old)) }
    {
        let ty = self.last_type(alloc)?;
        self.types.push(ty)?;
        Ok(())
    }

    fn functions(&mut self, alloc: Global) -> Result<(), Memory>
        ensures { OnOk result (stacks_of self.new ≡ put_sign 62 (stacks_of self.old)) }
    {
        if let Some(to) = self.types.pop() {
            if let Some(from) = self.types.pop() {
                self.types.push(Ty::fun(alloc, from, to)?)?;
            }
        }
        Ok(())
    }

    fn relations(&mut self, alloc: Global) -> Result<(), Memory>
        ensures { OnOk result (stacks_of self.new ≡ put_sign 126 (stacks_of self.old)) }
    {
        if let Some(to) = self.types.pop() {
            if let Some(from) = self.types.pop() {
                let predicate = Ty::fun(alloc, to, Ty::bool(alloc)?)?;
                self.types.push(Ty::fun(alloc, from, predicate)?)?;
            }
        }
        Ok(())
    }

    fn declare(&mut self) -> Result<(), Memory>
        ensures { OnOk result (stacks_of self.new ≡ put_sign 61 (stacks_of self.old)) }
    {
        if let Some(ty) = self.types.pop() {
            self.declared.push((self.last, ty))?;
        }
        Ok(())
    }

    fn constant(&mut self, alloc: Global) -> Result<(), Memory>
        ensures { OnOk result (stacks_of self.new ≡ constant_of (stacks_of self.old)) }
    {
        let name = constant_name(alloc, self.last)?;
        let types = mem::replace(&mut self.types, Vec::new(alloc));
        let terms = mem::replace(&mut self.terms, TermBuilder::new(alloc));
        self.terms = terms.constant(alloc, name, List::from_vec(types))?;
        Ok(())
    }

    fn all(&mut self, alloc: Global) -> Result<(), Memory>
        ensures { OnOk result (stacks_of self.new ≡ all_over (stacks_of self.old)) }
    {
        let types = one_type(alloc, self.last_type(alloc)?)?;
        let name = word(alloc, "all")?;
        let terms = mem::replace(&mut self.terms, TermBuilder::new(alloc));
        self.terms = terms.constant(alloc, name, types)?;
        Ok(())
    }

    fn bound(&mut self, alloc: Global) -> Result<(), Memory>
        ensures { OnOk result (stacks_of self.new ≡ bound_of (stacks_of self.old)) }
    {
        let name = variable_name(alloc, self.last)?;
        let terms = mem::replace(&mut self.terms, TermBuilder::new(alloc));
        self.terms = terms.bound(alloc, name)?;
        Ok(())
    }

    fn free(&mut self, alloc: Global) -> Result<(), Memory>
        ensures { OnOk result (stacks_of self.new ≡ free_of (stacks_of self.old)) }
    {
        let name = variable_name(alloc, self.last)?;
        let ty = self.last_type(alloc)?;
        let terms = mem::replace(&mut self.terms, TermBuilder::new(alloc));
        self.terms = terms.free(alloc, name, ty)?;
        Ok(())
    }

    fn abstraction(&mut self, alloc: Global) -> Result<(), Memory>
        ensures { OnOk result (stacks_of self.new ≡ abstraction_of (stacks_of self.old)) }
    {
        let name = variable_name(alloc, self.last)?;
        let ty = self.last_type(alloc)?;
        if self.terms.len() >= 1 {
            let terms = mem::replace(&mut self.terms, TermBuilder::new(alloc));
            self.terms = terms.lam(alloc, name, ty)?;
        }
        Ok(())
    }

    fn application(&mut self, alloc: Global) -> Result<(), Memory>
        ensures { OnOk result (stacks_of self.new ≡ put_sign 46 (stacks_of self.old)) }
    {
        if self.terms.len() >= 2 {
            let terms = mem::replace(&mut self.terms, TermBuilder::new(alloc));
            self.terms = terms.app(alloc)?;
        }
        Ok(())
    }

    fn term_sign(&mut self, alloc: Global, sign: u8) -> Result<(), Memory>
        ensures { OnOk result (stacks_of self.new ≡ term_sign sign (stacks_of self.old)) }
    {
        match sign {
            b'#' => self.constant(alloc),
            b'!' => self.all(alloc),
            b'%' => self.bound(alloc),
            b'$' => self.free(alloc),
            b'^' => self.abstraction(alloc),
            b'.' => self.application(alloc),
            letter => {
                self.last = letter;
                Ok(())
            }
        }
    }

    /// What a letter or a sign makes.
    pub fn sign(&mut self, alloc: Global, sign: u8) -> Result<(), Memory>
        ensures { OnOk result (stacks_of self.new ≡ put_sign sign (stacks_of self.old)) }
    {
        match sign {
            b':' => self.push_type(alloc),
            b'>' => self.functions(alloc),
            b'~' => self.relations(alloc),
            b'=' => self.declare(),
            _ => self.term_sign(alloc, sign),
        }
    }
}
