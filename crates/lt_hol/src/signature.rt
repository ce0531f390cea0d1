//! Declared types and constants.
ghost use Rattle.std.specs.Prelude.{◌≡◌, None, length, OnOk, OnErr, IfOk};
ghost use Rattle.std.specs.Option.{option_copied};
ghost use Rattle.lt_definitions.specs.Types.{found};
ghost use Rattle.lt_definitions.specs.Typing.{built_in};
ghost use Rattle.lt_hol.specs.Faults.{DeclaresType, DeclaresConst, with_type, with_const, cut};

use crate::built_in::{built_in_consts, built_in_types};
use crate::type_fault::TypeFault;
use indexmap::IndexMap;
use lt_types::{Memory, Name, TryCopy, Ty};
use std::alloc::Global;
use std::marker::Model;

/// The declared types with their arities, and the declared constants with their types, in order of
/// declaration.
///
/// A look-up by name takes constant time.
#[derive(Debug, Drop)]
pub struct Signature {
    types: IndexMap<Name, usize>,
    consts: IndexMap<Name, Ty>,
}

impl Model for Signature {
    ghost use Rattle.lt_definitions.specs.Typing.{Signature as Declared};
    ghost use Rattle.lt_hol.specs.Codes.{coded_signature};

    ghost Value = { Declared };

    ghost coded = { coded_signature };

    ghost view = { λ s. record { types = s.types.entries; consts = s.consts.entries } };
}

/// How many types and constants are declared.
#[derive(Clone, Copy, Debug, PartialEq, Eq)]
pub struct SigMark {
    pub types: usize,
    pub constants: usize,
}

impl Signature {
    /// The built-in types and constants.
    pub fn new(alloc: Global) -> Result<Signature, Memory>
        ensures { IfOk result (λ s. s ≡ built_in) }
    {
        Ok(Signature {
            types: built_in_types(alloc)?,
            consts: built_in_consts(alloc)?,
        })
    }

    /// The declared arity of a type.
    pub fn arity(&self, name: &Name) -> Option<usize>
        ensures { result ≡ found name.now self.now.types }
    {
        self.types.get(name).copied()
    }

    /// The declared type of a constant.
    pub fn const_type(&self, name: &Name) -> Option<&Ty>
        ensures { option_copied result ≡ found name.now self.now.consts }
    {
        self.consts.get(name)
    }

    /// Declares a type. `Duplicate` where a type has the name.
    pub fn add_type(&mut self, _alloc: Global, name: Name, arity: usize) -> Result<(), TypeFault>
        ensures { DeclaresType self.old self.new name arity result }
    {
        if self.arity(&name).is_some() {
            return Err(TypeFault::Duplicate(name));
        }
        self.types.insert(name, arity)?;
        Ok(())
    }

    /// Declares a constant. `Duplicate` where a constant has the name, then as `check_type`.
    pub fn add_const(&mut self, alloc: Global, name: Name, ty: Ty) -> Result<(), TypeFault>
        ensures { DeclaresConst self.old self.new name ty result }
    {
        if self.const_type(&name).is_some() {
            return Err(TypeFault::Duplicate(name));
        }
        if let Err(fault) = self.check_type(alloc, &ty) {
            return Err(fault);
        }
        self.consts.insert(name, ty)?;
        Ok(())
    }

    /// How many types and constants are declared.
    pub fn mark(&self) -> SigMark
        ensures types { result.types ≡ length self.now.types }
        ensures constants { result.constants ≡ length self.now.consts }
    {
        SigMark {
            types: self.types.len(),
            constants: self.consts.len(),
        }
    }

    /// Drops the types and constants that were declared after the mark.
    pub fn back(&mut self, mark: SigMark)
        ensures { self.new ≡ cut mark.types mark.constants self.old }
    {
        self.types.truncate(mark.types);
        self.consts.truncate(mark.constants);
    }
}
