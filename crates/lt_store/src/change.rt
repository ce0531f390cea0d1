//! What a pass over a term does: it changes something, looks for something, or measures names.
ghost use Rattle.std.specs.Prelude.{◌≡◌, ◌≤◌, true, IfOk};
ghost use Rattle.lt_store.specs.Bounds.{IsUnchanged, IsAbsent};
ghost use Rattle.lt_store.specs.Passes.{change_step, sought_step, step_of, type_image};

use crate::bounds::Bounds;
use crate::node::Id;
use lt_hol::{Memory, Name, TryCopy, Ty, TyMap, tsub};
use std::alloc::Global;

/// What is put in place of what.
#[derive(Clone, Copy, Debug)]
pub enum Change<'a> {
    /// A term for the bound name that belongs to no binder.
    Open(Id),
    /// That bound name for a free variable.
    Close(&'a Name, &'a Ty),
    /// A term for a free variable.
    Replace(&'a Name, &'a Ty, Id),
    /// Types for type variables.
    Types(&'a TyMap),
}

/// What is looked for.
#[derive(Clone, Copy, Debug)]
pub enum Sought<'a> {
    /// A free variable.
    Variable(&'a Name, &'a Ty),
    /// The bound name that belongs to no binder.
    Loose,
}

/// What a pass does.
#[derive(Clone, Copy, Debug)]
pub enum Work<'a> {
    Make(Change<'a>),
    Find(Sought<'a>),
    /// The length of the longest name of a free variable.
    Measure,
}

impl Work<'_> {
    /// By how much the depth of a binder's body is greater: 0 where the depth doesn't matter,
    /// so that a shared node is worked on once.
    pub(crate) fn step(self) -> usize
        ensures step { result ≡ step_of self.entry }
        ensures most { result ≤ 1 }
    {
        match self {
            Work::Make(change) => change.step(),
            Work::Find(sought) => sought.step(),
            Work::Measure => 0,
        }
    }
}

impl Sought<'_> {
    pub(crate) fn step(self) -> usize
        ensures step { result ≡ sought_step self.entry }
        ensures most { result ≤ 1 }
    {
        match self {
            Sought::Variable(_, _) => 0,
            Sought::Loose => 1,
        }
    }

    /// Whether a term of these bounds is known not to have it under so many binders.
    pub(crate) fn lacks(self, known: Bounds, depth: usize) -> bool
        ensures { result ≡ true → IsAbsent self.entry known depth }
    {
        match self {
            Sought::Variable(name, _) => known.names < name.len(),
            Sought::Loose => known.binders <= depth,
        }
    }
}

impl Change<'_> {
    pub(crate) fn step(self) -> usize
        ensures step { result ≡ change_step self.entry }
        ensures most { result ≤ 1 }
    {
        match self {
            Change::Open(_) | Change::Close(_, _) => 1,
            Change::Replace(_, _, _) | Change::Types(_) => 0,
        }
    }

    /// Whether a term of these bounds is known to stay as it is under so many binders.
    pub(crate) fn leaves(self, known: Bounds, depth: usize) -> bool
        ensures { result ≡ true → IsUnchanged self.entry known depth }
    {
        match self {
            Change::Open(_) => known.binders <= depth,
            Change::Close(name, _) => known.names < name.len(),
            Change::Replace(name, _, _) => known.names < name.len(),
            Change::Types(_) => false,
        }
    }

    /// What a type becomes.
    pub(crate) fn ty(self, alloc: Global, ty: &Ty) -> Result<Ty, Memory>
        ensures { IfOk result (λ t. t ≡ type_image self.entry ty.now) }
    {
        match self {
            Change::Types(map) => Ok(tsub(alloc, ty, map)?),
            Change::Open(_) | Change::Close(_, _) | Change::Replace(_, _, _) => Ok(ty.copy(alloc)?),
        }
    }
}
