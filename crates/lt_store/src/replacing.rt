//! What a replacement of a free variable made, with which the next one of the same variable by the
//! same term goes on.
ghost use Rattle.std.specs.Prelude.{◌≡◌, true};

use crate::image::is_variable;
use crate::memo::Memo;
use crate::node::Id;
use lt_hol::{Name, Ty};

/// A replacement of a free variable by a term, with what it made of the ids that it met.
#[derive(Debug, Drop)]
pub struct Replacing {
    pub name: Name,
    pub ty: Ty,
    pub by: Id,
    pub made: Memo,
}

impl Replacing {
    /// Whether it is the replacement of this variable by this term.
    pub fn is_of(&self, name: &Name, ty: &Ty, by: Id) -> bool
        ensures { result ≡ true → (self.now.name ≡ name.now) × (self.now.ty ≡ ty.now) × (self.now.by ≡ by) }
    {
        self.by == by && is_variable(name, ty, &self.name, &self.ty)
    }
}
