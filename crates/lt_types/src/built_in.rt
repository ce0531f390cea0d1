//! The built-in types.
ghost use Rattle.std.specs.Prelude.{◌≡◌, IfOk};
ghost use Rattle.lt_definitions.specs.Types.{bool, fun};

use crate::list::List;
use crate::memory::Memory;
use crate::name::Name;
use crate::ty::Ty;
use std::alloc::Global;

impl Ty {
    /// The type of truth values.
    pub fn bool(alloc: Global) -> Result<Ty, Memory>
        ensures { IfOk result (λ t. t ≡ bool) }
    {
        Ok(Ty::con(alloc, Name::word(alloc, "bool")?, List::new(alloc))?)
    }

    /// The type of functions from one type to another.
    pub fn fun(alloc: Global, from: Ty, to: Ty) -> Result<Ty, Memory>
        ensures { IfOk result (λ t. t ≡ fun from to) }
    {
        let mut args = List::new(alloc);
        args.push(alloc, from)?;
        args.push(alloc, to)?;
        Ok(Ty::con(alloc, Name::word(alloc, "fun")?, args)?)
    }
}
