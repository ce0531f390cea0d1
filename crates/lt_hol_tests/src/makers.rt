//! A name and a variable.
use lt_hol::{Name, Term, Ty};
use std::alloc::Global;
use std::test::Fail;

/// The name `x`.
pub fn x(alloc: Global) -> Result<Name, Fail> {
    Ok(Name::repeated(alloc, 'x', 0)?)
}

/// The free variable x of type `bool`.
pub fn variable(alloc: Global) -> Result<Term, Fail> {
    Ok(Term::free(alloc, x(alloc)?, Ty::bool(alloc)?)?)
}
