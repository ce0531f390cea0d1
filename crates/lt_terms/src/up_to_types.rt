//! Terms that are the same up to the names of type variables.
ghost use Rattle.std.specs.Prelude.{◌≡◌, IfOk};
ghost use Rattle.lt_definitions.specs.Terms.{term_instance, term_variables};
ghost use Rattle.lt_definitions.specs.Alpha.{is_same_up_to_types, numbered};

use crate::alpha::alpha_eq;
use crate::numbering::numbering;
use crate::term::Term;
use crate::term_instances::term_instance;
use lt_types::Memory;
use std::alloc::Global;

/// Whether two terms are alpha-equal up to the names of their type variables,
/// which are numbered in order of first appearance.
///
/// It takes time linear in both terms with their types, where a look-up counts as one.
pub fn same_up_to_types(alloc: Global, s: &Term, t: &Term) -> Result<bool, Memory>
    ensures { IfOk result (λ yes. yes ≡ is_same_up_to_types s.now t.now) }
{
    let left = with_numbers(alloc, s)?;
    let right = with_numbers(alloc, t)?;
    Ok(alpha_eq(alloc, &left, &right)?)
}

/// The term with its type variables numbered.
fn with_numbers(alloc: Global, t: &Term) -> Result<Term, Memory>
    ensures { IfOk result (λ r. r ≡ term_instance (numbered 1 (term_variables t.now)) t.now) }
{
    let map = numbering(alloc, t)?;
    Ok(term_instance(alloc, t, &map)?)
}
