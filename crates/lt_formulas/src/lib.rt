//! The formulas of the kernel's rules over a store: made, read, typed, and put together as hypotheses.
#![tactic(auto)]

mod applying;
mod closing;
mod connectives;
mod constants;
mod function_types;
mod hyps;
mod reading;
mod redexes;
mod shapes;
mod statements;
mod typing;

pub use applying::{mk_applied_equation, mk_at};
pub use closing::{mk_closed_equation, mk_closed_for_all};
pub use connectives::{mk_equation, mk_falsity, mk_for_all, mk_implies};
pub use function_types::{joined_type, predicate_over};
pub use hyps::{are_same, one, union, without};
pub use reading::{application, constant, is_application, is_constant};
pub use redexes::{expanded, redex_parts};
pub use shapes::{Equation, Universal, as_equation, as_forall, as_implication};
pub use statements::{mk_double_negation, mk_selection};
pub use typing::{has_type, is_boolean, type_of};
