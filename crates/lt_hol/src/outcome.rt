//! What is known of the type of a term.
use crate::type_fault::TypeFault;

/// The number of a term's type, or what is wrong with it:
/// the numbers of the types of a function and its argument, to which it can't be applied, or
/// another fault.
#[derive(Debug, Drop)]
pub enum Outcome {
    Known(usize),
    Mismatch(usize, usize),
    Wrong(TypeFault),
}
