//! The laws of transport: their statements, which of them are registered, and their instances.
#![tactic(auto)]

pub mod definition_laws;
pub mod instance_laws;
mod instances;
mod law_fault;
mod registered;
pub mod session_laws;
mod statements;
mod table;

pub use law_fault::LawFault;
pub use registered::Laws;
pub use statements::law_statement;
