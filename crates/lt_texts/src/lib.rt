//! Definitions of tokens, texts and walks, and laws over them.
#![tactic(auto)]

pub mod lexical;
pub mod plain_texts;
pub mod reading;
pub mod text_examples;
pub mod walks;
