//! A token as a reader sees it.
use lt_texts::lexical::TokenKind;
use lt_types::Name;

/// A token as a reader sees it.
#[derive(Debug, Drop)]
pub enum Word {
    Name(Name),
    /// A type variable by its name.
    Variable(Name),
    /// The number's value, where it is at most 2^32 - 1.
    Number(Option<u32>),
    Sign(TokenKind),
}
