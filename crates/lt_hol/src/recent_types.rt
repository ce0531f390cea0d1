//! Types whose numbers are kept.
use lt_types::Ty;

/// A type with its number in a table.
#[derive(Debug, Drop)]
pub struct RecentType {
    pub ty: Ty,
    pub id: usize,
}
