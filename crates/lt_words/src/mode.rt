//! What a call does.

/// What a call does: it transports a theory text, checks a plain text, writes the laws, or writes
/// the generated text of a size.
#[derive(Clone, Copy, Debug, PartialEq, Eq)]
pub enum Mode {
    Run,
    Check,
    Laws,
    Gen(u32),
}
