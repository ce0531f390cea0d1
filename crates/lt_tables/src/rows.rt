//! The rows of derivations.

/// A row of a derivation: a rule with its terms as texts, its variables as letters, and the numbers of lines, from 1.
///
/// First come the lines that are given, then those of the rows.
#[derive(Clone, Copy, Debug)]
pub enum Row {
    Assume(&'static str),
    Refl(&'static str),
    Sym(usize),
    Trans(usize, usize),
    Cong(usize, usize),
    Beta(&'static str),
    Eqmp(usize, usize),
    ImpI(&'static str, usize),
    Mp(usize, usize),
    AllI(u8, usize),
    AllE(&'static str, usize),
    Select(&'static str),
}
