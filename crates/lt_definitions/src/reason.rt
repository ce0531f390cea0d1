//! Why a rule of the kernel gives no sequent.

/// Why a rule of the kernel gives no sequent.
#[derive(Clone, Copy, Debug, PartialEq, Eq)]
pub enum Reason {
    /// A line's number is 0, or not below the number of the line itself.
    MissingLine,
    /// A term isn't of type `bool`.
    NotBool,
    /// A line's conclusion is no equation.
    NotEquation,
    /// Two middle terms aren't alpha-equal.
    MiddleDiffers,
    /// A function's type isn't that of its argument, or a term hasn't the type that is asked for.
    TypeDiffers,
    /// The variable to be bound is free in a hypothesis.
    VariableInHypothesis,
    /// The term is no redex.
    NotRedex,
    /// A line's conclusion is no implication.
    NotImplication,
    /// A line's conclusion is no universal statement.
    NotForall,
    /// No named statement has the label.
    UnknownLabel,
}
