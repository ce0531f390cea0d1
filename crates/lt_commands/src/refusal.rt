//! Why a text, or a command of it, is refused.
use lt_hol::{Property, PropertyPart, QuotientPart, Reason, RelatorPart, RulePart};
use lt_terms::{Term, Terms};
use lt_types::{Name, Ty};

/// A sequent as terms: its hypotheses and its conclusion.
#[derive(Debug, Drop)]
pub struct SequentTerms {
    pub hyps: Terms,
    pub concl: Term,
}

/// What keeps a quotient from being parametric: a type at which no equality is, or the name of a
/// type that has no quotient or no parameter.
#[derive(Debug, Drop)]
pub enum NotParametric {
    At(Ty),
    Without(Name),
}

/// Why a text, or a command of it, is refused, with what is told of it.
#[derive(Debug, Drop)]
pub enum Refusal {
    /// The joined text passes the limit.
    TooLong,
    /// Bytes that are no UTF-8.
    BadByte,
    /// A character that begins no token.
    BadChar,
    /// A token, or the text's end, with which no text goes on.
    Syntax,
    /// The text can't go on as a header.
    BadHeader,
    /// A token that stands where a command begins and is no command's word.
    BadCommand,
    /// The name stands for something already.
    Duplicate(Name),
    /// No type constructor has the name.
    UnknownType(Name),
    /// The type constructor has another number of arguments.
    Arity(Name),
    /// No constant has the name.
    UnknownConst(Name),
    /// The constant's type arguments aren't as many as its type has variables.
    TypeArgs(Name),
    /// A bound name has no binder.
    Unbound(Name),
    /// No named statement has the label.
    UnknownLabel(Name),
    /// No law has the name.
    UnknownLaw(Name),
    /// The named statement is not that of the law.
    LawDiffers(Name),
    /// The command needs a law that isn't registered.
    MissingLaw(Name),
    /// The head has a domain rule already.
    DuplicateDomain(Name),
    /// A type variable of the body is none of the constant's type.
    LooseTypeVar(Name),
    /// A statement's type, which isn't `bool`.
    NotBool(Ty),
    /// A function's type and that of its argument, or the stated type and that of the body.
    Mismatch(Ty, Ty),
    /// The number of a line, and why its rule gives no sequent.
    BadLine(usize, Reason),
    /// The last line's sequent, which isn't the statement; none where there is no line.
    NotProved(Option<SequentTerms>),
    /// The predicate has not the form that `typedef` asks for.
    TypedefShape,
    /// The first part of a relator's theorems that fails.
    RelatorShape(RelatorPart),
    /// The first part of a property's statement that fails.
    PropertyShape(PropertyPart),
    /// The property and the head that has a rule for it already.
    DuplicateProperty(Property, Name),
    /// The statement is no domain equation.
    DomainShape,
    /// The first part of a transfer rule's statement that fails.
    RuleShape(RulePart),
    /// The first test of a quotient that fails.
    NotQuotient(QuotientPart),
    /// A raw type that is a type variable alone.
    BareParameter(Ty),
    /// The abstract and the raw type that no quotient relates.
    NoQuotient(Ty, Ty),
    /// The goal that the named statement isn't.
    RespectDiffers(Term),
    /// What keeps the type's quotient from being parametric.
    NotParametric(NotParametric),
    /// The number of an argument that is a function with a type variable.
    HigherOrderArgument(usize),
    /// A type at which no equation of representations holds.
    NoRepEquation(Ty),
    /// No choice of rules transports the statement.
    NoTransport,
    /// The statement of a transport that isn't the image.
    ImageDiffers(Term),
    /// The statement has a free variable.
    OpenTerm,
    /// How many nodes the image has.
    TooLarge(u64),
    /// How many visits the search made.
    SearchLimit(u64),
    /// How many steps the reduction made.
    NormLimit(u64),
    /// A command of the table that isn't built yet.
    NotBuilt,
    /// Memory ran out.
    Memory,
}

/// A refusal, with the number of the line of a lemma in which it stands, if it stands in one.
#[derive(Debug, Drop)]
pub struct Refused {
    pub refusal: Refusal,
    pub line: Option<usize>,
}

/// A refusal, with its place in the joined text, as a number of bytes from its begin.
#[derive(Debug, Drop)]
pub struct Placed {
    pub refusal: Refusal,
    pub at: usize,
}
