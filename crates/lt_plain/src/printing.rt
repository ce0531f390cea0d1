//! Refusals as text.
ghost use Rattle.std.specs.Prelude.{◌≡◌, ◌++◌, ◌∷◌, [], codes, true, string_bytes, IfOk, OnOk, encode_utf8_all};
ghost use Rattle.std.specs.Fmt.{decimal};
ghost use Rattle.lt_definitions.specs.Printing.{words, printed_type, printed_term};
ghost use Rattle.lt_walks.specs.RefusalTexts.{reason_word};
ghost use Rattle.lt_syntax.specs.Signs.{are_ascii};
ghost use Rattle.lt_plain.specs.Showing.{shown_words, shown_last, relator_part, property_part, rule_part, quotient_part, property_word};

use lt_commands::{NotParametric, Refusal, SequentTerms};
use lt_hol::{
    Memory, Name, Property, PropertyPart, QuotientPart, Reason, RelatorPart, RulePart, Term, Ty,
};
use lt_syntax::{Text, write_sequent, write_term, write_type};
use std::alloc::Global;

/// A refusal as text: its name, then what is told of it, each behind a space.
///
/// It takes time linear in the text. Want of memory prints as `Memory`.
pub fn print_refusal(alloc: Global, refusal: &Refusal) -> Result<String, Memory>
    ensures { IfOk result
        (λ text. string_bytes text ≡ encode_utf8_all (words (shown_words refusal.now))) }
{
    let mut text = Text::new(alloc);
    write_refusal(alloc, &mut text, refusal)?;
    Ok(text.finish())
}

/// Adds a refusal to a text.
fn write_refusal(alloc: Global, text: &mut Text, refusal: &Refusal) -> Result<(), Memory>
    ensures { OnOk result (text.new ≡ text.old ++ words (shown_words refusal.now)) }
{
    match refusal {
        Refusal::TooLong => Ok(text.signs("TooLong")?),
        Refusal::BadByte => Ok(text.signs("BadByte")?),
        Refusal::BadChar => Ok(text.signs("BadChar")?),
        Refusal::Syntax => Ok(text.signs("Syntax")?),
        Refusal::BadHeader => Ok(text.signs("BadHeader")?),
        Refusal::BadCommand => Ok(text.signs("BadCommand")?),
        Refusal::Duplicate(name) => Ok(write_named(text, "Duplicate", name)?),
        Refusal::UnknownType(name) => Ok(write_named(text, "UnknownType", name)?),
        Refusal::Arity(name) => Ok(write_named(text, "Arity", name)?),
        Refusal::UnknownConst(name) => Ok(write_named(text, "UnknownConst", name)?),
        Refusal::TypeArgs(name) => Ok(write_named(text, "TypeArgs", name)?),
        Refusal::Unbound(name) => Ok(write_named(text, "Unbound", name)?),
        Refusal::UnknownLabel(label) => Ok(write_named(text, "UnknownLabel", label)?),
        Refusal::UnknownLaw(law) => Ok(write_named(text, "UnknownLaw", law)?),
        Refusal::LawDiffers(law) => Ok(write_named(text, "LawDiffers", law)?),
        Refusal::MissingLaw(law) => Ok(write_named(text, "MissingLaw", law)?),
        Refusal::DuplicateDomain(head) => Ok(write_named(text, "DuplicateDomain", head)?),
        Refusal::LooseTypeVar(name) => Ok(write_variable(text, name)?),
        Refusal::NotBool(ty) => Ok(write_typed(alloc, text, "NotBool", ty)?),
        Refusal::Mismatch(one, other) => Ok(write_pair(alloc, text, "Mismatch", one, other)?),
        Refusal::BadLine(number, reason) => Ok(write_bad_line(text, *number, *reason)?),
        Refusal::NotProved(last) => Ok(write_not_proved(alloc, text, last)?),
        Refusal::TypedefShape => Ok(text.signs("TypedefShape")?),
        Refusal::RelatorShape(part) => Ok(write_relator_shape(text, "RelatorShape", *part)?),
        Refusal::PropertyShape(part) => Ok(write_property_shape(text, "PropertyShape", *part)?),
        Refusal::DuplicateProperty(property, head) => {
            Ok(write_property_of(text, "DuplicateProperty", *property, head)?)
        }
        Refusal::DomainShape => Ok(text.signs("DomainShape")?),
        Refusal::RuleShape(part) => Ok(write_rule_shape(text, *part)?),
        Refusal::NotQuotient(part) => Ok(write_not_quotient(text, *part)?),
        Refusal::BareParameter(ty) => Ok(write_typed(alloc, text, "BareParameter", ty)?),
        Refusal::NoQuotient(abs, raw) => Ok(write_pair(alloc, text, "NoQuotient", abs, raw)?),
        Refusal::RespectDiffers(goal) => Ok(write_term_of(alloc, text, "RespectDiffers", goal)?),
        Refusal::NotParametric(NotParametric::At(ty)) => {
            Ok(write_typed(alloc, text, "NotParametric", ty)?)
        }
        Refusal::NotParametric(NotParametric::Without(name)) => {
            Ok(write_named(text, "NotParametric", name)?)
        }
        Refusal::HigherOrderArgument(n) => Ok(write_numbered(text, "HigherOrderArgument", *n)?),
        Refusal::NoRepEquation(ty) => Ok(write_typed(alloc, text, "NoRepEquation", ty)?),
        Refusal::NoTransport => Ok(text.signs("NoTransport")?),
        Refusal::ImageDiffers(image) => Ok(write_term_of(alloc, text, "ImageDiffers", image)?),
        Refusal::OpenTerm => Ok(text.signs("OpenTerm")?),
        Refusal::TooLarge(n) => Ok(write_numbered(text, "TooLarge", *n as usize)?),
        Refusal::SearchLimit(n) => Ok(write_numbered(text, "SearchLimit", *n as usize)?),
        Refusal::NormLimit(n) => Ok(write_numbered(text, "NormLimit", *n as usize)?),
        Refusal::NotBuilt => Ok(text.signs("NotBuilt")?),
        Refusal::Memory => Ok(text.signs("Memory")?),
    }
}

/// Adds a word and a name.
fn write_named(text: &mut Text, word: &str, name: &Name) -> Result<(), Memory>
    requires { are_ascii word.now ≡ true }
    ensures { OnOk result (text.new ≡ text.old ++ (word.now ++ (codes " " ++ name.now))) }
{
    text.signs(word)?;
    text.signs(" ")?;
    Ok(text.name(name)?)
}

/// Adds a word and a number.
fn write_numbered(text: &mut Text, word: &str, n: usize) -> Result<(), Memory>
    requires { are_ascii word.now ≡ true }
    ensures { OnOk result (text.new ≡ text.old ++ (word.now ++ (codes " " ++ decimal n))) }
{
    text.signs(word)?;
    text.signs(" ")?;
    Ok(text.number(n)?)
}

/// Adds a word and a type.
fn write_typed(alloc: Global, text: &mut Text, word: &str, ty: &Ty) -> Result<(), Memory>
    requires { are_ascii word.now ≡ true }
    ensures { OnOk result
        (text.new ≡ text.old ++ (word.now ++ (codes " " ++ printed_type ty.now))) }
{
    text.signs(word)?;
    text.signs(" ")?;
    Ok(write_type(alloc, text, ty)?)
}

/// Adds a word and two types.
fn write_pair(
    alloc: Global,
    text: &mut Text,
    word: &str,
    one: &Ty,
    other: &Ty,
) -> Result<(), Memory>
    requires { are_ascii word.now ≡ true }
    ensures { OnOk result (text.new ≡ text.old ++ (word.now ++ (codes " "
        ++ (printed_type one.now ++ (codes " " ++ printed_type other.now))))) }
{
    text.signs(word)?;
    text.signs(" ")?;
    write_type(alloc, text, one)?;
    text.signs(" ")?;
    Ok(write_type(alloc, text, other)?)
}

/// Adds a word and a term.
fn write_term_of(alloc: Global, text: &mut Text, word: &str, term: &Term) -> Result<(), Memory>
    requires { are_ascii word.now ≡ true }
    ensures { OnOk result
        (text.new ≡ text.old ++ (word.now ++ (codes " " ++ printed_term [] term.now))) }
{
    text.signs(word)?;
    text.signs(" ")?;
    Ok(write_term(alloc, text, term)?)
}

/// Adds the part of a relator that fails, behind the word.
fn write_relator_shape(text: &mut Text, word: &str, part: RelatorPart) -> Result<(), Memory>
    requires { are_ascii word.now ≡ true }
    ensures { OnOk result (text.new ≡ text.old ++ (word.now ++ (codes " " ++ relator_part part))) }
{
    text.signs(word)?;
    text.signs(" ")?;
    Ok(write_relator_part(text, part)?)
}

/// Adds a part of a relator.
fn write_relator_part(text: &mut Text, part: RelatorPart) -> Result<(), Memory>
    ensures { OnOk result (text.new ≡ text.old ++ relator_part part) }
{
    match part {
        RelatorPart::Corr => Ok(text.signs("Corr")?),
        RelatorPart::K => Ok(text.signs("K")?),
        RelatorPart::R => Ok(text.signs("R")?),
        RelatorPart::M => Ok(text.signs("M")?),
        RelatorPart::E => Ok(text.signs("E")?),
        RelatorPart::Q => Ok(text.signs("Q")?),
        RelatorPart::O => Ok(text.signs("O")?),
    }
}

/// Adds the part of a property's statement that fails, behind the word.
fn write_property_shape(text: &mut Text, word: &str, part: PropertyPart) -> Result<(), Memory>
    requires { are_ascii word.now ≡ true }
    ensures { OnOk result (text.new ≡ text.old ++ (word.now ++ (codes " " ++ property_part part))) }
{
    text.signs(word)?;
    text.signs(" ")?;
    Ok(write_property_part(text, part)?)
}

/// Adds a part of a property's statement.
fn write_property_part(text: &mut Text, part: PropertyPart) -> Result<(), Memory>
    ensures { OnOk result (text.new ≡ text.old ++ property_part part) }
{
    match part {
        PropertyPart::Prefix => Ok(text.signs("Prefix")?),
        PropertyPart::Premise => Ok(text.signs("Premise")?),
        PropertyPart::Head => Ok(text.signs("Head")?),
    }
}

/// Adds the part of a transfer rule that fails.
fn write_rule_shape(text: &mut Text, part: RulePart) -> Result<(), Memory>
    ensures { OnOk result (text.new
        ≡ text.old ++ (codes "RuleShape" ++ (codes " " ++ rule_part part))) }
{
    text.signs("RuleShape")?;
    text.signs(" ")?;
    match part {
        RulePart::Prefix => Ok(text.signs("Prefix")?),
        RulePart::Head => Ok(text.signs("Head")?),
        RulePart::Relation => Ok(text.signs("Relation")?),
        RulePart::Types => Ok(text.signs("Types")?),
    }
}

/// Adds the test of a quotient that fails.
fn write_not_quotient(text: &mut Text, part: QuotientPart) -> Result<(), Memory>
    ensures { OnOk result (text.new
        ≡ text.old ++ (codes "NotQuotient" ++ (codes " " ++ quotient_part part))) }
{
    text.signs("NotQuotient")?;
    text.signs(" ")?;
    match part {
        QuotientPart::Shape => Ok(text.signs("shape")?),
        QuotientPart::Abstract => Ok(text.signs("abstract")?),
        QuotientPart::Relation => Ok(text.signs("relation")?),
        QuotientPart::Order => Ok(text.signs("order")?),
    }
}

/// Adds a word, a property and a head.
fn write_property_of(
    text: &mut Text,
    word: &str,
    property: Property,
    head: &Name,
) -> Result<(), Memory>
    requires { are_ascii word.now ≡ true }
    ensures { OnOk result (text.new ≡ text.old ++ (word.now ++ (codes " "
        ++ (property_word property ++ (codes " " ++ head.now))))) }
{
    text.signs(word)?;
    text.signs(" ")?;
    write_property(text, property)?;
    text.signs(" ")?;
    Ok(text.name(head)?)
}

/// Adds the name of a property.
fn write_property(text: &mut Text, property: Property) -> Result<(), Memory>
    ensures { OnOk result (text.new ≡ text.old ++ property_word property) }
{
    match property {
        Property::LeftTotal => Ok(text.signs("left_total")?),
        Property::RightTotal => Ok(text.signs("right_total")?),
        Property::LeftUnique => Ok(text.signs("left_unique")?),
        Property::RightUnique => Ok(text.signs("right_unique")?),
        Property::BiTotal => Ok(text.signs("bi_total")?),
        Property::BiUnique => Ok(text.signs("bi_unique")?),
    }
}

/// Adds a loose type variable.
fn write_variable(text: &mut Text, name: &Name) -> Result<(), Memory>
    ensures { OnOk result (text.new
        ≡ text.old ++ (codes "LooseTypeVar" ++ (codes " " ++ (codes "'" ++ name.now)))) }
{
    text.signs("LooseTypeVar '")?;
    Ok(text.name(name)?)
}

/// Adds the number of a line, and why its rule gives nothing.
fn write_bad_line(text: &mut Text, number: usize, reason: Reason) -> Result<(), Memory>
    ensures { OnOk result (text.new ≡ text.old ++ (codes "BadLine" ++ (codes " "
        ++ (decimal number ++ (codes " " ++ reason_word reason))))) }
{
    text.signs("BadLine")?;
    text.signs(" ")?;
    text.number(number)?;
    text.signs(" ")?;
    Ok(write_reason(text, reason)?)
}

/// Adds a reason.
fn write_reason(text: &mut Text, reason: Reason) -> Result<(), Memory>
    ensures { OnOk result (text.new ≡ text.old ++ reason_word reason) }
{
    match reason {
        Reason::MissingLine => Ok(text.signs("MissingLine")?),
        Reason::NotBool => Ok(text.signs("NotBool")?),
        Reason::NotEquation => Ok(text.signs("NotEquation")?),
        Reason::MiddleDiffers => Ok(text.signs("MiddleDiffers")?),
        Reason::TypeDiffers => Ok(text.signs("TypeDiffers")?),
        Reason::VariableInHypothesis => Ok(text.signs("VariableInHypothesis")?),
        Reason::NotRedex => Ok(text.signs("NotRedex")?),
        Reason::NotImplication => Ok(text.signs("NotImplication")?),
        Reason::NotForall => Ok(text.signs("NotForall")?),
        Reason::UnknownLabel => Ok(text.signs("UnknownLabel")?),
    }
}

/// Adds the sequent of a lemma's last line.
fn write_not_proved(
    alloc: Global,
    text: &mut Text,
    last: &Option<SequentTerms>,
) -> Result<(), Memory>
    ensures { OnOk result
        (text.new ≡ text.old ++ (codes "NotProved" ++ (codes " " ++ shown_last last.now))) }
{
    text.signs("NotProved")?;
    text.signs(" ")?;
    match last {
        None => Ok(text.signs("none")?),
        Some(sequent) => {
            let hyps = sequent.hyps.as_slice();
            Ok(write_sequent(alloc, text, hyps, &sequent.concl)?)
        }
    }
}
