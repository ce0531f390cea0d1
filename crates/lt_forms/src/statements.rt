//! Quantifiers, premises and conclusions of statements.
ghost use Rattle.std.specs.Prelude.{◌≡◌, ◌++◌, option_map, codes, IfOk};
ghost use Rattle.std.specs.Fmt.{decimal};
ghost use Rattle.std.specs.List.{list_all};
ghost use Rattle.std.specs.Prelude.{IsTrue, nat_lt};
ghost use Rattle.lt_definitions.specs.Terms.{application, free_variable};
ghost use Rattle.lt_definitions.specs.Binding.{opened};
ghost use Rattle.lt_transport_definitions.specs.Forms.{implied_by};
ghost use Rattle.lt_transport_definitions.specs.Reading.{quantified, relation_name, opened_from, body_of};
ghost use Rattle.lt_forms.specs.Quantifiers.{is_named, quantifier, implication};
ghost use Rattle.lt_forms.specs.Told.{quantifier_told};

use crate::part::{Part, Shape};
use lt_hol::{List, Memory, Name, Term, TryCopy, Ty, open_binder};
use std::alloc::Global;

/// Bound names with their types.
pub type BinderList = List<(Name, Ty)>;

/// The binders of the quantifiers over abstractions with which a term begins, and what stands
/// behind these. It takes time linear in their number.
pub fn quantified<'a>(alloc: Global, t: Part<'a>) -> Result<(BinderList, Part<'a>), Memory>
    ensures { IfOk result (λ q. q ≡ quantified t.entry) }
{
    let mut binders = Vec::new(alloc);
    let mut rest = t;
    while let Some((name, ty, body)) = quantifier(&rest) {
        binders.push((name.copy(alloc)?, ty.copy(alloc)?))?;
        rest = body;
    }
    Ok((List::from_vec(binders), rest))
}

/// The binder of a quantifier over an abstraction, with its type, and the body; None where the term
/// is none.
fn quantifier<'a>(t: &Part<'a>) -> Option<(&'a Name, &'a Ty, Part<'a>)>
    ensures { option_map quantifier_told result ≡ quantifier t.now }
{
    match t.shape() {
        Shape::App(function, argument) => quantifier_over(&function, &argument),
        _ => None,
    }
}

/// The same of an application.
fn quantifier_over<'a>(
    function: &Part<'a>,
    argument: &Part<'a>,
) -> Option<(&'a Name, &'a Ty, Part<'a>)>
    ensures { option_map quantifier_told result
        ≡ quantifier (application function.now argument.now) }
{
    if !is_named(function, "all") {
        return None;
    }
    match argument.shape() {
        Shape::Lam(name, ty, body) => Some((name, ty, body)),
        _ => None,
    }
}

/// Whether a term is the constant of a name, which is a word of ASCII characters.
pub fn is_named(t: &Part<'_>, word: &str) -> bool
    requires { IsTrue (list_all (λ c. nat_lt c 128) word.now) }
    ensures { result ≡ is_named word.now t.now }
{
    match t.shape() {
        Shape::Const(name, _) => name.is_word(word),
        _ => false,
    }
}

/// The premises of a term, and its conclusion. It takes time linear in their number.
pub fn implied_by<'a>(alloc: Global, t: Part<'a>) -> Result<(Vec<Part<'a>>, Part<'a>), Memory>
    ensures { IfOk result (λ q. (q.0.items, q.1) ≡ implied_by t.entry) }
{
    let mut premises = Vec::new(alloc);
    let mut rest = t;
    while let Some((premise, conclusion)) = implication(&rest) {
        premises.push(premise)?;
        rest = conclusion;
    }
    Ok((premises, rest))
}

/// The sides of an implication; None where the term is none.
pub fn implication<'a>(t: &Part<'a>) -> Option<(Part<'a>, Part<'a>)>
    ensures { result ≡ implication t.now }
{
    match t.shape() {
        Shape::App(function, right) => implication_over(&function, right),
        _ => None,
    }
}

/// The same of an application.
fn implication_over<'a>(function: &Part<'a>, right: Part<'a>) -> Option<(Part<'a>, Part<'a>)>
    ensures { result ≡ implication (application function.now right.entry) }
{
    match function.shape() {
        Shape::App(head, left) => implication_from(&head, left, right),
        _ => None,
    }
}

/// The same of a term that is applied to two others.
fn implication_from<'a>(
    head: &Part<'a>,
    left: Part<'a>,
    right: Part<'a>,
) -> Option<(Part<'a>, Part<'a>)>
    ensures { result ≡ implication (application (application head.now left.entry) right.entry) }
{
    if is_named(head, "imp") {
        Some((left, right))
    } else {
        None
    }
}

/// What a statement says of the variables of its quantifiers, which are free in it under the names
/// A1, A2, ..
///
/// It takes time linear in the statement for each of its quantifiers.
pub fn body_of(alloc: Global, t: &Term) -> Result<Term, Memory>
    ensures { IfOk result (λ b. b ≡ body_of t.now) }
{
    let (binders, rest) = quantified(alloc, Part::of(t))?;
    let body = rest.term(alloc)?;
    Ok(opened_under(alloc, binders.as_slice(), body)?)
}

/// A term opened under binders, whose variables have the numbers from one on.
fn opened_under(alloc: Global, binders: &[(Name, Ty)], body: Term) -> Result<Term, Memory>
    ensures { IfOk result (λ t. t ≡ opened_from 1 binders.now body) }
{
    let mut t = body;
    let mut at = binders.len();
    while 0 < at {
        t = opened_at(alloc, &binders[at - 1], at, t)?;
        at -= 1;
    }
    Ok(t)
}

/// A term opened under one binder, whose variable has a number.
fn opened_at(alloc: Global, binder: &(Name, Ty), number: usize, t: Term) -> Result<Term, Memory>
    ensures { IfOk result (λ o. o
        ≡ opened binder.now.0 (free_variable (relation_name number) binder.now.1) t) }
{
    let name = relation_name(alloc, number)?;
    let variable = Term::free(alloc, name, binder.1.copy(alloc)?)?;
    let lam = Term::lam(alloc, binder.0.copy(alloc)?, binder.1.copy(alloc)?, t)?;
    match open_binder(alloc, &lam, &variable)? {
        Some(opened) => Ok(opened),
        None => unreachable!(),
    }
}

/// The name of a relation variable: A1, A2, ..
pub fn relation_name(alloc: Global, number: usize) -> Result<Name, Memory>
    ensures { IfOk result (λ n. n ≡ relation_name number) }
{
    let text = format!(in alloc; "A{number}")?;
    Ok(Name::word(alloc, text.as_str())?)
}
