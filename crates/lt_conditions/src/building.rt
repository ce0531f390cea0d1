//! The statements that definitions and typedefs add, as terms.
ghost use Rattle.std.specs.Prelude.{◌≡◌, [], ◌∷◌, length, true, IfOk};
ghost use Rattle.lt_definitions.specs.Types.{fun, type_variable, row};
ghost use Rattle.lt_definitions.specs.Terms.{bound_name, constant, application};
ghost use Rattle.lt_conditions.specs.Building.{closed_up, is_word};
ghost use Rattle.lt_definitions.specs.Items.{declared, definition_statement, new_type, rep_statement, rep_inverse_statement, abs_inverse_statement};

use crate::variables::own_variables;
use lt_hol::{List, Memory, Name, Names, Term, TermBuilder, TryCopy, Ty, variables};
use std::alloc::Global;

/// A typedef's new type over its parameters.
pub fn new_type(alloc: Global, name: &Name, params: &Names) -> Result<Ty, Memory>
    ensures { IfOk result (λ t. t ≡ new_type name.now params.now) }
{
    let args = variables(alloc, params.as_slice())?;
    Ok(Ty::con(alloc, name.copy(alloc)?, args)?)
}

/// The type of functions from one type to another.
pub fn fun(alloc: Global, from: &Ty, to: &Ty) -> Result<Ty, Memory>
    ensures { IfOk result (λ t. t ≡ fun from.now to.now) }
{
    Ok(Ty::fun(alloc, from.copy(alloc)?, to.copy(alloc)?)?)
}

/// `N = t`
pub fn definition_statement(
    alloc: Global,
    name: &Name,
    ty: &Ty,
    body: &Term,
) -> Result<Term, Memory>
    ensures { IfOk result (λ t. t ≡ definition_statement name.now ty.now body.now) }
{
    let builder = at_type(alloc, TermBuilder::new(alloc), "eq", ty)?;
    let builder = declared(alloc, builder, name, ty)?;
    let builder = builder.app(alloc)?;
    let builder = builder.term(alloc, body)?;
    let builder = builder.app(alloc)?;
    Ok(builder.finish())
}

/// `all a. P (B a)`
pub fn rep_statement(
    alloc: Global,
    new: &Ty,
    raw: &Ty,
    predicate: &Term,
    rep: &Name,
) -> Result<Term, Memory>
    ensures { IfOk result (λ t. t ≡ rep_statement new.now raw.now predicate.now rep.now) }
{
    let rep_type = fun(alloc, new, raw)?;
    let builder = at_type(alloc, TermBuilder::new(alloc), "all", new)?;
    let builder = builder.term(alloc, predicate)?;
    let builder = declared(alloc, builder, rep, &rep_type)?;
    let builder = bound(alloc, builder, "a")?;
    let builder = builder.app(alloc)?;
    let builder = builder.app(alloc)?;
    close(alloc, builder, "a", new)
}

/// `all a. A (B a) = a`
pub fn rep_inverse_statement(
    alloc: Global,
    new: &Ty,
    raw: &Ty,
    abs: &Name,
    rep: &Name,
) -> Result<Term, Memory>
    ensures { IfOk result (λ t. t ≡ rep_inverse_statement new.now raw.now abs.now rep.now) }
{
    let abs_type = fun(alloc, raw, new)?;
    let rep_type = fun(alloc, new, raw)?;
    let builder = at_type(alloc, TermBuilder::new(alloc), "all", new)?;
    let builder = at_type(alloc, builder, "eq", new)?;
    let builder = declared(alloc, builder, abs, &abs_type)?;
    let builder = declared(alloc, builder, rep, &rep_type)?;
    let builder = bound(alloc, builder, "a")?;
    let builder = builder.app(alloc)?;
    let builder = builder.app(alloc)?;
    let builder = builder.app(alloc)?;
    let builder = bound(alloc, builder, "a")?;
    let builder = builder.app(alloc)?;
    close(alloc, builder, "a", new)
}

/// `all r. P r --> B (A r) = r`
pub fn abs_inverse_statement(
    alloc: Global,
    new: &Ty,
    raw: &Ty,
    predicate: &Term,
    abs: &Name,
    rep: &Name,
) -> Result<Term, Memory>
    ensures { IfOk result (λ t. t
        ≡ abs_inverse_statement new.now raw.now predicate.now abs.now rep.now) }
{
    let abs_type = fun(alloc, raw, new)?;
    let rep_type = fun(alloc, new, raw)?;
    let builder = at_type(alloc, TermBuilder::new(alloc), "all", raw)?;
    let builder = plain(alloc, builder, "imp")?;
    let builder = builder.term(alloc, predicate)?;
    let builder = bound(alloc, builder, "r")?;
    let builder = builder.app(alloc)?;
    let builder = builder.app(alloc)?;
    let builder = at_type(alloc, builder, "eq", raw)?;
    let builder = declared(alloc, builder, rep, &rep_type)?;
    let builder = declared(alloc, builder, abs, &abs_type)?;
    let builder = bound(alloc, builder, "r")?;
    let builder = builder.app(alloc)?;
    let builder = builder.app(alloc)?;
    let builder = builder.app(alloc)?;
    let builder = bound(alloc, builder, "r")?;
    let builder = builder.app(alloc)?;
    let builder = builder.app(alloc)?;
    close(alloc, builder, "r", raw)
}

/// From `all` and a body: the body for all values of its bound name.
fn close(alloc: Global, builder: TermBuilder, name: &str, ty: &Ty) -> Result<Term, Memory>
    requires word { is_word name.now ≡ true }
    requires two { length builder ≡ 2 }
    ensures { IfOk result (λ t. closed_up name.now ty.now builder ≡ t ∷ []) }
{
    let word = Name::word(alloc, name)?;
    let copied = ty.copy(alloc)?;
    let lambda = builder.lam(alloc, word, copied)?;
    let closed = lambda.app(alloc)?;
    Ok(closed.finish())
}

/// One more term, a constant at one type.
fn at_type(alloc: Global, builder: TermBuilder, name: &str, ty: &Ty) -> Result<TermBuilder, Memory>
    requires { is_word name.now ≡ true }
    ensures { IfOk result (λ b. b ≡ constant name.now (ty.now ∷ []) ∷ builder) }
{
    let mut types = List::new(alloc);
    types.push(alloc, ty.copy(alloc)?)?;
    let name = Name::word(alloc, name)?;
    Ok(builder.constant(alloc, name, types)?)
}

/// One more term, a constant without type arguments.
fn plain(alloc: Global, builder: TermBuilder, name: &str) -> Result<TermBuilder, Memory>
    requires { is_word name.now ≡ true }
    ensures { IfOk result (λ b. b ≡ constant name.now [] ∷ builder) }
{
    let name = Name::word(alloc, name)?;
    Ok(builder.constant(alloc, name, List::new(alloc))?)
}

/// One more term, a bound name.
fn bound(alloc: Global, builder: TermBuilder, name: &str) -> Result<TermBuilder, Memory>
    requires { is_word name.now ≡ true }
    ensures { IfOk result (λ b. b ≡ bound_name name.now ∷ builder) }
{
    let name = Name::word(alloc, name)?;
    Ok(builder.bound(alloc, name)?)
}

/// One more term, a constant at the variables of its declared type.
fn declared(
    alloc: Global,
    builder: TermBuilder,
    name: &Name,
    ty: &Ty,
) -> Result<TermBuilder, Memory>
    ensures { IfOk result (λ b. b ≡ declared name.now ty.now ∷ builder) }
{
    let types = own_variables(alloc, ty)?;
    Ok(builder.constant(alloc, name.copy(alloc)?, types)?)
}
