//! Adds what an item declares and states, where the item was found valid.
ghost use Rattle.std.specs.Prelude.{◌≡◌, ◌<◌, ◌++◌, ◌∷◌, [], List, ℕ, None as Nothing, Ok as Fine, length, OnOk, OnErr};
ghost use Rattle.lt_definitions.specs.Types.{Chars, found, fun, bool};
ghost use Rattle.lt_definitions.specs.Typing.{type_fault, typed};
ghost use Rattle.lt_definitions.specs.Items.{Item, Context, with_statements, with_item, new_type, typedef_statements, def_item, typedef_item};
ghost use Rattle.lt_nameless.specs.Nameless.{nameless, IsWhole};
ghost use Rattle.lt_hol.specs.declared.type_fault.TypeFault.TheVariants.{Memory as OutOfMemory};
ghost use Rattle.lt_hol.specs.Faults.{with_type, with_const};
ghost use Rattle.lt_extend.specs.Entering.{IsNewType, AreNewStatements, with_new_type};
ghost use Rattle.lt_extend.specs.Standing.{StandsAs, IsReady, GoesOn, IsBehind};

use lt_conditions::{
    Statements, abs_inverse_label, abs_inverse_statement, definition_label, definition_statement,
    fun, new_type, rep_inverse_label, rep_inverse_statement, rep_label, rep_statement,
};
use lt_hol::{Memory, Name, Names, Term, TryCopy, Ty, TypeFault};
use lt_kernel::Proof;
use lt_store::{Id, TermStore};
use std::alloc::Global;

/// The fault of a declaration that can't be refused for another reason.
fn want_of_memory(fault: TypeFault) -> Memory
    requires { fault ≡ OutOfMemory }
{
    match fault {
        TypeFault::Memory => Memory,
        _ => unreachable!(),
    }
}

/// Adds a new type.
pub(crate) fn enter_type<S: TermStore>(
    alloc: Global,
    proof: &mut Proof<S>,
    name: &Name,
    arity: usize,
) -> Result<(), Memory>
    requires { found name.now proof.old.signature.types ≡ Nothing }
    ensures ok { OnOk result (proof.new
        ≡ record proof.old { signature = with_type name.now arity proof.old.signature }) }
    ensures err { OnErr result (proof.new ≡ proof.old) }
{
    let name = name.copy(alloc)?;
    match proof.add_type(alloc, name, arity) {
        Ok(()) => Ok(()),
        Err(fault) => Err(want_of_memory(fault)),
    }
}

/// Adds a new constant, whose type has no fault.
pub(crate) fn enter_const<S: TermStore>(
    alloc: Global,
    proof: &mut Proof<S>,
    name: &Name,
    ty: &Ty,
) -> Result<(), Memory>
    requires new { found name.now proof.old.signature.consts ≡ Nothing }
    requires sound { type_fault proof.old.signature ty.now ≡ Nothing }
    ensures ok { OnOk result (proof.new
        ≡ record proof.old { signature = with_const name.now ty.now proof.old.signature }) }
    ensures err { OnErr result (proof.new ≡ proof.old) }
{
    let name = name.copy(alloc)?;
    let ty = ty.copy(alloc)?;
    match proof.add_const(alloc, name, ty) {
        Ok(()) => Ok(()),
        Err(fault) => Err(want_of_memory(fault)),
    }
}

/// Adds a statement under a new label, where it is in the store already.
pub(crate) fn enter_stored<S: TermStore>(
    alloc: Global,
    proof: &mut Proof<S>,
    statements: &mut Statements,
    label: &Name,
    t: &Term,
    id: Id,
) -> Result<(), Memory>
    requires stored { id < length proof.old.nodes }
    requires new { found label.now proof.old.named ≡ Nothing }
    requires fresh { found label.now statements.old.entries ≡ Nothing }
    ensures ok { OnOk result (proof.new
        ≡ record proof.old { named = proof.old.named ++ (label.now, id) ∷ [] }) }
    ensures kept { OnOk result (statements.new.entries
        ≡ statements.old.entries ++ (label.now, t.now) ∷ []) }
    ensures err { OnErr result (proof.new ≡ proof.old) }
    ensures front { GoesOn statements.old.entries statements.new.entries }
{
    let copy = label.copy(alloc)?;
    let t = t.copy(alloc)?;
    statements.insert(copy, t)?;
    let copy = label.copy(alloc)?;
    match proof.add_statement(alloc, copy, id) {
        Ok(()) => Ok(()),
        Err(fault) => Err(fault.into_memory()),
    }
}

/// Adds a statement under a new label.
pub(crate) fn enter_statement<S: TermStore>(
    alloc: Global,
    proof: &mut Proof<S>,
    statements: &mut Statements,
    label: &Name,
    t: &Term,
) -> Result<(), Memory>
    requires whole { IsWhole 0 (nameless [] t.now) }
    requires new { found label.now proof.old.named ≡ Nothing }
    requires fresh { found label.now statements.old.entries ≡ Nothing }
    ensures signature { proof.new.signature ≡ proof.old.signature }
    ensures named { OnOk result ((id : ℕ)
        × (proof.new.named ≡ proof.old.named ++ (label.now, id) ∷ [])) }
    ensures entries { OnOk result (statements.new.entries
        ≡ statements.old.entries ++ (label.now, t.now) ∷ []) }
    ensures behind { IsBehind proof.old proof.new }
    ensures front { GoesOn statements.old.entries statements.new.entries }
    ensures stands { OnOk result ((ctx : Context)
        → StandsAs ctx proof.old statements.old.entries
        → StandsAs (with_statements ((label.now, t.now) ∷ []) ctx) proof.new
        statements.new.entries) }
{
    let id = proof.add_term(alloc, t)?;
    enter_stored(alloc, proof, statements, label, t, id)
}

/// Adds what a definition declares and states.
pub(crate) fn enter_definition<S: TermStore>(
    alloc: Global,
    proof: &mut Proof<S>,
    statements: &mut Statements,
    name: &Name,
    ty: &Ty,
    body: &Term,
) -> Result<(), Memory>
    requires { (items : List Item) × IsReady items proof.old statements.old.entries
        (def_item name.now ty.now body.now) }
    ensures behind { IsBehind proof.old proof.new }
    ensures front { GoesOn statements.old.entries statements.new.entries }
    ensures stands { OnOk result ((ctx : Context)
        → StandsAs ctx proof.old statements.old.entries
        → StandsAs (with_item ctx (def_item name.now ty.now body.now)) proof.new
        statements.new.entries) }
{
    let label = definition_label(alloc, name)?;
    let statement = definition_statement(alloc, name, ty, body)?;
    enter_const(alloc, proof, name, ty)?;
    enter_statement(alloc, proof, statements, &label, &statement)
}

/// Adds what a typedef declares: its type, and the constants from it and into it.
fn enter_typed<S: TermStore>(
    alloc: Global,
    proof: &mut Proof<S>,
    name: &Name,
    params: &Names,
    raw: &Ty,
    abs: &Name,
    rep: &Name,
) -> Result<(), Memory>
    requires { IsNewType proof.old.signature name.now params.now raw.now abs.now rep.now }
    ensures behind { IsBehind proof.old proof.new }
    ensures ok { OnOk result (proof.new
        ≡ record proof.old {
          signature = with_new_type name.now params.now raw.now abs.now rep.now
              proof.old.signature;
        }) }
{
    let new = new_type(alloc, name, params)?;
    let abs_type = fun(alloc, raw, &new)?;
    let rep_type = fun(alloc, &new, raw)?;
    enter_type(alloc, proof, name, params.len())?;
    enter_const(alloc, proof, rep, &rep_type)?;
    enter_const(alloc, proof, abs, &abs_type)
}

/// Adds what a typedef states.
fn enter_stated<S: TermStore>(
    alloc: Global,
    proof: &mut Proof<S>,
    statements: &mut Statements,
    name: &Name,
    params: &Names,
    predicate: &Term,
    raw: &Ty,
    abs: &Name,
    rep: &Name,
) -> Result<(), Memory>
    requires { AreNewStatements proof.old.named statements.old.entries name.now
        (new_type name.now params.now) raw.now predicate.now abs.now rep.now }
    ensures behind { IsBehind proof.old proof.new }
    ensures front { GoesOn statements.old.entries statements.new.entries }
    ensures stands { OnOk result ((ctx : Context)
        → StandsAs ctx proof.old statements.old.entries
        → StandsAs (with_statements (typedef_statements name.now
        (new_type name.now params.now) raw.now predicate.now abs.now rep.now) ctx) proof.new
        statements.new.entries) }
{
    let new = new_type(alloc, name, params)?;
    let first = rep_statement(alloc, &new, raw, predicate, rep)?;
    let second = rep_inverse_statement(alloc, &new, raw, abs, rep)?;
    let third = abs_inverse_statement(alloc, &new, raw, predicate, abs, rep)?;
    let first_label = rep_label(alloc, name)?;
    let second_label = rep_inverse_label(alloc, name)?;
    let third_label = abs_inverse_label(alloc, name)?;
    enter_statement(alloc, proof, statements, &first_label, &first)?;
    enter_statement(alloc, proof, statements, &second_label, &second)?;
    enter_statement(alloc, proof, statements, &third_label, &third)
}

/// Adds what a typedef declares and states.
pub(crate) fn enter_typedef<S: TermStore>(
    alloc: Global,
    proof: &mut Proof<S>,
    statements: &mut Statements,
    name: &Name,
    params: &Names,
    predicate: &Term,
    raw: &Ty,
    abs: &Name,
    rep: &Name,
) -> Result<(), Memory>
    requires over { typed proof.old.signature [] predicate.now ≡ Fine (fun raw.now bool) }
    requires ready { (items : List Item) × (by : Chars) × IsReady items proof.old
        statements.old.entries
        (typedef_item name.now params.now predicate.now by abs.now rep.now) }
    ensures behind { IsBehind proof.old proof.new }
    ensures front { GoesOn statements.old.entries statements.new.entries }
    ensures stands { OnOk result ((by : Chars) (ctx : Context)
        → StandsAs ctx proof.old statements.old.entries
        → StandsAs (with_item ctx
        (typedef_item name.now params.now predicate.now by abs.now rep.now)) proof.new
        statements.new.entries) }
{
    enter_typed(alloc, proof, name, params, raw, abs, rep)?;
    enter_stated(
        alloc, proof, statements, name, params, predicate, raw, abs, rep,
    )
}
