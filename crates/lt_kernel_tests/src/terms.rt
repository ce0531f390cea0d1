//! Terms by the texts of lt_tables, and what they are in a proof.
ghost use Rattle.std.specs.Prelude.{◌≡◌, ◌<◌, length, None, IfOk};
ghost use Rattle.lt_nameless.specs.Nameless.{IsWhole};
ghost use Rattle.lt_nameless.specs.NamelessRules.{nameless_fault};
ghost use Rattle.lt_store.specs.Trees.{tree_at};

use lt_hol::{Name, Signature, Term, Ty};
use lt_kernel::Proof;
use lt_store::{Id, PlainStore, TermStore};
use lt_tables::{term_with, type_with, variable_name};
use std::alloc::Global;
use std::test::Fail;

/// `p` and `q` are boolean, and `f` is a function on `bool`.
const LETTERS: &str = "o:p=o:q=o:o:>f=";

/// A proof over what is built in.
pub fn begun(alloc: Global) -> Result<Proof<PlainStore>, Fail> {
    Ok(Proof::new(alloc, Signature::new(alloc)?, PlainStore::new(alloc)))
}

/// The name `p`.
pub fn name(alloc: Global) -> Result<Name, Fail> {
    Ok(variable_name(alloc, b'p')?)
}

/// The type of `p`.
pub fn ty(alloc: Global) -> Result<Ty, Fail> {
    Ok(type_with(alloc, LETTERS, b'p')?)
}

/// The id of the term of a text, which has no fault.
pub fn put<S: TermStore>(alloc: Global, proof: &mut Proof<S>, text: &str) -> Result<Id, Fail>
    ensures within { IfOk result (λ t. t < length proof.new.nodes) }
    ensures typed { IfOk result (λ t. nameless_fault proof.new.signature (tree_at proof.new.nodes t) ≡ None) }
    ensures whole { IfOk result (λ t. IsWhole 0 (tree_at proof.new.nodes t)) }
{
    let term = term_with(alloc, LETTERS, text)?.ok_or("not one term")?;
    let made = put_term(alloc, proof, &term)?;
    Ok(made)
}

/// The id of a term, which has no fault.
fn put_term<S: TermStore>(alloc: Global, proof: &mut Proof<S>, term: &Term) -> Result<Id, Fail>
    ensures within { IfOk result (λ t. t < length proof.new.nodes) }
    ensures typed { IfOk result (λ t. nameless_fault proof.new.signature (tree_at proof.new.nodes t) ≡ None) }
    ensures whole { IfOk result (λ t. IsWhole 0 (tree_at proof.new.nodes t)) }
{
    let _ty = proof.signature().type_of(alloc, term)?;
    let made = proof.add_term(alloc, term)?;
    Ok(made)
}
