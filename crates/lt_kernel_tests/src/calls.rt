//! A proof as a store, the passes over its terms, and a sure line.
use crate::terms::{begun, name, put, ty};
use lt_hol::{List, TyMap};
use lt_kernel::{Proof, sure};
use lt_store::{Id, TermStore, longest_free, type_at};
use lt_tables::term_of;
use std::alloc::Global;
use std::process::Abort;
use std::test::Fail;

#[test]
fn a_proof_is_a_store(rt: HostRuntime) -> Result<(), Fail> {
    let mut proof = begun(rt.alloc())?;
    stores(rt.alloc(), &rt, &mut proof)
}

/// The calls of a store at a proof, and the length of a name in it.
fn stores<S: TermStore>(alloc: Global, rt: &impl Abort, proof: &mut Proof<S>) -> Result<(), Fail> {
    let made = redex(alloc, rt, proof)?;
    assert!(rt; made < proof.len());
    let is = proof.same(alloc, made, made)?;
    assert!(rt; is);
    assert_eq!(rt; longest_free(alloc, proof, &[made])?, 1);
    Ok(())
}

/// The identity on `bool`, node by node.
fn identity<S: TermStore>(alloc: Global, rt: &impl Abort, store: &mut S) -> Result<Id, Fail> {
    let hole = store.mk_bound(alloc, 0)?;
    assert!(rt; hole < store.len());
    Ok(store.mk_lam(alloc, ty(alloc)?, hole)?)
}

/// The identity applied to a variable.
fn redex<S: TermStore>(alloc: Global, rt: &impl Abort, store: &mut S) -> Result<Id, Fail> {
    let _ = store.mk_const(alloc, name(alloc)?, List::new(alloc))?;
    let function = identity(alloc, rt, store)?;
    let argument = store.mk_free(alloc, name(alloc)?, ty(alloc)?)?;
    assert!(rt; function < store.len() && argument < store.len());
    Ok(store.mk_app(alloc, function, argument)?)
}

#[test]
fn a_proof_passes_over_its_own_terms(rt: HostRuntime) -> Result<(), Fail> {
    let mut proof = begun(rt.alloc())?;
    passes(rt.alloc(), &rt, &mut proof)
}

/// Each pass, and the type of a term.
fn passes<S: TermStore>(alloc: Global, rt: &impl Abort, proof: &mut Proof<S>) -> Result<(), Fail> {
    opens(alloc, rt, proof)?;
    closes(alloc, proof)?;
    puts_types(alloc, proof)?;
    is_typed(alloc, proof)
}

/// A variable is closed, and opened by another.
fn opens<S: TermStore>(alloc: Global, rt: &impl Abort, proof: &mut Proof<S>) -> Result<(), Fail> {
    let p = put(alloc, proof, "p$")?;
    let body = proof.abstract_free(alloc, p, &name(alloc)?, &ty(alloc)?)?;
    let q = put(alloc, proof, "q$")?;
    assert!(rt; body < proof.len());
    let _ = proof.instantiate(alloc, body, q)?;
    Ok(())
}

/// A variable is closed with its binder.
fn closes<S: TermStore>(alloc: Global, proof: &mut Proof<S>) -> Result<(), Fail> {
    let p = put(alloc, proof, "p$")?;
    let _ = proof.close(alloc, &name(alloc)?, &ty(alloc)?, p)?;
    Ok(())
}

/// A type is put for a type variable.
fn puts_types<S: TermStore>(alloc: Global, proof: &mut Proof<S>) -> Result<(), Fail> {
    let p = put(alloc, proof, "p$")?;
    let mut by = TyMap::new(alloc);
    by.put(alloc, name(alloc)?, ty(alloc)?)?;
    let _ = proof.put_types(alloc, p, &by)?;
    Ok(())
}

/// A constant in a store has its type.
fn is_typed<S: TermStore>(alloc: Global, proof: &mut Proof<S>) -> Result<(), Fail> {
    let imp = put(alloc, proof, "i#")?;
    let _ = type_at(alloc, &*proof, proof.signature(), imp)?;
    Ok(())
}

#[test]
fn a_text_is_a_term(rt: HostRuntime) -> Result<(), Fail> {
    assert!(rt; term_of(rt.alloc(), "o$")?.is_some());
    Ok(())
}

#[test]
fn a_sure_line_is_there(rt: HostRuntime) -> Result<(), Fail> {
    let mut proof = begun(rt.alloc())?;
    is_sure(rt.alloc(), &rt, &mut proof)
}

/// The first line.
fn is_sure<S: TermStore>(alloc: Global, rt: &impl Abort, proof: &mut Proof<S>) -> Result<(), Fail> {
    let p = put(alloc, proof, "p$")?;
    assert_eq!(rt; sure::refl(alloc, proof, p)?, 1);
    Ok(())
}
