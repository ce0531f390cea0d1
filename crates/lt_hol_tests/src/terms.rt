//! What is put into a term, and copies.
use crate::makers::{variable, x};
use lt_hol::{
    Item, Line, Lines, Term, TryCopy, Ty, TyMap, close_free, open_binder, same_up_to_types,
    subst_free, term_instance,
};
use std::alloc::Global;
use std::test::Fail;

/// Whether the abstraction over a variable is one that can be opened.
fn is_opened(alloc: Global, t: &Term) -> Result<bool, Fail> {
    let closed = close_free(alloc, t, &x(alloc)?, &Ty::bool(alloc)?)?;
    Ok(open_binder(alloc, &closed, t)?.is_some())
}

/// How many nodes a variable applied to itself has, with itself put for it.
fn count_put(alloc: Global, t: &Term) -> Result<usize, Fail> {
    let twice = Term::app(alloc, variable(alloc)?, variable(alloc)?)?;
    Ok(subst_free(alloc, &twice, &x(alloc)?, &Ty::bool(alloc)?, t)?.len())
}

#[test]
fn a_variable_is_closed_opened_and_replaced(rt: HostRuntime) -> Result<(), Fail> {
    let t = variable(rt.alloc())?;
    assert!(rt; is_opened(rt.alloc(), &t)?);
    assert_eq!(rt; count_put(rt.alloc(), &t)?, 3);
    Ok(())
}

/// The map that puts `bool` for 'x.
fn bool_for_x(alloc: Global) -> Result<TyMap, Fail> {
    let mut map = TyMap::new(alloc);
    map.put(alloc, x(alloc)?, Ty::bool(alloc)?)?;
    Ok(map.copy(alloc)?)
}

#[test]
fn types_are_put_and_left_aside(rt: HostRuntime) -> Result<(), Fail> {
    let t = variable(rt.alloc())?;
    let put = term_instance(rt.alloc(), &t, &bool_for_x(rt.alloc())?)?;
    assert!(rt; same_up_to_types(rt.alloc(), &t, &put)?);
    Ok(())
}

/// How many lines a copy of a lemma has.
fn count_copied(alloc: Global) -> Result<usize, Fail> {
    let mut lines = Lines::new(alloc);
    lines.push(alloc, Line::Sym(1))?;
    let lemma = Item::Lemma(x(alloc)?, variable(alloc)?, lines);
    match lemma.copy(alloc)? {
        Item::Lemma(_, _, copied) => Ok(copied.len()),
        _ => Ok(0),
    }
}

#[test]
fn an_item_is_copied(rt: HostRuntime) -> Result<(), Fail> {
    assert_eq!(rt; count_copied(rt.alloc())?, 1);
    Ok(())
}
