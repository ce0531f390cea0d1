//! The calls that no command reaches: the printing of a type, of a term, and of a definition.
use super::{print_term, print_type, summary_line};
use lt_hol::{Item, List, Name, Term, Ty};
use std::alloc::Global;
use std::test::Fail;

fn name(alloc: Global, text: &str) -> Result<Name, Fail> {
    Ok(Name::new(alloc, text)?.ok_or("no name")?)
}

/// A type without arguments.
fn plain(alloc: Global, text: &str) -> Result<Ty, Fail> {
    Ok(Ty::con(alloc, name(alloc, text)?, List::new(alloc))?)
}

/// The abstraction \x. x over truth values.
fn identity(alloc: Global) -> Result<Term, Fail> {
    let x = name(alloc, "x")?;
    let body = Term::bound(alloc, name(alloc, "x")?)?;
    Ok(Term::lam(alloc, x, plain(alloc, "bool")?, body)?)
}

#[test]
fn types_and_terms_as_text(rt: HostRuntime) -> Result<(), Fail> {
    let alloc = rt.alloc();
    let variable = Ty::var(alloc, name(alloc, "a")?)?;
    assert_eq!(rt; print_type(alloc, &variable)?.as_str(), "'a");
    assert_eq!(rt;
        print_term(alloc, &identity(alloc)?)?.as_str(),
        "(\\x0 bool %x0)"
    );
    Ok(())
}

#[test]
fn definitions_as_summary_lines(rt: HostRuntime) -> Result<(), Fail> {
    let alloc = rt.alloc();
    let item = Item::Def(name(alloc, "id")?, plain(alloc, "t")?, identity(alloc)?);
    assert_eq!(rt;
        summary_line(alloc, &item)?.as_str(),
        "def id : t := (\\x0 bool %x0)\n"
    );
    Ok(())
}
