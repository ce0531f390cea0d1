//! How fast terms are typed and compared up to binder names, and types are put for type variables.
use lt_hol::{
    Memory, Name, Signature, Term, TermBuilder, TryCopy, Ty, TyBuilder, TyMap, Tys, alpha_eq, tsub,
};
use std::alloc::{AllocError, Global};
use std::io;
use std::rt::Clock;
use std::time::Instant;

// What the terms are made of.
#[derive(Drop)]
struct Parts {
    x: Name,
    y: Name,
    p: Name,
    imp: Name,
    all: Name,
    bool: Ty,
}

fn make_parts(alloc: Global) -> Result<Parts, Memory> {
    Ok(Parts {
        x: word(alloc, "x")?,
        y: word(alloc, "y")?,
        p: word(alloc, "p")?,
        imp: word(alloc, "imp")?,
        all: word(alloc, "all")?,
        bool: Ty::bool(alloc)?,
    })
}

// A text that is a name.
fn word(alloc: Global, text: &str) -> Result<Name, Memory> {
    match Name::new(alloc, text)? {
        Some(name) => Ok(name),
        None => Err(Memory),
    }
}

// Applies the last term but one to the last.
fn apply(alloc: Global, builder: TermBuilder) -> Result<TermBuilder, Memory> {
    if builder.len() < 2 {
        return Ok(builder);
    }
    builder.app(alloc)
}

// Binds a name in the last term.
fn bind(
    alloc: Global,
    parts: &Parts,
    builder: TermBuilder,
    name: &Name,
) -> Result<TermBuilder, Memory> {
    if builder.len() < 1 {
        return Ok(builder);
    }
    builder.lam(alloc, name.copy(alloc)?, parts.bool.copy(alloc)?)
}

// The one term that was made.
fn whole(builder: TermBuilder) -> Result<Term, Memory> {
    if builder.len() == 1 {
        Ok(builder.finish())
    } else {
        Err(Memory)
    }
}

fn implication(alloc: Global, parts: &Parts, builder: TermBuilder) -> Result<TermBuilder, Memory> {
    builder.constant(alloc, parts.imp.copy(alloc)?, Tys::new(alloc))
}

fn leaf(alloc: Global, parts: &Parts, builder: TermBuilder) -> Result<TermBuilder, Memory> {
    builder.free(alloc, parts.p.copy(alloc)?, parts.bool.copy(alloc)?)
}

// p --> (p --> (.. p)), four nodes an implication.
fn chain(alloc: Global, parts: &Parts, nodes: usize) -> Result<Term, Memory> {
    let steps = nodes / 4;
    let mut builder = TermBuilder::new(alloc);
    for _ in 0..steps {
        builder = implication(alloc, parts, builder)?;
        builder = leaf(alloc, parts, builder)?;
        builder = apply(alloc, builder)?;
    }
    builder = leaf(alloc, parts, builder)?;
    for _ in 0..steps {
        builder = apply(alloc, builder)?;
    }
    whole(builder)
}

// What is to be made of a balanced tree: a part with so many leaves, or an application.
#[derive(Clone, Copy)]
enum Task {
    Part(usize),
    Apply,
}

// A balanced tree of implications, four nodes a leaf.
fn balanced(alloc: Global, parts: &Parts, nodes: usize) -> Result<Term, Memory> {
    let mut builder = TermBuilder::new(alloc);
    let mut tasks = Vec::new(alloc);
    tasks.push(Task::Part(nodes / 4))?;
    for _ in 0..nodes {
        match tasks.pop() {
            Some(Task::Part(leaves)) => {
                if leaves < 2 {
                    builder = leaf(alloc, parts, builder)?;
                } else {
                    builder = implication(alloc, parts, builder)?;
                    tasks.push(Task::Apply)?;
                    tasks.push(Task::Part(leaves - leaves / 2))?;
                    tasks.push(Task::Apply)?;
                    tasks.push(Task::Part(leaves / 2))?;
                }
            }
            Some(Task::Apply) => builder = apply(alloc, builder)?,
            None => {}
        }
    }
    whole(builder)
}

// \x. all y. x --> (all y. x --> (.. x)), seven nodes a binder.
fn binders(alloc: Global, parts: &Parts, nodes: usize) -> Result<Term, Memory> {
    let steps = nodes / 7;
    let mut builder = TermBuilder::new(alloc);
    for _ in 0..steps {
        let mut types = Tys::new(alloc);
        types.push(alloc, parts.bool.copy(alloc)?)?;
        builder = builder.constant(alloc, parts.all.copy(alloc)?, types)?;
        builder = implication(alloc, parts, builder)?;
        builder = builder.bound(alloc, parts.x.copy(alloc)?)?;
        builder = apply(alloc, builder)?;
    }
    builder = builder.bound(alloc, parts.x.copy(alloc)?)?;
    for _ in 0..steps {
        builder = apply(alloc, builder)?;
        builder = bind(alloc, parts, builder, &parts.y)?;
        builder = apply(alloc, builder)?;
    }
    whole(bind(alloc, parts, builder, &parts.x)?)
}

// 'a => ('a => (.. 'a)).
fn type_chain(alloc: Global, nodes: usize) -> Result<Ty, Memory> {
    let (a, fun) = (word(alloc, "a")?, word(alloc, "fun")?);
    let steps = nodes / 2;
    let mut builder = TyBuilder::new(alloc);
    for _ in 0..steps {
        builder = builder.var(alloc, a.copy(alloc)?)?;
    }
    builder = builder.var(alloc, a)?;
    for _ in 0..steps {
        if builder.len() >= 2 {
            builder = builder.con(alloc, fun.copy(alloc)?, 2)?;
        }
    }
    whole_type(alloc, builder)
}

// A balanced tree of types of functions.
fn type_tree(alloc: Global, nodes: usize) -> Result<Ty, Memory> {
    let (a, fun) = (word(alloc, "a")?, word(alloc, "fun")?);
    let mut builder = TyBuilder::new(alloc);
    let mut tasks = Vec::new(alloc);
    tasks.push(Task::Part(nodes / 2))?;
    for _ in 0..nodes.saturating_mul(2) {
        match tasks.pop() {
            Some(Task::Part(leaves)) => {
                if leaves < 2 {
                    builder = builder.var(alloc, a.copy(alloc)?)?;
                } else {
                    tasks.push(Task::Apply)?;
                    tasks.push(Task::Part(leaves - leaves / 2))?;
                    tasks.push(Task::Part(leaves / 2))?;
                }
            }
            Some(Task::Apply) => {
                if builder.len() >= 2 {
                    builder = builder.con(alloc, fun.copy(alloc)?, 2)?;
                }
            }
            None => {}
        }
    }
    whole_type(alloc, builder)
}

// The one type that was made.
fn whole_type(alloc: Global, builder: TyBuilder) -> Result<Ty, Memory> {
    if builder.len() == 1 {
        builder.finish(alloc)
    } else {
        Err(Memory)
    }
}

// How many nodes the type of a term has, and in how many microseconds it was found.
fn typed<R: Clock + Alloc<A = Global>>(rt: &R, t: &Term) -> io::Result<(usize, u128)> {
    let sig = Signature::new(rt.alloc()).map_err(|_| AllocError)?;
    let start = Instant::now(rt)?;
    let outcome = sig.type_of(rt.alloc(), t);
    let micros = start.elapsed(rt)?.as_micros();
    match outcome {
        Ok(ty) => Ok((ty.len(), micros)),
        Err(_) => Ok((0, micros)),
    }
}

// Whether a term is alpha-equal to its copy, and in how many microseconds that was found.
fn compared<R: Clock + Alloc<A = Global>>(rt: &R, t: &Term) -> io::Result<(bool, u128)> {
    let alloc = rt.alloc();
    let copy = t.copy(alloc).map_err(|_| AllocError)?;
    let start = Instant::now(rt)?;
    let same = alpha_eq(alloc, t, &copy).map_err(|_| AllocError)?;
    let micros = start.elapsed(rt)?.as_micros();
    Ok((same, micros))
}

// How many nodes a type has with a type put for its variable, and in how many microseconds it was put.
fn instance<R: Clock + Alloc<A = Global>>(rt: &R, ty: &Ty) -> io::Result<(usize, u128)> {
    let alloc = rt.alloc();
    let by = map(alloc).map_err(|_| AllocError)?;
    let start = Instant::now(rt)?;
    let made = tsub(alloc, ty, &by).map_err(|_| AllocError)?;
    let micros = start.elapsed(rt)?.as_micros();
    Ok((made.len(), micros))
}

// bool for 'a.
fn map(alloc: Global) -> Result<TyMap, Memory> {
    let mut by = TyMap::new(alloc);
    by.put(alloc, word(alloc, "a")?, Ty::bool(alloc)?)?;
    Ok(by)
}

// The three terms of about so many nodes.
fn terms(alloc: Global, nodes: usize) -> Result<(Term, Term, Term), Memory> {
    let parts = make_parts(alloc)?;
    Ok((
        chain(alloc, &parts, nodes)?,
        balanced(alloc, &parts, nodes)?,
        binders(alloc, &parts, nodes)?,
    ))
}

// Types a term and compares it with its copy.
fn measure<R: Print + Clock + Alloc<A = Global>>(rt: &R, shape: &str, t: &Term) -> io::Result<()> {
    let nodes = t.len();
    let (size, micros) = typed(rt, t)?;
    println!(rt; "type_of, {shape} of {nodes} nodes: a type of {size}, {micros} us")?;
    let (same, micros) = compared(rt, t)?;
    println!(rt; "alpha_eq, {shape} of {nodes} nodes: {same}, {micros} us")
}

// Puts a type into another.
fn measure_type<R: Print + Clock + Alloc<A = Global>>(
    rt: &R,
    shape: &str,
    ty: &Ty,
) -> io::Result<()> {
    let (size, micros) = instance(rt, ty)?;
    println!(rt; "tsub, {shape} of {} nodes: {size}, {micros} us", ty.len())
}

/// Terms and types of about 28 nodes.
pub fn small<R: Print + Clock + Alloc<A = Global>>(rt: &R) -> io::Result<()> {
    let alloc = rt.alloc();
    let (chain, tree, binders) = terms(alloc, 28).map_err(|_| AllocError)?;
    let (of_chain, _) = typed(rt, &chain)?;
    let (of_tree, _) = typed(rt, &tree)?;
    let (of_binders, _) = typed(rt, &binders)?;
    let (same, _) = compared(rt, &binders)?;
    let (put, _) = instance(rt, &type_chain(alloc, 28).map_err(|_| AllocError)?)?;
    println!(rt;
        "hol: types of {of_chain}, {of_tree} and {of_binders} nodes, {same}, an instance of {put}"
    )
}

/// Chains, balanced trees and chains of binders.
pub fn run<R: Print + Clock + Alloc<A = Global>>(rt: &R) -> io::Result<()> {
    let alloc = rt.alloc();
    for nodes in [10_000, 100_000, 1_000_000] {
        let (chain, tree, binders) = terms(alloc, nodes).map_err(|_| AllocError)?;
        measure(rt, "a chain", &chain)?;
        measure(rt, "a balanced tree", &tree)?;
        measure(rt, "binders", &binders)?;
        let chain = type_chain(alloc, nodes).map_err(|_| AllocError)?;
        measure_type(rt, "a chain", &chain)?;
        let tree = type_tree(alloc, nodes).map_err(|_| AllocError)?;
        measure_type(rt, "a balanced tree", &tree)?;
    }
    Ok(())
}
