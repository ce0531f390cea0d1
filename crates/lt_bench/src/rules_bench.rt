//! How fast transfer rules are registered and read, and how little a look-up has to do with their number.
use lt_expressions::{Rel, RelBuilder};
use lt_hol::{List, Memory, Name, Term, TermBuilder, TryCopy, Ty, Tys};
use lt_rules::{RuleBase, TransferRule};
use std::alloc::{AllocError, Global};
use std::io;

// What all rules have.
#[derive(Drop)]
struct Parts {
    rel: Rel,
    raw: Term,
}

fn make_parts(alloc: Global) -> Result<Parts, Memory> {
    let rel = RelBuilder::new(alloc).equality(alloc, Ty::bool(alloc)?)?;
    let raw = TermBuilder::new(alloc).constant(alloc, numbered(alloc, 0)?, Tys::new(alloc))?;
    if rel.len() != 1 || raw.len() != 1 {
        return Err(Memory);
    }
    Ok(Parts {
        rel: rel.finish(alloc)?,
        raw: raw.finish(),
    })
}

// The name with a number.
fn numbered(alloc: Global, number: usize) -> Result<Name, Memory> {
    match Name::new(alloc, format!(in alloc; "n{number}")?.as_str())? {
        Some(name) => Ok(name),
        None => Err(Memory),
    }
}

// A rule that relates a raw constant to the one with a number by equality.
fn rule(alloc: Global, parts: &Parts, number: usize) -> Result<TransferRule, Memory> {
    Ok(TransferRule {
        label: numbered(alloc, number)?,
        vars: List::new(alloc),
        sides: List::new(alloc),
        rel: parts.rel.copy(alloc)?,
        raw: parts.raw.copy(alloc)?,
        constant: numbered(alloc, number)?,
        pattern: Tys::new(alloc),
    })
}

// So many rules, each of a constant of its own.
fn registered(alloc: Global, count: usize) -> Result<RuleBase, Memory> {
    let parts = make_parts(alloc)?;
    let mut base = RuleBase::new(alloc)?;
    for number in 0..count {
        base.keep_rule(alloc, rule(alloc, &parts, number)?)?;
    }
    Ok(base)
}

// How many nodes the relations of all rules have.
fn read(base: &RuleBase) -> usize {
    let mut nodes: usize = 0;
    for i in 0..base.rule_count() {
        nodes = nodes.wrapping_add(base.rule_at(i).rel.len());
    }
    nodes
}

// How many rules a constant has, asked so often.
fn looked_up(base: &RuleBase, constant: &Name, times: usize) -> usize {
    let mut found: usize = 0;
    for _ in 0..times {
        found = found.wrapping_add(base.candidates(constant).len());
    }
    found
}

// So many rules registered and read, and so many look-ups of the constant in their middle.
fn counts(alloc: Global, count: usize, times: usize) -> Result<(usize, usize), Memory> {
    let base = registered(alloc, count)?;
    let constant = numbered(alloc, count / 2)?;
    Ok((read(&base), looked_up(&base, &constant, times)))
}

fn measure<R: Print + Alloc<A = Global>>(rt: &R, count: usize, times: usize) -> io::Result<()> {
    let (nodes, found) = counts(rt.alloc(), count, times).map_err(|_| AllocError)?;
    println!(rt; "rules: {nodes} nodes of {count} rules, {found} found by {times} look-ups")
}

/// Eight rules.
pub fn small<R: Print + Alloc<A = Global>>(rt: &R) -> io::Result<()> {
    measure(rt, 8, 4)
}

/// As many rules and look-ups as the words say.
pub fn run<R: Print + Alloc<A = Global>>(rt: &R, words: &[String]) -> io::Result<()> {
    measure(rt, number(words, 0, 1_000), number(words, 1, 1_000))
}

// The number in a place among the words, if there is one.
fn number(words: &[String], place: usize, otherwise: usize) -> usize {
    match words.get(place) {
        Some(word) => word.as_str().parse::<usize>().unwrap_or(otherwise),
        None => otherwise,
    }
}
