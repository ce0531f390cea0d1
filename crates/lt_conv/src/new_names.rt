//! The names of a term's free variables, and new ones.
ghost use Rattle.std.specs.Prelude.{◌≡◌, ◌<◌, length, false, OnOk, IfOk};
ghost use Rattle.lt_definitions.specs.Types.{names_joined, TypeTree};
ghost use Rattle.lt_nameless.specs.NamelessRules.{nameless_has_free};
ghost use Rattle.lt_store.specs.Trees.{tree_at};
ghost use Rattle.lt_store.specs.Views.{node_of};
ghost use Rattle.lt_derived.specs.NodeTypes.{child_ids};
ghost use Rattle.lt_conv.specs.Everywhere.{v_name, new_name};
ghost use Rattle.lt_conv.specs.Walks.{with_ids, own_names, AreNamesOf, IsFirstNew};

use indexmap::IndexSet;
use lt_hol::{Memory, Name, TryCopy};
use lt_store::{Id, TermStore, View};
use std::alloc::Global;

/// Adds the children of a node, where they aren't there yet.
fn add_children(ids: &mut IndexSet<Id>, view: View<'_>) -> Result<(), Memory>
    ensures { OnOk result (ids.new.keys
        ≡ with_ids ids.old.keys (child_ids (node_of view.entry))) }
{
    match view {
        View::App(f, a) => {
            ids.insert(f)?;
            ids.insert(a)?;
        }
        View::Lam(_, body) => {
            ids.insert(body)?;
        }
        View::Free(_, _) | View::Bound(_) | View::Const(_, _) => {}
    }
    Ok(())
}

/// Adds the name of a free variable, where it isn't there yet.
fn add_name(alloc: Global, names: &mut IndexSet<Name>, view: View<'_>) -> Result<(), Memory>
    ensures { OnOk result (names.new.keys
        ≡ names_joined names.old.keys (own_names (node_of view.entry))) }
{
    if let View::Free(name, _) = view {
        names.insert(name.copy(alloc)?)?;
    }
    Ok(())
}

/// The names of a term's free variables. It looks at each node once.
fn free_names<S: TermStore>(alloc: Global, store: &S, t: Id) -> Result<IndexSet<Name>, Memory>
    requires { t < length (S.nodes store.now) }
    ensures { IfOk result (λ names. AreNamesOf (tree_at (S.nodes store.now) t) names.keys) }
{
    let mut ids: IndexSet<Id> = IndexSet::new(alloc);
    ids.insert(t)?;
    let mut names: IndexSet<Name> = IndexSet::new(alloc);
    let mut at: usize = 0;
    while at < ids.len() {
        let view = store.view(ids[at]);
        add_name(alloc, &mut names, view)?;
        add_children(&mut ids, view)?;
        at += 1;
    }
    Ok(names)
}

/// The name v and a number.
fn v_name(alloc: Global, number: usize) -> Result<Name, Memory>
    ensures { IfOk result (λ x. x ≡ v_name number) }
{
    let text = format!(in alloc; "v{number}")?;
    let name = Name::word(alloc, text.as_str())?;
    Ok(name)
}

/// vN with the least N such that the name is none of these.
fn first_new(alloc: Global, names: &IndexSet<Name>) -> Result<Name, Memory>
    ensures { IfOk result (IsFirstNew names.now.keys) }
{
    let _end = names.len();
    let mut number: usize = 0;
    loop {
        let name = v_name(alloc, number)?;
        if !names.contains(&name) {
            return Ok(name);
        }
        number += 1;
    }
}

/// vN with the least N such that no free variable of the term has the name.
pub(crate) fn least_new_name<S: TermStore>(alloc: Global, store: &S, t: Id) -> Result<Name, Memory>
    requires { t < length (S.nodes store.now) }
    ensures least { IfOk result (λ x. x ≡ new_name (tree_at (S.nodes store.now) t)) }
    ensures new { IfOk result (λ x. (ty : TypeTree)
        → nameless_has_free x ty (tree_at (S.nodes store.now) t) ≡ false) }
{
    let names = free_names(alloc, store, t)?;
    let name = first_new(alloc, &names)?;
    Ok(name)
}
