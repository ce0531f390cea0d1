//! The typing of terms in a store, task by task.
ghost use Rattle.std.specs.Prelude.{◌≡◌, ℕ, [], ◌∷◌, reverse, OnOk};
ghost use Rattle.lt_store.specs.declared.type_work.TypeTask.TheVariants.{Visit, Apply, Leave};
ghost use Rattle.lt_store.specs.TypeTasks.{IsGoing, Turns};

use crate::last::take_last;
use crate::memo::{Memo, keep, kept, look};
use crate::node::{Id, View};
use crate::term_store::TermStore;
use crate::type_numbers::{applied, binder_number, checked, constant_number, enter};
use lt_hol::{Memory, Signature, TypeFault, TypeTable};
use std::alloc::Global;

/// What is still to be done. A context is the number of the one type that tells the types of the binders around a term.
#[derive(Clone, Copy, Debug)]
pub enum TypeTask {
    /// An id is to be typed in a context.
    Visit(Id, usize),
    /// So is an application in a context, where the function and the argument were typed.
    Apply(Id, usize, Id, Id),
    /// So is an abstraction in a context, where the body was typed in its own context.
    Leave(Id, usize, Id, usize),
}

/// The state of a typing: the table of the types, the numbers of the types of the binders that were entered,
/// the numbers of the types that were found, by id and context, and the tasks, of which the last one comes first.
#[derive(Drop)]
pub struct TypeWork {
    pub types: TypeTable,
    pub binders: Vec<usize>,
    pub found: Memo,
    pub tasks: Vec<TypeTask>,
}

/// Adds the tasks of an application: its function, its argument, and then itself.
fn push_application(
    tasks: &mut Vec<TypeTask>,
    id: Id,
    context: usize,
    f: Id,
    a: Id,
) -> Result<(), Memory>
    ensures { OnOk result (reverse tasks.new.items ≡ Visit f context ∷ Visit a context ∷ Apply id context f a ∷ reverse tasks.old.items) }
{
    tasks.push(TypeTask::Apply(id, context, f, a))?;
    tasks.push(TypeTask::Visit(a, context))?;
    tasks.push(TypeTask::Visit(f, context))?;
    Ok(())
}

/// Adds the tasks of an abstraction: its body, and then itself.
fn push_abstraction(
    tasks: &mut Vec<TypeTask>,
    id: Id,
    context: usize,
    body: Id,
    inner: usize,
) -> Result<(), Memory>
    ensures { OnOk result (reverse tasks.new.items ≡ Visit body inner ∷ Leave id context body inner ∷ reverse tasks.old.items) }
{
    tasks.push(TypeTask::Leave(id, context, body, inner))?;
    tasks.push(TypeTask::Visit(body, inner))?;
    Ok(())
}

impl TypeWork {
    /// Types an id in a context, or adds the tasks for its parts.
    fn visit<S: TermStore>(
        &mut self,
        alloc: Global,
        store: &S,
        sig: &Signature,
        id: Id,
        context: usize,
    ) -> Result<(), TypeFault>
        requires { (root : ℕ) × (base : ℕ) × IsGoing sig.now (S.nodes store.now) root base (Visit id context ∷ []) self.old }
        ensures { (root base : ℕ) → IsGoing sig.now (S.nodes store.now) root base (Visit id context ∷ []) self.old
            → Turns sig.now (S.nodes store.now) root base (Visit id context) self.old self.new result }
    {
        if look(&self.found, id, context).is_some() {
            return Ok(());
        }
        match store.view(id) {
            View::App(f, a) => {
                push_application(&mut self.tasks, id, context, f, a)?;
                Ok(())
            }
            View::Lam(ty, body) => {
                match enter(alloc, sig, &mut self.types, &mut self.binders, context, ty) {
                    Ok(inner) => {
                        push_abstraction(&mut self.tasks, id, context, body, inner)?;
                        Ok(())
                    }
                    Err(fault) => Err(fault),
                }
            }
            View::Free(_, ty) => match checked(alloc, sig, &mut self.types, ty) {
                Ok(number) => {
                    keep(&mut self.found, id, context, number)?;
                    Ok(())
                }
                Err(fault) => Err(fault),
            },
            View::Const(name, args) => {
                match constant_number(alloc, sig, &mut self.types, name, args) {
                    Ok(number) => {
                        keep(&mut self.found, id, context, number)?;
                        Ok(())
                    }
                    Err(fault) => Err(fault),
                }
            }
            View::Bound(index) => {
                let number = binder_number(&self.binders, index);
                keep(&mut self.found, id, context, number)?;
                Ok(())
            }
        }
    }

    /// Types an application whose function and argument were typed.
    fn apply<S: TermStore>(
        &mut self,
        alloc: Global,
        _store: &S,
        _sig: &Signature,
        id: Id,
        context: usize,
        f: Id,
        a: Id,
    ) -> Result<(), TypeFault>
        requires { (root : ℕ) × (base : ℕ) × IsGoing _sig.now (S.nodes _store.now) root base (Apply id context f a ∷ []) self.old }
        ensures { (root base : ℕ) → IsGoing _sig.now (S.nodes _store.now) root base (Apply id context f a ∷ []) self.old
            → Turns _sig.now (S.nodes _store.now) root base (Apply id context f a) self.old self.new result }
    {
        let function = kept(&self.found, f, context);
        let argument = kept(&self.found, a, context);
        match applied(alloc, &self.types, function, argument) {
            Ok(number) => {
                keep(&mut self.found, id, context, number)?;
                Ok(())
            }
            Err(fault) => Err(fault),
        }
    }

    /// Leaves a binder, and types its abstraction, whose body was typed.
    fn leave<S: TermStore>(
        &mut self,
        alloc: Global,
        _store: &S,
        _sig: &Signature,
        id: Id,
        context: usize,
        body: Id,
        inner: usize,
    ) -> Result<(), TypeFault>
        requires { (root : ℕ) × (base : ℕ) × IsGoing _sig.now (S.nodes _store.now) root base (Leave id context body inner ∷ []) self.old }
        ensures { (root base : ℕ) → IsGoing _sig.now (S.nodes _store.now) root base (Leave id context body inner ∷ []) self.old
            → Turns _sig.now (S.nodes _store.now) root base (Leave id context body inner) self.old self.new result }
    {
        let of_body = kept(&self.found, body, inner);
        let of_binder = take_last(&mut self.binders);
        let number = self.types.fun(alloc, of_binder, of_body)?;
        keep(&mut self.found, id, context, number)?;
        Ok(())
    }

    /// Does one task.
    pub(crate) fn turn<S: TermStore>(
        &mut self,
        alloc: Global,
        store: &S,
        sig: &Signature,
        task: TypeTask,
    ) -> Result<(), TypeFault>
        requires { (root : ℕ) × (base : ℕ) × IsGoing sig.now (S.nodes store.now) root base (task ∷ []) self.old }
        ensures { (root base : ℕ) → IsGoing sig.now (S.nodes store.now) root base (task ∷ []) self.old
            → Turns sig.now (S.nodes store.now) root base task self.old self.new result }
    {
        match task {
            TypeTask::Visit(id, context) => self.visit(alloc, store, sig, id, context),
            TypeTask::Apply(id, context, f, a) => self.apply(alloc, store, sig, id, context, f, a),
            TypeTask::Leave(id, context, body, inner) => {
                self.leave(alloc, store, sig, id, context, body, inner)
            }
        }
    }
}
