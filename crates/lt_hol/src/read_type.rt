//! Types read back from their numbers.
ghost use Rattle.std.specs.Prelude.{◌≡◌, ◌∷◌, ◌++◌, ◌<◌, length, reverse, IfOk};
ghost use Rattle.lt_hol.specs.declared.read_type.Making.TheVariants.{Root as RootOf};
ghost use Rattle.lt_hol.specs.Makings.{numbers_of, wholes};
ghost use Rattle.lt_hol.specs.TypeTables.{type_at};

use crate::type_table::TypeTable;
use lt_types::{Memory, Ty, TyBuilder, TyNode};
use std::alloc::Global;

/// What is to be done next: a type is to be made, or its last node, when its arguments are made.
#[derive(Clone, Copy, Debug)]
pub(crate) enum Making {
    Whole(usize),
    Root(usize),
}

impl TypeTable {
    /// The type of a number. It takes time linear in the type.
    pub fn ty(&self, alloc: Global, id: usize) -> Result<Ty, Memory>
        requires { id < length self.now }
        ensures { IfOk result (λ t. t ≡ type_at self.now id) }
    {
        let mut builder = TyBuilder::new(alloc);
        let mut tasks = Vec::new(alloc);
        tasks.push(Making::Whole(id))?;
        while let Some(task) = tasks.pop() {
            match task {
                Making::Whole(id) => tasks = put_tasks(tasks, id, self.node(id))?,
                Making::Root(id) => builder = builder.node(alloc, self.node(id))?,
            }
        }
        builder.finish(alloc)
    }
}

/// Puts down that the arguments of a number's node are to be made, the first one next, and then the
/// node.
fn put_tasks(tasks: Vec<Making>, id: usize, node: &TyNode) -> Result<Vec<Making>, Memory>
    ensures { IfOk result (λ v. reverse v.items
        ≡ wholes (numbers_of node.now) ++ RootOf id ∷ reverse tasks.items) }
{
    let mut tasks = tasks;
    tasks.push(Making::Root(id))?;
    match node {
        TyNode::Var(_) => Ok(tasks),
        TyNode::Con(_, args) => put_wholes(tasks, args.as_slice()),
    }
}

/// Puts down that types are to be made, the first one next.
fn put_wholes(tasks: Vec<Making>, ids: &[usize]) -> Result<Vec<Making>, Memory>
    ensures { IfOk result (λ v. reverse v.items ≡ wholes ids.now ++ reverse tasks.items) }
{
    let mut tasks = tasks;
    for i in (0..ids.len()).rev() {
        tasks.push(Making::Whole(ids[i]))?;
    }
    Ok(tasks)
}
