//! Types by number.
ghost use Rattle.std.specs.Prelude.{◌≡◌, ◌<◌, ◌↔◌, [], ◌∷◌, ◌++◌, List as ListOf, length, true, slice_get, Some, IsTrue, IfOk, IfSome};
ghost use Rattle.std.specs.Option.{option_map};
ghost use Rattle.lt_definitions.specs.Types.{fun};
ghost use Rattle.lt_types.specs.Layout.{HasRoom, grow};
ghost use Rattle.lt_definitions.specs.Types.{TypeTree};
ghost use Rattle.lt_hol.specs.TypeTables.{type_at, types_at, made_of, all_below, is_below, AreRecent, Extends, ExtendsBy, IsApart, function_parts, node_parts, both};

use crate::recent_types::RecentType;
use indexmap::IndexSet;
use lt_types::{List, Memory, Name, TryCopy, Ty, TyNode};
use std::alloc::Global;
use std::marker::Model;

/// How many types are looked for among those whose numbers are kept.
const MOST_RECENT: usize = 8;

/// Distinct types, which contracts see as a list. A type's number is its place in the list.
///
/// Two types of one table are equal exactly where their numbers are.
/// A call that wants memory may leave types behind that it made on the way; those that were there
/// stay. The numbers of the first few types that were looked for are kept, so that a term in which
/// one type stands many times doesn't make it anew each time.
#[derive(Debug, Drop)]
pub struct TypeTable {
    nodes: IndexSet<TyNode>,
    fun: Name,
    recent: Vec<RecentType>,
}

impl Model for TypeTable {
    ghost use Rattle.std.specs.Prelude.{List as ListOf, []};
    ghost use Rattle.std.specs.Coded.{coded_list};
    ghost use Rattle.lt_definitions.specs.Types.{TypeTree};
    ghost use Rattle.lt_types.specs.Codes.{coded_type};

    ghost Value = { ListOf TypeTree };

    ghost coded = { coded_list coded_type };

    ghost use Rattle.lt_hol.specs.TypeTables.{types_after, IsTable};

    ghost view = { λ t. types_after [] t.nodes.keys };

    ghost invariant = { λ t. IsTable t.nodes.keys t.fun t.recent.items };
}

impl TypeTable {
    /// No types.
    pub fn new(alloc: Global) -> Result<TypeTable, Memory>
        ensures { IfOk result (λ t. t ≡ []) }
    {
        let recent = Vec::new(alloc);
        Ok(TypeTable {
            nodes: IndexSet::new(alloc),
            fun: Name::word(alloc, "fun")?,
            recent,
        })
    }

    /// How many types there are. No type has two numbers.
    pub fn len(&self) -> usize
        ensures len { result ≡ length self.now }
        ensures apart { IsApart self.now }
    {
        self.nodes.len()
    }

    /// The node of a number. Its arguments are lower numbers.
    pub fn node(&self, id: usize) -> &TyNode
        requires { id < length self.now }
        ensures made { type_at self.now id ≡ made_of self.now result.now }
        ensures below { is_below id result.now ≡ true }
    {
        &self.nodes[id]
    }

    /// The number of the type that a node makes, whose arguments are numbers of the table.
    pub(crate) fn add(&mut self, node: TyNode) -> Result<usize, Memory>
        requires { is_below (length self.old) node ≡ true }
        ensures ok { IfOk result (λ id. slice_get self.new id ≡ Some (made_of self.old node)) }
        ensures grows { Extends self.old self.new }
        ensures added { IfOk result
            (λ _. ExtendsBy (made_of self.old node ∷ []) self.old self.new) }
    {
        let (id, _) = self.nodes.insert_full(node)?;
        Ok(id)
    }

    /// Whether two numbers are those of one type.
    pub fn same(&self, a: usize, b: usize) -> bool
        requires a { a < length self.now }
        requires b { b < length self.now }
        ensures types { IsTrue result ↔ (type_at self.now a ≡ type_at self.now b) }
        ensures numbers { IsTrue result ↔ (a ≡ b) }
    {
        let _ = &self.nodes;
        a == b
    }

    /// The number of the type of functions from one type to another.
    pub fn fun(&mut self, alloc: Global, from: usize, to: usize) -> Result<usize, Memory>
        requires from { from < length self.old }
        requires to { to < length self.old }
        ensures ok { IfOk result (λ id. slice_get self.new id
            ≡ Some (fun (type_at self.old from) (type_at self.old to))) }
        ensures grows { Extends self.old self.new }
        ensures added { IfOk result (λ _. ExtendsBy (fun (type_at self.old from)
            (type_at self.old to) ∷ []) self.old self.new) }
    {
        let name = self.fun.copy(alloc)?;
        let args = List::from_vec(vec![in alloc; from, to]?);
        self.add(TyNode::Con(name, args))
    }

    /// The numbers of argument and result, where the type is one of functions.
    pub fn as_fun(&self, id: usize) -> Option<(usize, usize)>
        requires { id < length self.now }
        ensures parts { option_map (λ p. (type_at self.now p.0, type_at self.now p.1)) result
            ≡ function_parts (type_at self.now id) }
        ensures within { IfSome result (λ p. (p.0 < length self.now) × (p.1 < length self.now)) }
    {
        node_parts(&self.fun, &self.nodes[id])
    }

    /// Puts the number of what a node makes of the last types in the place of their numbers.
    pub(crate) fn put(
        &mut self,
        alloc: Global,
        numbers: Vec<usize>,
        node: &TyNode,
    ) -> Result<Vec<usize>, Memory>
        requires below { all_below (length self.old) numbers.items ≡ true }
        requires room { HasRoom (types_at self.old numbers.items) node.now }
        ensures types { IfOk result (λ v. types_at self.new v.items
            ≡ grow (types_at self.old numbers.items) node.now) }
        ensures below { IfOk result (λ v. all_below (length self.new) v.items ≡ true) }
        ensures grows { Extends self.old self.new }
        ensures added { IfOk result (λ v. ExtendsBy (types_at self.new v.items) self.old self.new) }
    {
        let mut numbers = numbers;
        match node {
            TyNode::Var(name) => {
                let id = self.add(TyNode::Var(name.copy(alloc)?))?;
                numbers.push(id)?;
                Ok(numbers)
            }
            TyNode::Con(name, places) => {
                let args = numbers.split_off(numbers.len() - places.len())?;
                let id = self.add(TyNode::Con(name.copy(alloc)?, List::from_vec(args)))?;
                numbers.push(id)?;
                Ok(numbers)
            }
        }
    }

    /// The number of a type. It takes time linear in the type.
    pub fn intern(&mut self, alloc: Global, ty: &Ty) -> Result<usize, Memory>
        ensures ok { IfOk result (λ id. slice_get self.new id ≡ Some ty.now) }
        ensures grows { Extends self.old self.new }
        ensures added { IfOk result (λ _. ExtendsBy (ty.now ∷ []) self.old self.new) }
    {
        match self.recent_number(ty) {
            Some(id) => Ok(id),
            None => Ok(self.intern_new(alloc, ty)?),
        }
    }

    /// The number of a type, if it is among those that are kept.
    fn recent_number(&self, ty: &Ty) -> Option<usize>
        ensures { IfSome result (λ id. slice_get self.now id ≡ Some ty.now) }
    {
        let _ = &self.nodes;
        find_recent(self.recent.as_slice(), ty)
    }

    /// The number of a type, which is kept if there is room.
    fn intern_new(&mut self, alloc: Global, ty: &Ty) -> Result<usize, Memory>
        ensures ok { IfOk result (λ id. slice_get self.new id ≡ Some ty.now) }
        ensures grows { Extends self.old self.new }
        ensures added { IfOk result (λ _. ExtendsBy (ty.now ∷ []) self.old self.new) }
    {
        let id = self.intern_nodes(alloc, ty)?;
        self.keep(alloc, ty, id)?;
        Ok(id)
    }

    /// Keeps the number of a type, if there is room.
    fn keep(&mut self, alloc: Global, ty: &Ty, id: usize) -> Result<(), Memory>
        requires { slice_get self.old id ≡ Some ty.now }
        ensures { self.new ≡ self.old }
    {
        if self.recent.len() >= MOST_RECENT {
            return Ok(());
        }
        let ty = ty.copy(alloc)?;
        self.recent.push(RecentType { ty, id })?;
        Ok(())
    }

    /// The number of a type, node by node.
    fn intern_nodes(&mut self, alloc: Global, ty: &Ty) -> Result<usize, Memory>
        ensures ok { IfOk result (λ id. slice_get self.new id ≡ Some ty.now) }
        ensures grows { Extends self.old self.new }
        ensures added { IfOk result (λ _. ExtendsBy (ty.now ∷ []) self.old self.new) }
    {
        let mut numbers = Vec::new(alloc);
        for node in ty.nodes() {
            numbers = self.put(alloc, numbers, node)?;
        }
        Ok(numbers[0])
    }
}

/// The number that is kept beside a type.
fn find_recent(recent: &[RecentType], ty: &Ty) -> Option<usize>
    ensures { (types : ListOf TypeTree) → AreRecent types recent.now
        → IfSome result (λ id. slice_get types id ≡ Some ty.now) }
{
    for one in recent {
        if one.ty == *ty {
            return Some(one.id);
        }
    }
    None
}

/// The arguments of a node that makes a type of functions, whose name is given.
fn node_parts(fun: &Name, node: &TyNode) -> Option<(usize, usize)>
    ensures { result ≡ node_parts fun.now node.now }
{
    match node {
        TyNode::Var(_) => None,
        TyNode::Con(name, args) => {
            if *name == *fun {
                both(args.as_slice())
            } else {
                None
            }
        }
    }
}

/// The two numbers of a list, if it has two.
fn both(args: &[usize]) -> Option<(usize, usize)>
    ensures { result ≡ both args.now }
{
    match args {
        [from, to] => Some((*from, *to)),
        _ => None,
    }
}
