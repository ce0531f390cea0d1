//! Numbers of declared types with types put for their variables.
ghost use Rattle.std.specs.Prelude.{◌≡◌, ◌<◌, [], ◌∷◌, length, true, slice_get, Some, IfOk};
ghost use Rattle.std.specs.Option.{ForSome};
ghost use Rattle.std.specs.List.{zip};
ghost use Rattle.lt_definitions.specs.Types.{type_instance};
ghost use Rattle.lt_definitions.specs.Typing.{at_types};
ghost use Rattle.lt_types.specs.Layout.{HasRoom};
ghost use Rattle.lt_hol.specs.TypeTables.{types_at, all_below, Extends, ExtendsBy};
ghost use Rattle.lt_hol.specs.Instances.{IsInstance, argument_of, grown_by};

use crate::type_table::TypeTable;
use crate::type_variables::type_variables;
use indexmap::IndexSet;
use lt_types::{Memory, Name, Ty, TyNode};
use std::alloc::Global;

impl TypeTable {
    /// The number of a declared type with types put for its variables, in order of first
    /// appearance.
    /// None where they are not as many as its variables.
    ///
    /// It takes time linear in the declared type and the list, where a look-up counts as one.
    pub fn instance(
        &mut self,
        alloc: Global,
        declared: &Ty,
        args: &[usize],
    ) -> Result<Option<usize>, Memory>
        requires { all_below (length self.old) args.now ≡ true }
        ensures ok { IfOk result
            (λ id. IsInstance self.new declared.now (types_at self.old args.now) id) }
        ensures grows { Extends self.old self.new }
        ensures added { IfOk result (λ _. ExtendsBy (at_types declared.now
            (types_at self.old args.now) ∷ []) self.old self.new) }
    {
        let variables = type_variables(alloc, declared)?;
        if variables.len() != args.len() {
            return Ok(None);
        }
        if variables.is_empty() {
            return Ok(Some(self.intern(alloc, declared)?));
        }
        Ok(Some(self.put_instance(alloc, declared, &variables, args)?))
    }

    /// The number of a type with types put for variables.
    fn put_instance(
        &mut self,
        alloc: Global,
        declared: &Ty,
        variables: &IndexSet<Name>,
        args: &[usize],
    ) -> Result<usize, Memory>
        requires below { all_below (length self.old) args.now ≡ true }
        requires count { length variables.now.keys ≡ length args.now }
        ensures ok { IfOk result (λ id. slice_get self.new id
            ≡ Some (type_instance (zip variables.now.keys
            (types_at self.old args.now)) declared.now)) }
        ensures grows { Extends self.old self.new }
        ensures added { IfOk result (λ _. ExtendsBy (type_instance (zip variables.now.keys
            (types_at self.old args.now)) declared.now ∷ []) self.old self.new) }
    {
        let mut numbers = Vec::new(alloc);
        for node in declared.nodes() {
            let argument = argument_of(variables, args, node);
            numbers = self.put_part(alloc, numbers, node, argument)?;
        }
        Ok(numbers[0])
    }

    /// Puts down a number, or else that of what a node makes.
    fn put_part(
        &mut self,
        alloc: Global,
        numbers: Vec<usize>,
        node: &TyNode,
        argument: Option<usize>,
    ) -> Result<Vec<usize>, Memory>
        requires below { all_below (length self.old) numbers.items ≡ true }
        requires room { HasRoom (types_at self.old numbers.items) node.now }
        requires argument { ForSome argument (λ id. id < length self.old) }
        ensures types { IfOk result (λ v. types_at self.new v.items
            ≡ grown_by self.old (types_at self.old numbers.items) node.now argument) }
        ensures below { IfOk result (λ v. all_below (length self.new) v.items ≡ true) }
        ensures grows { Extends self.old self.new }
        ensures added { IfOk result (λ v. ExtendsBy (types_at self.new v.items) self.old self.new) }
    {
        match argument {
            Some(id) => {
                let mut numbers = numbers;
                numbers.push(id)?;
                Ok(numbers)
            }
            None => Ok(self.put(alloc, numbers, node)?),
        }
    }
}

/// The number that is put for a node, if it is a variable that has one.
fn argument_of(variables: &IndexSet<Name>, args: &[usize], node: &TyNode) -> Option<usize>
    requires { length variables.now.keys ≡ length args.now }
    ensures { result ≡ argument_of variables.now.keys args.now node.now }
{
    match node {
        TyNode::Var(name) => match variables.get_index_of(name) {
            Some(i) => Some(args[i]),
            None => None,
        },
        TyNode::Con(_, _) => None,
    }
}
