//! Whether the constructors of a type are declared, with as many arguments as they have.
ghost use Rattle.std.specs.Prelude.{◌≡◌, is_some, true};
ghost use Rattle.lt_definitions.specs.Typing.{type_fault};
ghost use Rattle.lt_hol.specs.Faults.{Checks, Finds};
ghost use Rattle.lt_hol.specs.TypeNodes.{node_fault};

use crate::signature::Signature;
use crate::type_fault::TypeFault;
use lt_types::{TryCopy, Ty, TyNode};
use std::alloc::Global;

impl Signature {
    /// Whether a node's constructor isn't declared, or with another number of arguments.
    fn is_wrong(&self, node: &TyNode) -> bool
        ensures { result ≡ is_some (node_fault self.now node.now) }
    {
        match node {
            TyNode::Var(_) => false,
            TyNode::Con(name, places) => match self.arity(name) {
                None => true,
                Some(arity) => arity != places.len(),
            },
        }
    }

    /// What is wrong with a node.
    fn node_fault(&self, alloc: Global, node: &TyNode) -> TypeFault
        requires { is_some (node_fault self.now node.now) ≡ true }
        ensures { Finds (node_fault self.now node.now) result }
    {
        let TyNode::Con(name, _) = node else {
            unreachable!();
        };
        let Ok(copy) = name.copy(alloc) else {
            return TypeFault::Memory;
        };
        match self.arity(name) {
            None => TypeFault::UnknownType(copy),
            Some(_) => TypeFault::Arity(copy),
        }
    }

    /// `UnknownType` or `Arity` for the first wrong constructor from the left, a constructor before
    /// its arguments.
    ///
    /// The nodes are read from the last to the first, so a node to the left comes later and takes
    /// precedence.
    /// Below a wrong constructor nothing is tested.
    pub fn check_type(&self, alloc: Global, ty: &Ty) -> Result<(), TypeFault>
        ensures { Checks (type_fault self.now ty.now) result }
    {
        let nodes = ty.nodes();
        let mut wrong: Option<&TyNode> = None;
        let mut skipped = 0;
        for at in (0..nodes.len()).rev() {
            let node = &nodes[at];
            if skipped > 0 {
                skipped = skipped - 1 + node.arguments();
            } else if self.is_wrong(node) {
                wrong = Some(node);
                skipped = node.arguments();
            }
        }
        match wrong {
            None => Ok(()),
            Some(node) => Err(self.node_fault(alloc, node)),
        }
    }
}
