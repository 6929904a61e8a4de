ghost use Rattle.std.specs.Prelude.{◌≡◌, ◌↔◌, ◌<◌, [], ◌∷◌, ◌++◌, length, IsSome, IfSome, OnSome};
ghost use Rattle.formula.specs.declared.nodes.TheConstants.{MOST_NODES};

use crate::node::Node;
use crate::nodes::{MOST_NODES, Nodes};
use base::BoundedVec;

// A copy of a table's nodes that a formula is written into; none once a node found no room.
#[derive(Clone, Copy)]
pub(crate) struct Draft {
    pub(crate) nodes: Option<BoundedVec<Node, MOST_NODES>>,
}

// Writes a node past others and says its number, if there is room.
fn add(nodes: &mut BoundedVec<Node, MOST_NODES>, node: Node) -> Option<usize>
    ensures variant { IsSome result ↔ (length nodes.old < MOST_NODES) }
    ensures after { OnSome result (nodes.new ≡ nodes.old ++ node ∷ []) }
    ensures number { IfSome result (λ number. number ≡ length nodes.old) }
{
    let number = nodes.as_slice().len();
    nodes.push(node)?;
    Some(number)
}

impl Draft {
    ghost use Rattle.std.specs.Prelude.{◌≡◌, Some};
    ghost use Rattle.formula.specs.Laying.{drafted, push, top};
    ghost use Rattle.formula.specs.Nodes.{shapes};
    ghost use Rattle.formula.specs.Shapes.{shape};

    // Over the nodes so far.
    pub(crate) fn from_nodes(nodes: &Nodes) -> Draft
        ensures { drafted result ≡ Some (shapes nodes.now) }
    {
        Draft {
            nodes: Some(nodes.nodes),
        }
    }

    // Writes a node and says its number, which is 0 where it found no room. No `Option` for the
    // number, since the reading goes on without room: a text that is no formula is refused for that
    // first.
    pub(crate) fn put(&mut self, node: Node) -> usize
        ensures after { drafted self.new ≡ push (drafted self.old) (shape node) }
        ensures number { result ≡ top (drafted self.new) }
    {
        let Some(nodes) = &mut self.nodes else {
            return 0;
        };
        match add(nodes, node) {
            Some(number) => number,
            None => {
                self.nodes = None;
                0
            }
        }
    }
}
