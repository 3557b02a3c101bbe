//! What is shown of a level's nodes: leaves, marks, or the nodes themselves.

ghost use Rattle.std.specs.Prelude.{◌≡◌};
ghost use Rattle.sip_field.specs.Elements.{m61_number};
ghost use Rattle.sip_field.specs.Moduli.{m61_modulus};
ghost use Rattle.sip_wire.specs.declared.message.Node.{Node as AnyNode};
ghost use Rattle.sip_heavy.specs.Honest.{leaf_of, mark_of, node_of};

use sip_field::{Field, M61};
use sip_heavy::HeavyNode;
use sip_wire::{Leaf, Mark, Node};

/// A row that a node is shown as.
pub(crate) trait ShownRow: Copy + Default + Drop {
    /// The row of a node.
    ghost row_of: { AnyNode → Self };

    fn of_node(node: &HeavyNode<M61>) -> Self
        ensures { result ≡ row_of (node_of m61_number node.now) };
}

impl ShownRow for Leaf {
    ghost row_of = { leaf_of };

    fn of_node(node: &HeavyNode<M61>) -> Leaf {
        Leaf {
            item: node.index,
            count: node.count,
        }
    }
}

impl ShownRow for Mark {
    ghost row_of = { mark_of m61_modulus };

    fn of_node(node: &HeavyNode<M61>) -> Mark {
        node.mark()
    }
}

impl ShownRow for Node {
    ghost row_of = { λ node. node };

    fn of_node(node: &HeavyNode<M61>) -> Node {
        Node {
            index: node.index,
            hash: node.hash.number(),
            count: node.count,
        }
    }
}
