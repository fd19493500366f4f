// Trees that initialize nothing.
ghost use Rattle.std.specs.Prelude.{IsTrue};
ghost use Rattle.std.specs.List.{All};
ghost use Rattle.c_typed.specs.Lawful.{IsPlain, IsPlainTree};
ghost use Rattle.lawful_trees.specs.Views.{head_at, node_seen, sites_of};

use c_typed::{Node, Typed};

fn is_plain(node: &Node) -> bool
    ensures { IsTrue result → IsPlain (head_at node.now) }
{
    match node {
        Node::Assign { initializing, .. } => !*initializing,
        Node::List { .. } | Node::Isolated(_) => false,
        _ => true,
    }
}

/// Whether no node of the tree initializes.
#[cycle(plain)]
pub fn is_plain_tree(tree: &Typed) -> bool
    ensures { IsTrue result → IsPlainTree tree.now }
{
    if !is_plain(&tree.node) {
        return false;
    }
    holds_none(&tree.node) && are_plain(tree.children.as_slice())
}

// Whether a node holds no tree of its own.
fn holds_none(node: &Node) -> bool
    ensures { IsTrue result → All (λ s. IsPlain s.head) (node_seen node.now).inner }
{
    !matches!(node, Node::Isolated(_))
}

#[cycle(plain)]
fn are_plain(trees: &[Typed]) -> bool
    ensures { IsTrue result → All (λ s. IsPlain s.head) (sites_of trees.now) }
{
    for tree in trees {
        if !is_plain_tree(tree) {
            return false;
        }
    }
    true
}
