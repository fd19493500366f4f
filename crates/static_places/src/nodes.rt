// The nodes of a tree in preorder.
ghost use Rattle.std.specs.Prelude.{◌≡◌, ◌+◌, ◌++◌, length, IfOk, OnOk};
ghost use Rattle.c_typed.specs.Tree.{tree_of, size};
ghost use Rattle.static_places.specs.Preorder.{nodes_of, trees_at};

use c_typed::Typed;
use std::alloc::Global;
use ub_base::NoMemory;

/// The nodes of a tree in preorder: the node of number n at place n.
pub fn nodes_of<'p>(alloc: Global, root: &'p Typed) -> Result<Vec<&'p Typed>, NoMemory>
    ensures nodes { IfOk result (λ nodes. trees_at nodes.items ≡ nodes_of root.now) }
    ensures count { IfOk result (λ nodes. length nodes.items ≡ size (tree_of root.now)) }
{
    let mut nodes = Vec::new(alloc);
    add_nodes(root, &mut nodes)?;
    Ok(nodes)
}

fn add_nodes<'p>(tree: &'p Typed, nodes: &mut Vec<&'p Typed>) -> Result<(), NoMemory>
    ensures nodes { OnOk result (trees_at nodes.new.items ≡ trees_at nodes.old.items ++ nodes_of tree.now) }
    ensures count { OnOk result (length nodes.new.items ≡ length nodes.old.items + size (tree_of tree.now)) }
{
    nodes.push(tree)?;
    for operand in tree.children.as_slice() {
        add_nodes(operand, nodes)?;
    }
    Ok(())
}
