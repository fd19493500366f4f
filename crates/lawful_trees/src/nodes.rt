// A node with its operands, and all nodes of a tree.
ghost use Rattle.std.specs.Prelude.{◌≡◌, ◌-◌, ◌^◌, IsTrue, length, min};
ghost use Rattle.std.specs.List.{All};
ghost use Rattle.c_types.specs.Types.{type_of};
ghost use Rattle.c_typed.specs.Lawful.{CountIs, TypesAre, SiteIsLawful};
ghost use Rattle.c_typed.specs.Sites.{no_block, sites};
ghost use Rattle.lawful_trees.specs.Places.{blocks_of};
ghost use Rattle.lawful_trees.specs.Views.{head_at, node_seen, types_of, sites_of};

use crate::Around;
use crate::lists::{call_types, last_is, list_types};
use crate::names::names_there;
use crate::node_types::{binary_node_types, choice_types, leaf_types, unary_node_types};
use c_typed::{Node, Program, Typed};
use c_types::Ty;

// Whether a node of this kind has so many operands.
fn count_is(node: &Node, count: usize) -> bool
    ensures { IsTrue result → CountIs (head_at node.now) count }
{
    match node {
        Node::Const(_) | Node::Obj(_) | Node::Func(_) | Node::Str(_) | Node::Isolated(_) => {
            count == 0
        }
        Node::Load(_) | Node::Conv(_) | Node::Un(_) => count == 1,
        Node::Member { .. } | Node::Part { .. } => count == 1,
        Node::Bin(..) | Node::PtrAdd { .. } | Node::PtrDiff { .. } => count == 2,
        Node::Rel { .. } | Node::Eq(_) | Node::Assign { .. } => count == 2,
        Node::Update { old, .. } => count == if *old { 1 } else { 2 },
        Node::And | Node::Or => count == 2,
        Node::Cond => count == 3,
        Node::Comma => count >= 2,
        Node::Call { .. } => count >= 1,
        Node::List { .. } => true,
    }
}

// The types of a node that takes at most three operands.
fn few_types(
    program: &Program,
    around: &[Around<'_>],
    node: &Node,
    own: &Ty,
    operands: &[Typed],
) -> bool
    ensures { IsTrue result → TypesAre program.now (blocks_of no_block around.now) (head_at node.now) (type_of own.now) (types_of operands.now) }
{
    let Some((a, operands)) = operands.split_first() else {
        return leaf_types(program, around, node, own);
    };
    let Some((b, operands)) = operands.split_first() else {
        return unary_node_types(program, node, own, &a.ty);
    };
    let Some((c, operands)) = operands.split_first() else {
        return binary_node_types(program, node, own, &a.ty, &b.ty);
    };
    operands.is_empty() && choice_types(program, node, own, &a.ty, &b.ty, &c.ty)
}

// Whether a node's value and its operands have the types of its kind.
fn types_are(
    program: &Program,
    around: &[Around<'_>],
    node: &Node,
    own: &Ty,
    operands: &[Typed],
) -> bool
    ensures { IsTrue result → TypesAre program.now (blocks_of no_block around.now) (head_at node.now) (type_of own.now) (types_of operands.now) }
{
    match node {
        Node::Comma => last_is(own, operands),
        Node::Call { .. } => call_types(program, own, operands),
        Node::List { .. } => list_types(own, operands),
        _ => few_types(program, around, node, own, operands),
    }
}

// Whether a node is lawful with its operands.
fn is_lawful_node(
    program: &Program,
    around: &[Around<'_>],
    node: &Node,
    own: &Ty,
    operands: &[Typed],
) -> bool
    ensures { IsTrue result → SiteIsLawful program.now (blocks_of no_block around.now)
        (record { head = head_at node.now; ty = type_of own.now; operands = types_of operands.now }) }
{
    names_there(program, around, node)
        && count_is(node, operands.len())
        && types_are(program, around, node, own, operands)
}

/// Whether each node of a tree is lawful, those of listed expressions too.
#[cycle(lawful)]
pub fn is_lawful_tree(program: &Program, around: &[Around<'_>], tree: &Typed) -> bool
    ensures { IsTrue result → All (SiteIsLawful program.now (blocks_of no_block around.now)) (sites tree.now) }
{
    let operands = tree.children.as_slice();
    if !is_lawful_node(program, around, &tree.node, &tree.ty, operands) {
        return false;
    }
    is_lawful_inside(program, around, &tree.node) && are_lawful(program, around, operands)
}

// The same of the listed expression that a node holds.
#[cycle(lawful)]
fn is_lawful_inside(program: &Program, around: &[Around<'_>], node: &Node) -> bool
    ensures { IsTrue result → All (SiteIsLawful program.now (blocks_of no_block around.now)) (node_seen node.now).inner }
{
    match node {
        Node::Isolated(tree) => is_lawful_tree(program, around, tree.get()),
        _ => true,
    }
}

#[cycle(lawful)]
fn are_lawful(program: &Program, around: &[Around<'_>], trees: &[Typed]) -> bool
    ensures { IsTrue result → All (SiteIsLawful program.now (blocks_of no_block around.now)) (sites_of trees.now) }
{
    for tree in trees {
        if !is_lawful_tree(program, around, tree) {
            return false;
        }
    }
    true
}

/// How many nodes the tree has, those of listed expressions too; the greatest number of the type stands for more.
pub fn count_nodes(tree: &Typed) -> u64
    ensures { result ≡ min (length (sites tree.now)) (2 ^ 64 - 1) }
{
    let mut sum = match &tree.node {
        Node::Isolated(inner) => count_nodes(inner.get()).saturating_add(1),
        _ => 1,
    };
    for operand in tree.children.as_slice() {
        sum = sum.saturating_add(count_nodes(operand));
    }
    sum
}
