// Trees of full expressions by the numbers of their nodes.
ghost use Rattle.std.specs.Prelude.{◌≡◌, ◌+◌, ◌-◌, ◌^◌, ◌<◌, min, IfSome};
ghost use Rattle.c_typed.specs.Tree.{tree_of, operands, size as nodes_of};
ghost use Rattle.evaluation_log.specs.Ruled.{lines_of, line_at, sought_line};
ghost use Rattle.evaluation_log.specs.Sides.{last_if, last_in, left_spot, right_spot};
ghost use Rattle.evaluation_log.specs.Ways.{spot_among, arity};

use c_typed::{Typed, class_of, size};

/// The line of the node of this number, and the root's where there is no such node. It costs a walk over the nodes before it.
pub fn line_of(root: &Typed, node: u32) -> u32
    ensures { result ≡ line_at root.now node }
{
    match seek_line(root, node) {
        Ok(line) => line,
        Err(_) => root.line,
    }
}

// The line of the node of this number, or what is left of the number behind the tree's nodes.
fn seek_line(tree: &Typed, node: u32) -> Result<u32, u32>
    ensures { result ≡ sought_line node (lines_of tree.now) }
{
    if node == 0 {
        return Ok(tree.line);
    }
    let mut left = node - 1;
    for operand in tree.children.as_slice() {
        left = match seek_line(operand, left) {
            Ok(line) => return Ok(line),
            Err(left) => left,
        };
    }
    Err(left)
}

/// The node above this one, if no operand of that node behind this one has a value.
pub fn last_operand_of(root: &Typed, node: u32) -> Option<u32>
    ensures { nodes_of (tree_of root.now) < 2 ^ 32 → result ≡ last_in 0 (tree_of root.now) node }
{
    last_operand_in(root, 0, node)
}

// The same in the tree whose root has the number `k`.
fn last_operand_in(tree: &Typed, k: u32, node: u32) -> Option<u32>
    ensures { k + nodes_of (tree_of tree.now) < 2 ^ 32 → result ≡ last_in k (tree_of tree.now) node }
{
    if k >= node {
        return None;
    }
    let Some(spot) = locate(tree, k, node) else {
        return None;
    };
    if spot.number == node {
        return if_none(first_behind(tree, k, node), k);
    }
    last_operand_in(&tree.children.as_slice()[spot.index], spot.number, node)
}

// This node, where there is no other one.
fn if_none(other: Option<u32>, node: u32) -> Option<u32>
    ensures { result ≡ last_if node other }
{
    match other {
        Some(_) => None,
        None => Some(node),
    }
}

/// The first operand with a value that ends before the node of this number, of a tree whose root has the number `k`.
pub fn first_before(tree: &Typed, k: u32, node: u32) -> Option<u32>
    ensures { result ≡ left_spot (min (k + 1) (2 ^ 32 - 1)) (operands (tree_of tree.now)) node }
{
    let mut number = k.saturating_add(1);
    for operand in tree.children.as_slice() {
        let next = number.saturating_add(size(operand));
        if node < next {
            return None;
        }
        if !class_of(operand).is_quiet() {
            return Some(number);
        }
        number = next;
    }
    None
}

/// The first operand with a value that begins behind the node of this number, of a tree whose root has the number `k`.
pub fn first_behind(tree: &Typed, k: u32, node: u32) -> Option<u32>
    ensures { result ≡ right_spot (min (k + 1) (2 ^ 32 - 1)) (operands (tree_of tree.now)) node }
{
    let mut number = k.saturating_add(1);
    for operand in tree.children.as_slice() {
        if node < number && !class_of(operand).is_quiet() {
            return Some(number);
        }
        number = number.saturating_add(size(operand));
    }
    None
}

/// An operand: its index among those of its node, and the number of its root.
#[derive(Clone, Copy, PartialEq, Eq)]
pub struct Spot {
    pub index: usize,
    pub number: u32,
}

/// The operand that holds the node of this number, of a tree whose root has the number `k`.
pub fn locate(tree: &Typed, k: u32, node: u32) -> Option<Spot>
    ensures value { result ≡ spot_among 0 (min (k + 1) (2 ^ 32 - 1)) (operands (tree_of tree.now)) node }
    ensures within { IfSome result (λ s. s.index < arity tree.now) }
{
    let mut number = k.saturating_add(1);
    for (index, operand) in tree.children.as_slice().iter().enumerate() {
        let next = number.saturating_add(size(operand));
        if node < next {
            return Some(Spot { index, number });
        }
        number = next;
    }
    None
}
