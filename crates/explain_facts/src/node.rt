// Nodes of trees by their numbers.

use c_typed::{Typed, size};

// The operand in which a node stands, with its number, where the tree's root has this number.
fn step<'t>(tree: &'t Typed, number: u32, target: u32) -> Option<(&'t Typed, u32)> {
    let mut at = number.saturating_add(1);
    for operand in tree.children.as_slice() {
        let end = at.saturating_add(size(operand));
        if at <= target && target < end {
            return Some((operand, at));
        }
        at = end;
    }
    None
}

/// The node of this number in preorder, the root being 0.
pub fn node_at(root: &Typed, node: u32) -> Option<&Typed> {
    let mut tree = root;
    let mut number = 0u32;
    for _ in 0..node {
        if number >= node {
            return Some(tree);
        }
        let (next, at) = step(tree, number, node)?;
        tree = next;
        number = at;
    }
    Some(tree)
}

/// The first of these trees whose node of this number stands on this line.
pub fn root_with<'t>(roots: &[&'t Typed], node: u32, line: u32) -> Option<&'t Typed> {
    for root in roots {
        if let Some(tree) = node_at(root, node)
            && tree.line == line
        {
            return Some(*root);
        }
    }
    None
}

/// The node of this number in the tree of this number.
pub fn tree_at<'t>(roots: &[&'t Typed], tree: u32, node: u32) -> Option<&'t Typed> {
    match roots.get(tree as usize) {
        Some(root) => node_at(root, node),
        None => None,
    }
}

/// The number of an operand of the node of this number.
pub fn operand_number(tree: &Typed, number: u32, operand: usize) -> u32 {
    let mut at = number.saturating_add(1);
    for (i, child) in tree.children.as_slice().iter().enumerate() {
        if i == operand {
            return at;
        }
        at = at.saturating_add(size(child));
    }
    at
}

/// The node above the one of this number.
pub fn parent_of(root: &Typed, node: u32) -> Option<&Typed> {
    let mut tree = root;
    let mut number = 0u32;
    for _ in 0..node {
        let (next, at) = step(tree, number, node)?;
        if at == node {
            return Some(tree);
        }
        tree = next;
        number = at;
    }
    None
}

/// Of two nodes that stand in different operands of a node, the nodes of the operand that has the second: from the first up to
/// but without the second number.
pub fn apart(root: &Typed, one: u32, other: u32) -> Option<(u32, u32)> {
    let mut tree = root;
    let mut number = 0u32;
    for _ in 0..other {
        let (next, at) = step(tree, number, other)?;
        let end = at.saturating_add(size(next));
        if one < at || one >= end {
            return Some((at, end));
        }
        tree = next;
        number = at;
    }
    None
}

/// The innermost node that has both of these nodes below it, or is one of them.
pub fn common(root: &Typed, one: u32, other: u32) -> Option<&Typed> {
    let mut tree = root;
    let mut number = 0u32;
    for _ in 0..other {
        let Some((next, at)) = step(tree, number, other) else {
            return Some(tree);
        };
        if one < at || one >= at.saturating_add(size(next)) {
            return Some(tree);
        }
        tree = next;
        number = at;
    }
    Some(tree)
}
