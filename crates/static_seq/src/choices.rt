// The choice of operands that leaves out what neither of two nodes needs, and the branches of `?:`.
ghost use Rattle.std.specs.Prelude.{◌≡◌, ◌<◌, ◌^◌, ℕ, length, IfOk};
ghost use Rattle.static_places.specs.Preorder.{trees_at};
ghost use Rattle.seq_order.specs.Marked.{taken_in};
ghost use Rattle.static_seq.specs.Choices.{operand_count, is_in_last, is_in_second, spared_at, spared_of, parts_at, node_of, in_branches};

use c_typed::{Node, Typed, size};
use seq_order::Taken;
use std::alloc::Global;
use ub_base::NoMemory;

/// The choice of operands under which the two nodes are evaluated and as little else as can be: no second operand of `&&` and
/// `||` in which neither stands. The nodes of the tree have numbers from 0 on.
pub fn spared(alloc: Global, nodes: &[&Typed], u: u32, v: u32) -> Result<Taken, NoMemory>
    ensures { length nodes.now < 2 ^ 32 → IfOk result (λ taken. (k : ℕ) → taken_in taken k ≡ spared_of (trees_at nodes.now) u v k) }
{
    let mut taken = Taken::new(alloc);
    let mut number = 0u32;
    for node in nodes {
        if let Some(operand) = spared_at(node, number, u, v) {
            taken.set(number, operand)?;
        }
        number = number.saturating_add(1);
    }
    Ok(taken)
}

/// The operand that the node, whose number is n, then chooses.
fn spared_at(tree: &Typed, n: u32, u: u32, v: u32) -> Option<u32>
    ensures { result ≡ spared_at tree.now n u v }
{
    match &tree.node {
        Node::And | Node::Or => {
            if is_in_last(tree, 1, n, u) || is_in_last(tree, 1, n, v) {
                Some(1)
            } else {
                None
            }
        }
        Node::Cond => {
            if is_in_last(tree, 2, n, u) || is_in_last(tree, 2, n, v) {
                Some(2)
            } else {
                Some(1)
            }
        }
        _ => None,
    }
}

/// Whether the two nodes stand in the two branches of one `?:`.
pub fn in_branches(nodes: &[&Typed], u: u32, v: u32) -> bool
    ensures { result ≡ in_branches (trees_at nodes.now) 0 u v }
{
    let mut number = 0u32;
    for node in nodes {
        if parts(node, number, u, v) {
            return true;
        }
        number = number.saturating_add(1);
    }
    false
}

fn parts(tree: &Typed, n: u32, u: u32, v: u32) -> bool
    ensures { result ≡ parts_at tree.now n u v (node_of tree.now) }
{
    match &tree.node {
        Node::Cond => {
            is_in_second(tree, n, u) && is_in_last(tree, 2, n, v)
                || is_in_second(tree, n, v) && is_in_last(tree, 2, n, u)
        }
        _ => false,
    }
}

/// Whether the node m stands in operand j, the last one, of the tree whose root has the number n.
fn is_in_last(tree: &Typed, j: usize, n: u32, m: u32) -> bool
    ensures { result ≡ is_in_last tree.now j n m }
{
    let end = n as u64 + size(tree) as u64;
    end.saturating_sub(operand_count(tree, j)) <= m as u64 && (m as u64) < end
}

/// Whether it stands in the second of three operands.
fn is_in_second(tree: &Typed, n: u32, m: u32) -> bool
    ensures { result ≡ is_in_second tree.now n m }
{
    let begin = n as u64 + 1 + operand_count(tree, 0);
    let end = (n as u64 + size(tree) as u64).saturating_sub(operand_count(tree, 2));
    begin <= m as u64 && (m as u64) < end
}

/// How many nodes the operand has, if it is there.
fn operand_count(tree: &Typed, j: usize) -> u64
    ensures count { result ≡ operand_count tree.now j }
    ensures small { result < 2 ^ 32 }
{
    match tree.children.get(j) {
        Some(operand) => size(operand) as u64,
        None => 0,
    }
}
