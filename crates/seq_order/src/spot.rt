// The operand that holds a node.
ghost use Rattle.std.specs.Prelude.{◌≡◌, ◌+◌, ◌-◌, ◌^◌, ◌<◌, min, IfSome};
ghost use Rattle.c_typed.specs.Tree.{tree_of, operands};
ghost use Rattle.seq_order.specs.Spots.{spot_among, arity};

use c_typed::{Typed, size};

/// An operand: its index among those of its node, and the number of its root.
#[derive(Clone, Copy, Debug, PartialEq, Eq)]
pub struct Spot {
    pub index: usize,
    pub number: u32,
}

/// The operand that holds the node of this number in the tree whose root has the number k.
pub fn locate(tree: &Typed, k: u32, node: u32) -> Option<Spot>
    ensures value { result ≡ spot_among 0 (min (k + 1) (2 ^ 32 - 1)) (operands (tree_of tree.now)) node }
    ensures within { IfSome result (λ s. s.index < arity tree.now) }
{
    let mut number = k.saturating_add(1);
    for (index, operand) in tree.children.as_slice().iter().enumerate() {
        let next = number.saturating_add(size(operand));
        if node < next {
            return Some(Spot { index, number });
        }
        number = next;
    }
    None
}
