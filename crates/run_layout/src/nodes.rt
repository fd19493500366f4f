// The nodes of a full expression by their numbers, and the objects of a function.
ghost use Rattle.std.specs.Prelude.{◌≡◌, slice_get};
ghost use Rattle.run_layout.specs.AtOnce.{is_known, truth_of};
ghost use Rattle.run_layout.specs.Resolved.{object_of, local_number};

use crate::steps::Operand;
use c_typed::{Slot, Typed};

// A node, the number of the node above, and where its value comes from.
#[derive(Clone, Copy)]
pub struct NodeInfo<'p> {
    pub tree: &'p Typed,
    pub parent: Option<u32>,
    pub operand: Operand,
    // The first number after all below it.
    pub next: u32,
    // The number of the full expression of its own tree, if it is an isolated initializer.
    pub initializer: u32,
    // The room behind those of the nodes for what an Update will store, if that isn't its value.
    pub room: u32,
}

// The number of a block's first object in its function.
#[derive(Drop)]
pub struct Objects {
    pub first: Vec<u32>,
}

impl Objects {
    pub fn number(&self, block: u32, object: u32) -> u32
        ensures { result ≡ local_number (slice_get self.now.first.items block) object }
    {
        match self.first.get(block as usize) {
            Some(first) => first.saturating_add(object),
            None => u32::MAX,
        }
    }

    // A pointer to the object of a slot.
    pub fn slot(&self, slot: Slot) -> Operand
        ensures { result ≡ object_of self.now.first.items slot }
    {
        match slot {
            Slot::Static(object) => Operand::Static { object, offset: 0 },
            Slot::Auto { block, decl } => Operand::Local {
                object: self.number(block, decl),
                offset: 0,
            },
        }
    }
}

impl Operand {
    /// The node has no event.
    pub fn is_quiet(self) -> bool
        ensures { result ≡ is_known self }
    {
        match self {
            Operand::Done(_) => false,
            _ => true,
        }
    }

    /// Whether a quiet value is unequal to 0. Objects and functions stand at no address 0.
    pub fn truth(self) -> bool
        ensures { result ≡ truth_of self }
    {
        match self {
            Operand::Integer(value) => value != 0,
            Operand::Address(addr) | Operand::Function(addr) => addr != 0,
            _ => true,
        }
    }
}
