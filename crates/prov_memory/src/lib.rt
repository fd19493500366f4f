//! Objects with bytes, life and exposure at mapped addresses, pointers with provenance in the manner of PNVI-ae-udi, and
//! the acts that loads, stores, casts, arithmetic and comparison of pointers are made of.
#![tactic(auto)]

mod laws;
mod memory;

pub use laws::{law_room, law_rows};
pub use mem_effects::{Outputs, Streams, Touched};
pub use mem_objects::{
    Block, CreateFault, LibAnswer, MemByte, MemFault, ObjKind, ObjState, Origin, TypeId, Value,
    Values, Via,
};
pub use memory::Memory;
