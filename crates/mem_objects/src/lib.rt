//! The objects of a memory, with their bytes and tags, the numbers of its provenances and of its types, and the values that go through it.
#![tactic(auto)]

mod accessed;
mod answer;
mod block;
pub mod cell;
mod object;
mod objects;
mod origins;
pub mod types;
mod value;

pub use accessed::Accessed;
pub use answer::{CreateFault, LibAnswer, MemFault};
pub use block::Block;
pub use cell::{Cell, MemByte, Origin, State, TypeId, Via};
pub use mem_spec::ObjKind;
pub use object::{ObjState, Object, is_within};
pub use objects::Objects;
pub use origins::Origins;
pub use value::{Value, Values};
