//! What the events of a node do to memory, from the values of its operands.
#![tactic(auto)]

mod calls;
mod numbers;
mod pointers;
mod storage;

pub use calls::{answer, callee, exit_status, left};
pub use numbers::{binary, convert, equal, unary};
pub use pointers::{changed, distance, member, moved, related};
pub use storage::{fill, load, part, store};
