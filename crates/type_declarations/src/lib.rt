//! Declarations of blocks and of file scope (6.7, 6.9.2): each constraint in the profile.
#![tactic(auto)]

mod block;
mod file;

pub use block::{function_type, local_declaration, loop_declaration, near};
pub use file::{global_declaration, global_function};
