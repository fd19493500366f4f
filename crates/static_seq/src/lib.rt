//! Which full expressions have no two accesses that may race, whatever the input.
#![tactic(auto)]

mod accesses;
mod choices;
mod examined;
mod parting;
mod verdicts;

pub use accesses::{Accessed, MemoryAccess};
pub use examined::examine;
pub use verdicts::{Verdict, Verdicts};
