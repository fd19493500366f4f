//! What a full expression evaluates and in which order, as one term for each full expression.
#![tactic(auto)]

mod term;

pub use term::{Core, CoreProgram, Cores};
