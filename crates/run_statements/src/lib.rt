//! The statements of a program as control follows them: the numbers of their full expressions, and where jumps go.
#![tactic(auto)]

mod jumps;
mod numbering;
mod numbers;
mod switches;

pub use jumps::Jumps;
pub use numbering::block;
pub use numbers::Numbers;
pub use switches::switches_of;
