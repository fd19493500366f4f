//! What acts leave beside the store: the items that they touch, and what is taken from and written to the standard streams.
#![tactic(auto)]

mod streams;
mod touched;

pub use streams::{Outputs, Streams};
pub use touched::Touched;
