//! Whether evaluations of open full expressions conflict, and the first conflict between two of them, sought in borrowed lists of what is logged.
#![tactic(auto)]

mod bodies;
mod compare;
mod items;
mod log;
mod loose;
mod search;
mod segments;

pub use log::{Log, Place};
pub use search::Search;
pub use segments::{all_harmless, take_foot};
