//! The objects that stand before a run: those with static storage, string literals, and the arguments of `main`.
#![tactic(auto)]

mod contents;
mod initial;
mod laws;

pub use contents::fillings;
pub use initial::{Started, start, start_bytes};
pub use laws::{law_finds_room, law_standing, law_stands, law_start_counts, law_start_is_defined};
