//! The evaluations of the full expressions that are open along a run, and the first conflict between two of them.
#![tactic(auto)]

mod below;
mod ends;
mod gather;
mod laws;
mod loose;
mod open;
mod operands;
mod order;

pub use laws::{law_choices_grow, law_listing_tells, law_rules_fit};
pub use open::Evaluations;
pub use order::Order;
