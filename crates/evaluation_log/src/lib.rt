//! What evaluations have touched, before they are compared: their log, what is kept of it, and the conflicts of two sets of items.
#![tactic(auto)]

mod found;
mod known;
mod level;
mod log;
mod rules;
mod sought;
mod trees;
mod way;

pub use found::{Found, dependence, first_of};
pub use known::Known;
pub use level::Level;
pub use log::{Logged, Segment, add_range, are_harmless};
pub use rules::{Rule, Rules};
pub use sought::{Sought, Under, clash, is_race, least_items, meets};
pub use trees::{last_operand_of, line_of};
pub use way::{Way, way_to};
