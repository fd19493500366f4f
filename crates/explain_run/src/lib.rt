//! A run made again for its explanation: what is open before its last pick and the values there, what it does to an object, and
//! how another order ends.
#![tactic(auto)]

mod again;
mod moment;
mod nulls;
mod opened;
mod replay;
mod trail;

pub use again::{Before, Course, moment_before, outcome_of, trail_of};
