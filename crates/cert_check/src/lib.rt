//! Whether a certificate holds: the machine of a run follows its order.
#![tactic(auto)]

mod claim;
mod findings;
mod pair;
mod run;
mod verdict;

pub use certificate::{Answer, Part};
pub use verdict::check;
