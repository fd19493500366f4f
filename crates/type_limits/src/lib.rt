//! How high a type may be and of how many types it may be made, so that whatever walks over types does so within a limit.
#![tactic(auto)]

mod limits;

pub use limits::{is_within, law_limits};
