//! Many runs in one call: a line for each, how many had which verdict, and the highest status.
#![tactic(auto)]

mod audit;
mod line;
mod list;
mod tally;

pub use audit::{Auditor, BatchFault, Limits, Run, Verdict, audit_all};
pub use list::{listed, named};
pub use tally::Tally;
