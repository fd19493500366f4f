//! The audit of one run in canonical order: its first finding.
#![tactic(auto)]

mod audit;
mod finding;
mod progress;
mod watcher;

pub use audit::audit_run;
pub use finding::{Audit, Finding, Race};
pub use progress::{Progress, Quiet};
