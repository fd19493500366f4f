//! The report on the full expressions of a program that never race.
#![tactic(auto)]

mod report;

pub use report::static_report;
