//! Statements (6.8).
#![tactic(auto)]

mod statement;

pub use statement::body;
