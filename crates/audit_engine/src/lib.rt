//! What audits, explains and looks further for the commands for a person.
#![tactic(auto)]

mod engine;
mod explain;
mod written;

pub use engine::Engine;
