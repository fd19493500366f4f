//! What a person reads of the commands: a line for each, and what each takes, with an example.
#![tactic(auto)]

mod commands;
mod lines;

pub use commands::about;
pub use lines::{command_lines, overview, version};
