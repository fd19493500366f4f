//! The program of a text with the numbers of tokens in place of lines, for its explanation.
#![tactic(auto)]

mod missing;
mod program;
mod reason;

pub use program::{program_of, tokens_of};
