//! A program laid out once, from its typed trees and its terms: its statements as control follows them, and the listings of its full expressions.
#![tactic(auto)]

mod choices;
mod draft;
mod lower;
mod nodes;
mod objects;
mod statements;

pub use run_layout::{Code, Range};
pub use statements::code_of;
