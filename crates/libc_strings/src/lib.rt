//! Functions on ranges of bytes and on strings (7.24).
#![tactic(auto)]

mod ranges;
mod strings;

pub use ranges::{compare, copy, fill};
pub use strings::{compare_strings, copy_string, find_byte, length};
