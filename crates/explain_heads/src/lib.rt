//! A finding in words: its first line, and its lines of source.
#![tactic(auto)]

mod first;
mod heads;
mod marks;

pub use first::{put_front, told_at};
pub use heads::{put_does, put_head};
pub use marks::{Marked, marks_of, shown_first};
