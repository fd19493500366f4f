//! A finding in words: its notes.
#![tactic(auto)]

mod further;
mod hints;
mod notes;

pub use notes::{Note, notes_of, put_notes};
