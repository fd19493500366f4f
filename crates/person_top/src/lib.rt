//! The top call of the commands for a person, and which words are theirs.
#![tactic(auto)]

mod batch;
mod explain;
mod explore;
mod help;
mod list;
mod put;
mod top;
mod words;

pub use explain::{Explainer, Page};
pub use explore::{Explorer, Sheet};
pub use top::{is_for_person, person_main};
