//! The text of a certificate, as it is written.
#![tactic(auto)]

mod longest;
mod words;
mod write;

pub use write::to_json;
