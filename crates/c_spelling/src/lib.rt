//! The tokens of a text numbered by their spellings: two have one number exactly where they have one text.
#![tactic(auto)]

mod spelling;

pub use spelling::spelled_by;
