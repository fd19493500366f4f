//! Initialization (6.7.9): what each part of an object is given, by designators and in the order of its parts.
#![tactic(auto)]

mod define;
mod initial;

pub use define::{automatic, initialize};
