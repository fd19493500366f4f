//! The top call: what `cub` does with its words.
#![tactic(auto)]

mod top;
mod weigh;
mod words;

pub use top::audit_main;
