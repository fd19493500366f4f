//! The tree that the parser answers for a list of tokens is one that the grammar gives them.
#![tactic(auto)]

mod laws;

pub use laws::law_sound;
