//! The grammar gives a list of tokens one tree at most, and the parser answers it.
#![tactic(auto)]

mod laws;

pub use laws::law_complete;
