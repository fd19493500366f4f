//! The machine of a program before its first pick.
#![tactic(auto)]

mod initial;

pub use initial::prepare;
