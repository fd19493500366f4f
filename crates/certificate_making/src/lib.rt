//! The certificate of an audit.
#![tactic(auto)]

mod keep;
mod make;
mod number;

pub use make::of_audit;
