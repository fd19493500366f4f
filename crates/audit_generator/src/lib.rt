//! The programs that `cub self` audits: straight lines of unsigned arithmetic, drawn from a seed.
#![tactic(auto)]

mod text;

pub use text::generated;
