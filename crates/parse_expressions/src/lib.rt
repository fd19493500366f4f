//! Expressions (6.5), by the parsers of what nests in them.
#![tactic(auto)]

mod expression;
mod nested;

pub use nested::Expressions;
