//! The full expressions of a program, and the term of each.
#![tactic(auto)]

mod expression;
mod laws;
mod program;
mod roots;

pub use laws::law_faithful;
pub use program::elaborate;
pub use roots::{expressions_of, roots_of};
