//! Declarators (6.7.6, 6.7.7) and specifiers (6.7.2), by the parsers of what nests in them.
#![tactic(auto)]

mod declarator;
mod nested;
mod specifiers;

pub use declarator::{declare_named, name_of};
pub use nested::Declarators;
