//! A cursor over tokens with the names that are in scope, the operators by their punctuators, and the rules that take tokens
//! alone.
#![tactic(auto)]

mod cursor;
pub mod operators;
mod place;
mod refusal;
mod scope;
pub mod tokens;

pub use cursor::Cursor;
pub use place::{Mode, Place};
pub use refusal::Refusal;
pub use scope::Declared;
