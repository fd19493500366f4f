//! The syntax tree of a list of tokens (Annex A of ISO/IEC 9899:2011, in the profile).
#![tactic(auto)]

mod error;
mod unit;

pub use error::ParseFault;
pub use unit::{NEST_LIMIT, parse};
