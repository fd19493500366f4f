//! What a pointer was made from, and to which object an ambiguous one was settled.
#![tactic(auto)]

mod narrowed;
mod prov;

pub use narrowed::Narrowed;
pub use prov::{Prov, choose};
