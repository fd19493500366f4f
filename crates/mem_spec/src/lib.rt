//! The definitions of memory: the store, its touches, and the acts that are scripts of them.
#![tactic(auto)]

mod kind;
mod stream;

pub use kind::ObjKind;
pub use stream::Stream;
