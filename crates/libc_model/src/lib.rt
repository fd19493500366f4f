//! The library functions of the profile, but for printf, as acts on memory and the standard streams (7.21, 7.22, 7.24).
#![tactic(auto)]

mod calls;

pub use calls::call;
