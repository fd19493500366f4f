//! What the acts and the picks of a machine answer: their types, what their answers say of the definitions, and laws of these.
//!
//! A law function takes nothing and answers nothing: its contract is a law about the definitions.
#![tactic(auto)]

mod fault;
mod laws;
mod outcome;
mod pick;

pub use fault::Fault;
pub use laws::{law_acts, law_bodies, law_calls, law_events, law_picks, law_straying};
pub use outcome::Outcome;
pub use pick::{Completed, Pick};
