//! Why a text has no program, in words.
#![tactic(auto)]

mod constant;
mod reason;
mod refused;
mod syntax;
mod typing;

pub use reason::Refused;
pub use refused::{
    Refusal, Rule, Saying, does_of, put_refusal, put_said, refusal_notes, refusal_of, unlexed,
};
