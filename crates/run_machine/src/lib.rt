//! How the machine of a run goes on: it takes the canonical pick, or one that is named where it is permitted.
#![tactic(auto)]

mod control;
mod events;
mod frames;
mod picks;

pub use control::MOST_CREATED;
pub use picks::{canonical, single};
pub use run_answers::{Completed, Pick};
pub use run_code::code_of;
pub use run_layout::Code;
pub use run_start::prepare;
pub use run_state::{Begun, Halt, Machine, View};
