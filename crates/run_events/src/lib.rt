//! What an event of a full expression does to the machine of a run: its act, a call of the library, the frame that it starts, and the
//! operands that are chosen after it.
#![tactic(auto)]

mod acts;
mod choices;
mod frames;
mod loads;
mod operators;
mod places;
mod pointers;
mod stores;
mod updates;

pub use acts::perform;
pub use choices::{choose, choose_at_once};
pub use run_answers::{Fault, Outcome};
pub use stores::put_at;
