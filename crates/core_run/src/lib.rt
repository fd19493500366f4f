//! A run in canonical order over the whole program, which tells a watch each of its picks.
#![tactic(auto)]

mod calls;
mod canonical;
mod laws;
mod watch;

pub use calls::Calls;
pub use canonical::run;
pub use laws::law_told;
pub use run_machine::{Begun, View};
pub use watch::{Go, Ran, RunState, Watch};
