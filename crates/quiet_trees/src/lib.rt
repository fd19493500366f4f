//! Full expressions in which no two evaluations can conflict that no rule sequences.
#![tactic(auto)]

mod items;
mod laws;
mod quiet;
mod summary;

pub use items::some_noted;
pub use laws::{law_quiet_examples, law_quiet_items};
pub use quiet::is_quiet;
