//! The life of one object: what the picks of a run do to it, told in order.
#![tactic(auto)]

mod entry;
mod line;
mod named;
mod same;
mod tell;
mod telling;
mod text;
mod told;
mod watcher;

pub use entry::{Entries, Entry, Story};
pub use telling::story;
pub use text::entries_text;
