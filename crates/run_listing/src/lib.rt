//! The listing of a full expression as a run goes along it: what comes next, and what has been passed.
#![tactic(auto)]

mod along;
mod laws;
mod strayed;

pub use along::{due_of, next, part, passed};
pub use laws::{law_cursor, law_listed_tree, law_strayed};
pub use strayed::next_left;
