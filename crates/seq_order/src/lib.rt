//! Sequenced before, decided; which events are ready; and the canonical next event of a full expression.
#![tactic(auto)]

mod done;
mod laws;
mod next;
mod own;
mod ready;
mod relations;
mod rules;
mod sequence;
mod spot;
mod taken;

pub use done::{Done, Marks};
pub use laws::law_canonical_end;
pub use next::canonical_next;
pub use ready::{due, is_permitted, is_ready};
pub use relations::Relation;
pub use sequence::{before, relation};
pub use taken::Taken;
