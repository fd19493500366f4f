//! What evaluations touch, and when two of them conflict.
#![tactic(auto)]

mod addresses;
mod foot;
mod least;
mod meeting;
mod order;
mod sets;
mod settled;
mod shared;
mod span;
mod spans;
mod starts;
mod state;

pub use foot::Foot;
pub use least::{access_pair, conflict};
pub use meeting::{conflicts, items_conflict, races};
