//! What a place of an expression names, whatever the input: fixed places, and objects whose address nothing takes.
#![tactic(auto)]

mod extents;
mod nodes;
mod places;
mod privacy;

pub use nodes::nodes_of;
pub use places::{FixedBase, fixed, place_of};
pub use privacy::{private, same_slot};
