//! The parts of objects that initializer lists name, in their order; the trees, the constants and the zeros of lists; and the bytes of
//! static objects (6.7.9).
#![tactic(auto)]

mod cursor;
mod listed;
mod listing;
mod statics;
mod zeros;

pub use cursor::{Choice, Cursor, Spot, next_spot};
pub use listed::{Given, Listed, Listing, Whole};
pub use listing::{list_constants, list_node, object_place};
pub use statics::{keep_literal, part_reason, static_content};
