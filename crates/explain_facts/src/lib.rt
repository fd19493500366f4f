//! What was seen of a run, as its explanation needs it: its verdict, what is open at its end, the values there, and what was
//! done to an object.
#![tactic(auto)]

mod calls;
mod facts;
mod node;
mod verdict;

pub use calls::{CallSite, calls_of};
pub use facts::{
    Aim, Moment, Named, Opened, Outcome, Shown, Sought, Touch, Trail, Unallocated, is_within,
};
pub use node::{apart, common, node_at, operand_number, parent_of, root_with, tree_at};
pub use verdict::{Events, Found, Verdict};
