//! The control of a run: what is left to do in each frame.
#![tactic(auto)]

mod control;
mod jumps;
mod links;
mod moves;
mod ready;
mod stack;
mod statement;
mod targets;
mod work;

pub use control::Control;
pub use links::{Link, Place};
pub use moves::Move;
pub use stack::Stack;
pub use statement::{Again, Block, Round, Statement, Switch};
pub use targets::{Found, Target, find, targets_of};
pub use work::{Step, Use, Work};
