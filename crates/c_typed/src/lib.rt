//! The typed program: expressions with every conversion written out, statements, functions and static objects.
#![tactic(auto)]

mod class;
mod heights;
mod laws;
mod program;
mod statement;
mod tree;

pub use class::{Class, class_of, size};
pub use heights::{body_height, height, height_of, tree_height};
pub use laws::{law_least, law_no_main};
pub use program::{Constant, Content, Function, Program, Static};
pub use statement::{Block, Body, Entry, ForStart};
pub use tree::{Access, Change, Conversion, EqOp, Node, Place, RelOp, Slot, Target, Typed, UnOp};
