//! The outside as traits, with what it holds and how often it failed, and the names that reports print.
#![tactic(auto)]

mod bytes;
mod clause;
mod files;
mod frames;
mod memory;
mod names;
mod sink;

pub use bytes::Bytes;
pub use clause::{Cause, Clause, Kind, NoMemory, law_clause_texts};
pub use files::{Fetched, FileFault, Files};
pub use frames::Frames;
pub use memory::MemFiles;
pub use names::{Event, Frame, Item, ObjName};
pub use sink::{Failed, MemSink, Sink, put_all};
// A box and a list that contracts see as what they hold, so that a tree of them is plain data and trees can be equal.
pub use sqlite_items::{Boxed, Items};
