//! Where objects stand: rows of name, base address, size and alignment, and the free address; and which items conflict.
#![tactic(auto)]

mod conflict;
mod map;

pub use conflict::law_conflicts;
pub use map::{AddrMap, Mode, Row, is_alignment};
