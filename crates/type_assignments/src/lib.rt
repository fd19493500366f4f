//! Assignments, increments and decrements, from their operands (ISO/IEC 9899:2011, 6.5.16, 6.5.2.4, 6.5.3.1).
#![tactic(auto)]

mod assign;

pub use assign::{assigned, compound, incremented, stepped, stored};
