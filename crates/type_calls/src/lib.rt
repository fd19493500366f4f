//! Calls, conditionals and commas, from their operands (ISO/IEC 9899:2011, 6.5.2.2, 6.5.15, 6.5.17).
#![tactic(auto)]

mod choose;

pub use choose::{called, chosen, is_void, sequenced};
