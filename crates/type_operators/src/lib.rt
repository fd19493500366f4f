//! Unary and binary operators, subscripts and members, from their operands (ISO/IEC 9899:2011, 6.5.2.1, 6.5.2.3, 6.5.3,
//! 6.5.5 to 6.5.14). Each call makes a node of the typed tree, or says that a constraint forbids it.
#![tactic(auto)]

mod additive;
mod binary;
mod member;
mod unary;

pub use additive::{added, indexed, subtracted};
pub use binary::{compared, equated, joined, multiplied, shifted};
pub use member::{member_of_pointer, member_of_value};
pub use unary::{addressed, complemented, dereferenced, inverted, negated, plus};
