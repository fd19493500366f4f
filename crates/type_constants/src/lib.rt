//! The values of constant expressions, and null pointer constants (ISO/IEC 9899:2011, 6.6, 6.3.2.3).
#![tactic(auto)]

mod constant;

pub use constant::{Folded, integer_constant, is_null, null_pointer, worth};
