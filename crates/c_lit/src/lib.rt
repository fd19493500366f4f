//! The values of C's integer constants, character constants and string literals (ISO/IEC 9899:2011, 6.4.4, 6.4.5).
#![tactic(auto)]

mod character;
mod digits;
mod fault;
mod integer;
mod literal;

pub use fault::LitFault;
pub use integer::{IntLit, int_value};
pub use literal::{char_value, string_bytes};
