//! The directives of a format (7.21.6.1), and the texts of numbers, addresses and strings that they print.
#![tactic(auto)]

mod directive;
mod number;
mod refusal;

pub use directive::{Count, Directive, Flags, Form, Length, MOST, behind, directive_of, front};
pub use number::{Width, is_signed, put_address, put_integer, put_one, put_text};
pub use refusal::Refusal;
