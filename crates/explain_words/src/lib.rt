//! What explanations say of each paragraph of ISO/IEC 9899:2011: the rule, and what mends a program.
#![tactic(auto)]

mod headers;
mod heads;
mod hints;
mod rules;

pub use headers::header_of;
pub use heads::{Head, head_of};
pub use hints::hint_of;
pub use rules::{ORDER_RULE, PAST_THE_END, READ_AND_WRITE, TWO_WRITES, rule_of};
