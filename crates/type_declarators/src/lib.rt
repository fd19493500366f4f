//! Specifiers, tags, declarators, constants and literals, from their parts (6.4.4, 6.4.5, 6.6, 6.7.1 to 6.7.6): each constraint in the
//! profile.
#![tactic(auto)]

pub mod constants;
pub mod declarator;
pub mod literal;
pub mod tag;
pub mod words;
