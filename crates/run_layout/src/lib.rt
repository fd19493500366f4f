//! What a program is laid out in: its tables, the listings of its full expressions, what these say of the program's trees, and laws of listings and choices.
#![tactic(auto)]

mod draft;
mod expressions;
mod laws;
mod look_ups;
mod nodes;
mod numbers;
mod steps;
mod tables;
mod whole;

pub use draft::FunctionDraft;
pub use expressions::{Expressions, Laid};
pub use laws::{law_choices, law_listing};
pub use nodes::{NodeInfo, Objects};
pub use numbers::{next_number, number_of, number_with, range_from};
pub use steps::{
    Act, BlockCode, CallCode, Choice, Due, Expression, FunctionCode, Listed, ObjectCode, Operand,
    Range, StoreCode, Way,
};
pub use tables::Tables;
pub use whole::Code;
