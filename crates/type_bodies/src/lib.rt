//! What function bodies are made of: the expressions of statements, jumps and labels, and how a body begins and ends (6.8, 6.9.1).
#![tactic(auto)]

mod function;
mod statement;

pub use function::{begin_body, defined_before, end_body, own_params, undefinable};
pub use statement::{
    case_value, close_loop, close_switch, condition, default_label, define_label, ended_block,
    open_loop, open_switch, returned, selector, to_break, to_continue, to_label, unused,
    unused_part,
};
