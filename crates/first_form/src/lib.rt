//! The first form of a program: `int main(void) { return E; }`, where E is one decimal constant, or two with one of
//! `+ - * / %` between them. It is read from bytes, exactly.
#![tactic(auto)]

mod fault;
mod lexer;
mod parser;
mod reader;
mod spell;
mod token;
mod tree;

pub use fault::FormFault;
pub use reader::read_unit;
pub use tree::{Operator, ReturnUnit};
