//! Where things stand in a text: columns, files, lines, and the tokens of an expression.
#![tactic(auto)]

mod brackets;
mod declared;
mod extent;
mod functions;
mod macros;
mod operand;
mod operators;
mod places;
mod renumber;

pub use brackets::{close_of, open_before};
pub use declared::declaration_of;
pub use extent::{Extent, extent_of};
pub use functions::function_of;
pub use macros::definition_before;
pub use places::{FileName, column_of, file_of, line_end, line_number, line_start, next_file};
pub use renumber::{one_a_line, token_of};
