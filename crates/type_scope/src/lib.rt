//! What is declared where: the names of a text, their scopes and name spaces, and the functions and static objects
//! of the program so far (ISO/IEC 9899:2011, 6.2.1 to 6.2.3).
#![tactic(auto)]

mod declare;
mod fault;
mod literals;
mod rows;
mod scopes;
mod source;
mod state;
mod task;

pub use fault::{TypeFault, placed, placed_for, placed_unless};
pub use literals::Literal;
pub use rows::{
    CountedUse, Definition, FunctionRow, Linked, Meaning, ObjectRow, TagMeaning, TagRow,
};
pub use scopes::Scopes;
pub use source::Source;
pub use state::{Mark, State};
pub use task::{Label, OpenBlock, OpenSwitch, Task};
