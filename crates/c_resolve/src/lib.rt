//! The typed program of a syntax tree: declarations, statements and external definitions (6.7 to 6.9), each constraint in the
//! profile.
#![tactic(auto)]

mod external;
mod statement;

pub use external::resolve;
pub use type_scope::TypeFault;
