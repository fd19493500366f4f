//! Declarations of objects and functions whose identifiers have linkage, what they redeclare, and the library's functions
//! (ISO/IEC 9899:2011, 6.2.2, 6.7p3, 6.9.2, 7.1.3).
#![tactic(auto)]

mod functions;
mod library;
mod linkage;
mod objects;

pub use functions::declare_function;
pub use library::{library_function, library_type};
pub use linkage::{Linkage, copied_function};
pub use objects::{complete_object, declare_local_static, declare_object};
