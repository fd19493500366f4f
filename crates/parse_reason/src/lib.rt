//! Why no program goes on with a token, and which parts of C the profile leaves out.
#![tactic(auto)]

mod around;
mod missing;
mod part;
mod reason;
mod types;
mod words;

pub use missing::Missing;
pub use part::Part;
pub use reason::{Reason, told};
pub use words::{kind_of, part_of_number, part_of_word};
