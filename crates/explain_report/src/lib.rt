//! Why a run has its verdict, for a person.
#![tactic(auto)]

mod again;
mod asked;
mod explain;
mod found;

pub use asked::Asked;
pub use explain::{explanation, explanation_json};
pub use explain_page::Written;
pub use explain_places::{FileName, next_file};
