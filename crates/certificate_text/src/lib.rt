//! The certificate that a text states.
#![tactic(auto)]

mod read;
mod read_claim;
mod read_frames;
mod read_map;
mod read_order;
mod row;
mod values;
mod words;

pub use read::from_json;
pub use row::{Run, Stride, row_at};
pub use words::Verdict;
