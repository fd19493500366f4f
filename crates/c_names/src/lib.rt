//! The texts of events and objects, in reports and certificates, and their order.
#![tactic(auto)]

mod laws;
mod order;
mod path;
mod read;
mod ways;
mod words;
mod write;

pub use laws::{law_numbers, law_texts};
pub use order::{cmp_events, cmp_objects};
pub use read::{read_event, read_object};
pub use write::{write_event, write_object};
