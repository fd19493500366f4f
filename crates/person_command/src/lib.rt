//! The words of a command for a person, read by `clap`.
#![tactic(auto)]

mod person_app;
mod person_read;
mod person_request;

pub use person_read::read_person_words;
pub use person_request::{BatchRequest, ExplainRequest, Exploration, PersonRequest, StoryRequest};
