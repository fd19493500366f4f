//! What the parser answers for a list of tokens, as a function on lists.
#![tactic(auto)]

mod laws;

pub use laws::{law_read_sentences, law_scopes_end};
