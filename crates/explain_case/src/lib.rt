//! What is explained: a finding with the nodes of its events, its calls, its objects by name, and its values.
#![tactic(auto)]

mod accesses;
mod calls;
mod case;
mod format;
mod objects;
mod page;
mod text;
mod values;

pub use accesses::{is_behind, is_write, last_store};
pub use calls::{end_of, library_call, put_calls, sites_of};
pub use case::{Act, Case, Words, first_act, second_act, sought_of};
pub use format::{Mismatch, Taken, mismatch_of, printing, put_mismatch, put_taken};
pub use objects::{
    NamedObject, elements, naming, origin_naming, place_of, put_accessed, put_by, put_object,
    put_object_type, put_subject, size_of, storage_of, subject, subject_name,
};
pub use page::{put_tokens, put_words_and};
pub use text::{put_a_type, put_function, put_integer, put_tree, token_at};
pub use values::{Pair, pair_of, put_values};
