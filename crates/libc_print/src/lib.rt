//! printf, fprintf, sprintf and snprintf (7.21.6): the text of a format and its arguments, and what they answer.
#![tactic(auto)]

mod printf;
mod stored;
mod stream;
mod strings;
mod values;

pub use printf::format;
pub use stored::{format_into, format_within};
pub use stream::format_to;
