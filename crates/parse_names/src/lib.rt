//! In the tree of a list of tokens each number that stands for a name, a literal or a keyword is that of such a token.
#![tactic(auto)]

mod laws;

pub use laws::law_names;
