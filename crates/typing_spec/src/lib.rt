//! What the typed program of a syntax tree is (ISO/IEC 9899:2011, 6.2 and 6.5 to 6.9, in the profile), as a definition that computes.
#![tactic(auto)]

mod laws;
mod samples;

pub use laws::{law_one_program, law_tags};
pub use samples::{
    law_declaration_samples, law_initializer_samples, law_refused_samples, law_structure_samples,
    law_tree_samples,
};
