//! The grammar of translation units: Annex A of ISO/IEC 9899:2011 without what the profile leaves out, as a relation between
//! trees and tokens.
#![tactic(auto)]

mod laws;

pub use laws::law_sentences;
