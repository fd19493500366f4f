//! Values that the text fixes: of enumeration constants, of the labels of a `switch`, and of the characters that a string gives an
//! array.
#![tactic(auto)]

mod enumerators;
mod labels;
mod texts;

pub use enumerators::enumerator;
pub use labels::take_label;
pub use texts::text_of;
