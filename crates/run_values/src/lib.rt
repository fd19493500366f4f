//! What values and places are to the definitions of runs: pointers, the bytes that constants put, and where the objects of a program stand.
#![tactic(auto)]

mod filling;
mod laws;
mod places;
mod values;

pub use filling::Filling;
pub use laws::{law_can_hold, law_values_stay};
pub use places::Places;
pub use values::{Pointer, as_function, as_integer, as_pointer, pointer_to, truth};
