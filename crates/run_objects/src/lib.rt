//! What is known of objects and functions before a run: the shape, the size and the alignment that their types give objects, whether they are defined
//! const, how many bytes they count, and the addresses of functions.
#![tactic(auto)]

mod extents;
mod shapes;

pub use extents::{counted, extent, function_address, is_constant, shape_of, total};
pub use shapes::shape;
