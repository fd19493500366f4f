//! Sizes, alignments and offsets of types, the members of structures and unions by name, and where the scalars of a type stand.
#![tactic(auto)]

mod leaves;
mod member_names;
mod shapes;
mod sizes;

pub use leaves::{Leaf, scalars_at};
pub use member_names::{Found, find};
pub use shapes::shape;
pub use sizes::{align, offset_of, size};
