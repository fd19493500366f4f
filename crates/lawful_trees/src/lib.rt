//! Whether a full expression of a typed program is lawful, so that all that runs may rely on it.
#![tactic(auto)]

mod addresses;
mod expression;
mod initial;
mod lists;
mod names;
mod node_types;
mod nodes;
mod parts;
mod place;
mod plain;
mod types;

pub use addresses::{are_bytes, are_lawful_contents};
pub use expression::is_lawful_expression;
pub use parts::parts_fit;
pub use place::{Around, Purpose};
pub use types::is_sized;
