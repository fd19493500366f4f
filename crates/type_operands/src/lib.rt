//! Operands of expressions with their types, and their values (ISO/IEC 9899:2011, 6.3.2).
#![tactic(auto)]

mod element;
mod operand;
mod qualifier;

pub use element::step_of;
pub use operand::{
    Form, Operand, access_of, discarded, integer, is_void_place, kind_of, leaf, object_of, place,
    tree_of, value, value_of, with_child, with_children,
};
pub use qualifier::qualified;
