//! Declarations and initializers (6.7), over expressions and declarators.
#![tactic(auto)]

mod declarations;
mod initializer;
mod knot;

pub use declarations::{assertion, declaration, declaration_specs, more_parts, named_declarator};
pub use knot::expr;
