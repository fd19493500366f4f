//! The nodes of a syntax tree, what is let go where what stands behind it is refused, and what a function that parses has to
//! answer to be handed to the rules that nest.
#![tactic(auto)]

pub mod behind;
pub mod make;
