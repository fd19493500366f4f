//! The program that the declarations of a unit make, once all is declared (6.9p3, 6.9p5, 6.9.2).
#![tactic(auto)]

mod finish;
mod lines;
mod startup;
mod statics;

pub use finish::{final_order, finished};
pub use lawful_program::is_main_type;
