//! Whether a typed program is lawful, so that all that runs may rely on it: its objects with static storage, its functions, and
//! what is said of the whole.
#![tactic(auto)]

mod addresses;
mod places;
mod program;
mod startup;
mod statics;

pub use program::is_lawful;
pub use startup::is_main_type;
