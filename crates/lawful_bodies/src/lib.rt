//! Whether a function of a typed program is lawful, so that all that runs may rely on it.
#![tactic(auto)]

mod distinct;
mod found;
mod full;
mod function;
mod library;
mod parameters;
mod statements;
mod stop;

pub use function::is_lawful_function;
