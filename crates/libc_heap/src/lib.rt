//! Functions that manage memory (7.22.3): malloc, calloc, realloc and free.
#![tactic(auto)]

mod heap;

pub use heap::{allocate, allocate_zeros, free, reallocate};
