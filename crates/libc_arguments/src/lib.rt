//! The arguments of library functions, and the bytes that they read, write and copy (7.21, 7.22, 7.24).
#![tactic(auto)]

mod arguments;
mod bytes;
mod outputs;
mod targets;

pub use arguments::{Pointer, Range, check, check_string, int_at, pointer_at, read_of, size_at};
pub use bytes::{
    add_read, add_write, block_of, check_writable, expose, filled, finish, numbers, overwrite,
    put_over, read, settle,
};
pub use outputs::check_output;
pub use targets::{check_apart, check_target, copied, low_byte, order_of, target_of};
