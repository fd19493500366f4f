// Where a program writes.

/// Standard output or standard error (7.21.3p7).
#[derive(Clone, Copy, Debug, PartialEq, Eq)]
pub enum Stream {
    Output,
    Errors,
}
