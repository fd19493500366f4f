// One byte, and one range of bytes.

use ub_base::ObjName;

/// A byte of an object.
#[derive(Clone, Copy)]
pub struct Byte {
    pub object: ObjName,
    pub at: u64,
}

/// The bytes of an object from one up to but without another.
#[derive(Clone, Copy, PartialEq, Eq)]
pub struct Span {
    pub object: ObjName,
    pub from: u64,
    pub end: u64,
}
