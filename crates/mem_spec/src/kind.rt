// What an object is.

/// What an object is: allocated by the library, a string literal, defined const.
#[derive(Clone, Copy, Debug, PartialEq, Eq)]
pub struct ObjKind {
    pub heap: bool,
    pub literal: bool,
    pub constant: bool,
}
