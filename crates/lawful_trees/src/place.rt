// Where a full expression stands, and what for.

use c_types::Qual;

/// What a full expression is for (6.8p4).
#[derive(Clone, Copy, PartialEq, Eq)]
pub enum Purpose {
    Unused,
    Tested,
    Selects,
    Returned,
    Initializes,
}

/// A block round a place: its number in the function, and the types of its objects.
#[derive(Clone, Copy)]
pub struct Around<'a> {
    pub number: u32,
    pub objects: &'a [Qual],
}
