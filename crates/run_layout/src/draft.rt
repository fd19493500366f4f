// A function in the making.

use crate::nodes::Objects;

// The function that is in the making.
#[derive(Drop)]
pub struct FunctionDraft {
    pub objects: Objects,
    // How many objects its blocks have so far.
    pub count: u32,
}
