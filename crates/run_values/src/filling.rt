// Bytes of an object.

use prov_memory::Block;

/// Bytes at an offset of an object.
#[derive(Drop)]
pub struct Filling {
    pub at: u64,
    pub bytes: Block,
}
