// Where an access falls.

use ub_base::{Event, ObjName};

/// Where an access falls, and what it settles.
#[derive(Clone, Copy)]
pub struct Accessed {
    /// The place of the object.
    pub object: usize,
    pub name: ObjName,
    pub from: u64,
    pub settles: Option<(Event, ObjName)>,
}
