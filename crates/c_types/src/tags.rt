// Structures and unions (6.7.2.1).

use crate::Qual;
use ub_base::{Bytes, Items};

#[derive(Clone, Copy, Debug, PartialEq, Eq)]
pub enum TagKind {
    Struct,
    Union,
}

/// A member, in the order of its declaration; an unnamed structure or union has an empty name (6.7.2.1p13).
#[derive(Drop)]
pub struct Member {
    pub name: Bytes,
    pub qual: Qual,
}

/// The content of a structure or union; one without members is incomplete.
#[derive(Drop)]
pub struct Tag {
    pub kind: TagKind,
    pub members: Items<Member>,
}

/// How many bytes a type has, and of which number its address is a multiple.
#[derive(Clone, Copy, Debug, PartialEq, Eq)]
pub struct Extent {
    pub size: u64,
    pub align: u64,
}

/// A structure or union and, where it is complete, its extent.
#[derive(Drop)]
pub(crate) struct Row {
    pub tag: Tag,
    pub extent: Option<Extent>,
}
