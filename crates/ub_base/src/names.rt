// The names of frames, events and objects, and what an evaluation touches. No order of evaluation changes a name.

use crate::Kind;

/// A frame, by its number: 0 is the first frame of `main`, and i is row i - 1 of `Frames`.
#[derive(Clone, Copy, Debug, PartialEq, Eq, PartialOrd, Ord, Hash)]
pub struct Frame(pub u32);

/// An event of a full expression (own): the frame and the turn in which the full expression begins, the preorder number
/// of a node in it, and which part of that node's evaluation is meant.
#[derive(Clone, Copy, Debug, PartialEq, Eq, PartialOrd, Ord, Hash)]
pub struct Event {
    pub frame: Frame,
    pub turn: u64,
    pub node: u32,
    pub kind: Kind,
}

/// An object (own): with static storage, in the text order of its first definition; a string literal; the array `argv`
/// and the strings that it points to; the object of this number of a block that was entered in this turn of the frame;
/// or one that the event of this name allocated.
#[derive(Clone, Copy, Debug, PartialEq, Eq, PartialOrd, Ord, Hash)]
pub enum ObjName {
    Static(u32),
    Lit(u32),
    Argv,
    Arg(u32),
    Auto { frame: Frame, turn: u64, decl: u32 },
    Heap { frame: Frame, turn: u64, node: u32 },
}

/// What a pick touches (own). A Read or Write of a range stands for one item for each byte.
#[derive(Clone, Copy, Debug, PartialEq, Eq)]
pub enum Item {
    Read {
        object: ObjName,
        from: u64,
        len: u64,
    },
    Write {
        object: ObjName,
        from: u64,
        len: u64,
    },
    Born(ObjName),
    Dies(ObjName),
    Alive(ObjName),
    Expose(ObjName),
    /// An address that was looked up.
    Lookup(u64),
    /// An ambiguity, named by the event that looked it up, was settled or found settled to this object.
    Narrow {
        id: Event,
        keep: ObjName,
    },
    Input,
    Output,
    Ending,
    /// Stands for every event, done or pending, beside an Ending.
    Any,
}
