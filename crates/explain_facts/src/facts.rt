// What was seen of a run.

use c_typed::Slot;
use std::alloc::Global;
use ub_base::{Bytes, Event, Frame, Frames, ObjName};

/// A full expression that is open, with the number of its tree.
#[derive(Clone, Copy, PartialEq, Eq)]
pub struct Opened {
    pub frame: Frame,
    pub turn: u64,
    pub tree: u32,
}

/// An address, and the object that a pointer to it may be used for, where that is known to be one.
#[derive(Clone, Copy, PartialEq, Eq)]
pub struct Aim {
    pub addr: u64,
    pub object: Option<ObjName>,
}

/// A value as far as it can be shown.
#[derive(Clone, Copy, PartialEq, Eq)]
pub enum Shown {
    Integer(i128),
    Pointer(Aim),
    Other,
}

/// What is open before the last pick of a run, the values of the nodes of the innermost full expression by their numbers, the
/// place that the event of that pick accesses, and the object that the pointer which is stored there points to.
#[derive(Drop)]
pub struct Moment {
    pub open: Vec<Opened>,
    pub values: Vec<Shown>,
    pub place: Option<Aim>,
    pub held: Option<ObjName>,
}

impl Moment {
    /// Nothing is open.
    pub fn new(alloc: Global) -> Moment {
        Moment {
            open: Vec::new(alloc),
            values: Vec::new(alloc),
            place: None,
            held: None,
        }
    }

    /// The value of the node of this number, where it has been evaluated.
    pub fn value(&self, node: u32) -> Shown {
        match self.values.get(node as usize) {
            Some(value) => *value,
            None => Shown::Other,
        }
    }

    /// The innermost full expression that is open.
    pub fn innermost(&self) -> Option<Opened> {
        match self.open.as_slice().last() {
            Some(opened) => Some(*opened),
            None => None,
        }
    }
}

/// Bytes of an object.
#[derive(Clone, Copy, PartialEq, Eq)]
pub struct Sought {
    pub object: ObjName,
    pub from: u64,
    pub len: u64,
}

/// An act on an object: its full expression, the one that called it, its node, and the bytes.
#[derive(Clone, Copy, PartialEq, Eq)]
pub struct Touch {
    pub opened: Opened,
    pub caller: Option<Opened>,
    pub node: u32,
    pub writes: bool,
    pub from: u64,
    pub len: u64,
}

/// How a text names an automatic object: by its slot, in one of these full expressions, from the first up to the last.
#[derive(Clone, Copy, PartialEq, Eq)]
pub struct Named {
    pub slot: Slot,
    pub first: u32,
    pub last: u32,
}

/// A call of malloc, calloc or realloc that gave null for so many bytes, which are above what one allocation gives.
#[derive(Clone, Copy, PartialEq, Eq)]
pub struct Unallocated {
    pub touch: Touch,
    pub size: u128,
}

/// What a run does to the bytes of an object: who touched them, who stored to them last, and which object was read last before
/// that, where so many bytes of it were; where the object was born and ended, and how the text names it; and what ended the
/// program, and the first allocation that gave null at a limit.
#[derive(Drop)]
pub struct Trail {
    pub touches: Vec<Touch>,
    pub stored: Option<Touch>,
    pub source: Option<ObjName>,
    pub born: Option<Touch>,
    pub died: Option<Touch>,
    pub named: Option<Named>,
    pub ending: Option<Touch>,
    pub unallocated: Option<Unallocated>,
}

impl Trail {
    /// Nothing yet.
    pub fn new(alloc: Global) -> Trail {
        Trail {
            touches: Vec::new(alloc),
            stored: None,
            source: None,
            born: None,
            died: None,
            named: None,
            ending: None,
            unallocated: None,
        }
    }
}

/// How a run ended: its status and its output.
#[derive(Drop)]
pub struct Outcome {
    pub status: u8,
    pub output: Bytes,
}

/// Whether this touch happened in the body of the call that an event is: straight, or in a call from there.
pub fn is_within(frames: &Frames, touch: &Touch, event: &Event) -> bool {
    let mut frame = touch.opened.frame;
    for _ in 0..frames.len() {
        if frame.0 == 0 || frame.0 > frames.len() {
            return false;
        }
        let (parent, turn, node) = frames.row(frame);
        if parent == event.frame && turn == event.turn && node == event.node {
            return true;
        }
        frame = parent;
    }
    false
}
