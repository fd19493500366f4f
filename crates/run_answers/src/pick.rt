// What a pick came to.

use ub_base::{Event, Kind};

/// What an event completes.
#[derive(Clone, Copy, Debug, PartialEq, Eq)]
pub enum Completed {
    Nothing,
    /// Its node, and all below it.
    Node,
    /// Its node, and with it all below this node, the one above it.
    Operands(u32),
}

/// A pick that was taken. What it completes is said of the canonical order alone.
#[derive(Clone, Copy, Debug, PartialEq, Eq)]
pub enum Pick {
    /// A control step, with the status where it ends the run.
    Step(Option<u8>),
    /// The body that starts a frame.
    Starts(Event),
    /// An event, what it completes, and the status where it ends the run.
    Event(Event, Completed, Option<u8>),
}

impl Pick {
    /// The status of a run that it ends.
    pub fn status(self) -> Option<u8> {
        match self {
            Pick::Step(status) | Pick::Event(_, _, status) => status,
            Pick::Starts(_) => None,
        }
    }
}
