// What was found.

use addr_map::AddrMap;
use ub_base::{Cause, Clause, Event, Frames, Item};

/// A verdict on a run.
#[derive(Clone, Copy, PartialEq, Eq)]
pub enum Verdict {
    Clean { status: u8 },
    Undefined(Clause),
    OrderDependent,
    /// After so many picks.
    OutOfSteps(u64),
    /// The next pick would pass a limit, with the number that would be reached.
    Outside { cause: Cause, number: u64 },
}

impl Verdict {
    /// The clause that is broken.
    pub fn clause(self) -> Option<Clause> {
        match self {
            Verdict::Undefined(clause) => Some(clause),
            _ => None,
        }
    }

    /// The first word of its report.
    pub fn word(self) -> &'static str {
        match self {
            Verdict::Clean { .. } => "clean",
            Verdict::Undefined(_) => "undefined",
            Verdict::OrderDependent => "order-dependent",
            Verdict::OutOfSteps(_) => "out of steps",
            Verdict::Outside { .. } => "outside",
        }
    }
}

/// Two events, their lines, and their items, where there are two; the first one alone, where it broke a clause by itself.
#[derive(Clone, Copy, PartialEq, Eq)]
pub struct Events {
    pub event: Event,
    pub line: u32,
    pub against: Option<(Event, u32)>,
    pub items: Option<(Item, Item)>,
}

/// A verdict with its events, the objects and the frames of the run, and what it wrote.
#[derive(Clone, Copy)]
pub struct Found<'f> {
    pub verdict: Verdict,
    pub events: Option<Events>,
    pub map: &'f AddrMap,
    pub frames: &'f Frames,
    /// What it wrote to standard output.
    pub output: &'f [u8],
    /// What it wrote to standard error.
    pub errors: &'f [u8],
}
