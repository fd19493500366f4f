// What an audit finds.

use addr_map::AddrMap;
use core_run::{Calls, Ran};
use ub_base::{Bytes, Cause, Clause, Event, Frames, Item};

/// The first finding along the canonical order, with the number of picks that lead to it.
#[derive(Clone, Copy, PartialEq, Eq)]
pub enum Finding {
    /// The run ended, and nothing was found.
    Clean {
        status: u8,
        picks: u64,
    },
    /// The event is undefined by the clause; or it races with another (6.5p2).
    Undefined {
        clause: Clause,
        event: Event,
        line: u32,
        race: Option<Race>,
        picks: u64,
    },
    /// Neither of the two evaluations is sequenced before the other, and they conflict in these items (own).
    OrderDependent {
        event: Event,
        line: u32,
        against: Event,
        against_line: u32,
        items: (Item, Item),
        picks: u64,
    },
    /// The budget was used up before the run ended.
    OutOfSteps {
        picks: u64,
    },
    /// The next pick, or the start, would pass a limit, with the number that would be reached.
    Outside {
        cause: Cause,
        number: u64,
        picks: u64,
    },
}

/// The greater event of a race, its line, and the least conflicting accesses of the two events.
#[derive(Clone, Copy, PartialEq, Eq)]
pub struct Race {
    pub against: Event,
    pub against_line: u32,
    pub items: (Item, Item),
}

/// A finding, with what ended the run, the calls of its watch, what was written so far to standard output and to standard error, the
/// objects in the order of their creation, and `main` with the frames that the picks started.
#[derive(Drop)]
pub struct Audit {
    pub finding: Finding,
    pub ran: Ran,
    pub calls: Calls,
    pub output: Bytes,
    pub errors: Bytes,
    pub map: AddrMap,
    pub frames: Frames,
}
