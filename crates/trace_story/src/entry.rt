// What is told of an object.
ghost use Rattle.std.specs.Prelude.{◌≡◌, ◌++◌, [], OnOk, OnErr};

use addr_map::AddrMap;
use core_run::{Calls, Ran};
use std::alloc::Global;
use std::marker::Model;
use ub_base::{Event, Frames, Item, NoMemory, ObjName};

/// What a pick does to the object: the number of the pick, from 1; its event, with the line of its node, or none and 0 where
/// it is a control step; and the item.
#[derive(Clone, Copy)]
pub struct Entry {
    pub pick: u64,
    pub event: Option<Event>,
    pub line: u32,
    pub item: Item,
}

/// Entries in the order of their picks.
#[derive(Drop)]
pub struct Entries {
    items: Vec<Entry>,
}

impl Model for Entries {
    ghost use Rattle.std.specs.Prelude.{List};
    ghost use Rattle.trace_story.specs.declared.entry.Entry.{Entry};

    ghost Value = { List Entry };

    ghost view = { λ e. e.items.items };
}

impl Entries {
    /// No entries.
    pub(crate) fn new(alloc: Global) -> Entries
        ensures { result ≡ [] }
    {
        Entries {
            items: Vec::new(alloc),
        }
    }

    pub fn as_slice(&self) -> &[Entry]
        ensures { result.now ≡ self.now }
    {
        self.items.as_slice()
    }

    // Adds these at the end.
    pub(crate) fn extend(&mut self, more: &[Entry]) -> Result<(), NoMemory>
        ensures ok { OnOk result (self.new ≡ self.old ++ more.now) }
        ensures err { OnErr result (self.new ≡ self.old) }
    {
        self.items.extend_from_slice(more)?;
        Ok(())
    }
}

/// The story of an object, with what shows it: how the run ended, its frames and its objects, the object as this run numbers its
/// frame, none where that frame hasn't started, and the calls of the watch that was told.
#[derive(Drop)]
pub struct Story {
    pub entries: Entries,
    pub frames: Frames,
    pub named: Option<ObjName>,
    pub map: AddrMap,
    pub ran: Ran,
    pub calls: Calls,
}
