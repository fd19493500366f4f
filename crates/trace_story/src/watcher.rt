// The watch that tells the story of an object.
ghost use Rattle.std.specs.Prelude.{◌≡◌, map, IsTrue, [], Some};
ghost use Rattle.core_run.specs.Calls.{picks_in};
ghost use Rattle.trace_story.specs.Stories.{mark_of, story_in};

use crate::entry::Entries;
use crate::named::are_same;
use crate::same::same_sought;
use crate::tell::entries_at;
use crate::told::Sought;
use core_run::{Calls, Go, View, Watch};
use prov_memory::Touched;
use std::alloc::Global;
use ub_base::{Event, Frame, Frames, NoMemory};

/// Records the calls of a run and keeps what they tell of the object, where there is one. `frames` order the events that an item
/// names.
#[derive(Drop)]
pub struct Teller<'f> {
    alloc: Global,
    frames: &'f Frames,
    sought: Option<Sought>,
    entries: Entries,
    picks: u64,
    calls: Calls,
    ghost counted: { picks ≡ picks_in calls },
    ghost told: { map mark_of entries ≡ story_in frames.now sought calls },
}

impl<'f> Teller<'f> {
    pub fn new(alloc: Global, frames: &'f Frames, sought: Option<Sought>) -> Self
        ensures calls { result.calls ≡ [] }
        ensures frames { result.frames.now ≡ frames.now }
        ensures sought { result.sought ≡ sought }
    {
        Teller {
            alloc,
            frames,
            sought,
            entries: Entries::new(alloc),
            picks: 0,
            calls: Calls::none(),
        }
    }

    /// Whether it seeks this object and has these frames.
    pub fn seeks(&self, sought: &Sought, frames: &Frames) -> bool
        ensures sought { IsTrue result → self.now.sought ≡ Some sought.now }
        ensures frames { IsTrue result → self.now.frames.now ≡ frames.now }
    {
        match &self.sought {
            Some(own) => same_sought(own, sought) && are_same(self.frames, frames),
            None => false,
        }
    }

    /// The entries, and the calls.
    pub fn into_parts(self) -> (Entries, Calls)
        ensures calls { result.1 ≡ self.entry.calls }
        ensures told { map mark_of result.0 ≡ story_in self.entry.frames.now self.entry.sought result.1 }
    {
        let Teller { entries, calls, .. } = self;
        (entries, calls)
    }
}

impl<'f> Watch for Teller<'f> {
    ghost told = { λ w. Some (picks_in w.calls) };

    ghost heard = { λ w. Some w.calls };

    fn pick(&mut self, v: &View, event: Option<Event>, items: &Touched) -> Result<Go, NoMemory> {
        if self.picks == u64::MAX {
            return Err(NoMemory);
        }
        let more = entries_at(
            self.alloc,
            self.frames,
            self.sought,
            self.picks,
            v,
            event,
            items.items(),
        )?;
        self.entries.extend(more.as_slice())?;
        self.picks += 1;
        self.calls = self.calls.picked(event, items, Go::On);
        Ok(Go::On)
    }

    fn node_done(&mut self, _v: &View, frame: Frame, turn: u64, node: u32) -> Result<Go, NoMemory> {
        self.calls = self.calls.node_done(frame, turn, node, Go::On);
        Ok(Go::On)
    }

    fn operands_done(
        &mut self,
        _v: &View,
        frame: Frame,
        turn: u64,
        node: u32,
    ) -> Result<Go, NoMemory> {
        self.calls = self.calls.operands_done(frame, turn, node, Go::On);
        Ok(Go::On)
    }
}
