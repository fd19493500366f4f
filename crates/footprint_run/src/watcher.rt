// The watch of an audit.
ghost use Rattle.std.specs.Prelude.{◌≡◌, [], List, IfOk, Some, IsSome};
ghost use Rattle.c_typed.specs.Tree.{Tree};
ghost use Rattle.core_run.specs.Calls.{HasStopped, picks_in};
ghost use Rattle.elaborate.specs.Roots.{trees_at};
ghost use Rattle.conflict_detector.specs.Apart.{SeenApart};
ghost use Rattle.footprint_run.specs.Record.{Sees};

use c_typed::Typed;
use conflict_detector::{Detector, Seen};
use core_run::{Calls, Go, View, Watch};
use prov_memory::Touched;
use std::alloc::Global;
use ub_base::{Event, Frame, Item, NoMemory};

/// Stops a run at its first conflict, and records its calls and what it has seen, which is something once it has stopped.
#[derive(Drop)]
pub struct Watcher<'p> {
    // the program's full expressions
    roots: &'p [&'p Typed],
    detector: Detector,
    calls: Calls,
    seen: Option<Seen>,
    ghost stopped: { HasStopped (Some calls) → IsSome seen },
    ghost apart: { SeenApart (trees_at roots.now) seen },
}

impl<'p> Watcher<'p> {
    pub fn new(alloc: Global, roots: &'p [&'p Typed]) -> Result<Self, NoMemory>
        ensures calls { IfOk result (λ w. w.calls ≡ []) }
        ensures roots { IfOk result (λ w. w.roots.now ≡ roots.now) }
    {
        Ok(Watcher {
            roots,
            detector: Detector::new(alloc)?,
            calls: Calls::none(),
            seen: None,
        })
    }

    /// The calls, and what was seen.
    pub fn into_parts(self) -> (Calls, Option<Seen>)
        ensures calls { result.0 ≡ self.entry.calls }
        ensures stopped { HasStopped (Some self.entry.calls) → IsSome result.1 }
        ensures apart { SeenApart (trees_at self.entry.roots.now) result.1 }
    {
        let Watcher { calls, seen, .. } = self;
        (calls, seen)
    }
}

impl<'p> Watch for Watcher<'p> {
    ghost told = { λ w. Some (picks_in w.calls) };

    ghost heard = { λ w. Some w.calls };

    ghost trees = { λ w. trees_at w.roots.now };

    #[inline(always)]
    fn pick(&mut self, v: &View, event: Option<Event>, items: &Touched) -> Result<Go, NoMemory> {
        let seen = picked(&mut self.detector, self.roots, v, event, items.items())?;
        let go = note(&mut self.seen, seen);
        self.calls = self.calls.picked(event, items, go);
        Ok(go)
    }

    #[inline(always)]
    fn node_done(&mut self, v: &View, frame: Frame, turn: u64, node: u32) -> Result<Go, NoMemory> {
        let seen = self.detector.node_done(self.roots, v, node)?;
        let go = note(&mut self.seen, seen);
        self.calls = self.calls.node_done(frame, turn, node, go);
        Ok(go)
    }

    #[inline(always)]
    fn operands_done(
        &mut self,
        v: &View,
        frame: Frame,
        turn: u64,
        node: u32,
    ) -> Result<Go, NoMemory> {
        let seen = self.detector.operands_done(self.roots, v, node)?;
        let go = note(&mut self.seen, seen);
        self.calls = self.calls.operands_done(frame, turn, node, go);
        Ok(go)
    }
}

// A control step, or an event of the run.
#[inline(always)]
fn picked(
    detector: &mut Detector,
    roots: &[&Typed],
    v: &View,
    event: Option<Event>,
    items: &[Item],
) -> Result<Option<Seen>, NoMemory>
    ensures { IfOk result (SeenApart (trees_at roots.now)) }
{
    let Some(event) = event else {
        detector.step(v, items)?;
        return Ok(None);
    };
    detector.event(roots, v, event, items)
}

// Keeps what is seen at a call, and stops there.
#[inline(always)]
fn note(last: &mut Option<Seen>, seen: Option<Seen>) -> Go
    ensures { (trees : List Tree) → SeenApart trees seen → Sees trees last.old last.new result }
{
    match seen {
        Some(new) => {
            *last = Some(new);
            Go::Stop
        }
        None => Go::On,
    }
}
