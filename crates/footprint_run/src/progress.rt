// How far a run is.
ghost use Rattle.std.specs.Prelude.{Some};
ghost use Rattle.core_run.specs.Calls.{picks_in};
ghost use Rattle.elaborate.specs.Roots.{trees_at};

use crate::watcher::Watcher;
use core_run::{Go, View, Watch};
use prov_memory::Touched;
use ub_base::{Event, Frame, NoMemory};

/// Is told how far runs are, one run after the other. It sees nothing of a run but how many picks it took.
pub trait Progress {
    /// A run begins that takes at most `budget` picks.
    fn begin(&mut self, budget: u64);

    /// The run took so many picks so far: a multiple of 2^20, each one in turn.
    fn picked(&mut self, picks: u64);

    /// The run is over, or memory ran out.
    fn end(&mut self);
}

/// Tells nobody.
#[derive(Clone, Copy)]
pub struct Quiet;

impl Progress for Quiet {
    fn begin(&mut self, _budget: u64) {}

    fn picked(&mut self, _picks: u64) {}

    fn end(&mut self) {}
}

// How many picks lie between two that are told.
const STRIDE: u64 = 1 << 20;

/// The watch of an audit, whose picks are counted and told.
#[derive(Drop)]
pub struct ToldWatcher<'t, 'p, P> {
    pub watcher: Watcher<'p>,
    pub picks: u64,
    pub progress: &'t mut P,
}

impl<P: Progress> Watch for ToldWatcher<'_, '_, P> {
    ghost told = { λ w. Some (picks_in w.watcher.calls) };

    ghost heard = { λ w. Some w.watcher.calls };

    ghost trees = { λ w. trees_at w.watcher.roots.now };

    #[inline(always)]
    fn pick(&mut self, v: &View, event: Option<Event>, items: &Touched) -> Result<Go, NoMemory> {
        let go = self.watcher.pick(v, event, items)?;
        self.picks = self.picks.wrapping_add(1);
        if self.picks % STRIDE == 0 {
            self.progress.picked(self.picks);
        }
        Ok(go)
    }

    #[inline(always)]
    fn node_done(&mut self, v: &View, frame: Frame, turn: u64, node: u32) -> Result<Go, NoMemory> {
        self.watcher.node_done(v, frame, turn, node)
    }

    #[inline(always)]
    fn operands_done(
        &mut self,
        v: &View,
        frame: Frame,
        turn: u64,
        node: u32,
    ) -> Result<Go, NoMemory> {
        self.watcher.operands_done(v, frame, turn, node)
    }
}
