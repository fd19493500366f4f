// The open evaluations of a run, and its first conflict.
ghost use Rattle.std.specs.Borrow.{Bor};
ghost use Rattle.std.specs.Prelude.{◌≡◌, ◌≢◌, ◌<◌, ◌-◌, [], List, None, IfOk, OnOk, Contains, true, false, length};
ghost use Rattle.ub_base.specs.declared.clause.Kind.TheVariants.{Body};
ghost use Rattle.ub_base.specs.declared.names.Item.TheVariants.{Ending};
ghost use Rattle.c_typed.specs.declared.tree.Typed.{Typed};
ghost use Rattle.elaborate.specs.Roots.{trees_at};
ghost use Rattle.run_evaluations.specs.Told.{Opened};
ghost use Rattle.run_state.specs.declared.watch.Begun.{Begun};
ghost use Rattle.conflict_detector.specs.Apart.{SeenApart};
ghost use Rattle.conflict_detector.specs.Complete.{IsEnded, MayEnd};
ghost use Rattle.conflict_detector.specs.Examined.{AreRight, IsNumbered, IsQuietRoot};
ghost use Rattle.conflict_detector.specs.Recorded.{HasBegun, HasTold, IsDecided, IsFollowed, IsFollowedIdle, IsIdle, IsQuietTop, IsRecording};
ghost use Rattle.conflict_detector.specs.Recorded.{MayTell, NoneNoted};
ghost use Rattle.conflict_detector.specs.Shown.{IsLast};
ghost use Rattle.conflict_detector.specs.Telling.{IsOpen};

use crate::examined::Expressions;
use crate::frames::RecordedFrames;
use crate::seen::Seen;
use crate::standing::last_of;
use c_typed::Typed;
use quiet_trees::some_noted;
use run_state::View;
use std::alloc::Global;
use ub_base::{Event, Item, Kind, NoMemory};

/// Keeps the open evaluations of a run, and finds its first conflict. A full expression in which no two evaluations may conflict of
/// which neither is sequenced before the other is quiet, and isn't recorded, nor are the frames that it starts: only its events with
/// items that are noted are. Where it stands in a body that another expression records, what it touches is kept for that body.
#[derive(Drop)]
pub struct Detector {
    pub(crate) alloc: Global,
    pub(crate) open: RecordedFrames,
    // what is known of each full expression that has begun once
    pub(crate) known: Expressions,
    // how many full expressions were open at the last control step
    pub(crate) begun: usize,
    // how many are open up to the outermost one that is recorded; 0 where none is, and then each that is open is quiet
    pub(crate) recorded: usize,
    // whether the last pick was an event that is recorded
    pub(crate) logged: bool,
}

// What is recorded of an event.
enum Recording {
    // nothing, and nothing more from now on
    Closes,
    // only what it touched, for the body that it stands in
    Items,
    Event,
    // the event, with which recording begins
    Begins,
}

impl Detector {
    /// Nothing is recorded.
    pub fn new(alloc: Global) -> Result<Self, NoMemory>
        ensures idle { IfOk result (λ d. (roots : List (Bor Typed)) → IsIdle roots d) }
    {
        Ok(Detector {
            alloc,
            open: RecordedFrames::new(alloc)?,
            known: Expressions::new(alloc),
            begun: 0,
            recorded: 0,
            logged: false,
        })
    }

    // Whether the top full expression is known to be quiet.
    pub(crate) fn is_quiet(&self, v: &View) -> bool
        ensures { result ≡ true → IsQuietTop v.now.begun.now self.now }
    {
        match last_of(v) {
            Some(begun) => self.known.is_quiet(begun.tree),
            None => false,
        }
    }

    /// An event of the run, which touched these items. Gives the first conflict of all that have both sides by now, where the run ends in it.
    #[inline(always)]
    pub fn event(
        &mut self,
        roots: &[&Typed],
        v: &View,
        event: Event,
        items: &[Item],
    ) -> Result<Option<Seen>, NoMemory>
        ensures apart { IfOk result (SeenApart (trees_at roots.now)) }
        ensures follows { OnOk result ((b : Begun) (os : List Opened) → ((event.kind ≡ Body) → Contains items.now Ending → ⊥) → IsLast v.now.begun.now b →
            IsNumbered roots.now b.tree b.root.now → IsRecording roots.now os self.old → IsOpen event.frame os → MayTell roots.now b os event →
            IsFollowed roots.now b os event items.now v.now.top self.new) }
        ensures idle { OnOk result ((b : Begun) → ((event.kind ≡ Body) → Contains items.now Ending → ⊥) → IsLast v.now.begun.now b → b.frame ≡ event.frame →
            IsIdle roots.now self.old → IsFollowedIdle roots.now b event items.now v.now.top self.new) }
        ensures goes_on { ((event.kind ≡ Body) → Contains items.now Ending → ⊥) → IfOk result (λ r. r ≡ None) }
        ensures ends { (b : Begun) (os : List Opened) → event.kind ≡ Body → Contains items.now Ending → v.now.top ≡ event.frame →
            IsLast v.now.begun.now b → IsNumbered roots.now b.tree b.root.now → IsRecording roots.now os self.old → IsOpen event.frame os →
            MayTell roots.now b os event → MayEnd roots.now v.now.begun.now self.old.recorded b os event items.now → IfOk result
            (IsEnded v.now.frames.now v.now.map.now (length v.now.begun.now - (self.old.recorded - 1)) b os event items.now) }
        ensures none { self.old.recorded ≡ 0 → event.kind ≡ Body → IfOk result (λ r. r ≡ None) }
    {
        self.logged = false;
        if self.passes_over(event, items) {
            return Ok(None);
        }
        let seen = self.recorded_event(roots, v, event, items)?;
        Ok(seen)
    }

    // Whether an event changes nothing: none is recorded, and this one has no items that are noted, or is a body.
    fn passes_over(&self, event: Event, items: &[Item]) -> bool
        ensures noted { result ≡ true → event.kind ≢ Body → NoneNoted items.now }
        ensures none { result ≡ true → self.now.recorded ≡ 0 }
        ensures body { result ≡ false → self.now.recorded ≡ 0 → event.kind ≢ Body }
    {
        self.recorded == 0 && (event.kind == Kind::Body || !some_noted(items))
    }

    // An event that isn't passed over. This and what follows isn't inlined, so that picks that are passed over cost next to nothing.
    #[inline(never)]
    fn recorded_event(
        &mut self,
        roots: &[&Typed],
        v: &View,
        event: Event,
        items: &[Item],
    ) -> Result<Option<Seen>, NoMemory>
        ensures apart { IfOk result (SeenApart (trees_at roots.now)) }
        ensures follows { OnOk result ((b : Begun) (os : List Opened) → ((event.kind ≡ Body) → Contains items.now Ending → ⊥) → IsLast v.now.begun.now b →
            IsNumbered roots.now b.tree b.root.now → IsRecording roots.now os self.old → IsOpen event.frame os → MayTell roots.now b os event →
            IsFollowed roots.now b os event items.now v.now.top self.new) }
        ensures idle { OnOk result ((b : Begun) → ((event.kind ≡ Body) → Contains items.now Ending → ⊥) → IsLast v.now.begun.now b → b.frame ≡ event.frame →
            IsIdle roots.now self.old → IsFollowedIdle roots.now b event items.now v.now.top self.new) }
        ensures goes_on { ((event.kind ≡ Body) → Contains items.now Ending → ⊥) → IfOk result (λ r. r ≡ None) }
        ensures ends { (b : Begun) (os : List Opened) → event.kind ≡ Body → Contains items.now Ending → v.now.top ≡ event.frame →
            IsLast v.now.begun.now b → IsNumbered roots.now b.tree b.root.now → IsRecording roots.now os self.old → IsOpen event.frame os →
            MayTell roots.now b os event → MayEnd roots.now v.now.begun.now self.old.recorded b os event items.now → IfOk result
            (IsEnded v.now.frames.now v.now.map.now (length v.now.begun.now - (self.old.recorded - 1)) b os event items.now) }
    {
        let logs = self.log(v, event, items)?;
        if !logs {
            return Ok(None);
        }
        if !is_end(event, items) {
            return Ok(None);
        }
        let seen = self.end(roots, v)?;
        Ok(seen)
    }

    // Records what is to be recorded of an event, and says whether that is the event itself.
    fn log(&mut self, v: &View, event: Event, items: &[Item]) -> Result<bool, NoMemory>
        ensures follows { OnOk result ((roots : List (Bor Typed)) (b : Begun) (os : List Opened) → IsLast v.now.begun.now b →
            IsNumbered roots b.tree b.root.now → IsRecording roots os self.old → IsOpen event.frame os → MayTell roots b os event →
            IsFollowed roots b os event items.now v.now.top self.new) }
        ensures idle { OnOk result ((roots : List (Bor Typed)) (b : Begun) → IsLast v.now.begun.now b → b.frame ≡ event.frame → IsIdle roots self.old →
            IsFollowedIdle roots b event items.now v.now.top self.new) }
        ensures told { IfOk result (λ l. l ≡ true → (roots : List (Bor Typed)) (b : Begun) (os : List Opened) → IsLast v.now.begun.now b →
            IsRecording roots os self.old → IsOpen event.frame os → MayTell roots b os event →
            HasTold roots b os event items.now v.now.top self.new × (self.new.recorded ≡ self.old.recorded)) }
        ensures left { IfOk result (λ l. l ≡ false → event.kind ≡ Body → (roots : List (Bor Typed)) (b : Begun) → AreRight roots self.old.known →
            IsLast v.now.begun.now b → IsNumbered roots b.tree b.root.now → IsQuietRoot b.root.now) }
    {
        match self.recording(v, event, items) {
            Recording::Closes => {
                self.recorded = 0;
                self.open.close()?;
                Ok(false)
            }
            Recording::Items => {
                self.open.reach(event.frame)?;
                self.open.open.step(items)?;
                Ok(false)
            }
            Recording::Begins => {
                self.restart(v)?;
                self.log_event(v, event, items)?;
                Ok(true)
            }
            Recording::Event => {
                self.log_event(v, event, items)?;
                Ok(true)
            }
        }
    }

    // The full expression on top is recorded from now on.
    fn restart(&mut self, v: &View) -> Result<(), NoMemory>
        ensures starts { OnOk result ((roots : List (Bor Typed)) (b : Begun) → IsLast v.now.begun.now b → IsIdle roots self.old →
            HasBegun roots b self.new) }
    {
        let Some(begun) = last_of(v) else {
            return Ok(());
        };
        self.start(v.begun.len(), begun)?;
        Ok(())
    }

    // What is recorded of an event of the top full expression that isn't passed over. One that is quiet is recorded from an event on with items that are
    // noted, up to a body: each event before a body is sequenced before it and so before all that follow it. In a quiet one inside a body
    // that is recorded, what an event touches is kept for that body.
    fn recording(&self, v: &View, event: Event, items: &[Item]) -> Recording
        ensures decided { IsDecided v.now.begun.now event items.now self.now result }
    {
        if self.recorded == 0 {
            return Recording::Begins;
        }
        if !self.is_quiet(v) {
            return Recording::Event;
        }
        let body = event.kind == Kind::Body;
        let inside = self.recorded < v.begun.len();
        if body && !inside {
            return Recording::Closes;
        }
        if inside && !body && !some_noted(items) {
            return Recording::Items;
        }
        Recording::Event
    }

    // The frames above that of the event are left, and the event is recorded.
    fn log_event(&mut self, v: &View, event: Event, items: &[Item]) -> Result<(), NoMemory>
        ensures follows { OnOk result ((roots : List (Bor Typed)) (b : Begun) (os : List Opened) → IsLast v.now.begun.now b →
            IsRecording roots os self.old → IsOpen event.frame os → MayTell roots b os event →
            HasTold roots b os event items.now v.now.top self.new) }
        ensures counts { self.new.recorded ≡ self.old.recorded }
    {
        self.logged = true;
        self.open.reach(event.frame)?;
        let Some(begun) = last_of(v) else {
            return Ok(());
        };
        let rule = self.known.rule_of(self.alloc, begun, event.node)?;
        self.open.tell(v.top, event, items, rule.0, rule.1)?;
        Ok(())
    }
}

// Whether the run ends in this event, or in the frame that it started.
fn is_end(event: Event, items: &[Item]) -> bool
    ensures body { result ≡ true → event.kind ≡ Body }
    ensures ending { result ≡ true → Contains items.now Ending }
    ensures no { result ≡ false → event.kind ≡ Body → Contains items.now Ending → ⊥ }
{
    event.kind == Kind::Body && items.contains(&Item::Ending)
}
