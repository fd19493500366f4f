// What control steps tell of the open evaluations.
ghost use Rattle.std.specs.Borrow.{Bor};
ghost use Rattle.std.specs.Prelude.{◌≡◌, ◌⊎◌, ◌<◌, ◌≤◌, [], ◌∷◌, List, OnOk, length, true, false};
ghost use Rattle.c_typed.specs.declared.tree.Typed.{Typed};
ghost use Rattle.run_evaluations.specs.Scopes.{Scope};
ghost use Rattle.run_evaluations.specs.Told.{Opened, begun, settled};
ghost use Rattle.run_state.specs.declared.watch.Begun.{Begun};
ghost use Rattle.conflict_detector.specs.Examined.{IsNumbered};
ghost use Rattle.conflict_detector.specs.Recorded.{HasBegun, IsIdle, IsQuietTop, IsRecording, MayBegin};
ghost use Rattle.conflict_detector.specs.Shown.{IsLast};

use crate::detector::Detector;
use crate::standing::last_of;
use run_state::{Begun, View};
use ub_base::{Item, NoMemory};

impl Detector {
    /// A control step of the run, which touched these items: a full expression begins, or is settled, or something else.
    #[inline(always)]
    pub fn step(&mut self, v: &View, items: &[Item]) -> Result<(), NoMemory>
        ensures counts { self.new.begun ≡ length v.now.begun.now }
        ensures starts { OnOk result ((roots : List (Bor Typed)) (b : Begun) → self.old.begun < length v.now.begun.now → IsLast v.now.begun.now b →
            IsNumbered roots b.tree b.root.now → IsIdle roots self.old → MayBegin roots b self.new) }
        ensures idle { OnOk result ((roots : List (Bor Typed)) → length v.now.begun.now ≤ self.old.begun → IsIdle roots self.old → IsIdle roots self.new) }
        ensures begins { OnOk result ((roots : List (Bor Typed)) (b : Begun) (t : Opened) (ts : List Opened) (s : Scope) →
            self.old.begun < length v.now.begun.now → IsLast v.now.begun.now b → IsNumbered roots b.tree b.root.now →
            IsRecording roots (t ∷ ts) self.old → t.done ≡ [] → IsRecording roots (begun b.turn s t ∷ ts) self.new) }
        ensures settles { OnOk result ((roots : List (Bor Typed)) (t : Opened) (ts : List Opened) → length v.now.begun.now < self.old.begun →
            self.old.recorded ≤ length v.now.begun.now → IsRecording roots (t ∷ ts) self.old → IsRecording roots (settled t ∷ ts) self.new) }
        ensures closes { OnOk result ((roots : List (Bor Typed)) (t : Opened) (ts : List Opened) → length v.now.begun.now < self.old.begun →
            length v.now.begun.now < self.old.recorded → IsRecording roots (t ∷ ts) self.old → IsIdle roots self.new) }
        ensures stays { OnOk result ((roots : List (Bor Typed)) (os : List Opened) → length v.now.begun.now ≡ self.old.begun →
            IsRecording roots os self.old → IsRecording roots os self.new) }
    {
        self.logged = false;
        let count = v.begun.len();
        let before = self.begun;
        self.begun = count;
        if self.rests(v, before) {
            return Ok(());
        }
        self.recorded_step(v, items, before)?;
        Ok(())
    }

    // Whether a control step changes nothing: none is recorded, and none begins but one that is known to be quiet. So many were open before.
    fn rests(&self, v: &View, before: usize) -> bool
        ensures none { result ≡ true → self.now.recorded ≡ 0 }
        ensures yes { result ≡ true → (length v.now.begun.now ≤ before) ⊎ IsQuietTop v.now.begun.now self.now }
        ensures no { result ≡ false → self.now.recorded ≡ 0 → before < length v.now.begun.now }
    {
        if self.recorded != 0 {
            return false;
        }
        if v.begun.len() <= before {
            return true;
        }
        self.is_quiet(v)
    }

    // A control step where something is recorded, or begins to be. So many full expressions were open before it.
    #[inline(never)]
    fn recorded_step(&mut self, v: &View, items: &[Item], before: usize) -> Result<(), NoMemory>
        ensures counts { self.new.begun ≡ self.old.begun }
        ensures starts { OnOk result ((roots : List (Bor Typed)) (b : Begun) → before < length v.now.begun.now → IsLast v.now.begun.now b →
            IsNumbered roots b.tree b.root.now → IsIdle roots self.old → MayBegin roots b self.new) }
        ensures begins { OnOk result ((roots : List (Bor Typed)) (b : Begun) (t : Opened) (ts : List Opened) (s : Scope) →
            before < length v.now.begun.now → IsLast v.now.begun.now b → IsNumbered roots b.tree b.root.now →
            IsRecording roots (t ∷ ts) self.old → t.done ≡ [] → IsRecording roots (begun b.turn s t ∷ ts) self.new) }
        ensures settles { OnOk result ((roots : List (Bor Typed)) (t : Opened) (ts : List Opened) → length v.now.begun.now < before →
            self.old.recorded ≤ length v.now.begun.now → IsRecording roots (t ∷ ts) self.old → IsRecording roots (settled t ∷ ts) self.new) }
        ensures closes { OnOk result ((roots : List (Bor Typed)) (t : Opened) (ts : List Opened) → length v.now.begun.now < before →
            length v.now.begun.now < self.old.recorded → IsRecording roots (t ∷ ts) self.old → IsIdle roots self.new) }
        ensures stays { OnOk result ((roots : List (Bor Typed)) (os : List Opened) → length v.now.begun.now ≡ before →
            IsRecording roots os self.old → IsRecording roots os self.new) }
    {
        let count = v.begun.len();
        if count > before {
            self.begin(v)?;
            return Ok(());
        }
        if count < before {
            self.settle(count)?;
            return Ok(());
        }
        self.open.open.step(items)?;
        Ok(())
    }

    // So many full expressions are left open.
    fn settle(&mut self, count: usize) -> Result<(), NoMemory>
        ensures counts { self.new.begun ≡ self.old.begun }
        ensures settles { OnOk result ((roots : List (Bor Typed)) (t : Opened) (ts : List Opened) → self.old.recorded ≤ count →
            IsRecording roots (t ∷ ts) self.old → IsRecording roots (settled t ∷ ts) self.new) }
        ensures closes { OnOk result ((roots : List (Bor Typed)) (t : Opened) (ts : List Opened) → count < self.old.recorded →
            IsRecording roots (t ∷ ts) self.old → IsIdle roots self.new) }
    {
        if count < self.recorded {
            self.recorded = 0;
            self.open.close()?;
            return Ok(());
        }
        self.open.settle()?;
        Ok(())
    }

    // A full expression begins.
    fn begin(&mut self, v: &View) -> Result<(), NoMemory>
        ensures counts { self.new.begun ≡ self.old.begun }
        ensures starts { OnOk result ((roots : List (Bor Typed)) (b : Begun) → IsLast v.now.begun.now b → IsNumbered roots b.tree b.root.now →
            IsIdle roots self.old → MayBegin roots b self.new) }
        ensures begins { OnOk result ((roots : List (Bor Typed)) (b : Begun) (t : Opened) (ts : List Opened) (s : Scope) → IsLast v.now.begun.now b →
            IsNumbered roots b.tree b.root.now → IsRecording roots (t ∷ ts) self.old → t.done ≡ [] →
            IsRecording roots (begun b.turn s t ∷ ts) self.new) }
    {
        let Some(begun) = last_of(v) else {
            return Ok(());
        };
        let number = begun.tree;
        self.known.examine(self.alloc, number, begun.root)?;
        if self.recorded > 0 {
            self.open.open.begin(begun.turn);
            return Ok(());
        }
        if self.known.is_quiet(number) {
            return Ok(());
        }
        self.start(v.begun.len(), begun)?;
        Ok(())
    }

    // This full expression is recorded from now on, which is the last of so many that are open.
    pub(crate) fn start(&mut self, count: usize, begun: &Begun) -> Result<(), NoMemory>
        ensures counts { self.new.begun ≡ self.old.begun }
        ensures starts { OnOk result ((roots : List (Bor Typed)) → 0 < count → IsIdle roots self.old → HasBegun roots begun.now self.new) }
    {
        self.open.record(begun.frame, begun.turn)?;
        self.recorded = count;
        Ok(())
    }
}
