// What shows where the run ends.
ghost use Rattle.std.specs.Borrow.{Bor};
ghost use Rattle.std.specs.Prelude.{◌≡◌, ◌≤◌, ◌-◌, ◌∷◌, ℕ, List, Option, Some, None, IfOk, OnOk, slice_get, length};
ghost use Rattle.c_typed.specs.declared.tree.Typed.{Typed};
ghost use Rattle.elaborate.specs.Roots.{trees_at};
ghost use Rattle.evaluation_log.specs.declared.found.Found.{Found};
ghost use Rattle.evaluation_log.specs.FoundItems.{ItemsConflict, first_found};
ghost use Rattle.evaluation_search.specs.First.{IsFirstOf};
ghost use Rattle.run_evaluations.specs.Told.{Opened};
ghost use Rattle.run_state.specs.declared.watch.Begun.{Begun};
ghost use Rattle.conflict_detector.specs.Apart.{FoundApart, SeenApart};
ghost use Rattle.conflict_detector.specs.Complete.{AllEnd, CanEnd, IsConflictAtTop, SeesEnd};
ghost use Rattle.conflict_detector.specs.Examined.{AreRight, IsNumbered};
ghost use Rattle.conflict_detector.specs.Followed.{AreFollowed, AreFollowedBelow};
ghost use Rattle.conflict_detector.specs.Recorded.{IsRecording};
ghost use Rattle.conflict_detector.specs.Shown.{IsShown};

use crate::detector::Detector;
use crate::seen::Seen;
use crate::standing::{apart_in, seen_of};
use c_typed::Typed;
use evaluation_log::{Found, first_of};
use run_state::{Begun, View};
use ub_base::NoMemory;

impl Detector {
    /// An end of the run: the first conflict of all that have both sides by now, in each full expression up to the outermost one that is recorded.
    pub(crate) fn end(&mut self, roots: &[&Typed], v: &View) -> Result<Option<Seen>, NoMemory>
        ensures apart { IfOk result (SeenApart (trees_at roots.now)) }
        ensures first { (os : List Opened) → IsRecording roots.now os self.old → self.old.recorded ≤ length v.now.begun.now →
            AllEnd roots.now v.now.begun.now (self.old.recorded - 1) (length v.now.begun.now - (self.old.recorded - 1)) os → IfOk result
            (SeesEnd v.now.frames.now v.now.map.now (length v.now.begun.now - (self.old.recorded - 1)) os) }
    {
        let mut best = None;
        for i in (self.recorded..v.begun.len()).rev() {
            best = self.ended_at(roots, v, i, best)?;
            self.open.leave()?;
        }
        let outermost = self.recorded.saturating_sub(1);
        let best = self.ended_at(roots, v, outermost, best)?;
        Ok(seen_of(v, best))
    }

    // The first conflict so far, with those in the full expression of this place.
    fn ended_at(
        &mut self,
        roots: &[&Typed],
        v: &View,
        i: usize,
        best: Option<Found>,
    ) -> Result<Option<Found>, NoMemory>
        requires { ItemsConflict best }
        ensures conflict { IfOk result ItemsConflict }
        ensures apart { FoundApart (trees_at roots.now) best → IfOk result (FoundApart (trees_at roots.now)) }
        ensures counts { self.new.recorded ≡ self.old.recorded }
        ensures follows { OnOk result ((b : Begun) (t : Opened) (ts : List Opened) → slice_get v.now.begun.now i ≡ Some b →
            IsNumbered roots.now b.tree b.root.now →
            AreRight roots.now self.old.known → AreFollowed (t ∷ ts) self.old.open →
            AreRight roots.now self.new.known × AreFollowedBelow t ts self.new.open) }
        ensures first { (b : Begun) (t : Opened) (ts : List Opened) → slice_get v.now.begun.now i ≡ Some b → IsShown roots.now b t → CanEnd t →
            AreRight roots.now self.old.known → AreFollowed (t ∷ ts) self.old.open → IfOk result (λ r. (found : Option Found) ×
            (r ≡ first_found v.now.frames.now best found) × IsFirstOf v.now.frames.now (IsConflictAtTop v.now.frames.now v.now.map.now t) found) }
    {
        let Some(begun) = v.begun.get(i) else {
            return Ok(best);
        };
        let found = self.ended(v, begun)?;
        let stands = apart_in(roots, begun, found);
        Ok(first_of(v.frames, best, stands))
    }

    // The first conflict of those in this full expression that have both sides where the run ends.
    fn ended(&mut self, v: &View, begun: &Begun) -> Result<Option<Found>, NoMemory>
        ensures conflict { IfOk result ItemsConflict }
        ensures counts { self.new.recorded ≡ self.old.recorded }
        ensures follows { OnOk result ((roots : List (Bor Typed)) (t : Opened) (ts : List Opened) → IsNumbered roots begun.now.tree begun.now.root.now →
            AreRight roots self.old.known → AreFollowed (t ∷ ts) self.old.open →
            AreRight roots self.new.known × AreFollowedBelow t ts self.new.open) }
        ensures first { (roots : List (Bor Typed)) (t : Opened) (ts : List Opened) → IsShown roots begun.now t → CanEnd t → AreRight roots self.old.known →
            AreFollowed (t ∷ ts) self.old.open → IfOk result
            (IsFirstOf v.now.frames.now (IsConflictAtTop v.now.frames.now v.now.map.now t)) }
    {
        let number = begun.tree;
        self.known.examine(self.alloc, number, begun.root)?;
        let Some(rules) = self.known.rules(number) else {
            return Ok(None);
        };
        let found = self.open.open.ended(v.frames, v.map, begun.root, rules)?;
        Ok(found)
    }
}
