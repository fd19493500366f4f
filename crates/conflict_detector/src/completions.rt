// What shows as a node is complete, or its operands are.
ghost use Rattle.std.specs.Borrow.{Bor};
ghost use Rattle.std.specs.Prelude.{◌≡◌, ◌∷◌, List, Some, None, IfOk, IfNone, OnOk, false};
ghost use Rattle.ub_base.specs.declared.clause.Kind.{Kind};
ghost use Rattle.c_typed.specs.declared.tree.Typed.{Typed};
ghost use Rattle.elaborate.specs.Roots.{trees_at};
ghost use Rattle.evaluation_log.specs.FoundItems.{IsConflict, ItemsConflict};
ghost use Rattle.evaluation_search.specs.First.{IsFirst, IsFirstOf};
ghost use Rattle.run_evaluations.specs.First.{AreOfNode, AreOfOperands, IsConflictIn};
ghost use Rattle.run_evaluations.specs.Shows.{NoneOfNode, NoneOfTwo, OwnAreLast};
ghost use Rattle.run_evaluations.specs.Told.{Opened, gathered};
ghost use Rattle.run_state.specs.declared.watch.Begun.{Begun};
ghost use Rattle.conflict_detector.specs.Apart.{SeenApart};
ghost use Rattle.conflict_detector.specs.Complete.{AreDone, IsConflictAbove, IsConflictDone, MayGather, above_of};
ghost use Rattle.conflict_detector.specs.Examined.{AreRight};
ghost use Rattle.conflict_detector.specs.Followed.{AreFollowed};
ghost use Rattle.conflict_detector.specs.Recorded.{IsIdle, IsRecording, IsSeen, IsTelling, SeesFirst};
ghost use Rattle.conflict_detector.specs.Shown.{IsLast, IsShown};
ghost use Rattle.conflict_detector.specs.Telling.{TellsAt};

use crate::detector::Detector;
use crate::seen::Seen;
use crate::standing::{apart_in, last_of, seen_of};
use c_typed::Typed;
use evaluation_log::{Found, first_of, last_operand_of};
use run_evaluations::Order;
use run_state::{Begun, View};
use ub_base::NoMemory;

impl Detector {
    /// The operands of this node of the top full expression are done. Gives the first conflict between two of them.
    #[inline(always)]
    pub fn operands_done(
        &mut self,
        roots: &[&Typed],
        v: &View,
        node: u32,
    ) -> Result<Option<Seen>, NoMemory>
        ensures apart { IfOk result (SeenApart (trees_at roots.now)) }
        ensures follows { OnOk result ((b : Begun) (t : Opened) (ts : List Opened) → IsLast v.now.begun.now b → IsShown roots.now b t → TellsAt t node →
            IsRecording roots.now (t ∷ ts) self.old → IsRecording roots.now (gathered node t ∷ ts) self.new) }
        ensures first { (b : Begun) (t : Opened) (ts : List Opened) → IsLast v.now.begun.now b → IsShown roots.now b t → TellsAt t node →
            IsRecording roots.now (t ∷ ts) self.old → t.parts node ≡ false → AreDone t → IfOk result
            (SeesFirst v.now.frames.now (IsConflictIn v.now.frames.now v.now.map.now t (AreOfOperands t node)) (NoneOfTwo v.now.map.now t node)) }
        ensures idle { OnOk result ((roots : List (Bor Typed)) → IsIdle roots self.old → IsIdle roots self.new) }
        ensures none { self.old.recorded ≡ 0 → IfOk result (λ r. r ≡ None) }
    {
        if self.recorded == 0 {
            return Ok(None);
        }
        let seen = self.recorded_operands(roots, v, node)?;
        Ok(seen)
    }

    // The same in a full expression that is recorded.
    #[inline(never)]
    fn recorded_operands(
        &mut self,
        roots: &[&Typed],
        v: &View,
        node: u32,
    ) -> Result<Option<Seen>, NoMemory>
        ensures apart { IfOk result (SeenApart (trees_at roots.now)) }
        ensures follows { OnOk result ((b : Begun) (t : Opened) (ts : List Opened) → IsLast v.now.begun.now b → IsShown roots.now b t → TellsAt t node →
            IsRecording roots.now (t ∷ ts) self.old → IsRecording roots.now (gathered node t ∷ ts) self.new) }
        ensures first { (b : Begun) (t : Opened) (ts : List Opened) → IsLast v.now.begun.now b → IsShown roots.now b t → TellsAt t node →
            IsRecording roots.now (t ∷ ts) self.old → t.parts node ≡ false → AreDone t → IfOk result
            (SeesFirst v.now.frames.now (IsConflictIn v.now.frames.now v.now.map.now t (AreOfOperands t node)) (NoneOfTwo v.now.map.now t node)) }
    {
        let Some(begun) = last_of(v) else {
            return Ok(None);
        };
        let rule = self.known.rule_of(self.alloc, begun, node)?;
        let found = self
            .open
            .open
            .operands_done(v.frames, v.map, node, rule.0, rule.1)?;
        let stands = apart_in(roots, begun, found);
        Ok(seen_of(v, stands))
    }

    /// This node of the top full expression is done. Gives the first conflict between one of its own events and one below it, or of those between the
    /// operands of the node above, where this one is the last of them; none only where there is none of the node.
    #[inline(always)]
    pub fn node_done(
        &mut self,
        roots: &[&Typed],
        v: &View,
        node: u32,
    ) -> Result<Option<Seen>, NoMemory>
        ensures apart { IfOk result (SeenApart (trees_at roots.now)) }
        ensures follows { (b : Begun) (t : Opened) (ts : List Opened) (kind : Kind) → IsLast v.now.begun.now b → IsShown roots.now b t →
            IsTelling roots.now b (t ∷ ts) node kind self.old → AreDone t → OwnAreLast t node → MayGather t (above_of t node) →
            IfOk result (λ r. IfNone r (IsRecording roots.now (t ∷ ts) self.new)) }
        ensures first { (b : Begun) (t : Opened) (ts : List Opened) (kind : Kind) → IsLast v.now.begun.now b → IsShown roots.now b t →
            IsTelling roots.now b (t ∷ ts) node kind self.old → AreDone t → OwnAreLast t node → MayGather t (above_of t node) → IfOk result
            (SeesFirst v.now.frames.now (IsConflictDone v.now.frames.now v.now.map.now t node) (NoneOfNode v.now.map.now t node)) }
        ensures stays { self.old.logged ≡ false → OnOk result (self.new ≡ self.old) }
        ensures none { self.old.logged ≡ false → IfOk result (λ r. r ≡ None) }
    {
        if !self.logged {
            return Ok(None);
        }
        let seen = self.logged_done(roots, v, node)?;
        Ok(seen)
    }

    // The same where the last pick was recorded.
    #[inline(never)]
    fn logged_done(
        &mut self,
        roots: &[&Typed],
        v: &View,
        node: u32,
    ) -> Result<Option<Seen>, NoMemory>
        ensures apart { IfOk result (SeenApart (trees_at roots.now)) }
        ensures follows { (b : Begun) (t : Opened) (ts : List Opened) (kind : Kind) → IsLast v.now.begun.now b → IsShown roots.now b t →
            IsTelling roots.now b (t ∷ ts) node kind self.old → AreDone t → OwnAreLast t node → MayGather t (above_of t node) →
            IfOk result (λ r. IfNone r (IsRecording roots.now (t ∷ ts) self.new)) }
        ensures first { (b : Begun) (t : Opened) (ts : List Opened) (kind : Kind) → IsLast v.now.begun.now b → IsShown roots.now b t →
            IsTelling roots.now b (t ∷ ts) node kind self.old → AreDone t → OwnAreLast t node → MayGather t (above_of t node) → IfOk result
            (SeesFirst v.now.frames.now (IsConflictDone v.now.frames.now v.now.map.now t node) (NoneOfNode v.now.map.now t node)) }
    {
        let Some(begun) = last_of(v) else {
            return Ok(None);
        };
        let order = Order {
            root: begun.root,
            taken: &begun.taken,
        };
        let found = self.open.open.node_done(v.frames, v.map, order, node)?;
        let Some(found) = found else {
            return Ok(None);
        };
        let seen = self.with_above(roots, v, begun, node, found)?;
        Ok(seen)
    }

    // Of this conflict of the node and those between the operands of the node above, where this is the last of them, the one that counts.
    fn with_above(
        &mut self,
        roots: &[&Typed],
        v: &View,
        begun: &Begun,
        node: u32,
        found: Found,
    ) -> Result<Option<Seen>, NoMemory>
        requires { IsConflict found }
        ensures apart { IfOk result (SeenApart (trees_at roots.now)) }
        ensures first { (t : Opened) (ts : List Opened) → AreRight roots.now self.old.known → IsShown roots.now begun.now t →
            AreFollowed (t ∷ ts) self.old.open → AreDone t → MayGather t (above_of t node) →
            IsFirst v.now.frames.now (IsConflictIn v.now.frames.now v.now.map.now t (AreOfNode t node)) found → IfOk result
            (IsSeen v.now.frames.now (IsConflictDone v.now.frames.now v.now.map.now t node)) }
    {
        let more = self.operands_above(v, begun, node)?;
        let first = first_of(v.frames, Some(found), more);
        let stands = apart_in(roots, begun, first);
        Ok(seen_of(v, stands))
    }

    // The first conflict between the operands of the node above this one, where this is the last of them.
    fn operands_above(
        &mut self,
        v: &View,
        begun: &Begun,
        node: u32,
    ) -> Result<Option<Found>, NoMemory>
        ensures conflict { IfOk result ItemsConflict }
        ensures first { (roots : List (Bor Typed)) (t : Opened) (ts : List Opened) → AreRight roots self.old.known → IsShown roots begun.now t →
            AreFollowed (t ∷ ts) self.old.open → AreDone t → MayGather t (above_of t node) → IfOk result
            (IsFirstOf v.now.frames.now (IsConflictAbove v.now.frames.now v.now.map.now t (above_of t node))) }
    {
        let Some(above) = last_operand_of(begun.root, node) else {
            return Ok(None);
        };
        let rule = self.known.rule_of(self.alloc, begun, above)?;
        let found = self
            .open
            .open
            .operands_done(v.frames, v.map, above, rule.0, rule.1)?;
        Ok(found)
    }
}
