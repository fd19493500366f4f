// Whether operands conflict, as they are completed.
ghost use Rattle.std.specs.Global.{Global};
ghost use Rattle.std.specs.Prelude.{Box, ◌≡◌, ◌<◌, ◌-◌, ◌∷◌, ℕ, List, vec_len, true, false, IfOk, IfNone, IfSome, OnOk, Some, slice_get, length};
ghost use Rattle.footprint.specs.declared.foot.Foot.{Foot};
ghost use Rattle.evaluation_log.specs.declared.sought.Sought.TheVariants.{Any};
ghost use Rattle.evaluation_log.specs.Clashes.{NoneBetween, AreSorted};
ghost use Rattle.evaluation_log.specs.FoundItems.{ItemsConflict};
ghost use Rattle.evaluation_log.specs.Kept.{Kept, AllBelow, KeepsFeet, Spreads, foot_of, is_unsequenced};
ghost use Rattle.evaluation_log.specs.Touched.{start_of};
ghost use Rattle.evaluation_log.specs.Ways.{node_of};
ghost use Rattle.evaluation_search.specs.First.{AreBetween, AreOnce, AreRising, IsFirst, IsFirstOf, IsOfPair};
ghost use Rattle.run_evaluations.specs.First.{AreOfOperands, IsConflictIn, IsOnce, SequencesNone, expression_in};
ghost use Rattle.run_evaluations.specs.Kept.{IsSameLog, IsTaken, IsKept, NoneOfOperands};
ghost use Rattle.run_evaluations.specs.Follows.{Follows};
ghost use Rattle.run_evaluations.specs.Loose.{IsFullAfter, IsLooseKept};
ghost use Rattle.run_evaluations.specs.Shows.{NoneOfTwo};
ghost use Rattle.run_evaluations.specs.Told.{Opened, TellsNode, gathered};
ghost use Rattle.run_evaluations.specs.Ways.{IsOne};

use crate::open::Evaluations;
use addr_map::AddrMap;
use evaluation_log::{Found, Rule, Under};
use evaluation_search::{Log, take_foot};
use footprint::Foot;
use ub_base::{Frames, NoMemory};

impl Evaluations {
    /// The operands of this node of the top frame's full expression are complete. Gives the first conflict between two of
    /// them.
    pub fn operands_done(
        &mut self,
        frames: &Frames,
        map: &AddrMap,
        node: u32,
        rule: Rule,
        chosen: bool,
    ) -> Result<Option<Found>, NoMemory>
        ensures conflict { IfOk result ItemsConflict }
        ensures kept { IsKept self.old → IsKept self.new }
        ensures loose { IsKept self.old → IsLooseKept self.old → IsLooseKept self.new }
        ensures none { IsKept self.old → is_unsequenced rule ≡ true → IfOk result (λ r. IfNone r (NoneOfOperands map.now self.old node)) }
        ensures follows { OnOk result ((t : Opened) (ts : List Opened) → Follows (t ∷ ts) self.old → TellsNode t node rule chosen →
            Follows (gathered node t ∷ ts) self.new) }
        ensures apart { (t : Opened) (ts : List Opened) → Follows (t ∷ ts) self.old → TellsNode t node rule chosen → t.parts node ≡ false →
            IfOk result (λ r. IfNone r (NoneOfTwo map.now t node)) }
        ensures first { (t : Opened) (ts : List Opened) → Follows (t ∷ ts) self.old → TellsNode t node rule chosen → t.parts node ≡ false →
            SequencesNone t.scope node rule → IsOnce t → IfOk result
            (λ r. IfSome r (IsFirst frames.now (IsConflictIn frames.now map.now t (AreOfOperands t node)))) }
    {
        let at = self.operands(node);
        if at.saturating_add(1) < self.segments.len() {
            return self.several_done(Under { frames, map }, at, node, rule, chosen);
        }
        self.gather(node, rule, chosen);
        Ok(None)
    }

    // The same for several operands, whose segments begin at this one.
    fn several_done(
        &mut self,
        under: Under<'_>,
        at: usize,
        node: u32,
        rule: Rule,
        chosen: bool,
    ) -> Result<Option<Found>, NoMemory>
        requires { at < vec_len self.old.segments }
        ensures conflict { IfOk result ItemsConflict }
        ensures kept { IsKept self.old → AllBelow self.old.levels.items at → IsKept self.new }
        ensures loose { IsKept self.old → AllBelow self.old.levels.items at → IsLooseKept self.old → IsLooseKept self.new }
        ensures none { is_unsequenced rule ≡ true → Kept self.old.segments.items self.old.events.items self.old.items.items self.old.large.items at →
            IfOk result (λ r. IfNone r
            (NoneBetween Any under.entry.map.now self.old.segments.items self.old.events.items self.old.items.items at)) }
        ensures first { Kept self.old.segments.items self.old.events.items self.old.items.items self.old.large.items at →
            AreRising self.old.segments.items self.old.events.items at →
            AreOnce self.old.events.items (start_of self.old.segments.items self.old.events.items at) → IfOk result
            (λ r. IfSome r (λ f. (is_unsequenced rule ≡ true) × IsFirst under.entry.frames.now (IsOfPair under.entry.frames.now under.entry.map.now
            (expression_in (slice_get self.old.levels.items (length self.old.levels.items - 1))) self.old.events.items self.old.items.items
            (AreBetween self.old.segments.items self.old.events.items at)) f)) }
        ensures one { OnOk result (IsOne self.old self.new node at × IsFullAfter self.old self.new at node rule chosen) }
    {
        if !rule.is_unsequenced() {
            self.join(at, node, rule, chosen, None);
            return Ok(None);
        }
        if self.has_conflict(under.map, at)? {
            let found = self.found_between(under, at)?;
            self.join(at, node, rule, chosen, None);
            return Ok(found);
        }
        let foot = self.take_foot(at);
        self.join(at, node, rule, chosen, foot);
        Ok(None)
    }

    pub(crate) fn take_foot(&mut self, at: usize) -> Option<Box<Foot>>
        ensures taken { IsTaken self.old self.new at }
        ensures nodes { (g : ℕ) → node_of (slice_get self.new.segments.items g) ≡ node_of (slice_get self.old.segments.items g) }
        ensures given { result ≡ foot_of (slice_get self.old.segments.items at) }
    {
        take_foot(&mut self.segments, at)
    }

    // Whether two of the operands whose segments begin at this one conflict.
    fn has_conflict(&mut self, map: &AddrMap, at: usize) -> Result<bool, NoMemory>
        ensures same { IsSameLog self.old self.new }
        ensures feet { Kept self.old.segments.items self.old.events.items self.old.items.items self.old.large.items at →
            KeepsFeet self.old.segments.items self.new.segments.items self.old.events.items self.old.items.items at }
        ensures whole { Kept self.old.segments.items self.old.events.items self.old.items.items self.old.large.items at → IfOk result
            (λ b. b ≡ false → (f : Box Foot Global) → foot_of (slice_get self.new.segments.items at) ≡ Some f →
            Spreads self.old.segments.items self.old.events.items self.old.items.items at f.value) }
        ensures none { Kept self.old.segments.items self.old.events.items self.old.items.items self.old.large.items at → IfOk result
            (λ b. b ≡ false → NoneBetween Any map.now self.old.segments.items self.old.events.items self.old.items.items at) }
    {
        if self.all_harmless(at) {
            let _ = self.take_foot(at);
            return Ok(false);
        }
        self.items_conflict(map, at)
    }

    // The same for operands that aren't all harmless.
    fn items_conflict(&mut self, map: &AddrMap, at: usize) -> Result<bool, NoMemory>
        ensures same { IsSameLog self.old self.new }
        ensures feet { Kept self.old.segments.items self.old.events.items self.old.items.items self.old.large.items at →
            KeepsFeet self.old.segments.items self.new.segments.items self.old.events.items self.old.items.items at }
        ensures whole { Kept self.old.segments.items self.old.events.items self.old.items.items self.old.large.items at → IfOk result
            (λ b. b ≡ false → (f : Box Foot Global) → foot_of (slice_get self.new.segments.items at) ≡ Some f →
            Spreads self.old.segments.items self.old.events.items self.old.items.items at f.value) }
        ensures none { Kept self.old.segments.items self.old.events.items self.old.items.items self.old.large.items at → IfOk result
            (λ b. b ≡ false → NoneBetween Any map.now self.old.segments.items self.old.events.items self.old.items.items at) }
    {
        let log = Log {
            alloc: self.alloc,
            events: self.events.as_slice(),
            items: self.items.as_slice(),
            large: self.large.as_slice(),
            loose: self.loose.as_slice(),
        };
        log.has_conflict(&mut self.segments, map, at)
    }

    // The first conflict between the operands whose segments begin at this one.
    pub(crate) fn found_between(
        &self,
        under: Under<'_>,
        at: usize,
    ) -> Result<Option<Found>, NoMemory>
        ensures conflict { IfOk result ItemsConflict }
        ensures none { AreSorted self.now.segments.items self.now.events.items at → IfOk result
            (λ r. IfNone r (NoneBetween Any under.entry.map.now self.now.segments.items self.now.events.items self.now.items.items at)) }
        ensures first { AreSorted self.now.segments.items self.now.events.items at → AreRising self.now.segments.items self.now.events.items at →
            AreOnce self.now.events.items (start_of self.now.segments.items self.now.events.items at) → IfOk result (IsFirstOf under.entry.frames.now
            (IsOfPair under.entry.frames.now under.entry.map.now (expression_in (slice_get self.now.levels.items (length self.now.levels.items - 1)))
            self.now.events.items self.now.items.items (AreBetween self.now.segments.items self.now.events.items at))) }
    {
        self.search(under).found_between(&self.segments, at)
    }
}
