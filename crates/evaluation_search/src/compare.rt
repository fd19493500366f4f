// Whether operands conflict, as they are completed.
ghost use Rattle.std.specs.Prelude.{Box, ◌≡◌, ◌≤◌, ◌||◌, ℕ, suc, false, true, IfOk, None, Some, slice_get};
ghost use Rattle.std.specs.Global.{Global};
ghost use Rattle.footprint.specs.declared.foot.Foot.{Foot};
ghost use Rattle.evaluation_log.specs.declared.log.Logged.{Logged};
ghost use Rattle.evaluation_log.specs.declared.sought.Sought.TheVariants.{Any};
ghost use Rattle.evaluation_log.specs.Clashes.{NoneBetween};
ghost use Rattle.evaluation_log.specs.Kept.{AreApart, Gathers, GathersKept, Joined, Kept, KeepsFeet, Spreads, foot_of, items_of};
ghost use Rattle.evaluation_log.specs.Touched.{start_of};
ghost use Rattle.evaluation_search.specs.Segments.{AreAlike, IsTaken};

use crate::items::items_meet;
use crate::log::Log;
use crate::segments::{items_start, put_foot, segment_start, take_foot};
use addr_map::AddrMap;
use evaluation_log::{Segment, clash};
use footprint::Foot;
use ub_base::NoMemory;

/// Operands of at most so many items together are compared item by item.
const FEW: usize = 32;

impl Log<'_> {
    /// Whether two of the operands conflict whose segments begin at this one. Where none do and they have many items, the first
    /// segment keeps the set of them all.
    pub fn has_conflict(
        &self,
        segments: &mut [Segment],
        map: &AddrMap,
        at: usize,
    ) -> Result<bool, NoMemory>
        ensures same { AreAlike segments.old segments.new }
        ensures feet { Kept segments.old self.now.events.now self.now.items.now self.now.large.now at →
            KeepsFeet segments.old segments.new self.now.events.now self.now.items.now at }
        ensures whole { Kept segments.old self.now.events.now self.now.items.now self.now.large.now at → IfOk result
            (λ b. b ≡ false → (f : Box Foot Global) → foot_of (slice_get segments.new at) ≡ Some f →
            Spreads segments.old self.now.events.now self.now.items.now at f.value) }
        ensures none { Kept segments.old self.now.events.now self.now.items.now self.now.large.now at → IfOk result
            (λ b. b ≡ false → NoneBetween Any map.now segments.old self.now.events.now self.now.items.now at) }
    {
        if self.are_few(segments, at) {
            let meets = self.some_items_conflict(segments, map, at);
            let _ = take_foot(segments, at);
            return Ok(meets);
        }
        self.gathered_conflict(segments, map, at)
    }

    // Whether no body of a frame stands among the operands' events, and few items.
    fn are_few(&self, segments: &[Segment], at: usize) -> bool
        ensures { result ≡ true → (k : ℕ) (e : Logged) → start_of segments.now self.now.events.now at ≤ k →
            slice_get self.now.events.now k ≡ Some e → e.foot ≡ None }
    {
        self.items
            .len()
            .saturating_sub(items_start(segments, self.items, at))
            <= FEW
            && self.have_items_alone(segment_start(segments, self.events, at))
    }

    // Whether an item of one of these segments conflicts with one of a later segment.
    fn some_items_conflict(&self, segments: &[Segment], map: &AddrMap, at: usize) -> bool
        ensures { result ≡ false → (g : ℕ) → at ≤ g → AreApart map.now self.now.items.now
            (items_of segments.now self.now.items.now g) (items_of segments.now self.now.items.now (suc g)) }
    {
        for group in at..segments.len() {
            if items_meet(
                self.items,
                map,
                items_start(segments, self.items, group),
                items_start(segments, self.items, group + 1),
            ) {
                return true;
            }
        }
        false
    }

    // The same for many items, by sets. Where no two conflict, the first segment keeps the set of them all.
    fn gathered_conflict(
        &self,
        segments: &mut [Segment],
        map: &AddrMap,
        at: usize,
    ) -> Result<bool, NoMemory>
        ensures same { AreAlike segments.old segments.new }
        ensures feet { Kept segments.old self.now.events.now self.now.items.now self.now.large.now at →
            KeepsFeet segments.old segments.new self.now.events.now self.now.items.now at }
        ensures whole { Kept segments.old self.now.events.now self.now.items.now self.now.large.now at → IfOk result
            (λ b. b ≡ false → (f : Box Foot Global) → foot_of (slice_get segments.new at) ≡ Some f →
            Spreads segments.old self.now.events.now self.now.items.now at f.value) }
        ensures none { Kept segments.old self.now.events.now self.now.items.now self.now.large.now at → IfOk result
            (λ b. b ≡ false → NoneBetween Any map.now segments.old self.now.events.now self.now.items.now at) }
    {
        let mut all = Foot::new(self.alloc);
        for group in at..segments.len() {
            if self.meets_next(segments, map, at, group, &mut all)? {
                return Ok(true);
            }
        }
        let all = Box::new(self.alloc, all)?;
        put_foot(segments, at, Some(all));
        Ok(false)
    }

    // Whether a further segment conflicts with those before it from `at` on, which have this set. Where it doesn't, the set
    // has its items too.
    fn meets_next(
        &self,
        segments: &mut [Segment],
        map: &AddrMap,
        at: usize,
        group: usize,
        all: &mut Foot,
    ) -> Result<bool, NoMemory>
        ensures taken { IsTaken segments.old segments.new group }
        ensures joined { GathersKept segments.old self.now.events.now self.now.items.now group → IfOk result
            (λ b. b ≡ false → (foot : Foot) × Gathers segments.old self.now.events.now self.now.items.now group foot ×
            Joined map.now segments.new self.now.events.now self.now.large.now at group all.old all.new foot) }
    {
        let foot = self.segment_foot(segments, group)?;
        if clash(all, &foot, map) || self.large_conflict(segments, map, at, group, all, &foot) {
            return Ok(true);
        }
        all.absorb(foot)?;
        Ok(false)
    }

    // The set of the items and small bodies of a segment's events, large bodies left out.
    fn segment_foot(&self, segments: &mut [Segment], group: usize) -> Result<Foot, NoMemory>
        ensures taken { IsTaken segments.old segments.new group }
        ensures gathers { GathersKept segments.old self.now.events.now self.now.items.now group →
            IfOk result (Gathers segments.old self.now.events.now self.now.items.now group) }
    {
        match take_foot(segments, group) {
            Some(foot) => Ok(Box::into_inner(foot)),
            None => self.small_foot(segments, group),
        }
    }
}
