// A node's own events beside those of the list: the first conflict, of those of which neither is sequenced before the other.
ghost use Rattle.std.specs.Prelude.{◌≡◌, ◌≤◌, ◌<◌, ◌-◌, ◌^◌, ℕ, true, false, length, slice_get, Some, None, IfOk, IfNone};
ghost use Rattle.c_typed.specs.Tree.{size, tree_of};
ghost use Rattle.seq_order.specs.Marked.{taken_in};
ghost use Rattle.evaluation_log.specs.FoundItems.{ItemsConflict};
ghost use Rattle.evaluation_log.specs.declared.sought.Sought.TheVariants.{Any};
ghost use Rattle.evaluation_log.specs.Clashes.{NoClash};
ghost use Rattle.evaluation_log.specs.Touched.{event_has};
ghost use Rattle.evaluation_log.specs.Loose.{LooseKept, NoLoose};
ghost use Rattle.evaluation_search.specs.First.{IsFirstOf, IsOf, IsOfPair};
ghost use Rattle.run_evaluations.specs.Below.{AreListed, AreListedWith, IsClean, IsListedAt, NoneListed, is_apart_below};
ghost use Rattle.run_evaluations.specs.First.{expression_in};

use crate::open::Evaluations;
use crate::order::Order;
use evaluation_log::{Found, Under, first_of};
use ub_base::NoMemory;

impl Evaluations {
    // The first conflict between an event from this one on and one of the list from a place on, of those of which the second is of a node
    // behind that of the first, and neither is sequenced before the other.
    pub(crate) fn found_below(
        &self,
        under: Under<'_>,
        order: Order<'_>,
        own: usize,
        loose: usize,
    ) -> Result<Option<Found>, NoMemory>
        ensures conflict { IfOk result ItemsConflict }
        ensures none { size (tree_of order.entry.root.now) < 2 ^ 32 →
            LooseKept self.now.segments.items self.now.events.items self.now.items.items self.now.loose.items loose →
            IfOk result (λ r. IfNone r ((k : ℕ) → own ≤ k → k < length self.now.events.items →
            NoneListed under.entry.map.now (taken_in order.entry.taken.now) (tree_of order.entry.root.now)
            self.now.events.items self.now.items.items self.now.loose.items loose k)) }
        ensures first { size (tree_of order.entry.root.now) < 2 ^ 32 →
            LooseKept self.now.segments.items self.now.events.items self.now.items.items self.now.loose.items loose →
            IfOk result (IsFirstOf under.entry.frames.now (IsOfPair under.entry.frames.now under.entry.map.now
            (expression_in (slice_get self.now.levels.items (length self.now.levels.items - 1))) self.now.events.items self.now.items.items
            (AreListed (taken_in order.entry.taken.now) (tree_of order.entry.root.now) self.now.events.items self.now.loose.items own loose))) }
    {
        if loose >= self.loose.len() {
            return Ok(None);
        }
        self.found_from(under, order, own, loose)
    }

    fn found_from(
        &self,
        under: Under<'_>,
        order: Order<'_>,
        own: usize,
        loose: usize,
    ) -> Result<Option<Found>, NoMemory>
        ensures conflict { IfOk result ItemsConflict }
        ensures none { size (tree_of order.entry.root.now) < 2 ^ 32 →
            LooseKept self.now.segments.items self.now.events.items self.now.items.items self.now.loose.items loose →
            IfOk result (λ r. IfNone r ((k : ℕ) → own ≤ k → k < length self.now.events.items →
            NoneListed under.entry.map.now (taken_in order.entry.taken.now) (tree_of order.entry.root.now)
            self.now.events.items self.now.items.items self.now.loose.items loose k)) }
        ensures first { size (tree_of order.entry.root.now) < 2 ^ 32 →
            LooseKept self.now.segments.items self.now.events.items self.now.items.items self.now.loose.items loose →
            IfOk result (IsFirstOf under.entry.frames.now (IsOfPair under.entry.frames.now under.entry.map.now
            (expression_in (slice_get self.now.levels.items (length self.now.levels.items - 1))) self.now.events.items self.now.items.items
            (AreListed (taken_in order.entry.taken.now) (tree_of order.entry.root.now) self.now.events.items self.now.loose.items own loose))) }
    {
        let mut best = None;
        for at in own..self.events.len() {
            let found = self.found_at(under, order, at, loose)?;
            best = first_of(under.frames, best, found);
        }
        Ok(best)
    }

    // The first conflict of this event.
    fn found_at(
        &self,
        under: Under<'_>,
        order: Order<'_>,
        at: usize,
        loose: usize,
    ) -> Result<Option<Found>, NoMemory>
        ensures conflict { IfOk result ItemsConflict }
        ensures none { size (tree_of order.entry.root.now) < 2 ^ 32 →
            LooseKept self.now.segments.items self.now.events.items self.now.items.items self.now.loose.items loose →
            IfOk result (λ r. IfNone r (NoneListed under.entry.map.now (taken_in order.entry.taken.now) (tree_of order.entry.root.now)
            self.now.events.items self.now.items.items self.now.loose.items loose at)) }
        ensures first { size (tree_of order.entry.root.now) < 2 ^ 32 →
            LooseKept self.now.segments.items self.now.events.items self.now.items.items self.now.loose.items loose →
            IfOk result (IsFirstOf under.entry.frames.now (IsOfPair under.entry.frames.now under.entry.map.now
            (expression_in (slice_get self.now.levels.items (length self.now.levels.items - 1))) self.now.events.items self.now.items.items
            (AreListedWith (taken_in order.entry.taken.now) (tree_of order.entry.root.now) self.now.events.items self.now.loose.items at loose))) }
    {
        if self.meets_loose(under, at, loose)? {
            self.found_among(under, order, at, loose)
        } else {
            Ok(None)
        }
    }

    // Whether an item of the event conflicts with one of the events of the list.
    fn meets_loose(&self, under: Under<'_>, at: usize, loose: usize) -> Result<bool, NoMemory>
        ensures { LooseKept self.now.segments.items self.now.events.items self.now.items.items self.now.loose.items loose → IfOk result (λ b. b ≡ false →
            NoLoose under.entry.map.now self.now.events.items self.now.items.items self.now.loose.items loose
            (event_has self.now.items.items (slice_get self.now.events.items at))) }
    {
        self.as_log()
            .meets_loose(&self.segments, under.map, at, loose)
    }

    // The first conflict of this event with those of the list.
    fn found_among(
        &self,
        under: Under<'_>,
        order: Order<'_>,
        event: usize,
        loose: usize,
    ) -> Result<Option<Found>, NoMemory>
        ensures conflict { IfOk result ItemsConflict }
        ensures none { size (tree_of order.entry.root.now) < 2 ^ 32 → IfOk result (λ r. IfNone r
            (NoneListed under.entry.map.now (taken_in order.entry.taken.now) (tree_of order.entry.root.now)
            self.now.events.items self.now.items.items self.now.loose.items loose event)) }
        ensures first { size (tree_of order.entry.root.now) < 2 ^ 32 →
            IfOk result (IsFirstOf under.entry.frames.now (IsOfPair under.entry.frames.now under.entry.map.now
            (expression_in (slice_get self.now.levels.items (length self.now.levels.items - 1))) self.now.events.items self.now.items.items
            (AreListedWith (taken_in order.entry.taken.now) (tree_of order.entry.root.now) self.now.events.items self.now.loose.items event loose))) }
    {
        let mut best = None;
        for i in loose..self.loose.len() {
            let found = self.found_listed(under, order, event, i)?;
            best = first_of(under.frames, best, found);
        }
        Ok(best)
    }

    fn found_listed(
        &self,
        under: Under<'_>,
        order: Order<'_>,
        event: usize,
        i: usize,
    ) -> Result<Option<Found>, NoMemory>
        ensures conflict { IfOk result ItemsConflict }
        ensures none { size (tree_of order.entry.root.now) < 2 ^ 32 →
            IfOk result (λ r. r ≡ None → IsClean under.entry.map.now (taken_in order.entry.taken.now) (tree_of order.entry.root.now)
            self.now.events.items self.now.items.items event (slice_get self.now.loose.items i)) }
        ensures first { size (tree_of order.entry.root.now) < 2 ^ 32 →
            IfOk result (IsFirstOf under.entry.frames.now (IsOfPair under.entry.frames.now under.entry.map.now
            (expression_in (slice_get self.now.levels.items (length self.now.levels.items - 1))) self.now.events.items self.now.items.items
            (IsListedAt (taken_in order.entry.taken.now) (tree_of order.entry.root.now) self.now.events.items self.now.loose.items event i))) }
    {
        match self.loose.get(i) {
            Some(other) => self.found_with(under, order, event, *other),
            None => Ok(None),
        }
    }

    // The conflict of two events, if they stand so to one another.
    fn found_with(
        &self,
        under: Under<'_>,
        order: Order<'_>,
        event: usize,
        other: usize,
    ) -> Result<Option<Found>, NoMemory>
        ensures conflict { IfOk result ItemsConflict }
        ensures none { size (tree_of order.entry.root.now) < 2 ^ 32 →
            IfOk result (λ r. r ≡ None → IsClean under.entry.map.now (taken_in order.entry.taken.now) (tree_of order.entry.root.now)
            self.now.events.items self.now.items.items event (Some other)) }
        ensures first { size (tree_of order.entry.root.now) < 2 ^ 32 → IfOk result (IsFirstOf under.entry.frames.now
            (λ f. (is_apart_below (taken_in order.entry.taken.now) (tree_of order.entry.root.now) (slice_get self.now.events.items event)
            (slice_get self.now.events.items other) ≡ true) ×
            IsOf under.entry.frames.now under.entry.map.now
            (expression_in (slice_get self.now.levels.items (length self.now.levels.items - 1))) self.now.events.items self.now.items.items event other f)) }
    {
        if self.are_apart(order, event, other) {
            self.found_of_two(under, event, other)
        } else {
            Ok(None)
        }
    }

    fn are_apart(&self, order: Order<'_>, event: usize, other: usize) -> bool
        ensures { size (tree_of order.entry.root.now) < 2 ^ 32 → result ≡ is_apart_below (taken_in order.entry.taken.now) (tree_of order.entry.root.now)
            (slice_get self.now.events.items event) (slice_get self.now.events.items other) }
    {
        match (self.events.get(event), self.events.get(other)) {
            (Some(a), Some(b)) => order.is_apart_below(a, b),
            _ => false,
        }
    }

    // The conflict of two events.
    fn found_of_two(
        &self,
        under: Under<'_>,
        event: usize,
        other: usize,
    ) -> Result<Option<Found>, NoMemory>
        ensures conflict { IfOk result ItemsConflict }
        ensures none { IfOk result (λ r. IfNone r
            (NoClash Any under.entry.map.now (event_has self.now.items.items (slice_get self.now.events.items event))
            (event_has self.now.items.items (slice_get self.now.events.items other)))) }
        ensures first { IfOk result (IsFirstOf under.entry.frames.now
            (IsOf under.entry.frames.now under.entry.map.now
            (expression_in (slice_get self.now.levels.items (length self.now.levels.items - 1))) self.now.events.items self.now.items.items event other)) }
    {
        self.search(under).found_of_two(event, other)
    }
}
