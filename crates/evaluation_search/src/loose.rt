// Events beside those of a list, which come before a value in no order.
ghost use Rattle.std.specs.Prelude.{◌≡◌, ℕ, true, false, slice_get, Some, None, IfOk, OnOk};
ghost use Rattle.ub_base.specs.declared.names.Item.{Item};
ghost use Rattle.footprint.specs.Holds.{holds};
ghost use Rattle.evaluation_log.specs.declared.log.Logged.{Logged};
ghost use Rattle.evaluation_log.specs.declared.sought.Sought.TheVariants.{Any};
ghost use Rattle.evaluation_log.specs.Touched.{event_has};
ghost use Rattle.evaluation_log.specs.Clashes.{NoClash};
ghost use Rattle.evaluation_log.specs.Loose.{NoLoose, HasLoose, LooseKept, loose_has};

use crate::items::spans_meet;
use crate::log::Log;
use addr_map::AddrMap;
use evaluation_log::{Segment, clash};
use footprint::Foot;
use ub_base::NoMemory;

impl Log<'_> {
    /// The set of what the events touched that are in the list from there on.
    pub fn loose_set(&self, loose: usize) -> Result<Foot, NoMemory>
        ensures { IfOk result (HasLoose self.now.events.now self.now.items.now self.now.loose.now loose) }
    {
        let mut foot = Foot::new(self.alloc);
        for i in loose..self.loose.len() {
            self.add_listed(i, &mut foot)?;
        }
        Ok(foot)
    }

    fn add_listed(&self, i: usize, foot: &mut Foot) -> Result<(), NoMemory>
        ensures more { OnOk result ((j : Item) → holds foot.old j ≡ true → holds foot.new j ≡ true) }
        ensures one { OnOk result ((j : Item) → loose_has self.now.events.now self.now.items.now self.now.loose.now i j ≡ true →
            holds foot.new j ≡ true) }
    {
        match self.loose.get(i) {
            Some(at) => self.add_event(foot, *at),
            None => Ok(()),
        }
    }

    /// Whether an item of the event conflicts with one of the events of the list.
    pub fn meets_loose(
        &self,
        segments: &[Segment],
        map: &AddrMap,
        at: usize,
        loose: usize,
    ) -> Result<bool, NoMemory>
        ensures { LooseKept segments.now self.now.events.now self.now.items.now self.now.loose.now loose → IfOk result (λ b. b ≡ false →
            NoLoose map.now self.now.events.now self.now.items.now self.now.loose.now loose
            (event_has self.now.items.now (slice_get self.now.events.now at))) }
    {
        let Some(segment) = segments.last() else {
            return self.meets_few(map, at, loose);
        };
        match &segment.loose_foot {
            Some(below) => self.meets_set(map, at, below),
            None => self.meets_few(map, at, loose),
        }
    }

    fn meets_set(&self, map: &AddrMap, at: usize, below: &Foot) -> Result<bool, NoMemory>
        ensures { IfOk result (λ b. b ≡ false →
            NoClash Any map.now (event_has self.now.items.now (slice_get self.now.events.now at)) (holds below.now)) }
    {
        let foot = self.event_foot(at)?;
        Ok(clash(&foot, below, map))
    }

    fn meets_few(&self, map: &AddrMap, at: usize, loose: usize) -> Result<bool, NoMemory>
        ensures { IfOk result (λ b. b ≡ false →
            NoLoose map.now self.now.events.now self.now.items.now self.now.loose.now loose
            (event_has self.now.items.now (slice_get self.now.events.now at))) }
    {
        for i in loose..self.loose.len() {
            if self.meets_listed(map, at, i)? {
                return Ok(true);
            }
        }
        Ok(false)
    }

    fn meets_listed(&self, map: &AddrMap, at: usize, i: usize) -> Result<bool, NoMemory>
        ensures { IfOk result (λ b. b ≡ false →
            NoClash Any map.now (event_has self.now.items.now (slice_get self.now.events.now at))
            (loose_has self.now.events.now self.now.items.now self.now.loose.now i)) }
    {
        match self.loose.get(i) {
            Some(other) => self.events_meet(map, at, *other),
            None => Ok(false),
        }
    }

    // Whether what two events touched conflicts: item by item, where none of them started a frame.
    fn events_meet(&self, map: &AddrMap, a: usize, b: usize) -> Result<bool, NoMemory>
        ensures { IfOk result (λ r. r ≡ false → NoClash Any map.now (event_has self.now.items.now (slice_get self.now.events.now a))
            (event_has self.now.items.now (slice_get self.now.events.now b))) }
    {
        if self.are_alone(a, b) {
            let first = self.span(a);
            let second = self.span(b);
            return Ok(spans_meet(self.items, map, first, second));
        }
        let foot = self.event_foot(b)?;
        self.meets_set(map, a, &foot)
    }

    // Whether none of the two events started a frame.
    fn are_alone(&self, a: usize, b: usize) -> bool
        ensures first { result ≡ true → (e : Logged) → slice_get self.now.events.now a ≡ Some e → e.foot ≡ None }
        ensures second { result ≡ true → (e : Logged) → slice_get self.now.events.now b ≡ Some e → e.foot ≡ None }
    {
        self.has_items_alone(a) && self.has_items_alone(b)
    }
}
