// Large bodies, each compared by itself.
ghost use Rattle.std.specs.Prelude.{◌≡◌, ◌≤◌, ◌<◌, ℕ, suc, false, slice_get};
ghost use Rattle.footprint.specs.Holds.{holds};
ghost use Rattle.evaluation_log.specs.declared.sought.Sought.TheVariants.{Any};
ghost use Rattle.evaluation_log.specs.Clashes.{NoClash};
ghost use Rattle.evaluation_log.specs.Kept.{NoLarge, large_of, listed_has, own_body};

use crate::log::Log;
use crate::segments::{large_end, large_start};
use addr_map::AddrMap;
use evaluation_log::{Segment, clash};
use footprint::Foot;

impl Log<'_> {
    /// Whether a large body of this segment conflicts with the segments before it from `at` on, or one of theirs with it. What
    /// else these touched is in the one set, what else it touched in the other.
    pub(crate) fn large_conflict(
        &self,
        segments: &[Segment],
        map: &AddrMap,
        at: usize,
        group: usize,
        all: &Foot,
        foot: &Foot,
    ) -> bool
        ensures first { result ≡ false → NoLarge map.now self.now.events.now self.now.large.now (large_of segments.now self.now.large.now at)
            (large_of segments.now self.now.large.now group) (holds foot.now) }
        ensures second { result ≡ false → NoLarge map.now self.now.events.now self.now.large.now
            (large_of segments.now self.now.large.now group) (large_of segments.now self.now.large.now (suc group)) (holds all.now) }
        ensures twice { result ≡ false → (i : ℕ) → large_of segments.now self.now.large.now at ≤ i →
            i < large_of segments.now self.now.large.now group →
            NoLarge map.now self.now.events.now self.now.large.now (large_of segments.now self.now.large.now group)
            (large_of segments.now self.now.large.now (suc group)) (listed_has self.now.events.now (slice_get self.now.large.now i)) }
    {
        let from = large_start(segments, self.large, at);
        let to = large_start(segments, self.large, group);
        let end = large_end(segments, self.large, group);
        self.some_large_meets(map, from, to, foot)
            || (self.some_large_meets(map, to, end, all)
                || self.larges_conflict(map, from, to, end))
    }

    // Whether a large body of a range of the list conflicts with the set.
    fn some_large_meets(&self, map: &AddrMap, from: usize, to: usize, foot: &Foot) -> bool
        ensures { result ≡ false → NoLarge map.now self.now.events.now self.now.large.now from to (holds foot.now) }
    {
        for i in from..to {
            if self.large_meets(map, i, foot) {
                return true;
            }
        }
        false
    }

    fn large_meets(&self, map: &AddrMap, i: usize, foot: &Foot) -> bool
        ensures { result ≡ false → NoClash Any map.now (listed_has self.now.events.now (slice_get self.now.large.now i)) (holds foot.now) }
    {
        match self.large.get(i) {
            Some(at) => self.body_meets(map, *at, foot),
            None => false,
        }
    }

    fn body_meets(&self, map: &AddrMap, at: usize, foot: &Foot) -> bool
        ensures { result ≡ false → NoClash Any map.now (own_body (slice_get self.now.events.now at)) (holds foot.now) }
    {
        let Some(event) = self.events.get(at) else {
            return false;
        };
        match &event.foot {
            Some(body) => clash(body, foot, map),
            None => false,
        }
    }

    // Whether a large body of a range of the list conflicts with one of those behind it up to an end.
    fn larges_conflict(&self, map: &AddrMap, from: usize, to: usize, end: usize) -> bool
        ensures { result ≡ false → (i : ℕ) → from ≤ i → i < to →
            NoLarge map.now self.now.events.now self.now.large.now to end (listed_has self.now.events.now (slice_get self.now.large.now i)) }
    {
        for i in from..to {
            if self.large_meets_some(map, i, to, end) {
                return true;
            }
        }
        false
    }

    fn large_meets_some(&self, map: &AddrMap, i: usize, from: usize, to: usize) -> bool
        ensures { result ≡ false →
            NoLarge map.now self.now.events.now self.now.large.now from to (listed_has self.now.events.now (slice_get self.now.large.now i)) }
    {
        for k in from..to {
            if self.larges_meet(map, k, i) {
                return true;
            }
        }
        false
    }

    fn larges_meet(&self, map: &AddrMap, k: usize, i: usize) -> bool
        ensures { result ≡ false → NoClash Any map.now (listed_has self.now.events.now (slice_get self.now.large.now k))
            (listed_has self.now.events.now (slice_get self.now.large.now i)) }
    {
        match self.large.get(i) {
            Some(at) => self.large_meets_body(map, k, *at),
            None => false,
        }
    }

    fn large_meets_body(&self, map: &AddrMap, k: usize, at: usize) -> bool
        ensures { result ≡ false → NoClash Any map.now (listed_has self.now.events.now (slice_get self.now.large.now k))
            (own_body (slice_get self.now.events.now at)) }
    {
        let Some(event) = self.events.get(at) else {
            return false;
        };
        match &event.foot {
            Some(body) => self.large_meets(map, k, body),
            None => false,
        }
    }
}
