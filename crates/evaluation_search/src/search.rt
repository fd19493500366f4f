// The least conflicting pair of events, sought once where a conflict is known.
ghost use Rattle.std.specs.Prelude.{◌≡◌, ◌≤◌, ◌<◌, ◌⊎◌, ◌-◌, ℕ, IfOk, IfSome, IfNone, None, Some, true, slice_get};
ghost use Rattle.addr_map.specs.Conflict.{is_access};
ghost use Rattle.footprint.specs.Conflicts.{MayConflict};
ghost use Rattle.footprint.specs.Holds.{holds};
ghost use Rattle.evaluation_log.specs.declared.sought.Sought.TheVariants.{Any, Races};
ghost use Rattle.evaluation_log.specs.Clashes.{SomeClash, NoClash, AreSorted, NoneBetween, operand_has, behind_has};
ghost use Rattle.evaluation_log.specs.FoundItems.{ItemsConflict};
ghost use Rattle.evaluation_log.specs.Touched.{event_has, is_sought, range_has, start_of};
ghost use Rattle.evaluation_search.specs.First.{AreBetween, AreFrom, AreOnce, AreRising, HasJust, IsFirstOf, IsLeastEvent, IsNearer, IsOf, IsOfPair};
ghost use Rattle.evaluation_search.specs.First.{IsSoughtPair};
ghost use Rattle.evaluation_search.specs.First.{Takes, comes_first, named, sought_of};

use crate::log::{Log, Place};
use crate::segments::{segment_end, segment_start};
use c_names::cmp_events;
use evaluation_log::{Found, Segment, Sought, Under, is_race, least_items, meets};
use footprint::Foot;
use ub_base::{Event, Item, NoMemory};

/// A search for a conflict between evaluations of a full expression.
#[derive(Clone, Copy)]
pub struct Search<'s> {
    pub log: Log<'s>,
    pub place: Place,
    pub under: Under<'s>,
}

impl Search<'_> {
    /// The first conflict between the operands whose segments begin at this one: a race, or else another.
    pub fn found_between(&self, segments: &[Segment], at: usize) -> Result<Option<Found>, NoMemory>
        ensures conflict { IfOk result ItemsConflict }
        ensures none { AreSorted segments.now self.now.log.events.now at → IfOk result
            (λ r. IfNone r (NoneBetween Any self.now.under.map.now segments.now self.now.log.events.now self.now.log.items.now at)) }
        ensures first { AreSorted segments.now self.now.log.events.now at → AreRising segments.now self.now.log.events.now at →
            AreOnce self.now.log.events.now (start_of segments.now self.now.log.events.now at) → IfOk result (IsFirstOf self.now.under.frames.now
            (IsOfPair self.now.under.frames.now self.now.under.map.now self.now.place self.now.log.events.now self.now.log.items.now
            (AreBetween segments.now self.now.log.events.now at))) }
    {
        match self.least_between(segments, Sought::Races, at)? {
            Some(race) => Ok(Some(race)),
            None => self.least_between(segments, Sought::Any, at),
        }
    }

    // The least pair of events of two operands that conflict: the first event stands in the first operand that
    // conflicts with one behind it.
    fn least_between(
        &self,
        segments: &[Segment],
        sought: Sought,
        at: usize,
    ) -> Result<Option<Found>, NoMemory>
        ensures conflict { IfOk result ItemsConflict }
        ensures none { AreSorted segments.now self.now.log.events.now at → IfOk result
            (λ r. IfNone r (NoneBetween sought self.now.under.map.now segments.now self.now.log.events.now self.now.log.items.now at)) }
        ensures first { AreSorted segments.now self.now.log.events.now at → AreRising segments.now self.now.log.events.now at →
            AreOnce self.now.log.events.now (start_of segments.now self.now.log.events.now at) → IfOk result (IsFirstOf self.now.under.frames.now
            (IsSoughtPair sought self.now.under.frames.now self.now.under.map.now self.now.place self.now.log.events.now self.now.log.items.now
            (AreBetween segments.now self.now.log.events.now at))) }
    {
        match self.first_group(segments, sought, at)? {
            Some(group) => self.least_from(segments, sought, group),
            None => Ok(None),
        }
    }

    // The least pair of an event of this segment and one behind it that conflict.
    fn least_from(
        &self,
        segments: &[Segment],
        sought: Sought,
        group: usize,
    ) -> Result<Option<Found>, NoMemory>
        ensures conflict { IfOk result ItemsConflict }
        ensures none { IfOk result (λ r. IfNone r
            (NoClash sought self.now.under.map.now (operand_has sought segments.now self.now.log.events.now self.now.log.items.now group)
            (behind_has sought segments.now self.now.log.events.now self.now.log.items.now group))) }
        ensures first { AreOnce self.now.log.events.now (start_of segments.now self.now.log.events.now group) → IfOk result
            (IsFirstOf self.now.under.frames.now
            (IsSoughtPair sought self.now.under.frames.now self.now.under.map.now self.now.place self.now.log.events.now self.now.log.items.now
            (AreFrom segments.now self.now.log.events.now group))) }
    {
        let behind = (
            segment_end(segments, self.log.events, group),
            self.log.events.len(),
        );
        let rest = self.log.foot_of_range(sought, behind.0, behind.1)?;
        match self.least_meeting(
            sought,
            (segment_start(segments, self.log.events, group), behind.0),
            &rest,
        )? {
            Some(event) => self.least_against(sought, event, behind),
            None => Ok(None),
        }
    }

    // The pair of this event and the least one of the range that it conflicts with.
    fn least_against(
        &self,
        sought: Sought,
        event: usize,
        range: (usize, usize),
    ) -> Result<Option<Found>, NoMemory>
        ensures conflict { IfOk result ItemsConflict }
        ensures none { is_sought sought (slice_get self.now.log.events.now event) ≡ true → IfOk result (λ r. IfNone r
            (NoClash sought self.now.under.map.now (event_has self.now.log.items.now (slice_get self.now.log.events.now event))
            (range_has self.now.log.events.now self.now.log.items.now sought range.0 (range.1 - range.0)))) }
        ensures first { IfOk result (IsFirstOf self.now.under.frames.now
            (IsSoughtPair sought self.now.under.frames.now self.now.under.map.now self.now.place self.now.log.events.now self.now.log.items.now
            (λ a b. (a ≡ event) × (range.0 ≤ b) × (b < range.1)))) }
    {
        if !self.log.is_sought(sought, event) {
            return Ok(None);
        }
        let foot = self.log.event_foot(event)?;
        let Some(other) = self.least_meeting(sought, range, &foot)? else {
            return Ok(None);
        };
        let other_foot = self.log.event_foot(other)?;
        Ok(self.least_of_two(sought, event, other, &foot, &other_foot))
    }

    // The conflict of these two events, which touched this, with their least items.
    fn least_of_two(
        &self,
        sought: Sought,
        a: usize,
        b: usize,
        foot_a: &Foot,
        foot_b: &Foot,
    ) -> Option<Found>
        requires first_sought { is_sought sought (slice_get self.now.log.events.now a) ≡ true }
        requires second_sought { is_sought sought (slice_get self.now.log.events.now b) ≡ true }
        ensures conflict { ItemsConflict result }
        ensures none { IfNone result (NoClash sought self.now.under.map.now (holds foot_a.now) (holds foot_b.now)) }
        ensures first { HasJust self.now.log.events.now self.now.log.items.now a foot_a.now →
            HasJust self.now.log.events.now self.now.log.items.now b foot_b.now →
            IsFirstOf self.now.under.frames.now (λ f. (sought ≡ sought_of f.race) ×
            IsOf self.now.under.frames.now self.now.under.map.now self.now.place self.now.log.events.now self.now.log.items.now a b f) result }
    {
        match least_items(self.under, sought, foot_a, foot_b) {
            Some(items) => self.found(sought, a, b, items),
            None => None,
        }
    }

    // The first of these segments that conflicts with those behind it.
    fn first_group(
        &self,
        segments: &[Segment],
        sought: Sought,
        at: usize,
    ) -> Result<Option<usize>, NoMemory>
        ensures none { AreSorted segments.now self.now.log.events.now at → IfOk result
            (λ r. IfNone r (NoneBetween sought self.now.under.map.now segments.now self.now.log.events.now self.now.log.items.now at)) }
        ensures some { AreSorted segments.now self.now.log.events.now at → IfOk result (λ r. IfSome r
            (λ g. SomeClash sought self.now.under.map.now (operand_has sought segments.now self.now.log.events.now self.now.log.items.now g)
            (behind_has sought segments.now self.now.log.events.now self.now.log.items.now g))) }
        ensures first { AreSorted segments.now self.now.log.events.now at → IfOk result (λ r. IfSome r (λ g. (at ≤ g) × ((h : ℕ) → at ≤ h → h < g →
            NoClash sought self.now.under.map.now (operand_has sought segments.now self.now.log.events.now self.now.log.items.now h)
            (behind_has sought segments.now self.now.log.events.now self.now.log.items.now h)))) }
    {
        let mut best = None;
        let mut rest = Foot::new(self.log.alloc);
        for group in (at..segments.len()).rev() {
            let (from, to) = (
                segment_start(segments, self.log.events, group),
                segment_end(segments, self.log.events, group),
            );
            let foot = self.log.foot_of_range(sought, from, to)?;
            best = nearer(self.under, sought, group, &foot, &rest, best);
            rest.absorb(foot)?;
        }
        Ok(best)
    }

    // The least event of a range, by node and kind, of which an item meets one of the set.
    fn least_meeting(
        &self,
        sought: Sought,
        range: (usize, usize),
        foot: &Foot,
    ) -> Result<Option<usize>, NoMemory>
        ensures none { IfOk result
            (λ r. IfNone r
            (NoClash sought self.now.under.map.now (range_has self.now.log.events.now self.now.log.items.now sought range.0 (range.1 - range.0))
            (holds foot.now))) }
        ensures some { IfOk result
            (λ r. IfSome r
            (λ at. (is_sought sought (slice_get self.now.log.events.now at) ≡ true) ×
            SomeClash sought self.now.under.map.now (event_has self.now.log.items.now (slice_get self.now.log.events.now at)) (holds foot.now))) }
        ensures first { IfOk result (IsLeastEvent self.now.under.frames.now (λ k. named self.now.place (slice_get self.now.log.events.now k))
            (λ k. (range.0 ≤ k) × (k < range.1) × (is_sought sought (slice_get self.now.log.events.now k) ≡ true) ×
            SomeClash sought self.now.under.map.now (event_has self.now.log.items.now (slice_get self.now.log.events.now k)) (holds foot.now))) }
    {
        let mut best = None;
        for at in range.0..range.1 {
            best = self.lesser_meeting(sought, at, best, foot)?;
        }
        Ok(best)
    }

    // This event, where it is sought, meets the set and comes before the best one so far, which else stays.
    fn lesser_meeting(
        &self,
        sought: Sought,
        at: usize,
        best: Option<usize>,
        foot: &Foot,
    ) -> Result<Option<usize>, NoMemory>
        ensures none { IfOk result
            (λ r. r ≡ None → (best ≡ None) × (is_sought sought (slice_get self.now.log.events.now at) ≡ true →
            NoClash sought self.now.under.map.now (event_has self.now.log.items.now (slice_get self.now.log.events.now at)) (holds foot.now))) }
        ensures some { IfOk result
            (λ r. (r ≡ best) ⊎ ((r ≡ Some at) × (is_sought sought (slice_get self.now.log.events.now at) ≡ true) ×
            SomeClash sought self.now.under.map.now (event_has self.now.log.items.now (slice_get self.now.log.events.now at)) (holds foot.now))) }
        ensures takes { IfOk result (Takes self.now.under.frames.now (λ k. named self.now.place (slice_get self.now.log.events.now k))
            ((is_sought sought (slice_get self.now.log.events.now at) ≡ true) ×
            SomeClash sought self.now.under.map.now (event_has self.now.log.items.now (slice_get self.now.log.events.now at)) (holds foot.now)) at best) }
    {
        if !self.log.is_sought(sought, at) {
            return Ok(best);
        }
        if !self.comes_before(at, best) {
            return Ok(best);
        }
        let own = self.log.event_foot(at)?;
        Ok(nearer(self.under, sought, at, &own, foot, best))
    }

    // Whether the event comes before this one, or there is none.
    fn comes_before(&self, at: usize, best: Option<usize>) -> bool
        ensures none { best ≡ None → result ≡ true }
        ensures some { (m : ℕ) → best ≡ Some m → result ≡ comes_first self.now.under.frames.now
            (named self.now.place (slice_get self.now.log.events.now at)) (named self.now.place (slice_get self.now.log.events.now m)) }
    {
        match best {
            Some(best) => self.is_before(at, best),
            None => true,
        }
    }

    fn is_before(&self, a: usize, b: usize) -> bool
        ensures { result ≡ comes_first self.now.under.frames.now
            (named self.now.place (slice_get self.now.log.events.now a)) (named self.now.place (slice_get self.now.log.events.now b)) }
    {
        match (self.event(a), self.event(b)) {
            (Some(a), Some(b)) => cmp_events(self.under.frames, &a, &b).is_lt(),
            _ => false,
        }
    }

    // The event by its name.
    fn event(&self, at: usize) -> Option<Event>
        ensures { result ≡ named self.now.place (slice_get self.now.log.events.now at) }
    {
        match self.log.events.get(at) {
            Some(event) => Some(self.place.event(event.node, event.kind)),
            None => None,
        }
    }

    fn found(&self, sought: Sought, a: usize, b: usize, items: (Item, Item)) -> Option<Found>
        requires may { MayConflict items.0 items.1 }
        requires races { sought ≡ Races → (is_access items.0 ≡ true) × (is_access items.1 ≡ true) }
        ensures conflict { ItemsConflict result }
        ensures none { IfNone result ((slice_get self.now.log.events.now a ≡ None) ⊎ (slice_get self.now.log.events.now b ≡ None)) }
        ensures names { IfSome result (λ f. (named self.now.place (slice_get self.now.log.events.now a) ≡ Some f.event) ×
            (named self.now.place (slice_get self.now.log.events.now b) ≡ Some f.against) × (f.items ≡ items)) }
        ensures race { IfSome result (λ f. is_sought sought (slice_get self.now.log.events.now a) ≡ true →
            is_sought sought (slice_get self.now.log.events.now b) ≡ true → sought ≡ sought_of f.race) }
    {
        match (self.event(a), self.event(b)) {
            (Some(event), Some(against)) => Some(Found {
                race: is_race(sought, event.kind, against.kind),
                event,
                against,
                items,
            }),
            _ => None,
        }
    }

    /// The first conflict of two events, the smaller one first: a race, of which a body has no part, or else another.
    pub fn found_of_two(&self, a: usize, b: usize) -> Result<Option<Found>, NoMemory>
        ensures conflict { IfOk result ItemsConflict }
        ensures none { IfOk result
            (λ r. IfNone r
            (NoClash Any self.now.under.map.now (event_has self.now.log.items.now (slice_get self.now.log.events.now a))
            (event_has self.now.log.items.now (slice_get self.now.log.events.now b)))) }
        ensures first { IfOk result (IsFirstOf self.now.under.frames.now
            (IsOf self.now.under.frames.now self.now.under.map.now self.now.place self.now.log.events.now self.now.log.items.now a b)) }
    {
        match self.sought_of_two(Sought::Races, a, b)? {
            Some(race) => Ok(Some(race)),
            None => self.sought_of_two(Sought::Any, a, b),
        }
    }

    // The conflict of two events, if both of them have a part in such.
    fn sought_of_two(&self, sought: Sought, a: usize, b: usize) -> Result<Option<Found>, NoMemory>
        ensures conflict { IfOk result ItemsConflict }
        ensures none { IfOk result (λ r. IfNone r (is_sought sought (slice_get self.now.log.events.now a) ≡ true →
            is_sought sought (slice_get self.now.log.events.now b) ≡ true →
            NoClash sought self.now.under.map.now (event_has self.now.log.items.now (slice_get self.now.log.events.now a))
            (event_has self.now.log.items.now (slice_get self.now.log.events.now b)))) }
        ensures first { IfOk result (IsFirstOf self.now.under.frames.now (λ f. (sought ≡ sought_of f.race) ×
            IsOf self.now.under.frames.now self.now.under.map.now self.now.place self.now.log.events.now self.now.log.items.now a b f)) }
    {
        if !self.log.is_sought(sought, a) {
            return Ok(None);
        }
        if !self.log.is_sought(sought, b) {
            return Ok(None);
        }
        let foot_a = self.log.event_foot(a)?;
        let foot_b = self.log.event_foot(b)?;
        Ok(self.least_of_two(sought, a, b, &foot_a, &foot_b))
    }
}

// This event or operand, if what it touched clashes with the rest, or else the best one so far.
fn nearer(
    under: Under<'_>,
    sought: Sought,
    one: usize,
    foot: &Foot,
    rest: &Foot,
    best: Option<usize>,
) -> Option<usize>
    ensures { IsNearer sought under.entry.map.now (holds foot.now) (holds rest.now) one best result }
{
    if meets(under, sought, foot, rest) {
        Some(one)
    } else {
        best
    }
}
