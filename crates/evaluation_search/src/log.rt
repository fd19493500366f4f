// What is logged, borrowed, and the sets of what its events touched.
ghost use Rattle.std.specs.Prelude.{◌≡◌, ◌≤◌, ◌-◌, ◌&&◌, ◌||◌, ℕ, true, None, Some, IfOk, IfSome, OnOk, slice_get};
ghost use Rattle.ub_base.specs.declared.names.Item.{Item};
ghost use Rattle.footprint.specs.Holds.{holds};
ghost use Rattle.evaluation_log.specs.declared.log.Logged.{Logged};
ghost use Rattle.evaluation_log.specs.Kept.{Gathers, small_of, span_of};
ghost use Rattle.evaluation_log.specs.Touched.{event_has, is_sought, range_has};

use crate::segments::{segment_end, segment_start};
use evaluation_log::{Logged, Segment, Sought, add_range};
use footprint::Foot;
use std::alloc::Global;
use ub_base::{Event, Frame, Item, Kind, NoMemory};

/// What is logged of the open full expressions: their events, the items of these, and the events with large bodies and those
/// that come before a value in no order, by their places among the events.
#[derive(Clone, Copy)]
pub struct Log<'l> {
    pub alloc: Global,
    pub events: &'l [Logged],
    pub items: &'l [Item],
    pub large: &'l [usize],
    pub loose: &'l [usize],
}

/// A full expression: its frame, and the turn of that.
#[derive(Clone, Copy, PartialEq, Eq)]
pub struct Place {
    pub frame: Frame,
    pub turn: u64,
}

impl Place {
    /// An event of the full expression, by its name.
    pub fn event(self, node: u32, kind: Kind) -> Event
        ensures { result ≡ record { frame = self.frame; turn = self.turn; node = node; kind = kind } }
    {
        Event {
            frame: self.frame,
            turn: self.turn,
            node,
            kind,
        }
    }
}

impl Log<'_> {
    /// The set of the event's items, and of what the body touched that it started.
    pub fn event_foot(&self, at: usize) -> Result<Foot, NoMemory>
        ensures { IfOk result (λ f. (i : Item) → holds f i ≡ event_has self.now.items.now (slice_get self.now.events.now at) i) }
    {
        let mut foot = Foot::new(self.alloc);
        self.add_event(&mut foot, at)?;
        Ok(foot)
    }

    /// Adds what the event and the body touched that it started.
    pub fn add_event(&self, foot: &mut Foot, at: usize) -> Result<(), NoMemory>
        ensures { OnOk result
            ((i : Item) → holds foot.new i ≡ (holds foot.old i || event_has self.now.items.now (slice_get self.now.events.now at) i)) }
    {
        let Some(event) = self.events.get(at) else {
            return Ok(());
        };
        add_range(self.items, event.from, event.to, foot)?;
        match &event.foot {
            Some(body) => foot.merge(body),
            None => Ok(()),
        }
    }

    /// The set of the items of the events of a range; of no body, where races are sought.
    pub(crate) fn foot_of_range(
        &self,
        sought: Sought,
        from: usize,
        to: usize,
    ) -> Result<Foot, NoMemory>
        ensures { IfOk result (λ f. (i : Item) → holds f i ≡ range_has self.now.events.now self.now.items.now sought from (to - from) i) }
    {
        let mut foot = Foot::new(self.alloc);
        for at in from..to {
            self.add_sought(sought, at, &mut foot)?;
        }
        Ok(foot)
    }

    // Adds the items of the event, if it is sought.
    fn add_sought(&self, sought: Sought, at: usize, foot: &mut Foot) -> Result<(), NoMemory>
        ensures { OnOk result
            ((i : Item) → holds foot.new i ≡ (holds foot.old i || (is_sought sought (slice_get self.now.events.now at) &&
            event_has self.now.items.now (slice_get self.now.events.now at) i))) }
    {
        if self.is_sought(sought, at) {
            self.add_event(foot, at)
        } else {
            Ok(())
        }
    }

    pub(crate) fn is_sought(&self, sought: Sought, at: usize) -> bool
        ensures { result ≡ is_sought sought (slice_get self.now.events.now at) }
    {
        match self.events.get(at) {
            Some(event) => sought == Sought::Any || event.kind != Kind::Body,
            None => false,
        }
    }

    /// The set of the items and small bodies of a segment's events, large bodies left out.
    pub(crate) fn small_foot(&self, segments: &[Segment], group: usize) -> Result<Foot, NoMemory>
        ensures { IfOk result (Gathers segments.now self.now.events.now self.now.items.now group) }
    {
        let (from, to) = (
            segment_start(segments, self.events, group),
            segment_end(segments, self.events, group),
        );
        let mut foot = Foot::new(self.alloc);
        for at in from..to {
            self.add_small(at, &mut foot)?;
        }
        Ok(foot)
    }

    // Adds the event's items, and what its body touched, if that is small.
    fn add_small(&self, at: usize, foot: &mut Foot) -> Result<(), NoMemory>
        ensures { OnOk result ((i : Item) → holds foot.new i ≡ (holds foot.old i || small_of self.now.items.now (slice_get self.now.events.now at) i)) }
    {
        let Some(logged) = self.events.get(at) else {
            return Ok(());
        };
        add_range(self.items, logged.from, logged.to, foot)?;
        match &logged.foot {
            Some(body) if !logged.large => foot.merge(body),
            _ => Ok(()),
        }
    }

    /// Whether none of the events from there on started a frame.
    pub(crate) fn have_items_alone(&self, from: usize) -> bool
        ensures { result ≡ true → (k : ℕ) (e : Logged) → from ≤ k → slice_get self.now.events.now k ≡ Some e → e.foot ≡ None }
    {
        for at in from..self.events.len() {
            if !self.has_items_alone(at) {
                return false;
            }
        }
        true
    }

    /// Whether the event started no frame.
    pub(crate) fn has_items_alone(&self, at: usize) -> bool
        ensures { result ≡ true → (e : Logged) → slice_get self.now.events.now at ≡ Some e → e.foot ≡ None }
    {
        match self.events.get(at) {
            Some(event) => event.foot.is_none(),
            None => true,
        }
    }

    /// Where the items of an event stand.
    pub(crate) fn span(&self, at: usize) -> (usize, usize)
        ensures { IfSome (span_of (slice_get self.now.events.now at)) (λ s. result ≡ s) }
    {
        match self.events.get(at) {
            Some(event) => (event.from, event.to),
            None => (0, 0),
        }
    }
}
