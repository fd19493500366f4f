// A node's own events beside the side effects below it that come before its value in no order.
ghost use Rattle.std.specs.Prelude.{Box, ◌≡◌, ◌≤◌, ◌<◌, ◌-◌, ◌∷◌, ℕ, true, false, length, slice_get, suc, List, Some, None, IfOk, IfNone, IfSome, OnOk};
ghost use Rattle.std.specs.Global.{Global};
ghost use Rattle.evaluation_log.specs.declared.log.Logged.{Logged};
ghost use Rattle.evaluation_log.specs.Touched.{event_has};
ghost use Rattle.evaluation_log.specs.FoundItems.{ItemsConflict};
ghost use Rattle.run_evaluations.specs.Kept.{IsKept, IsSameRest};
ghost use Rattle.evaluation_log.specs.Kept.{AreLike, AllBelow, base_of};
ghost use Rattle.evaluation_log.specs.Loose.{NoLoose, HasLoose, LooseKept, loose_from, HasEvent, loose_start_of, loose_foot_of};
ghost use Rattle.c_typed.specs.Tree.{tree_of};
ghost use Rattle.seq_order.specs.Marked.{taken_in};
ghost use Rattle.evaluation_search.specs.First.{IsFirst};
ghost use Rattle.run_evaluations.specs.First.{AreOfNode, IsConflictIn, IsOrdered};
ghost use Rattle.run_evaluations.specs.Follows.{Follows, FollowsBut};
ghost use Rattle.run_evaluations.specs.Listed.{is_eff};
ghost use Rattle.run_evaluations.specs.Shows.{NoneOfNode, OwnAreLast};
ghost use Rattle.run_evaluations.specs.Told.{Opened};
ghost use Rattle.run_evaluations.specs.Loose.{EndsAt, IsFull, IsFullBut, IsLooseKept, IsListed, KeepsLoose};
ghost use Rattle.run_evaluations.specs.Scopes.{ListsAreAlone, Scope, place_of};
ghost use Rattle.evaluation_log.specs.Ways.{node_of};
ghost use Rattle.c_typed.specs.declared.tree.Place.{Place};
ghost use Rattle.ub_base.specs.declared.clause.Kind.TheVariants.{Eff};

use crate::open::Evaluations;
use crate::order::Order;
use addr_map::AddrMap;
use evaluation_log::{Found, Under};
use footprint::Foot;
use ub_base::{Frames, Kind, NoMemory};

/// At most so many events that come after no value below are compared one by one.
const FEW_LOOSE: usize = 16;

impl Evaluations {
    /// This node of the top frame's full expression is complete. Gives the first conflict between one of its own events
    /// and one below it that comes before its value in no order.
    pub fn node_done(
        &mut self,
        frames: &Frames,
        map: &AddrMap,
        order: Order<'_>,
        node: u32,
    ) -> Result<Option<Found>, NoMemory>
        ensures conflict { IfOk result ItemsConflict }
        ensures kept { OnOk result (IsKept self.old → IsKept self.new) }
        ensures loose { OnOk result (IsKept self.old → IsLooseKept self.old → IsLooseKept self.new) }
        ensures apart { (t : Opened) (ts : List Opened) → FollowsBut (t ∷ ts) node self.old → OwnAreLast t node → ListsAreAlone t.scope →
            IsOrdered t (taken_in order.entry.taken.now) (tree_of order.entry.root.now) →
            IfOk result (λ r. IfNone r (NoneOfNode map.now t node)) }
        ensures first { (t : Opened) (ts : List Opened) → FollowsBut (t ∷ ts) node self.old → OwnAreLast t node → ListsAreAlone t.scope →
            IsOrdered t (taken_in order.entry.taken.now) (tree_of order.entry.root.now) →
            IfOk result (λ r. IfSome r (IsFirst frames.now (IsConflictIn frames.now map.now t (AreOfNode t node)))) }
        ensures follows { OnOk result ((os : List Opened) → FollowsBut os node self.old → Follows os self.new) }
    {
        let loose = self.loose_start();
        let own = self.own_events(node);
        self.gather_loose(own, loose)?;
        let found = self.found_below(Under { frames, map }, order, own, loose)?;
        self.add_loose(node)?;
        Ok(found)
    }

    // Where the loose events of the top segment begin.
    fn loose_start(&self) -> usize
        ensures { result ≡ loose_from self.now.segments.items self.now.loose.items }
    {
        match self.segments.last() {
            Some(segment) => segment.loose,
            None => self.loose.len(),
        }
    }

    // The first of the node's own events, which are of the last two.
    fn own_events(&self, node: u32) -> usize
        ensures low { length self.now.events.items - 2 ≤ result }
        ensures least { (k : ℕ) (e : Logged) → length self.now.events.items - 2 ≤ k → slice_get self.now.events.items k ≡ Some e → e.node ≡ node → result ≤ k }
        ensures own { (k : ℕ) (e : Logged) → result ≤ k → suc k < length self.now.events.items → slice_get self.now.events.items k ≡ Some e → e.node ≡ node }
    {
        let count = self.events.len();
        let first = count.saturating_sub(2);
        if self.is_of(first, node) {
            return first;
        }
        let second = count.saturating_sub(1);
        if self.is_of(second, node) {
            return second;
        }
        count
    }

    fn is_of(&self, at: usize, node: u32) -> bool
        ensures other { result ≡ false → (e : Logged) → slice_get self.now.events.items at ≡ Some e → e.node ≡ node → ⊥ }
        ensures own { result ≡ true → (e : Logged) → slice_get self.now.events.items at ≡ Some e → e.node ≡ node }
    {
        match self.events.get(at) {
            Some(event) => event.node == node,
            None => false,
        }
    }

    // Whether this event or one behind it has items.
    fn has_items_from(&self, at: usize) -> bool {
        match self.events.get(at) {
            Some(event) => event.from < self.items.len(),
            None => false,
        }
    }

    // Where many events are in the list from there on, and the node's own events have items, the top segment keeps the set of
    // their items.
    fn gather_loose(&mut self, own: usize, loose: usize) -> Result<(), NoMemory>
        ensures rest { IsSameRest self.old self.new }
        ensures loose { self.new.loose.items ≡ self.old.loose.items }
        ensures like { (g : ℕ) → AreLike (slice_get self.old.segments.items g) (slice_get self.new.segments.items g) }
        ensures lows { (g : ℕ) → loose_start_of (slice_get self.new.segments.items g) ≡ loose_start_of (slice_get self.old.segments.items g) }
        ensures nodes { (g : ℕ) → node_of (slice_get self.new.segments.items g) ≡ node_of (slice_get self.old.segments.items g) }
        ensures feet { KeepsLoose self.old self.new loose }
        ensures right { LooseKept self.old.segments.items self.old.events.items self.old.items.items self.old.loose.items loose →
            LooseKept self.new.segments.items self.new.events.items self.new.items.items self.new.loose.items loose }
    {
        if !self.has_items_from(own)
            || self.loose.len().saturating_sub(loose) <= FEW_LOOSE
            || self.has_loose_foot()
        {
            return Ok(());
        }
        let foot = self.loose_set(loose)?;
        let foot = Box::new(self.alloc, foot)?;
        if let Some(segment) = self.segments.last_mut() {
            segment.loose_foot = Some(foot);
        }
        Ok(())
    }

    // The set of what the events touched that are in the list from there on.
    fn loose_set(&self, loose: usize) -> Result<Foot, NoMemory>
        ensures { IfOk result (HasLoose self.now.events.items self.now.items.items self.now.loose.items loose) }
    {
        self.as_log().loose_set(loose)
    }

    fn has_loose_foot(&self) -> bool {
        match self.segments.last() {
            Some(segment) => segment.loose_foot.is_some(),
            None => false,
        }
    }

    // The node's side effect comes before no value of a parent.
    fn add_loose(&mut self, node: u32) -> Result<(), NoMemory>
        ensures rest { IsSameRest self.old self.new }
        ensures like { (g : ℕ) → AreLike (slice_get self.old.segments.items g) (slice_get self.new.segments.items g) }
        ensures loose { OnOk result (IsKept self.old → IsLooseKept self.old → IsLooseKept self.new) }
        ensures full { OnOk result ((scopes : ℕ → Scope) → IsKept self.old → IsLooseKept self.old → IsFullBut scopes self.old →
            EndsAt self.old node → IsFull scopes self.new) }
        ensures nodes { (g : ℕ) → node_of (slice_get self.new.segments.items g) ≡ node_of (slice_get self.old.segments.items g) }
    {
        if !self.ends_with_effect(node) {
            return Ok(());
        }
        self.list_effect()?;
        Ok(())
    }

    // Whether the last event of the top frame's full expression is the node's side effect.
    fn ends_with_effect(&self, node: u32) -> bool
        ensures top { result ≡ true → IsKept self.now → (last : ℕ) × (length self.now.segments.items ≡ suc last) × AllBelow self.now.levels.items last }
        ensures no { result ≡ false → base_of self.now.levels.items < length self.now.segments.items → (u : Place) →
            place_of (slice_get self.now.events.items (length self.now.events.items - 1)) ≡ Some u → u.node ≡ node → u.kind ≡ Eff → ⊥ }
    {
        if self.segments.len() <= self.base() {
            return false;
        }
        self.is_effect_last(node)
    }

    fn is_effect_last(&self, node: u32) -> bool
        ensures { result ≡ false → (u : Place) →
            place_of (slice_get self.now.events.items (length self.now.events.items - 1)) ≡ Some u → u.node ≡ node → u.kind ≡ Eff → ⊥ }
    {
        match self.events.last() {
            Some(event) => is_effect(event.kind) && event.node == node,
            None => false,
        }
    }

    // Lists the last event, and adds it to the set of the top segment's loose events, where one is kept.
    fn list_effect(&mut self) -> Result<(), NoMemory>
        ensures rest { IsSameRest self.old self.new }
        ensures like { (g : ℕ) → AreLike (slice_get self.old.segments.items g) (slice_get self.new.segments.items g) }
        ensures listed { OnOk result (IsListed self.old self.new) }
        ensures nodes { (g : ℕ) → node_of (slice_get self.new.segments.items g) ≡ node_of (slice_get self.old.segments.items g) }
    {
        let at = self.events.len().saturating_sub(1);
        self.loose.push(at)?;
        let foot = self.take_loose_foot();
        let foot = self.with_event(foot, at)?;
        self.put_loose_foot(foot);
        Ok(())
    }

    pub(crate) fn take_loose_foot(&mut self) -> Option<Box<Foot>>
        ensures rest { IsSameRest self.old self.new }
        ensures like { (g : ℕ) → AreLike (slice_get self.old.segments.items g) (slice_get self.new.segments.items g) }
        ensures loose { self.new.loose.items ≡ self.old.loose.items }
        ensures count { length self.new.segments.items ≡ length self.old.segments.items }
        ensures lows { (g : ℕ) → loose_start_of (slice_get self.new.segments.items g) ≡ loose_start_of (slice_get self.old.segments.items g) }
        ensures others { (g : ℕ) → suc g < length self.old.segments.items → slice_get self.new.segments.items g ≡ slice_get self.old.segments.items g }
        ensures nodes { (g : ℕ) → node_of (slice_get self.new.segments.items g) ≡ node_of (slice_get self.old.segments.items g) }
        ensures given { result ≡ loose_foot_of (slice_get self.old.segments.items (length self.old.segments.items - 1)) }
    {
        match self.segments.last_mut() {
            Some(segment) => segment.loose_foot.take(),
            None => None,
        }
    }

    // The set with what the event touched, if there is one.
    fn with_event(&self, foot: Option<Box<Foot>>, at: usize) -> Result<Option<Box<Foot>>, NoMemory>
        ensures { IfOk result (λ r. HasEvent foot r (event_has self.now.items.items (slice_get self.now.events.items at))) }
    {
        let Some(mut foot) = foot else {
            return Ok(None);
        };
        self.add_event(&mut foot, at)?;
        Ok(Some(foot))
    }

    fn put_loose_foot(&mut self, foot: Option<Box<Foot>>)
        ensures rest { IsSameRest self.old self.new }
        ensures like { (g : ℕ) → AreLike (slice_get self.old.segments.items g) (slice_get self.new.segments.items g) }
        ensures loose { self.new.loose.items ≡ self.old.loose.items }
        ensures count { length self.new.segments.items ≡ length self.old.segments.items }
        ensures lows { (g : ℕ) → loose_start_of (slice_get self.new.segments.items g) ≡ loose_start_of (slice_get self.old.segments.items g) }
        ensures others { (g : ℕ) → suc g < length self.old.segments.items → slice_get self.new.segments.items g ≡ slice_get self.old.segments.items g }
        ensures nodes { (g : ℕ) → node_of (slice_get self.new.segments.items g) ≡ node_of (slice_get self.old.segments.items g) }
        ensures below { (f : Box Foot Global) → loose_foot_of (slice_get self.new.segments.items (length self.old.segments.items - 1)) ≡ Some f →
            foot ≡ Some f }
    {
        if let Some(segment) = self.segments.last_mut() {
            segment.loose_foot = foot;
        }
    }
}

fn is_effect(kind: Kind) -> bool
    ensures { result ≡ is_eff kind }
{
    match kind {
        Kind::Eff => true,
        _ => false,
    }
}
