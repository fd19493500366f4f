// An end of the run beside evaluations that it isn't sequenced with.
ghost use Rattle.std.specs.Prelude.{◌≡◌, false, Option, ◌<◌, ◌^◌, ◌-◌, ◌∷◌, ℕ, true, List, None, Some, IfOk, IfNone, IfSome, OnOk, slice_get, length};
ghost use Rattle.ub_base.specs.declared.names.Item.{Item};
ghost use Rattle.c_typed.specs.Tree.{tree_of, size};
ghost use Rattle.footprint.specs.Conflicts.{MayConflict};
ghost use Rattle.footprint.specs.Holds.{holds};
ghost use Rattle.evaluation_log.specs.declared.found.Found.{Found};
ghost use Rattle.evaluation_log.specs.declared.log.Logged.{Logged};
ghost use Rattle.evaluation_log.specs.Touched.{event_has};
ghost use Rattle.evaluation_log.specs.FoundItems.{AreOfOne, ItemsConflict, first_found};
ghost use Rattle.evaluation_log.specs.Kept.{is_unsequenced};
ghost use Rattle.evaluation_log.specs.Ways.{IsRising};
ghost use Rattle.evaluation_search.specs.First.{IsFirstOf};
ghost use Rattle.run_evaluations.specs.Ends.{is_value, is_value_kind, events_from, HasValue, IsBeside, IsBesideSome, IsDone, IsInValue, NoneBeside};
ghost use Rattle.run_evaluations.specs.First.{IsOnce, IsTopPair};
ghost use Rattle.run_evaluations.specs.FirstAtEnd.{AllSequenceNone, IsConflictAtEnd};
ghost use Rattle.run_evaluations.specs.Kept.{IsKept, IsSameRest, NoneOfOperands};
ghost use Rattle.run_evaluations.specs.Loose.{IsLooseKept};
ghost use Rattle.run_evaluations.specs.Follows.{Follows, FollowsBelow};
ghost use Rattle.run_evaluations.specs.Scopes.{place_of};
ghost use Rattle.run_evaluations.specs.Shows.{NoneOfWay, NonePending, TellsEnd};
ghost use Rattle.run_evaluations.specs.Told.{Evaluation, Opened};
ghost use Rattle.run_evaluations.specs.Ways.{AreBehindOperand, AreOnWay, IsGathered, IsSameUnder, NoneOnWay, NoneAtEnd, StandInOrder};

use crate::open::Evaluations;
use addr_map::AddrMap;
use c_typed::{Place, Typed};
use evaluation_log::{Found, Rule, Rules, Sought, Under, Way, first_of, least_items, way_to};
use footprint::Foot;
use ub_base::{Event, Frames, Item, Kind, NoMemory};

impl Evaluations {
    /// The last event of the top frame's full expression, whose tree this is, ended the run or started the frame that
    /// did. Gives the first of all conflicts that have both sides by now: it meets every event, done or pending, that it
    /// isn't sequenced with.
    pub fn ended(
        &mut self,
        frames: &Frames,
        map: &AddrMap,
        root: &Typed,
        rules: &Rules,
    ) -> Result<Option<Found>, NoMemory>
        ensures conflict { IfOk result ItemsConflict }
        ensures kept { OnOk result (IsKept self.old → IsKept self.new) }
        ensures loose { OnOk result (IsKept self.old → IsLooseKept self.old → IsLooseKept self.new) }
        ensures none { IsKept self.old → size (tree_of root.now) < 2 ^ 32 → IfOk result
            (λ r. IfNone r (NoneAtEnd map.now rules.now (tree_of root.now) self.old)) }
        ensures follows { OnOk result ((t : Opened) (ts : List Opened) → Follows (t ∷ ts) self.old → FollowsBelow ts self.new) }
        ensures apart { (t : Opened) (ts : List Opened) (last : Evaluation) → Follows (t ∷ ts) self.old →
            TellsEnd t (tree_of root.now) rules.now last → IfOk result
            (λ r. IfNone r (NoneOfWay map.now t last.place.node × NonePending map.now t last)) }
        ensures first { (t : Opened) (ts : List Opened) (last : Evaluation) → Follows (t ∷ ts) self.old →
            TellsEnd t (tree_of root.now) rules.now last → AllSequenceNone t rules.now → IsOnce t → IfOk result
            (IsFirstOf frames.now (IsConflictAtEnd frames.now map.now t last)) }
    {
        let Some(target) = self.last_node() else {
            return Ok(None);
        };
        let way = way_to(self.alloc, root, rules, target)?;
        let under = Under { frames, map };
        let beside = self.found_beside_some(under, way.before.or(way.behind))?;
        let open = self.found_on_way(under, &way, rules)?;
        Ok(first_of(frames, beside, open))
    }

    // The node of the last event.
    fn last_node(&self) -> Option<u32>
        ensures { (last : Logged) → slice_get self.now.events.items (length self.now.events.items - 1) ≡ Some last → result ≡ Some last.node }
    {
        match self.last_place() {
            Some(place) => Some(place.node),
            None => None,
        }
    }

    // The last event: of which node, and which of its evaluations.
    fn last_place(&self) -> Option<Place>
        ensures { result ≡ place_of (slice_get self.now.events.items (length self.now.events.items - 1)) }
    {
        match self.events.last() {
            Some(event) => Some(Place {
                node: event.node,
                kind: event.kind,
            }),
            None => None,
        }
    }

    // The conflict of the last event with the value of this node, where there is one.
    fn found_beside_some(
        &self,
        under: Under<'_>,
        node: Option<u32>,
    ) -> Result<Option<Found>, NoMemory>
        ensures conflict { IfOk result ItemsConflict }
        ensures none { IfOk result (λ r. IfNone r (IfSome node (NoneBeside under.entry.map.now self.now))) }
        ensures first { (last : Logged) → slice_get self.now.events.items (length self.now.events.items - 1) ≡ Some last → IfOk result
            (IsBesideSome under.entry.frames.now under.entry.map.now self.now last node) }
    {
        match node {
            Some(node) => self.found_beside(under, node),
            None => Ok(None),
        }
    }

    // The conflict of the last event with the value of this node, done or pending.
    fn found_beside(&self, under: Under<'_>, node: u32) -> Result<Option<Found>, NoMemory>
        ensures conflict { IfOk result ItemsConflict }
        ensures none { IfOk result (λ r. IfNone r (NoneBeside under.entry.map.now self.now node)) }
        ensures first { (last : Logged) → slice_get self.now.events.items (length self.now.events.items - 1) ≡ Some last → IfOk result
            (IsBeside under.entry.frames.now under.entry.map.now self.now last node) }
    {
        let last = self.events.len().saturating_sub(1);
        let Some(end) = self.last_place() else {
            return Ok(None);
        };
        let from = end.node;
        let foot = self.value_foot(node)?;
        let ending = self.event_foot(last)?;
        let place = self.place();
        let value = place.event(node, Kind::Val);
        let body = place.event(from, end.kind);
        Ok(if node < from {
            depends(value, body, least_items(under, Sought::Any, &foot, &ending))
        } else {
            depends(body, value, least_items(under, Sought::Any, &ending, &foot))
        })
    }

    // What the value of this node touched, if it is done, and what stands for every event.
    fn value_foot(&self, node: u32) -> Result<Foot, NoMemory>
        ensures { IfOk result (HasValue self.now node) }
    {
        let mut foot = self.done_foot(node)?;
        foot.add(Item::Any)?;
        Ok(foot)
    }

    // What the value of this node touched, if it is done.
    fn done_foot(&self, node: u32) -> Result<Foot, NoMemory>
        ensures has { IfOk result (λ f. (k : ℕ) → IsDone self.now node k → (j : Item) →
            event_has self.now.items.items (slice_get self.now.events.items k) j ≡ true → holds f j ≡ true) }
        ensures only { IfOk result (λ f. (j : Item) → holds f j ≡ true → IsInValue self.now node j) }
    {
        match self.done(node) {
            Some(at) => self.event_foot(at),
            None => Ok(Foot::new(self.alloc)),
        }
    }

    // The value of this node, if it is done.
    fn done(&self, node: u32) -> Option<usize>
        ensures here { IfSome result (IsDone self.now node) }
        ensures found { (k : ℕ) → IsDone self.now node k → result ≡ Some k }
    {
        let from = self.events_from();
        for at in from..self.events.len() {
            if self.is_value(at, node) {
                return Some(at);
            }
        }
        None
    }

    // Where the events of the top frame's full expression begin.
    pub(crate) fn events_from(&self) -> usize
        ensures { result ≡ events_from self.now }
    {
        match self.levels.last() {
            Some(level) => level.events,
            None => 0,
        }
    }

    fn is_value(&self, at: usize, node: u32) -> bool
        ensures { result ≡ is_value node (slice_get self.now.events.items at) }
    {
        match self.events.get(at) {
            Some(event) => is_value_kind(event.kind) && event.node == node,
            None => false,
        }
    }

    // The first conflict between operands of a node on the way that isn't complete.
    fn found_on_way(
        &mut self,
        under: Under<'_>,
        way: &Way,
        rules: &Rules,
    ) -> Result<Option<Found>, NoMemory>
        ensures conflict { IfOk result ItemsConflict }
        ensures kept { IsKept self.old → IsKept self.new }
        ensures loose { IsKept self.old → IsLooseKept self.old → IsLooseKept self.new }
        ensures none { IsKept self.old → IsRising way.now.above.items → IfOk result
            (λ r. IfNone r (NoneOnWay under.entry.map.now rules.now way.now.above.items self.old)) }
        ensures under { IsKept self.old → IsLooseKept self.old → IsSameUnder self.old self.new }
        ensures first { IsKept self.old → IsRising way.now.above.items → StandInOrder self.old → IfOk result (IsFirstOf under.entry.frames.now
            (IsTopPair under.entry.frames.now under.entry.map.now self.old (AreOnWay rules.now way.now.above.items self.old 0))) }
    {
        let mut best = None;
        for i in (0..way.above.len()).rev() {
            let node = way.above[i];
            best = self.found_at_node(under, node, rules.get(node), best)?;
        }
        Ok(best)
    }

    // The first conflict so far, with those between the operands of this node, which are made one.
    fn found_at_node(
        &mut self,
        under: Under<'_>,
        node: u32,
        rule: Rule,
        best: Option<Found>,
    ) -> Result<Option<Found>, NoMemory>
        requires { ItemsConflict best }
        ensures conflict { IfOk result ItemsConflict }
        ensures kept { IsKept self.old → IsKept self.new }
        ensures loose { IsKept self.old → IsLooseKept self.old → IsLooseKept self.new }
        ensures none { IsKept self.old → IfOk result (λ r. r ≡ None → (best ≡ None) ×
            (is_unsequenced rule ≡ true → NoneOfOperands under.entry.map.now self.old node)) }
        ensures rest { IsSameRest self.old self.new }
        ensures made { OnOk result ((at : ℕ) × IsGathered self.old self.new node at) }
        ensures under { IsKept self.old → IsLooseKept self.old → IsSameUnder self.old self.new }
        ensures first { IsKept self.old → StandInOrder self.old → IfOk result (λ r. (found : Option Found) ×
            (r ≡ first_found under.entry.frames.now best found) × IsFirstOf under.entry.frames.now
            (IsTopPair under.entry.frames.now under.entry.map.now self.old (AreBehindOperand self.old node rule)) found) }
    {
        let found = self.found_of_operands(under, node, rule)?;
        self.gather(node, rule, true);
        Ok(first_of(under.frames, best, found))
    }

    // The first conflict between the operands of this node, if they are unsequenced.
    fn found_of_operands(
        &self,
        under: Under<'_>,
        node: u32,
        rule: Rule,
    ) -> Result<Option<Found>, NoMemory>
        ensures conflict { IfOk result ItemsConflict }
        ensures none { IsKept self.now → is_unsequenced rule ≡ true → IfOk result (λ r. IfNone r (NoneOfOperands under.entry.map.now self.now node)) }
        ensures first { IsKept self.now → StandInOrder self.now → IfOk result (IsFirstOf under.entry.frames.now
            (IsTopPair under.entry.frames.now under.entry.map.now self.now (AreBehindOperand self.now node rule))) }
    {
        let at = self.operands(node);
        if at.saturating_add(1) >= self.segments.len() {
            return Ok(None);
        }
        if !rule.is_unsequenced() {
            return Ok(None);
        }
        self.found_between(under, at)
    }
}

// A dependence of two events on their order, where items of theirs conflict.
fn depends(event: Event, against: Event, items: Option<(Item, Item)>) -> Option<Found>
    requires one { AreOfOne event against }
    requires may { IfSome items (λ p. MayConflict p.0 p.1) }
    ensures conflict { ItemsConflict result }
    ensures none { result ≡ None → items ≡ None }
    ensures some { IfSome result (λ f. (f.race ≡ false) × (f.event ≡ event) × (f.against ≡ against) × (items ≡ Some f.items)) }
{
    let items = items?;
    Some(Found {
        race: false,
        event,
        against,
        items,
    })
}

fn is_value_kind(kind: Kind) -> bool
    ensures { result ≡ is_value_kind kind }
{
    match kind {
        Kind::Val => true,
        _ => false,
    }
}
