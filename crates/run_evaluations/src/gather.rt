// The segments of a node's operands, which are made one.
ghost use Rattle.std.specs.Prelude.{Box, ◌≡◌, ◌≤◌, ◌<◌, ◌-◌, ◌≢◌, ℕ, suc, true, false, length, slice_get, Some, None, vec_len, IfSome};
ghost use Rattle.std.specs.Global.{Global};
ghost use Rattle.footprint.specs.Holds.{holds};
ghost use Rattle.evaluation_log.specs.declared.log.Segment.{Segment};
ghost use Rattle.evaluation_log.specs.declared.rules.Rule.TheVariants.{Open};
ghost use Rattle.evaluation_log.specs.Clashes.{AreSorted};
ghost use Rattle.evaluation_log.specs.Kept.{AreLike, IsJoined, AllBelow, IsOperand, base_of, marks, harmless_of, foot_of};
ghost use Rattle.evaluation_log.specs.Loose.{HasRange, Thins, loose_of, loose_start_of, loose_foot_of};
ghost use Rattle.evaluation_log.specs.Ways.{node_of};
ghost use Rattle.run_evaluations.specs.Kept.{IsKept, IsSameRest, IsSameLog};
ghost use Rattle.run_evaluations.specs.Listed.{Stays, is_node, stays_from};
ghost use Rattle.run_evaluations.specs.Loose.{IsFull, IsFullAfter, IsLooseKept, IsOver, stays_of, top_scope};
ghost use Rattle.run_evaluations.specs.Scopes.{Scope};
ghost use Rattle.run_evaluations.specs.Ways.{IsGathered, IsSameUnder};

use crate::open::Evaluations;
use evaluation_log::Rule;
use evaluation_search::all_harmless;
use footprint::Foot;

impl Evaluations {
    // The first of the segments of this node's operands, which are the last ones of the top frame.
    pub(crate) fn operands(&self, node: u32) -> usize
        ensures below { IsKept self.now → AllBelow self.now.levels.items result }
        ensures least { (g : ℕ) → IsOperand self.now.segments.items self.now.levels.items node g → result ≤ g }
        ensures low { base_of self.now.levels.items ≤ result }
        ensures behind { (k : ℕ) (s : Segment) → result ≤ k → slice_get self.now.segments.items k ≡ Some s → node < s.node }
    {
        let base = self.base();
        let at = self.first_above(node, base);
        if at < base { base } else { at }
    }

    // The first of the last segments from this one on that are of nodes behind this node.
    fn first_above(&self, node: u32, base: usize) -> usize
        ensures least { (g : ℕ) → base ≤ g → ((k : ℕ) (s : Segment) → g ≤ k → slice_get self.now.segments.items k ≡ Some s → node < s.node) →
            result ≤ g }
        ensures behind { (k : ℕ) (s : Segment) → result ≤ k → slice_get self.now.segments.items k ≡ Some s → node < s.node }
    {
        let mut at = self.segments.len();
        for i in (base..self.segments.len()).rev() {
            if self.is_up_to(i, node) {
                return at;
            }
            at = i;
        }
        at
    }

    // Whether the segment is of no node behind this one.
    fn is_up_to(&self, i: usize, node: u32) -> bool
        ensures yes { result ≡ true → ((s : Segment) → slice_get self.now.segments.items i ≡ Some s → node < s.node) → ⊥ }
        ensures no { result ≡ false → (s : Segment) → slice_get self.now.segments.items i ≡ Some s → node < s.node }
    {
        match self.segments.get(i) {
            Some(segment) => segment.node <= node,
            None => false,
        }
    }

    // Makes one segment of those of a node's operands.
    pub(crate) fn gather(&mut self, node: u32, rule: Rule, chosen: bool)
        ensures rest { IsSameRest self.old self.new }
        ensures kept { IsKept self.old → IsKept self.new }
        ensures loose { IsKept self.old → IsLooseKept self.old → IsLooseKept self.new }
        ensures made { (at : ℕ) × IsGathered self.old self.new node at }
        ensures under { IsKept self.old → IsLooseKept self.old → IsSameUnder self.old self.new }
        ensures full { (scopes : ℕ → Scope) → IsKept self.old → IsLooseKept self.old → IsFull scopes self.old →
            IsOver (top_scope scopes self.old) self.old node rule chosen → IsFull scopes self.new }
    {
        let at = self.operands(node);
        if at >= self.segments.len() {
            return;
        }
        let foot = self.take_only(at);
        self.join(at, node, rule, chosen, foot);
    }

    // The set of the segment, if it is the last one, and then no longer kept.
    fn take_only(&mut self, at: usize) -> Option<Box<Foot>>
        ensures same { IsSameLog self.old self.new }
        ensures others { (g : ℕ) → g ≢ at → slice_get self.new.segments.items g ≡ slice_get self.old.segments.items g }
        ensures nodes { (g : ℕ) → node_of (slice_get self.new.segments.items g) ≡ node_of (slice_get self.old.segments.items g) }
        ensures given { (f : Box Foot Global) → result ≡ Some f →
            (length self.old.segments.items ≤ suc at) × (foot_of (slice_get self.old.segments.items at) ≡ Some f) }
    {
        if at.saturating_add(1) < self.segments.len() {
            return None;
        }
        self.take_foot(at)
    }

    // Makes one segment of those from this one on, with this set.
    pub(crate) fn join(
        &mut self,
        at: usize,
        node: u32,
        rule: Rule,
        chosen: bool,
        foot: Option<Box<Foot>>,
    )
        requires { at < vec_len self.old.segments }
        ensures rest { IsSameRest self.old self.new }
        ensures joined { IsJoined self.old.segments.items self.new.segments.items at }
        ensures foot { foot_of (slice_get self.new.segments.items at) ≡ foot }
        ensures own { node_of (slice_get self.new.segments.items at) ≡ Some node }
        ensures others { (g : ℕ) → g < at → slice_get self.new.segments.items g ≡ slice_get self.old.segments.items g }
        ensures thins { Thins (loose_of self.old.segments.items self.old.loose.items at) self.old.loose.items self.new.loose.items }
        ensures low { loose_start_of (slice_get self.new.segments.items at) ≡ loose_start_of (slice_get self.old.segments.items at) }
        ensures loose { AreSorted self.old.segments.items self.old.events.items 0 → AllBelow self.old.levels.items at → IsLooseKept self.old →
            IsLooseKept self.new }
        ensures full { IsFullAfter self.old self.new at node rule chosen }
    {
        let harmless = self.all_harmless(at);
        self.keep_loose(at, node, rule, chosen);
        let loose_foot = self.left_loose_foot(at, rule);
        self.put_joined(at, node, harmless, foot, loose_foot);
    }

    // Whether each segment from this one on is harmless.
    pub(crate) fn all_harmless(&self, at: usize) -> bool
        ensures { result ≡ true → (g : ℕ) (s : Segment) → at ≤ g → slice_get self.now.segments.items g ≡ Some s → s.harmless ≡ true }
    {
        all_harmless(&self.segments, at)
    }

    // Leaves this segment as the last one, with what is said of it.
    fn put_joined(
        &mut self,
        at: usize,
        node: u32,
        harmless: bool,
        foot: Option<Box<Foot>>,
        loose_foot: Option<Box<Foot>>,
    )
        requires { at < vec_len self.old.segments }
        ensures rest { IsSameRest self.old self.new }
        ensures count { length self.new.segments.items ≡ suc at }
        ensures others { (g : ℕ) → g < at → slice_get self.new.segments.items g ≡ slice_get self.old.segments.items g }
        ensures begins { marks (slice_get self.new.segments.items at) ≡ marks (slice_get self.old.segments.items at) }
        ensures harm { harmless_of (slice_get self.new.segments.items at) ≡ harmless }
        ensures foot { foot_of (slice_get self.new.segments.items at) ≡ foot }
        ensures loose { self.new.loose.items ≡ self.old.loose.items }
        ensures low { loose_start_of (slice_get self.new.segments.items at) ≡ loose_start_of (slice_get self.old.segments.items at) }
        ensures below { loose_foot_of (slice_get self.new.segments.items at) ≡ loose_foot }
        ensures own { node_of (slice_get self.new.segments.items at) ≡ Some node }
    {
        self.segments.truncate(at + 1);
        if let Some(segment) = self.segments.get_mut(at) {
            segment.node = node;
            segment.harmless = harmless;
            segment.loose_foot = loose_foot;
            segment.foot = foot;
        }
    }

    // The set of the loose events of the segments from there on, where one is kept that has them all, and the rule leaves them all.
    fn left_loose_foot(&mut self, at: usize, rule: Rule) -> Option<Box<Foot>>
        requires { at < vec_len self.old.segments }
        ensures rest { IsSameRest self.old self.new }
        ensures loose { self.new.loose.items ≡ self.old.loose.items }
        ensures count { length self.new.segments.items ≡ length self.old.segments.items }
        ensures like { (g : ℕ) → AreLike (slice_get self.old.segments.items g) (slice_get self.new.segments.items g) }
        ensures lows { (g : ℕ) → loose_start_of (slice_get self.new.segments.items g) ≡ loose_start_of (slice_get self.old.segments.items g) }
        ensures others { (g : ℕ) → g < at → slice_get self.new.segments.items g ≡ slice_get self.old.segments.items g }
        ensures has { IfSome result (λ f. (rule ≡ Open) × (IsLooseKept self.old → HasRange self.old.events.items self.old.items.items
            self.old.loose.items (loose_of self.old.segments.items self.old.loose.items at) (length self.old.loose.items) f.value)) }
    {
        if rule == Rule::Open {
            self.only_loose_foot(at)
        } else {
            None
        }
    }

    // The set of the loose events of the segments from there on, where the first or the last of them has them all.
    fn only_loose_foot(&mut self, at: usize) -> Option<Box<Foot>>
        requires { at < vec_len self.old.segments }
        ensures rest { IsSameRest self.old self.new }
        ensures loose { self.new.loose.items ≡ self.old.loose.items }
        ensures count { length self.new.segments.items ≡ length self.old.segments.items }
        ensures like { (g : ℕ) → AreLike (slice_get self.old.segments.items g) (slice_get self.new.segments.items g) }
        ensures lows { (g : ℕ) → loose_start_of (slice_get self.new.segments.items g) ≡ loose_start_of (slice_get self.old.segments.items g) }
        ensures others { (g : ℕ) → g < at → slice_get self.new.segments.items g ≡ slice_get self.old.segments.items g }
        ensures has { IfSome result (λ f. IsLooseKept self.old → HasRange self.old.events.items self.old.items.items
            self.old.loose.items (loose_of self.old.segments.items self.old.loose.items at) (length self.old.loose.items) f.value) }
    {
        if self.has_last_all(at) {
            return self.take_loose_foot();
        }
        if self.has_first_all(at) {
            return self.take_loose_foot_at(at);
        }
        None
    }

    // Whether the last segment has all the loose events of the segments from there on.
    fn has_last_all(&self, at: usize) -> bool
        ensures { result ≡ true → loose_of self.now.segments.items self.now.loose.items (length self.now.segments.items - 1) ≡
            loose_of self.now.segments.items self.now.loose.items at }
    {
        self.loose_begin(self.segments.len().saturating_sub(1)) == self.loose_begin(at)
    }

    // Whether this segment has all the loose events of the segments from there on.
    fn has_first_all(&self, at: usize) -> bool
        ensures { result ≡ true → loose_of self.now.segments.items self.now.loose.items (suc at) ≡ length self.now.loose.items }
    {
        self.loose_end(at) == self.loose.len()
    }

    // Where the loose events of a segment begin in the list; behind the last one, where the list ends.
    fn loose_begin(&self, group: usize) -> usize
        ensures { result ≡ loose_of self.now.segments.items self.now.loose.items group }
    {
        match self.segments.get(group) {
            Some(segment) => segment.loose,
            None => self.loose.len(),
        }
    }

    fn loose_end(&self, group: usize) -> usize
        ensures { result ≡ loose_of self.now.segments.items self.now.loose.items (suc group) }
    {
        self.loose_begin(group.saturating_add(1))
    }

    fn take_loose_foot_at(&mut self, at: usize) -> Option<Box<Foot>>
        ensures rest { IsSameRest self.old self.new }
        ensures like { (g : ℕ) → AreLike (slice_get self.old.segments.items g) (slice_get self.new.segments.items g) }
        ensures loose { self.new.loose.items ≡ self.old.loose.items }
        ensures count { length self.new.segments.items ≡ length self.old.segments.items }
        ensures lows { (g : ℕ) → loose_start_of (slice_get self.new.segments.items g) ≡ loose_start_of (slice_get self.old.segments.items g) }
        ensures others { (g : ℕ) → g ≢ at → slice_get self.new.segments.items g ≡ slice_get self.old.segments.items g }
        ensures given { result ≡ loose_foot_of (slice_get self.old.segments.items at) }
    {
        match self.segments.get_mut(at) {
            Some(segment) => segment.loose_foot.take(),
            None => None,
        }
    }

    // Leaves those loose events of the operands that no rule of the node sequences before its value.
    fn keep_loose(&mut self, at: usize, node: u32, rule: Rule, chosen: bool)
        requires { at < vec_len self.old.segments }
        ensures segments { self.new.segments ≡ self.old.segments }
        ensures rest { IsSameRest self.old self.new }
        ensures thins { Thins (loose_of self.old.segments.items self.old.loose.items at) self.old.loose.items self.new.loose.items }
        ensures open { rule ≡ Open → self.new.loose.items ≡ self.old.loose.items }
        ensures stays { Stays (stays_of self.old at node rule chosen) (loose_of self.old.segments.items self.old.loose.items at)
            self.old.loose.items self.new.loose.items }
    {
        let first = self.loose_begin(at);
        let stays = self.loose_left(first, node, rule, chosen);
        close_gap(&mut self.loose, first, stays);
    }

    // From which place on they stay listed, where those of the operands are listed from this one on.
    fn loose_left(&self, first: usize, node: u32, rule: Rule, chosen: bool) -> usize
        ensures { result ≡ stays_from rule chosen node (node_of (slice_get self.now.segments.items (length self.now.segments.items - 1))) first
            (loose_of self.now.segments.items self.now.loose.items (length self.now.segments.items - 1)) (length self.now.loose.items) }
    {
        let end = self.loose.len();
        let behind = self.loose_begin(self.segments.len().saturating_sub(1));
        match rule {
            Rule::Open => first,
            Rule::Closed => end,
            Rule::Choice => {
                if !chosen {
                    first
                } else if self.is_last_of(node.saturating_add(1)) {
                    end
                } else {
                    behind
                }
            }
            Rule::Comma(number) => { if self.is_last_of(number) { behind } else { end } }
        }
    }

    // Whether the last segment is of this node.
    fn is_last_of(&self, node: u32) -> bool
        ensures { result ≡ is_node (node_of (slice_get self.now.segments.items (length self.now.segments.items - 1))) node }
    {
        match self.segments.last() {
            Some(segment) => segment.node == node,
            None => false,
        }
    }
}

// Takes the entries from one place up to another away.
fn close_gap(list: &mut Vec<usize>, from: usize, to: usize)
    ensures thins { Thins from list.old.items list.new.items }
    ensures none { to ≤ from → list.new.items ≡ list.old.items }
    ensures stays { Stays to from list.old.items list.new.items }
{
    if to <= from {
        return;
    }
    if to >= list.len() {
        list.truncate(from);
        return;
    }
    for i in from..to {
        take_out(list, from);
    }
}

// Takes the entry at this place away, if there is one.
fn take_out(list: &mut Vec<usize>, at: usize)
    ensures thins { Thins at list.old.items list.new.items }
    ensures behind { (p : ℕ) → at < p → slice_get list.new.items (p - 1) ≡ slice_get list.old.items p }
{
    if at < list.len() {
        list.remove(at);
    }
}
