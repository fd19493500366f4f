// The open evaluations of a run.
ghost use Rattle.std.specs.Prelude.{Box, ◌≡◌, ◌<◌, ◌-◌, ◌≢◌, ◌++◌, ◌∷◌, ◌||◌, [], take, ℕ, suc, true, false, length, slice_get, Bool, List, Some, None, IfSome};
ghost use Rattle.std.specs.Prelude.{OnOk, IfOk};
ghost use Rattle.footprint.specs.Holds.{holds};
ghost use Rattle.evaluation_log.specs.declared.log.Logged.{Logged};
ghost use Rattle.evaluation_log.specs.declared.log.Segment.{Segment};
ghost use Rattle.evaluation_log.specs.Bodies.{HasBody};
ghost use Rattle.evaluation_log.specs.Loose.{loose_start_of, loose_foot_of};
ghost use Rattle.evaluation_log.specs.Kept.{AllBelow, IsAdded, cut_of, base_of, marks, harmless_of, foot_of, span_of, is_large, IsMore};
ghost use Rattle.evaluation_log.specs.Kept.{own_body};
ghost use Rattle.evaluation_log.specs.Touched.{event_has};
ghost use Rattle.evaluation_log.specs.Ways.{node_of};
ghost use Rattle.run_evaluations.specs.Ends.{events_from};
ghost use Rattle.run_evaluations.specs.First.{expression_in};
ghost use Rattle.run_evaluations.specs.Follows.{AreNamed, Follows, FollowsBelow, FollowsBut, HasStarted, IsNamed, IsSameBefore, IsTurned};
ghost use Rattle.run_evaluations.specs.Kept.{IsKept, IsSameRest, IsFirst, IsLogged, IsTold, IsSameOpen};
ghost use Rattle.run_evaluations.specs.Loose.{EndsAt, IsFull, IsFullBut, IsLooseKept, top_scope};
ghost use Rattle.run_evaluations.specs.Scopes.{IsBelow, Scope, place_of};
ghost use Rattle.run_evaluations.specs.Told.{Opened, Tells, begun, entered, evaluation, given, settled, told};
ghost use Rattle.run_evaluations.specs.Ways.{IsPlaced};
ghost use Rattle.c_typed.specs.Order.{place};
ghost use Rattle.ub_base.specs.declared.clause.Kind.TheVariants.{Eff};
ghost use Rattle.ub_base.specs.declared.names.Item.{Item};

use evaluation_log::{Known, Level, Logged, Rule, Segment, Under, are_harmless};
use evaluation_search::{Log, Place, Search};
use footprint::Foot;
use std::alloc::Global;
use ub_base::{Frame, Item, Kind, NoMemory};

/// A body of more entries than this isn't copied where footprints are gathered.
const LARGE: usize = 64;

/// The evaluations of the full expressions that are open along a run and recorded, from the outermost one to that of the top
/// frame. It is told each pick of what is recorded, the events of each subtree together.
#[derive(Drop)]
pub struct Evaluations {
    pub(crate) alloc: Global,
    pub(crate) levels: Vec<Level>,
    pub(crate) items: Vec<Item>,
    pub(crate) events: Vec<Logged>,
    pub(crate) segments: Vec<Segment>,
    pub(crate) loose: Vec<usize>,
    pub(crate) large: Vec<usize>,
    known: Known,
}

impl Evaluations {
    /// The frame of `main` alone, with no full expression.
    pub fn new(alloc: Global) -> Result<Self, NoMemory>
        ensures kept { IfOk result IsKept }
        ensures loose { IfOk result IsLooseKept }
        ensures follows { IfOk result (λ o. Follows (entered (record { 0 = 0 }) ∷ []) o) }
    {
        let mut open = Evaluations {
            alloc,
            levels: Vec::new(alloc),
            items: Vec::new(alloc),
            events: Vec::new(alloc),
            segments: Vec::new(alloc),
            loose: Vec::new(alloc),
            large: Vec::new(alloc),
            known: Known::new(alloc)?,
        };
        open.enter(Frame(0))?;
        Ok(open)
    }

    /// How many frames are open.
    pub fn depth(&self) -> usize {
        self.levels.len()
    }

    /// Whether this is the top frame.
    pub fn is_top(&self, frame: Frame) -> bool {
        match self.levels.last() {
            Some(level) => level.frame.0 == frame.0,
            None => false,
        }
    }

    /// The event that was told last began this frame.
    pub fn enter(&mut self, frame: Frame) -> Result<(), NoMemory>
        ensures kept { OnOk result (IsKept self.old → IsKept self.new) }
        ensures loose { OnOk result (IsLooseKept self.old → IsLooseKept self.new) }
        ensures follows { OnOk result ((os : List Opened) → Follows os self.old → Follows (entered frame ∷ os) self.new) }
    {
        let level = Level {
            frame,
            turn: 0,
            foot: Foot::new(self.alloc),
            events: self.events.len(),
            items: self.items.len(),
            segments: self.segments.len(),
            loose: self.loose.len(),
            large: self.large.len(),
        };
        self.levels.push(level)?;
        Ok(())
    }

    /// A full expression of the top frame begins in this turn.
    pub fn begin(&mut self, turn: u64)
        ensures kept { IsKept self.old → IsKept self.new }
        ensures loose { IsLooseKept self.old → IsLooseKept self.new }
        ensures follows { (t : Opened) (ts : List Opened) (s : Scope) → Follows (t ∷ ts) self.old → t.done ≡ [] → Follows (begun turn s t ∷ ts) self.new }
    {
        self.set_turn(turn);
    }

    fn set_turn(&mut self, turn: u64)
        ensures same { IsSameOpen self.old self.new }
        ensures names { IsTurned self.old self.new turn }
    {
        if let Some(level) = self.levels.last_mut() {
            level.turn = turn;
        }
    }

    /// A control step of the top frame touched these items.
    pub fn step(&mut self, items: &[Item]) -> Result<(), NoMemory>
        ensures kept { IsKept self.old → IsKept self.new }
        ensures loose { IsLooseKept self.old → IsLooseKept self.new }
        ensures follows { (os : List Opened) → Follows os self.old → Follows os self.new }
    {
        if self.levels.len() < 2 {
            return Ok(());
        }
        self.touch_top(items)
    }

    fn touch_top(&mut self, items: &[Item]) -> Result<(), NoMemory>
        ensures same { IsSameOpen self.old self.new }
        ensures names { AreNamed self.old self.new }
    {
        match self.levels.last_mut() {
            Some(level) => level.touch(&mut self.known, items),
            None => Ok(()),
        }
    }

    /// An event of the top frame's full expression touched these items. The rule is that of its node, and `chosen` says
    /// whether an And, Or or Cond evaluates a further operand.
    pub fn event(
        &mut self,
        node: u32,
        kind: Kind,
        items: &[Item],
        rule: Rule,
        chosen: bool,
    ) -> Result<(), NoMemory>
        ensures kept { OnOk result (IsKept self.old → IsKept self.new) }
        ensures loose { OnOk result (IsKept self.old → IsLooseKept self.old → IsLooseKept self.new) }
        ensures told { OnOk result ((e : Logged) × (e.node ≡ node) × (e.kind ≡ kind) × IsTold self.old self.new e items.now) }
        ensures follows { OnOk result ((t : Opened) (ts : List Opened) → Follows (t ∷ ts) self.old → Tells t (place node kind) rule chosen →
            FollowsBut (told (evaluation node kind items.now) t ∷ ts) node self.new ×
            ((kind ≢ Eff) → Follows (told (evaluation node kind items.now) t ∷ ts) self.new)) }
    {
        self.gather(node, rule, chosen);
        if self.is_top_of(node) {
            self.log_at_top(node, kind, items)?;
            return Ok(());
        }
        self.log_first(node, kind, items)?;
        Ok(())
    }

    // An event of the top segment touched these items.
    fn log_at_top(&mut self, node: u32, kind: Kind, items: &[Item]) -> Result<(), NoMemory>
        ensures kept { OnOk result (IsKept self.old → (last : ℕ) → length self.old.segments.items ≡ suc last →
            AllBelow self.old.levels.items last → IsKept self.new) }
        ensures loose { OnOk result (IsKept self.old → IsLooseKept self.old → (last : ℕ) → length self.old.segments.items ≡ suc last →
            AllBelow self.old.levels.items last → IsLooseKept self.new) }
        ensures told { OnOk result ((e : Logged) × (e.node ≡ node) × (e.kind ≡ kind) × IsTold self.old self.new e items.now) }
        ensures full { OnOk result ((scopes : ℕ → Scope) → IsKept self.old → IsLooseKept self.old → IsFull scopes self.old →
            base_of self.old.levels.items < length self.old.segments.items →
            node_of (slice_get self.old.segments.items (length self.old.segments.items - 1)) ≡ Some node → 0 < length self.old.levels.items →
            IsBelow (top_scope scopes self.old) node (place node kind) → IsFullBut scopes self.new × EndsAt self.new node) }
        ensures placed { OnOk result (0 < length self.old.segments.items → IsPlaced self.old self.new node (length self.old.segments.items)) }
    {
        self.add_to_top(node, items)?;
        self.log(node, kind, items)?;
        Ok(())
    }

    // The first event of a segment touched these items.
    fn log_first(&mut self, node: u32, kind: Kind, items: &[Item]) -> Result<(), NoMemory>
        ensures kept { OnOk result (IsKept self.old → IsKept self.new) }
        ensures loose { OnOk result (IsKept self.old → IsLooseKept self.old → IsLooseKept self.new) }
        ensures told { OnOk result ((e : Logged) × (e.node ≡ node) × (e.kind ≡ kind) × IsTold self.old self.new e items.now) }
        ensures full { OnOk result ((scopes : ℕ → Scope) → IsKept self.old → IsLooseKept self.old → IsFull scopes self.old →
            0 < length self.old.levels.items → IsBelow (top_scope scopes self.old) node (place node kind) →
            IsFullBut scopes self.new × EndsAt self.new node) }
        ensures placed { OnOk result (IsPlaced self.old self.new node (suc (length self.old.segments.items))) }
    {
        self.push_segment(node, items)?;
        self.log(node, kind, items)?;
        Ok(())
    }

    // Whether the top segment of the top frame is that of this node.
    fn is_top_of(&self, node: u32) -> bool
        ensures top { result ≡ true → IsKept self.now → (last : ℕ) × (length self.now.segments.items ≡ suc last) × AllBelow self.now.levels.items last }
        ensures base { result ≡ true → base_of self.now.levels.items < length self.now.segments.items }
        ensures own { result ≡ true → node_of (slice_get self.now.segments.items (length self.now.segments.items - 1)) ≡ Some node }
        ensures no { result ≡ false → base_of self.now.levels.items < length self.now.segments.items →
            node_of (slice_get self.now.segments.items (length self.now.segments.items - 1)) ≡ Some node → ⊥ }
    {
        if self.segments.len() <= self.base() {
            return false;
        }
        match self.segments.last() {
            Some(segment) => segment.node == node,
            None => false,
        }
    }

    // The top segment, which is of this node, has these items too.
    fn add_to_top(&mut self, node: u32, items: &[Item]) -> Result<(), NoMemory>
        ensures rest { IsSameRest self.old self.new }
        ensures loose { self.new.loose.items ≡ self.old.loose.items }
        ensures added { OnOk result (IsAdded self.old.segments.items self.new.segments.items items.now) }
        ensures own { OnOk result ((s : Segment) → slice_get self.new.segments.items (length self.old.segments.items - 1) ≡ Some s → s.node ≡ node) }
    {
        match self.segments.last_mut() {
            Some(segment) => add_to(segment, node, items),
            None => Ok(()),
        }
    }

    // A segment of this node begins with an event that touched these items.
    fn push_segment(&mut self, node: u32, items: &[Item]) -> Result<(), NoMemory>
        ensures rest { IsSameRest self.old self.new }
        ensures loose { self.new.loose.items ≡ self.old.loose.items }
        ensures pushed { OnOk result ((s : Segment) × (s.node ≡ node) × IsFirst self.old self.new s items.now) }
    {
        let segment = Segment {
            node,
            first: self.events.len(),
            items: self.items.len(),
            loose: self.loose.len(),
            large: self.large.len(),
            harmless: are_harmless(items),
            foot: None,
            loose_foot: None,
        };
        self.segments.push(segment)?;
        Ok(())
    }

    // Adds an event to the log.
    fn log(&mut self, node: u32, kind: Kind, items: &[Item]) -> Result<(), NoMemory>
        ensures { OnOk result ((e : Logged) × (e.node ≡ node) × (e.kind ≡ kind) × IsLogged self.old self.new e items.now) }
    {
        let from = self.items.len();
        self.items.extend_from_slice(items)?;
        let event = Logged {
            node,
            kind,
            from,
            to: self.items.len(),
            foot: None,
            large: false,
        };
        self.events.push(event)?;
        Ok(())
    }

    // Where the segments of the top frame begin.
    pub(crate) fn base(&self) -> usize
        ensures { result ≡ base_of self.now.levels.items }
    {
        match self.levels.last() {
            Some(level) => level.segments,
            None => 0,
        }
    }

    /// The top frame's full expression is settled: the frame keeps what it touched, `main` nothing.
    pub fn settle(&mut self) -> Result<(), NoMemory>
        ensures kept { OnOk result (IsKept self.old → IsKept self.new) }
        ensures loose { OnOk result (IsKept self.old → IsLooseKept self.old → IsLooseKept self.new) }
        ensures follows { OnOk result ((t : Opened) (ts : List Opened) → Follows (t ∷ ts) self.old → Follows (settled t ∷ ts) self.new) }
        ensures below { OnOk result ((ts : List Opened) → FollowsBelow ts self.old → (t : Opened) × Follows (settled t ∷ ts) self.new) }
    {
        self.keep_touched()?;
        self.cut_off();
        Ok(())
    }

    // The lists end where the top frame's full expression began.
    fn cut_off(&mut self)
        ensures kept { IsKept self.old → IsKept self.new }
        ensures loose { IsKept self.old → IsLooseKept self.old → IsLooseKept self.new }
        ensures below { (ts : List Opened) → FollowsBelow ts self.old → (t : Opened) → IsNamed self.old t → Follows (settled t ∷ ts) self.new }
    {
        if let Some(cut) = self.top_cut() {
            self.cut_at(cut);
        }
    }

    // Where the top frame's full expression begins among the segments, events, items, large bodies and loose events.
    fn top_cut(&self) -> Option<(usize, usize, usize, usize, usize)>
        ensures none { result ≡ None → length self.now.levels.items ≡ 0 }
        ensures cut { IfSome result (λ p. cut_of (slice_get self.now.levels.items (length self.now.levels.items - 1)) ≡
            Some (record { segments = p.0; events = p.1; items = p.2; large = p.3; loose = p.4 })) }
    {
        match self.levels.last() {
            Some(level) => Some((
                level.segments,
                level.events,
                level.items,
                level.large,
                level.loose,
            )),
            None => None,
        }
    }

    fn cut_at(&mut self, cut: (usize, usize, usize, usize, usize))
        ensures segments { self.new.segments.items ≡ take cut.0 self.old.segments.items }
        ensures events { self.new.events.items ≡ take cut.1 self.old.events.items }
        ensures items { self.new.items.items ≡ take cut.2 self.old.items.items }
        ensures large { self.new.large.items ≡ take cut.3 self.old.large.items }
        ensures loose { self.new.loose.items ≡ take cut.4 self.old.loose.items }
        ensures levels { self.new.levels.items ≡ self.old.levels.items }
    {
        self.segments.truncate(cut.0);
        self.events.truncate(cut.1);
        self.items.truncate(cut.2);
        self.large.truncate(cut.3);
        self.loose.truncate(cut.4);
    }

    // The top frame keeps what its full expression touched, unless it is that of `main`.
    fn keep_touched(&mut self) -> Result<(), NoMemory>
        ensures kept { IsKept self.old → IsKept self.new }
        ensures loose { IsLooseKept self.old → IsLooseKept self.new }
        ensures same { IsSameBefore self.old self.new (events_from self.old) }
    {
        if self.levels.len() < 2 {
            return Ok(());
        }
        self.keep_items()?;
        for at in self.events_from()..self.events.len() {
            self.keep_body(at)?;
        }
        Ok(())
    }

    fn keep_items(&mut self) -> Result<(), NoMemory>
        ensures same { IsSameOpen self.old self.new }
        ensures names { AreNamed self.old self.new }
    {
        let Some(level) = self.levels.last_mut() else {
            return Ok(());
        };
        match self.items.get(level.items..) {
            Some(items) => level.touch(&mut self.known, items),
            None => Ok(()),
        }
    }

    // The top frame keeps what the body touched that the event started, and the event no longer has it.
    fn keep_body(&mut self, at: usize) -> Result<(), NoMemory>
        ensures kept { IsKept self.old → IsKept self.new }
        ensures loose { IsLooseKept self.old → IsLooseKept self.new }
        ensures same { IsSameBefore self.old self.new at }
    {
        let body = self.take_body(at);
        self.absorb(body)
    }

    fn take_body(&mut self, at: usize) -> Option<Box<Foot>>
        ensures segments { self.new.segments.items ≡ self.old.segments.items }
        ensures loose { self.new.loose.items ≡ self.old.loose.items }
        ensures items { self.new.items.items ≡ self.old.items.items }
        ensures larges { self.new.large.items ≡ self.old.large.items }
        ensures levels { self.new.levels.items ≡ self.old.levels.items }
        ensures count { length self.new.events.items ≡ length self.old.events.items }
        ensures spans { (k : ℕ) → span_of (slice_get self.new.events.items k) ≡ span_of (slice_get self.old.events.items k) }
        ensures large { (k : ℕ) → is_large (slice_get self.new.events.items k) ≡ is_large (slice_get self.old.events.items k) }
        ensures others { (k : ℕ) → k ≢ at → slice_get self.new.events.items k ≡ slice_get self.old.events.items k }
        ensures bodies { (k : ℕ) (j : Item) → own_body (slice_get self.new.events.items k) j ≡ true →
            own_body (slice_get self.old.events.items k) j ≡ true }
    {
        match self.events.get_mut(at) {
            Some(event) => event.foot.take(),
            None => None,
        }
    }

    fn absorb(&mut self, body: Option<Box<Foot>>) -> Result<(), NoMemory>
        ensures same { IsSameOpen self.old self.new }
        ensures names { AreNamed self.old self.new }
    {
        let Some(body) = body else {
            return Ok(());
        };
        match self.levels.last_mut() {
            Some(level) => level.foot.absorb(Box::into_inner(body)),
            None => Ok(()),
        }
    }

    /// The top frame has ended: what it touched is what the body touched that started it.
    pub fn leave(&mut self) -> Result<(), NoMemory>
        ensures kept { OnOk result (IsKept self.old → IsKept self.new) }
        ensures loose { OnOk result (IsKept self.old → IsLooseKept self.old → IsLooseKept self.new) }
        ensures follows { OnOk result ((t : Opened) (ts : List Opened) → FollowsBelow (t ∷ ts) self.old → HasStarted t ts →
            (body : Item → Bool) × Follows (given body t ∷ ts) self.new) }
    {
        if self.levels.len() < 2 {
            return Ok(());
        }
        self.settle()?;
        let Some(level) = self.pop_level() else {
            return Ok(());
        };
        let Level { foot, .. } = level;
        self.give(foot)?;
        Ok(())
    }

    fn pop_level(&mut self) -> Option<Level>
        ensures kept { IsKept self.old → IsKept self.new }
        ensures loose { IsLooseKept self.old → IsLooseKept self.new }
        ensures none { result ≡ None → length self.old.levels.items ≡ 0 }
        ensures follows { (t : Opened) (ts : List Opened) → Follows (settled t ∷ ts) self.old → Follows ts self.new }
    {
        self.levels.pop()
    }

    // The body that the last event started touched this.
    fn give(&mut self, foot: Foot) -> Result<(), NoMemory>
        ensures body { OnOk result (HasBody self.new.events.items foot) }
        ensures kept { OnOk result (IsKept self.old → IsKept self.new) }
        ensures loose { OnOk result (IsKept self.old → IsLooseKept self.old → IsLooseKept self.new) }
        ensures follows { OnOk result ((t : Opened) (ts : List Opened) → Follows (t ∷ ts) self.old → HasStarted t ts →
            Follows (given (holds foot) t ∷ ts) self.new) }
    {
        let large = self.is_listed(&foot);
        self.list_last(large)?;
        self.open_top();
        self.put_body(foot, large)?;
        Ok(())
    }

    // Whether a body is large, and has a segment of its frame to be listed with.
    fn is_listed(&self, foot: &Foot) -> bool
        ensures { result ≡ true → base_of self.now.levels.items < length self.now.segments.items }
    {
        foot.size() > LARGE && self.segments.len() > self.base()
    }

    // Lists the last event among those with large bodies, if it is one.
    fn list_last(&mut self, large: bool) -> Result<(), NoMemory>
        ensures segments { self.new.segments.items ≡ self.old.segments.items }
        ensures events { self.new.events.items ≡ self.old.events.items }
        ensures items { self.new.items.items ≡ self.old.items.items }
        ensures levels { self.new.levels.items ≡ self.old.levels.items }
        ensures loose { self.new.loose.items ≡ self.old.loose.items }
        ensures no { large ≡ false → self.new.large.items ≡ self.old.large.items }
        ensures yes { OnOk result (large ≡ true →
            self.new.large.items ≡ self.old.large.items ++ ((length self.old.events.items - 1) ∷ [])) }
    {
        if !large {
            return Ok(());
        }
        self.large.push(self.events.len().saturating_sub(1))?;
        Ok(())
    }

    // The top segment isn't harmless, and no set of it is kept, nor of its loose events.
    fn open_top(&mut self)
        ensures rest { IsSameRest self.old self.new }
        ensures count { length self.new.segments.items ≡ length self.old.segments.items }
        ensures alike { (g : ℕ) → marks (slice_get self.new.segments.items g) ≡ marks (slice_get self.old.segments.items g) }
        ensures others { (g : ℕ) → g < length self.old.segments.items - 1 → slice_get self.new.segments.items g ≡ slice_get self.old.segments.items g }
        ensures harm { harmless_of (slice_get self.new.segments.items (length self.old.segments.items - 1)) ≡ false }
        ensures foot { foot_of (slice_get self.new.segments.items (length self.old.segments.items - 1)) ≡ None }
        ensures loose { self.new.loose.items ≡ self.old.loose.items }
        ensures lows { (g : ℕ) → loose_start_of (slice_get self.new.segments.items g) ≡ loose_start_of (slice_get self.old.segments.items g) }
        ensures below { loose_foot_of (slice_get self.new.segments.items (length self.old.segments.items - 1)) ≡ None }
        ensures nodes { (g : ℕ) → node_of (slice_get self.new.segments.items g) ≡ node_of (slice_get self.old.segments.items g) }
    {
        if let Some(segment) = self.segments.last_mut() {
            segment.harmless = false;
            segment.foot = None;
            segment.loose_foot = None;
        }
    }

    // The body that the last event started touched this, and is so large or not.
    fn put_body(&mut self, foot: Foot, large: bool) -> Result<(), NoMemory>
        ensures body { OnOk result (HasBody self.new.events.items foot) }
        ensures segments { self.new.segments.items ≡ self.old.segments.items }
        ensures loose { self.new.loose.items ≡ self.old.loose.items }
        ensures items { self.new.items.items ≡ self.old.items.items }
        ensures larges { self.new.large.items ≡ self.old.large.items }
        ensures levels { self.new.levels.items ≡ self.old.levels.items }
        ensures count { length self.new.events.items ≡ length self.old.events.items }
        ensures spans { (k : ℕ) → span_of (slice_get self.new.events.items k) ≡ span_of (slice_get self.old.events.items k) }
        ensures others { (k : ℕ) → suc k < length self.old.events.items → slice_get self.new.events.items k ≡ slice_get self.old.events.items k }
        ensures places { (k : ℕ) → place_of (slice_get self.new.events.items k) ≡ place_of (slice_get self.old.events.items k) }
        ensures large { OnOk result ((k : ℕ) → suc k ≡ length self.old.events.items → is_large (slice_get self.new.events.items k) ≡ large) }
        ensures has { OnOk result ((k : ℕ) (j : Item) → suc k ≡ length self.old.events.items →
            own_body (slice_get self.new.events.items k) j ≡ holds foot j) }
    {
        let body = Box::new(self.alloc, foot)?;
        if let Some(event) = self.events.last_mut() {
            event.foot = Some(body);
            event.large = large;
        }
        Ok(())
    }

    // What is logged.
    pub(crate) fn as_log(&self) -> Log<'_>
        ensures events { result.events.now ≡ self.now.events.items }
        ensures items { result.items.now ≡ self.now.items.items }
        ensures large { result.large.now ≡ self.now.large.items }
        ensures loose { result.loose.now ≡ self.now.loose.items }
    {
        Log {
            alloc: self.alloc,
            events: self.events.as_slice(),
            items: self.items.as_slice(),
            large: self.large.as_slice(),
            loose: self.loose.as_slice(),
        }
    }

    // The set of the event's items, and of what the body touched that it started.
    pub(crate) fn event_foot(&self, at: usize) -> Result<Foot, NoMemory>
        ensures { IfOk result (λ f. (i : Item) → holds f i ≡ event_has self.now.items.items (slice_get self.now.events.items at) i) }
    {
        self.as_log().event_foot(at)
    }

    // Adds what the event and the body touched that it started.
    pub(crate) fn add_event(&self, foot: &mut Foot, at: usize) -> Result<(), NoMemory>
        ensures { OnOk result
            ((i : Item) → holds foot.new i ≡ (holds foot.old i || event_has self.now.items.items (slice_get self.now.events.items at) i)) }
    {
        self.as_log().add_event(foot, at)
    }

    // A search for a conflict in the top frame's full expression.
    pub(crate) fn search<'s>(&'s self, under: Under<'s>) -> Search<'s>
        ensures events { result.log.events.now ≡ self.now.events.items }
        ensures items { result.log.items.now ≡ self.now.items.items }
        ensures loose { result.log.loose.now ≡ self.now.loose.items }
        ensures rows { result.under.map.now ≡ under.entry.map.now }
        ensures frames { result.under.frames.now ≡ under.entry.frames.now }
        ensures place { result.place ≡ expression_in (slice_get self.now.levels.items (length self.now.levels.items - 1)) }
    {
        Search {
            log: self.as_log(),
            place: self.place(),
            under,
        }
    }

    // The top frame's full expression.
    pub(crate) fn place(&self) -> Place
        ensures { result ≡ expression_in (slice_get self.now.levels.items (length self.now.levels.items - 1)) }
    {
        match self.levels.last() {
            Some(level) => Place {
                frame: level.frame,
                turn: level.turn,
            },
            None => Place {
                frame: Frame(0),
                turn: 0,
            },
        }
    }
}

// The segment, which is of this node, has these items too.
fn add_to(segment: &mut Segment, node: u32, items: &[Item]) -> Result<(), NoMemory>
    ensures more { OnOk result (IsMore segment.old segment.new items.now) }
    ensures own { OnOk result (segment.new.node ≡ node) }
{
    segment.add(items)?;
    segment.node = node;
    Ok(())
}
