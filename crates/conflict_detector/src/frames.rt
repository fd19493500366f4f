// The frames that are recorded.
ghost use Rattle.std.specs.Prelude.{◌≡◌, ◌≢◌, ◌-◌, [], ◌∷◌, Bool, List, true, false, length, slice_get, IfOk, OnOk, IfSome};
ghost use Rattle.ub_base.specs.declared.clause.Kind.TheVariants.{Eff};
ghost use Rattle.ub_base.specs.declared.names.Item.{Item};
ghost use Rattle.c_typed.specs.Order.{place};
ghost use Rattle.run_evaluations.specs.Follows.{Follows, HasStarted};
ghost use Rattle.run_evaluations.specs.Scopes.{Scope};
ghost use Rattle.run_evaluations.specs.Told.{Opened, Tells, entered, evaluation, given, settled, told};
ghost use Rattle.conflict_detector.specs.Followed.{AreFollowed, AreFollowedBelow, AreFollowedBut};
ghost use Rattle.conflict_detector.specs.Telling.{AreStarted, IsBare, IsOpen, IsReached, fresh};

use evaluation_log::Rule;
use run_evaluations::Evaluations;
use std::alloc::Global;
use ub_base::{Event, Frame, Item, NoMemory};

/// The evaluations of the frames that are recorded, and the names of these frames, that on top last.
#[derive(Drop)]
pub struct RecordedFrames {
    pub(crate) open: Evaluations,
    pub(crate) names: Vec<Frame>,
}

impl RecordedFrames {
    /// The frame of `main` alone.
    pub fn new(alloc: Global) -> Result<Self, NoMemory>
        ensures follows { IfOk result (λ r. AreFollowed (entered (record { 0 = 0 }) ∷ []) r) }
    {
        let mut names = Vec::new(alloc);
        names.push(Frame(0))?;
        Ok(RecordedFrames {
            open: Evaluations::new(alloc)?,
            names,
        })
    }

    // Whether this is the frame on top.
    fn is_top(&self, frame: Frame) -> bool
        ensures yes { result ≡ true → IfSome (slice_get self.now.names.items (length self.now.names.items - 1)) (λ f. f ≡ frame) }
        ensures no { result ≡ false → IfSome (slice_get self.now.names.items (length self.now.names.items - 1)) (λ f. f ≢ frame) }
    {
        match self.names.last() {
            Some(top) => top.0 == frame.0,
            None => false,
        }
    }

    // The evaluation that was told last started this frame.
    fn enter(&mut self, frame: Frame) -> Result<(), NoMemory>
        ensures follows { OnOk result ((os : List Opened) → AreFollowed os self.old → AreFollowed (entered frame ∷ os) self.new) }
    {
        self.names.push(frame)?;
        self.open.enter(frame)?;
        Ok(())
    }

    /// The frame on top is left.
    pub fn leave(&mut self) -> Result<(), NoMemory>
        ensures follows { OnOk result ((t u : Opened) (us : List Opened) → AreFollowed (t ∷ u ∷ us) self.old → HasStarted u us →
            (body : Item → Bool) × AreFollowed (given body u ∷ us) self.new) }
        ensures below { OnOk result ((t u : Opened) (us : List Opened) → AreFollowedBelow t (u ∷ us) self.old → HasStarted u us →
            (body : Item → Bool) × AreFollowed (given body u ∷ us) self.new) }
    {
        let _ = self.names.pop();
        self.open.leave()?;
        Ok(())
    }

    /// The frames above this one are left.
    pub fn reach(&mut self, frame: Frame) -> Result<(), NoMemory>
        ensures follows { OnOk result ((os : List Opened) → AreFollowed os self.old → IsOpen frame os → AreStarted os →
            (fs : List Opened) × IsReached frame os fs × AreFollowed fs self.new) }
    {
        for _ in 0..self.names.len() {
            if self.is_top(frame) {
                return Ok(());
            }
            self.leave()?;
        }
        Ok(())
    }

    /// The outermost frame alone stays open, with nothing done.
    pub fn close(&mut self) -> Result<(), NoMemory>
        ensures follows { OnOk result ((t : Opened) (ts : List Opened) → AreFollowed (t ∷ ts) self.old → AreStarted (t ∷ ts) →
            (m : Opened) × (m.done ≡ []) × AreFollowed (m ∷ []) self.new) }
    {
        for _ in 1..self.names.len() {
            self.leave()?;
        }
        self.settle()?;
        Ok(())
    }

    /// The full expression on top is settled.
    pub fn settle(&mut self) -> Result<(), NoMemory>
        ensures follows { OnOk result ((t : Opened) (ts : List Opened) → AreFollowed (t ∷ ts) self.old → AreFollowed (settled t ∷ ts) self.new) }
    {
        self.open.settle()?;
        Ok(())
    }

    /// A full expression of this frame, which began in this turn, is recorded from now on, and none below it.
    pub fn record(&mut self, frame: Frame, turn: u64) -> Result<(), NoMemory>
        ensures follows { OnOk result ((m : Opened) (s : Scope) → AreFollowed (m ∷ []) self.old → m.done ≡ [] →
            (bottom : List Opened) × IsBare bottom × AreFollowed (fresh frame turn s ∷ bottom) self.new) }
    {
        if self.is_top(frame) {
            self.open.begin(turn);
            return Ok(());
        }
        self.enter(frame)?;
        self.open.begin(turn);
        Ok(())
    }

    /// An event of the full expression on top touched these items, and started the frame that is on top now unless that is its own. The rule is that of its
    /// node, and `chosen` says whether an And, Or or Cond evaluates a further operand.
    pub fn tell(
        &mut self,
        top: Frame,
        event: Event,
        items: &[Item],
        rule: Rule,
        chosen: bool,
    ) -> Result<(), NoMemory>
        ensures stays { OnOk result ((t : Opened) (ts : List Opened) → AreFollowed (t ∷ ts) self.old →
            Tells t (place event.node event.kind) rule chosen → top ≡ event.frame →
            AreFollowedBut (told (evaluation event.node event.kind items.now) t ∷ ts) event.node event.kind self.new) }
        ensures enters { OnOk result ((t : Opened) (ts : List Opened) → AreFollowed (t ∷ ts) self.old →
            Tells t (place event.node event.kind) rule chosen → top ≢ event.frame → event.kind ≢ Eff →
            AreFollowed (entered top ∷ told (evaluation event.node event.kind items.now) t ∷ ts) self.new) }
    {
        self.open
            .event(event.node, event.kind, items, rule, chosen)?;
        if top.0 == event.frame.0 {
            return Ok(());
        }
        self.enter(top)?;
        Ok(())
    }
}
