// The frames that are open.
ghost use Rattle.std.specs.Prelude.{◌≡◌, ◌⊎◌, ◌||◌, true, length, OnOk, Some};
ghost use Rattle.ub_base.specs.declared.names.Item.{Item};
ghost use Rattle.ub_base.specs.declared.names.Item.TheVariants.{Dies};
ghost use Rattle.footprint.specs.Holds.{holds, stands_for};
ghost use Rattle.evaluation_log.specs.Bodies.{Keeps};
ghost use Rattle.evaluation_log.specs.Kept.{cut_of};
ghost use Rattle.evaluation_log.specs.Remembered.{AreKnown, HasHadAll, HasHadEach, IsOfOne};
ghost use Rattle.evaluation_log.specs.Touched.{touched};

use crate::known::Known;
use footprint::Foot;
use ub_base::{Frame, Item, NoMemory, ObjName};

/// An open frame with what it and the frames that it started touched, and its open full expression: its turn, and where
/// its events, items, segments and lists begin.
#[derive(Drop)]
pub struct Level {
    pub frame: Frame,
    pub turn: u64,
    pub foot: Foot,
    pub events: usize,
    pub items: usize,
    pub segments: usize,
    pub loose: usize,
    pub large: usize,
}

impl Level {
    /// The frame touched these items. Of an object that was born and has died in it, the accesses are forgotten.
    pub fn touch(&mut self, known: &mut Known, items: &[Item]) -> Result<(), NoMemory>
        ensures keeps { OnOk result (Keeps self.old.foot self.new.foot) }
        ensures cut { cut_of (Some self.new) ≡ cut_of (Some self.old) }
        ensures frame { self.new.frame ≡ self.old.frame }
        ensures turn { self.new.turn ≡ self.old.turn }
        ensures known { OnOk result (AreKnown known.old self.old.frame self.old.foot → AreKnown known.new self.new.frame self.new.foot) }
        ensures others { IsOfOne known.old known.new self.old.frame }
        ensures has { OnOk result (AreKnown known.old self.old.frame self.old.foot → HasHadEach items.now self.new.foot) }
        ensures only { OnOk result ((i : Item) → holds self.new.foot i ≡ true →
            (holds self.old.foot i ≡ true) ⊎ (touched items.now 0 (length items.now) i ≡ true)) }
    {
        for item in items {
            self.touch_one(known, *item)?;
        }
        Ok(())
    }

    fn touch_one(&mut self, known: &mut Known, item: Item) -> Result<(), NoMemory>
        ensures keeps { OnOk result (Keeps self.old.foot self.new.foot) }
        ensures cut { cut_of (Some self.new) ≡ cut_of (Some self.old) }
        ensures frame { self.new.frame ≡ self.old.frame }
        ensures turn { self.new.turn ≡ self.old.turn }
        ensures known { OnOk result (AreKnown known.old self.old.frame self.old.foot → AreKnown known.new self.new.frame self.new.foot) }
        ensures others { IsOfOne known.old known.new self.old.frame }
        ensures has { OnOk result (AreKnown known.old self.old.frame self.old.foot → HasHadAll self.new.foot item) }
        ensures only { OnOk result ((i : Item) → holds self.new.foot i ≡ true → (holds self.old.foot i || stands_for item i) ≡ true) }
    {
        if let Item::Dies(object) = item {
            return self.bury(object);
        }
        if known.note(self.frame, item) {
            return self.take(item);
        }
        Ok(())
    }

    fn take(&mut self, item: Item) -> Result<(), NoMemory>
        ensures cut { cut_of (Some self.new) ≡ cut_of (Some self.old) }
        ensures frame { self.new.frame ≡ self.old.frame }
        ensures turn { self.new.turn ≡ self.old.turn }
        ensures kept { OnOk result (Keeps self.old.foot self.new.foot × HasHadAll self.new.foot item) }
        ensures only { OnOk result ((i : Item) → holds self.new.foot i ≡ true → (holds self.old.foot i || stands_for item i) ≡ true) }
    {
        self.foot.add(item)
    }

    fn bury(&mut self, object: ObjName) -> Result<(), NoMemory>
        ensures keeps { OnOk result (Keeps self.old.foot self.new.foot) }
        ensures cut { cut_of (Some self.new) ≡ cut_of (Some self.old) }
        ensures frame { self.new.frame ≡ self.old.frame }
        ensures turn { self.new.turn ≡ self.old.turn }
        ensures has { OnOk result (HasHadAll self.new.foot (Dies object)) }
        ensures only { OnOk result ((i : Item) → holds self.new.foot i ≡ true → (holds self.old.foot i || stands_for (Dies object) i) ≡ true) }
    {
        self.foot.add(Item::Dies(object))?;
        if self.foot.has_born(object) {
            self.foot.forget(object);
        }
        Ok(())
    }
}
