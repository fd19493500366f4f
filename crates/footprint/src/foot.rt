// Footprints: sets of items.
ghost use Rattle.std.specs.Prelude.{◌≡◌, ◌+◌, ◌-◌, ◌^◌, ◌&&◌, ◌||◌, not, min, false, OnOk, OnErr};
ghost use Rattle.ub_base.specs.declared.names.Item.{Item};
ghost use Rattle.ub_base.specs.declared.names.Item.TheVariants.{Born, Ending};
ghost use Rattle.footprint.specs.Between.{IsBetween};
ghost use Rattle.footprint.specs.States.{state_in};
ghost use Rattle.footprint.specs.Holds.{holds, stands_for, is_forgotten};

use crate::sets::{forget_alive, mark, merge_lookups, merge_narrows, merge_states, state_of};
use crate::span::Span;
use crate::spans::Spans;
use crate::state::State;
use std::alloc::Global;
use std::collections::{BTreeMap, BTreeSet};
use ub_base::{Event, Item, NoMemory, ObjName};

/// A set of items (own), each Read and Write being of one byte.
#[derive(Drop)]
pub struct Foot {
    pub(crate) reads: Spans,
    pub(crate) writes: Spans,
    pub(crate) states: BTreeMap<ObjName, State>,
    pub(crate) lookups: BTreeSet<u64>,
    pub(crate) narrows: BTreeSet<(Event, ObjName)>,
    pub(crate) input: bool,
    pub(crate) output: bool,
    pub(crate) ending: bool,
    pub(crate) any: bool,
}

impl Foot {
    /// The empty set.
    pub fn new(alloc: Global) -> Self
        ensures { (i : Item) → holds result i ≡ false }
    {
        Foot {
            reads: Spans::new(alloc),
            writes: Spans::new(alloc),
            states: BTreeMap::new(alloc),
            lookups: BTreeSet::new(alloc),
            narrows: BTreeSet::new(alloc),
            input: false,
            output: false,
            ending: false,
            any: false,
        }
    }

    /// How many entries keep the set: ranges, objects, addresses and ambiguities.
    pub fn size(&self) -> usize {
        self.reads
            .len()
            .saturating_add(self.writes.len())
            .saturating_add(self.states.len())
            .saturating_add(self.lookups.len())
            .saturating_add(self.narrows.len())
    }

    /// Takes all items away.
    pub fn clear(&mut self)
        ensures { (i : Item) → holds self.new i ≡ false }
    {
        self.reads.clear();
        self.writes.clear();
        self.states.clear();
        self.lookups.clear();
        self.narrows.clear();
        self.input = false;
        self.output = false;
        self.ending = false;
        self.any = false;
    }

    /// Adds an item, of a range all its bytes.
    pub fn add(&mut self, item: Item) -> Result<(), NoMemory>
        ensures added { OnOk result ((i : Item) → holds self.new i ≡ (holds self.old i || stands_for item i)) }
        ensures err { OnErr result ((i : Item) → holds self.new i ≡ holds self.old i) }
    {
        match item {
            Item::Read { object, from, len } => self.reads.add(range(object, from, len))?,
            Item::Write { object, from, len } => self.writes.add(range(object, from, len))?,
            Item::Born(object) => mark(
                &mut self.states,
                object,
                State {
                    born: true,
                    ..State::NONE
                },
            )?,
            Item::Dies(object) => mark(
                &mut self.states,
                object,
                State {
                    dies: true,
                    ..State::NONE
                },
            )?,
            Item::Alive(object) => mark(
                &mut self.states,
                object,
                State {
                    alive: true,
                    ..State::NONE
                },
            )?,
            Item::Expose(object) => mark(
                &mut self.states,
                object,
                State {
                    expose: true,
                    ..State::NONE
                },
            )?,
            Item::Lookup(addr) => {
                self.lookups.insert(addr)?;
            }
            Item::Narrow { id, keep } => {
                self.narrows.insert((id, keep))?;
            }
            Item::Input => self.input = true,
            Item::Output => self.output = true,
            Item::Ending => self.ending = true,
            Item::Any => self.any = true,
        }
        Ok(())
    }

    /// What was done to an object as a whole.
    pub(crate) fn state(&self, object: ObjName) -> State
        ensures { result ≡ state_in self.now.states object }
    {
        state_of(&self.states, object)
    }

    /// Whether the birth of this object is among the items.
    pub fn has_born(&self, object: ObjName) -> bool
        ensures { result ≡ holds self.now (Born object) }
    {
        self.state(object).born
    }

    /// Whether an end of the run is among the items.
    pub fn has_ending(&self) -> bool
        ensures { result ≡ holds self.now Ending }
    {
        self.ending
    }

    /// Adds the items of another set, at the cost of that set's size. After NoMemory some of them may have been added.
    pub fn merge(&mut self, other: &Foot) -> Result<(), NoMemory>
        ensures ok { OnOk result ((i : Item) → holds self.new i ≡ (holds self.old i || holds other.now i)) }
        // Where memory runs out, some of the other's items are added.
        ensures err { OnErr result ((i : Item) → IsBetween (holds self.old i) (holds other.now i) (holds self.new i)) }
    {
        self.reads.merge(&other.reads)?;
        self.writes.merge(&other.writes)?;
        merge_states(&mut self.states, &other.states)?;
        merge_lookups(&mut self.lookups, &other.lookups)?;
        merge_narrows(&mut self.narrows, &other.narrows)?;
        self.input |= other.input;
        self.output |= other.output;
        self.ending |= other.ending;
        self.any |= other.any;
        Ok(())
    }

    /// Adds the items of another set, at the cost of the smaller one.
    pub fn absorb(&mut self, other: Foot) -> Result<(), NoMemory>
        ensures ok { OnOk result ((i : Item) → holds self.new i ≡ (holds self.old i || holds other i)) }
        // Where memory runs out, some of the other's items are added.
        ensures err { OnErr result ((i : Item) → IsBetween (holds self.old i) (holds other i) (holds self.new i)) }
    {
        let mut other = other;
        if self.size() >= other.size() {
            return self.merge(&other);
        }
        let merged = other.merge(self);
        if merged.is_ok() {
            std::mem::swap(self, &mut other);
        }
        merged
    }

    /// Takes the Read, Write and Alive items of an object away.
    pub fn forget(&mut self, object: ObjName)
        ensures { (i : Item) → holds self.new i ≡ (holds self.old i && not (is_forgotten object i)) }
    {
        self.reads.forget(object);
        self.writes.forget(object);
        forget_alive(&mut self.states, object);
    }
}

/// The bytes that a Read or a Write stands for.
pub fn range(object: ObjName, from: u64, len: u64) -> Span
    ensures object { result.object ≡ object }
    ensures from { result.from ≡ from }
    ensures end { result.end ≡ min (from + len) (2 ^ 64 - 1) }
{
    Span {
        object,
        from,
        end: from.saturating_add(len),
    }
}
