// Ranges of bytes of objects.
ghost use Rattle.std.specs.Prelude.{◌≡◌, ◌≤◌, ◌<◌, ◌&&◌, ◌||◌, ◌↔◌, ℕ, not, OnOk, OnErr, IsTrue, true, false};
ghost use Rattle.std.specs.BTreeMap.{IsOrdered};
ghost use Rattle.ub_base.specs.declared.names.ObjName.{ObjName};
ghost use Rattle.ub_base.specs.Names.{same_object};
ghost use Rattle.footprint.specs.Between.{IsBetween};
ghost use Rattle.footprint.specs.Ranges.{Separate, range_has, has_byte, start_cmp, IsFirstByte, Meet};
ghost use Rattle.footprint.specs.Searches.{IsJoinedStart, IsJoinedEnd};

use crate::span::Span;
use crate::starts::{first_from, last_up_to, remove_starts, replace};
use std::alloc::Global;
use std::collections::{BTreeMap, btree_map};
use ub_base::{NoMemory, ObjName};

/// A set of bytes of objects, as ranges of which those of one object neither overlap nor touch.
#[derive(Drop)]
pub struct Spans {
    ends: BTreeMap<(ObjName, u64), u64>,
    ghost separate: { Separate ends },
}

impl Spans {
    /// The empty set.
    pub fn new(alloc: Global) -> Self
        ensures { (x : ObjName) (i : ℕ) → has_byte result.ends.entries x i ≡ false }
    {
        Spans {
            ends: BTreeMap::new(alloc),
        }
    }

    /// The ranges, each as the object and its first byte, with the byte behind its last.
    pub fn iter(&self) -> btree_map::Iter<'_, (ObjName, u64), u64>
        ensures { result ≡ self.now.ends.entries }
    {
        self.ends.iter()
    }

    /// How many ranges there are.
    pub fn len(&self) -> usize {
        self.ends.len()
    }

    pub fn clear(&mut self)
        ensures { (x : ObjName) (i : ℕ) → has_byte self.new.ends.entries x i ≡ false }
    {
        self.ends.clear();
    }

    /// Adds the bytes of a range.
    pub fn add(&mut self, span: Span) -> Result<(), NoMemory>
        ensures added { OnOk result ((x : ObjName) (i : ℕ)
            → has_byte self.new.ends.entries x i
            ≡ (has_byte self.old.ends.entries x i || range_has ((span.object, span.from), span.end) x i)) }
        ensures err { OnErr result (self.new.ends.entries ≡ self.old.ends.entries) }
    {
        if span.from >= span.end {
            return Ok(());
        }
        if self.has_all(span) {
            return Ok(());
        }
        let joined = Span {
            object: span.object,
            from: self.joined_start(span.object, span.from),
            end: self.joined_end(span.object, span.end),
        };
        replace(&mut self.ends, joined)?;
        Ok(())
    }

    fn has_all(&self, span: Span) -> bool
        ensures { IsTrue result → (i : ℕ) → span.from ≤ i → i < span.end → has_byte self.now.ends.entries span.object i ≡ true }
    {
        match last_up_to(&self.ends, span.object, span.from) {
            Some(found) => span.end <= found.end,
            None => false,
        }
    }

    // Where the range begins that bytes from this one on make with those that they touch.
    fn joined_start(&self, object: ObjName, from: u64) -> u64
        ensures { IsJoinedStart self.now.ends object from result }
    {
        match last_up_to(&self.ends, object, from) {
            Some(found) => { if found.end >= from { found.from } else { from } }
            None => from,
        }
    }

    // Where the range ends that bytes up to this end make with those that they touch.
    fn joined_end(&self, object: ObjName, end: u64) -> u64
        ensures { IsJoinedEnd self.now.ends object end result }
    {
        match last_up_to(&self.ends, object, end) {
            Some(found) => end.max(found.end),
            None => end,
        }
    }

    /// The first byte of the range that is in the set.
    pub fn overlap(&self, span: Span) -> Option<u64>
        ensures { IsFirstByte self.now.ends.entries span.object span.from span.end result }
    {
        if span.from >= span.end {
            return None;
        }
        if self.has(span.object, span.from) {
            return Some(span.from);
        }
        let Some(next) = first_from(&self.ends, span.object, span.from) else {
            return None;
        };
        if next.from < span.end {
            Some(next.from)
        } else {
            None
        }
    }

    pub fn has(&self, object: ObjName, byte: u64) -> bool
        ensures has { result ≡ has_byte self.now.ends.entries object byte }
        ensures ordered { IsOrdered start_cmp self.now.ends }
    {
        match last_up_to(&self.ends, object, byte) {
            Some(found) => byte < found.end,
            None => false,
        }
    }

    /// Takes the bytes of an object away.
    pub fn forget(&mut self, object: ObjName)
        ensures { (x : ObjName) (i : ℕ)
            → has_byte self.new.ends.entries x i
            ≡ (has_byte self.old.ends.entries x i && not (same_object object x)) }
    {
        remove_starts(&mut self.ends, object, 0, u64::MAX);
    }

    /// Adds the bytes of another set.
    pub fn merge(&mut self, other: &Spans) -> Result<(), NoMemory>
        ensures ok { OnOk result ((x : ObjName) (i : ℕ)
            → has_byte self.new.ends.entries x i
            ≡ (has_byte self.old.ends.entries x i || has_byte other.now.ends.entries x i)) }
        ensures err { OnErr result ((x : ObjName) (i : ℕ)
            → IsBetween (has_byte self.old.ends.entries x i) (has_byte other.now.ends.entries x i) (has_byte self.new.ends.entries x i)) }
    {
        for (key, end) in other.ends.iter() {
            self.add(Span {
                object: key.0,
                from: key.1,
                end: *end,
            })?;
        }
        Ok(())
    }

    /// Whether a byte is in both sets: it looks at the ranges of the smaller one.
    pub fn meets(&self, other: &Spans) -> bool
        ensures { IsTrue result ↔ Meet self.now.ends.entries other.now.ends.entries }
    {
        if self.len() <= other.len() {
            self.is_touched_by(other)
        } else {
            other.is_touched_by(self)
        }
    }

    fn is_touched_by(&self, other: &Spans) -> bool
        ensures { IsTrue result ↔ Meet self.now.ends.entries other.now.ends.entries }
    {
        for (key, end) in self.ends.iter() {
            let span = Span {
                object: key.0,
                from: key.1,
                end: *end,
            };
            if other.overlap(span).is_some() {
                return true;
            }
        }
        false
    }
}
