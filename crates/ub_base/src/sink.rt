// What takes the report.
ghost use Rattle.std.specs.Prelude.{◌≡◌, ◌+◌, ◌≤◌, ◌++◌, ◌∷◌, ◌↔◌, [], ℕ, List, Some, Option, IsTrue, IsErr, IfOk, OnOk, OnErr, length, min};
ghost use Rattle.ub_base.specs.Causes.{Rose};
ghost use Rattle.ub_base.specs.Memory.{no_bytes, put_fails, after_put};
ghost use Rattle.ub_base.specs.Sink.{Gains, Takes, GainsPart};

use crate::NoMemory;
use std::alloc::Global;
use std::marker::Model;

/// A write failed.
#[derive(Clone, Copy, Debug, PartialEq, Eq)]
pub struct Failed;

/// Takes bytes.
pub trait Sink {
    /// The bytes so far, where they are told.
    ghost told: { Self → Option (List ℕ) };

    /// How often a write failed.
    ghost faults: { Self → ℕ };

    /// Takes a front of the bytes, and says how many.
    fn put(&mut self, bytes: &[u8]) -> Result<usize, Failed>
        ensures taken { IfOk result (Takes (told self.old) (told self.new) bytes.now) }
        ensures untouched { OnErr result (told self.new ≡ told self.old) }
        ensures later { faults self.old ≤ faults self.new }
        ensures failed { OnErr result (Rose (faults self.old) (faults self.new)) };
}

/// Puts all of the bytes, unless a write fails.
pub fn put_all<K: Sink>(sink: &mut K, bytes: &[u8]) -> Result<(), Failed>
    ensures all { OnOk result (Gains (K.told sink.old) (K.told sink.new) bytes.now) }
    ensures part { OnErr result (GainsPart (K.told sink.old) (K.told sink.new) bytes.now) }
    ensures later { K.faults sink.old ≤ K.faults sink.new }
    ensures failed { OnErr result (Rose (K.faults sink.old) (K.faults sink.new)) }
{
    let mut done = 0;
    while done < bytes.len() {
        done += sink.put(&bytes[done..])?;
    }
    Ok(())
}

/// A sink in memory. It takes what was reserved, and fails at the calls that it is told to fail at.
#[derive(Drop)]
pub struct MemSink {
    bytes: Vec<u8>,
    room: usize,
    calls: u64,
    faults: u64,
    failing: Vec<u64>,
}

impl Model for MemSink {
    ghost use Rattle.std.specs.Prelude.{◌≤◌, ◌+◌, vec_len, vec_capacity};
    ghost use Rattle.ub_base.specs.Memory.{MemorySink};

    ghost Value = { MemorySink };

    ghost view = { λ m. record {
      bytes = m.bytes.items;
      room = m.room;
      calls = m.calls;
      faults = m.faults;
      failing = m.failing.items;
    } };

    ghost invariant = { λ m. vec_len m.bytes + m.room ≤ vec_capacity m.bytes };
}

impl MemSink {
    /// With no bytes, no room and no call that is to fail.
    pub fn new(alloc: Global) -> Self
        ensures { result ≡ no_bytes }
    {
        MemSink {
            bytes: Vec::new(alloc),
            room: 0,
            calls: 0,
            faults: 0,
            failing: Vec::new(alloc),
        }
    }

    /// The call of `put` of this number fails, counted from 0.
    pub fn fail_call(&mut self, n: u64) -> Result<(), NoMemory>
        ensures ok { OnOk result (self.new ≡ record self.old { failing = self.old.failing ++ n ∷ [] }) }
        ensures err { OnErr result (self.new ≡ self.old) }
    {
        self.failing.push(n)?;
        Ok(())
    }

    /// Makes room for so many more bytes.
    pub fn reserve(&mut self, n: usize) -> Result<(), NoMemory>
        ensures ok { OnOk result (self.new ≡ record self.old { room = self.old.room + n }) }
        ensures err { OnErr result (self.new ≡ self.old) }
    {
        let Some(room) = self.room.checked_add(n) else {
            return Err(NoMemory);
        };
        self.bytes.reserve(room)?;
        self.room = room;
        Ok(())
    }

    /// What was put so far.
    pub fn bytes(&self) -> &[u8]
        ensures { result.now ≡ self.now.bytes }
    {
        &self.bytes
    }
}

impl Sink for MemSink {
    ghost told = { λ m. Some m.bytes };

    ghost faults = { λ m. m.faults };

    /// Takes as many bytes as were reserved and not yet used.
    fn put(&mut self, bytes: &[u8]) -> Result<usize, Failed>
        ensures taken { IfOk result (Takes (Some self.old.bytes) (Some self.new.bytes) bytes.now) }
        ensures untouched { OnErr result (Some self.new.bytes ≡ Some self.old.bytes) }
        ensures later { self.old.faults ≤ self.new.faults }
        ensures failed { OnErr result (Rose self.old.faults self.new.faults) }

        // It fails at the calls that are to fail and where no room is left, and nowhere else.
        ensures fails { IsErr result ↔ IsTrue (put_fails self.old bytes.now) }
        ensures count { IfOk result (λ count. count ≡ min self.old.room (length bytes.now)) }
        ensures after { self.new ≡ after_put self.old bytes.now }
    {
        let call = self.calls;
        self.calls = call.saturating_add(1);
        let count = self.room.min(bytes.len());
        if self.failing.contains(&call) || (count == 0 && !bytes.is_empty()) {
            self.faults = self.faults.saturating_add(1);
            return Err(Failed);
        }
        self.bytes.extend_from_slice(&bytes[..count]).unwrap();
        self.room -= count;
        Ok(count)
    }
}
