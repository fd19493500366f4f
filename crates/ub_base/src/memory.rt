// Files in memory.
ghost use Rattle.std.specs.Prelude.{◌≡◌, ◌≤◌, ◌++◌, ◌∷◌, ◌↔◌, [], Some, Option, IsTrue, IfOk, OnOk, OnErr, IsErrOf, IfSome, IfNone};
ghost use Rattle.ub_base.specs.Causes.{Rose};
ghost use Rattle.ub_base.specs.Held.{Held, bytes_under, Fetches, IsWithin, IsKept, OthersStay};
ghost use Rattle.ub_base.specs.Memory.{one_more, call_fails, no_files, after_fetch, after_keep};

use crate::{Bytes, Fetched, FileFault, Files, NoMemory};
use std::alloc::Global;
use std::marker::Model;

/// Files in memory. They fail at the calls that they are told to fail at, and at no others.
#[derive(Drop)]
pub struct MemFiles {
    alloc: Global,
    files: Vec<(Bytes, Bytes)>,
    calls: u64,
    read_faults: u64,
    write_faults: u64,
    failing: Vec<u64>,
}

impl Model for MemFiles {
    ghost use Rattle.ub_base.specs.Memory.{MemoryFiles};

    ghost Value = { MemoryFiles };

    ghost view = { λ m. record {
      files = m.files.items;
      calls = m.calls;
      read_faults = m.read_faults;
      write_faults = m.write_faults;
      failing = m.failing.items;
    } };
}

impl MemFiles {
    /// With no file, and no call that is to fail.
    pub fn new(alloc: Global) -> Self
        ensures { result ≡ no_files }
    {
        MemFiles {
            alloc,
            files: Vec::new(alloc),
            calls: 0,
            read_faults: 0,
            write_faults: 0,
            failing: Vec::new(alloc),
        }
    }

    /// The call of this number fails, counted from 0 over all calls of `fetch` and `keep`.
    pub fn fail_call(&mut self, n: u64) -> Result<(), NoMemory>
        ensures ok { OnOk result (self.new ≡ record self.old { failing = self.old.failing ++ n ∷ [] }) }
        ensures err { OnErr result (self.new ≡ self.old) }
    {
        self.failing.push(n)?;
        Ok(())
    }

    /// Holds these bytes under this name, in place of those that it held.
    pub fn add(&mut self, name: &str, bytes: &[u8]) -> Result<(), NoMemory>
        ensures ok { OnOk result (IsKept self.old.files self.new.files name.now bytes.now) }
        ensures rest { self.new ≡ record self.old { files = self.new.files } }
        ensures err { OnErr result (self.new ≡ self.old) }
    {
        put_file(self.alloc, &mut self.files, name.as_bytes(), bytes)
    }
}

// Counts a call, and says whether it is to fail.
fn is_failing(calls: &mut u64, failing: &[u64]) -> bool
    ensures fails { result ≡ call_fails failing.now calls.old }
    ensures counted { calls.new ≡ one_more calls.old }
{
    let call = *calls;
    *calls = call.saturating_add(1);
    failing.contains(&call)
}

// The bytes under a name.
fn find<'a>(files: &'a [(Bytes, Bytes)], name: &[u8]) -> Option<&'a Bytes>
    ensures found { IfSome result (λ bytes. bytes_under files.now name.now ≡ Some bytes.now) }
    ensures none { IfNone result (bytes_under files.now name.now ≡ None) }
{
    for file in files {
        if file.0.as_slice() == name {
            return Some(&file.1);
        }
    }
    None
}

// Holds these bytes under this name.
fn put_file(
    alloc: Global,
    files: &mut Vec<(Bytes, Bytes)>,
    name: &[u8],
    bytes: &[u8],
) -> Result<(), NoMemory>
    ensures ok { OnOk result (IsKept files.old.items files.new.items name.now bytes.now) }
    ensures err { OnErr result (files.new.items ≡ files.old.items) }
{
    let name = Bytes::from_slice(alloc, name)?;
    let bytes = Bytes::from_slice(alloc, bytes)?;
    files.insert(0, (name, bytes))?;
    Ok(())
}

impl Files for MemFiles {
    ghost held = { λ m. Some m.files };

    ghost read_faults = { λ m. m.read_faults };

    ghost write_faults = { λ m. m.write_faults };

    fn fetch(&mut self, alloc: Global, name: &str, most: usize) -> Result<Fetched, FileFault>
        ensures content { IfOk result (Fetches (Some self.old.files) name.now most) }
        ensures within { IfOk result (IsWithin most) }
        ensures held { Some self.new.files ≡ Some self.old.files }
        ensures later { self.old.read_faults ≤ self.new.read_faults }
        ensures failed { IsErrOf result FileFault.Failed → Rose self.old.read_faults self.new.read_faults }
        ensures writes { self.new.write_faults ≡ self.old.write_faults }

        // It fails at the calls that are to fail, and at no others.
        ensures fails { IsErrOf result FileFault.Failed ↔ IsTrue (call_fails self.old.failing self.old.calls) }
        ensures after { self.new ≡ after_fetch self.old }
    {
        if is_failing(&mut self.calls, &self.failing) {
            self.read_faults = self.read_faults.saturating_add(1);
            return Err(FileFault::Failed);
        }
        let Some(bytes) = find(&self.files, name.as_bytes()) else {
            return Ok(Fetched::Absent);
        };
        if bytes.len() > most {
            return Ok(Fetched::TooLong);
        }
        Ok(Fetched::Whole(Bytes::from_slice(alloc, bytes.as_slice())?))
    }

    fn keep(&mut self, alloc: Global, name: &str, bytes: &[u8]) -> Result<(), FileFault>
        ensures kept { OnOk result (IsKept self.old.files self.new.files name.now bytes.now) }
        ensures others { OnErr result (OthersStay self.old.files self.new.files name.now) }
        ensures later { self.old.write_faults ≤ self.new.write_faults }
        ensures failed { IsErrOf result FileFault.Failed → Rose self.old.write_faults self.new.write_faults }
        ensures reads { self.new.read_faults ≡ self.old.read_faults }

        // It fails at the calls that are to fail, and at no others, and a refusal leaves all files.
        ensures fails { IsErrOf result FileFault.Failed ↔ IsTrue (call_fails self.old.failing self.old.calls) }
        ensures unkept { OnErr result (self.new.files ≡ self.old.files) }
        ensures after { self.new ≡ after_keep self.old self.new.files }
    {
        if is_failing(&mut self.calls, &self.failing) {
            self.write_faults = self.write_faults.saturating_add(1);
            return Err(FileFault::Failed);
        }
        put_file(alloc, &mut self.files, name.as_bytes(), bytes)?;
        Ok(())
    }
}
