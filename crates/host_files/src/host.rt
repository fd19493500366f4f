// The files and the standard output of the host.
ghost use Rattle.std.specs.Prelude.{◌≡◌, ◌≤◌, None, IfOk, length};
ghost use Rattle.ub_base.specs.Held.{IsThere, IsWithin};

use std::alloc::Global;
use std::io::{Read, Write};
use std::{fs, io};
use ub_base::{Bytes, Failed, Fetched, FileFault, Sink};

/// The files of the host. They tell nothing of what they hold.
#[derive(Drop)]
pub struct HostFiles<'a, R> {
    rt: &'a R,
    read_faults: u64,
    write_faults: u64,
}

impl<'a, R> HostFiles<'a, R> {
    pub fn new(rt: &'a R) -> Self {
        HostFiles {
            rt,
            read_faults: 0,
            write_faults: 0,
        }
    }
}

fn file_fault(fault: io::Error) -> FileFault {
    match fault.kind() {
        io::ErrorKind::OutOfMemory => FileFault::NoMemory,
        _ => FileFault::Failed,
    }
}

// What a reader still has, of at most so many bytes.
fn read_whole<S: Read>(alloc: Global, source: &mut S, most: usize) -> Result<Fetched, FileFault>
    ensures within { IfOk result (IsWithin most) }
    ensures there { IfOk result IsThere }
{
    let mut bytes = Vec::new(alloc);
    let mut piece = [0u8; 4096];
    for _ in 0..u64::MAX {
        let count = source.read(&mut piece).map_err(file_fault)?;
        if count == 0 {
            return Ok(Fetched::Whole(Bytes::from_vec(bytes)));
        }
        if count > most - bytes.len() {
            return Ok(Fetched::TooLong);
        }
        if bytes.extend_from_slice(&piece[..count]).is_err() {
            return Err(FileFault::NoMemory);
        }
    }
    Err(FileFault::Failed)
}

fn read_file<R: fs::Files + Input>(
    alloc: Global,
    rt: &R,
    name: &str,
    most: usize,
) -> Result<Fetched, FileFault>
    ensures within { IfOk result (IsWithin most) }
    ensures there { IfOk result IsThere }
{
    if name == "-" {
        return read_whole(alloc, &mut rt.reader(), most);
    }
    let mut file = fs::open(rt, name).map_err(file_fault)?;
    read_whole(alloc, &mut file, most)
}

impl<R: fs::Files + Input> ub_base::Files for HostFiles<'_, R> {
    ghost held = { λ _. None };

    ghost read_faults = { λ files. files.read_faults };

    ghost write_faults = { λ files. files.write_faults };

    fn fetch(&mut self, alloc: Global, name: &str, most: usize) -> Result<Fetched, FileFault> {
        match read_file(alloc, self.rt, name, most) {
            Err(FileFault::Failed) => {
                self.read_faults = self.read_faults.saturating_add(1);
                Err(FileFault::Failed)
            }
            result => result,
        }
    }

    fn keep(&mut self, _alloc: Global, name: &str, bytes: &[u8]) -> Result<(), FileFault> {
        match fs::write(self.rt, name, bytes).map_err(file_fault) {
            Err(FileFault::Failed) => {
                self.write_faults = self.write_faults.saturating_add(1);
                Err(FileFault::Failed)
            }
            result => result,
        }
    }
}

/// The standard output of the host. It tells nothing of what was put.
#[derive(Drop)]
pub struct HostSink<'a, R> {
    rt: &'a R,
    faults: u64,
}

impl<'a, R> HostSink<'a, R> {
    pub fn new(rt: &'a R) -> Self {
        HostSink { rt, faults: 0 }
    }
}

impl<R: Print> Sink for HostSink<'_, R> {
    ghost told = { λ _. None };

    ghost faults = { λ sink. sink.faults };

    fn put(&mut self, bytes: &[u8]) -> Result<usize, Failed> {
        match io::writer(self.rt).write(bytes) {
            Ok(count) if count > 0 || bytes.is_empty() => Ok(count),
            _ => {
                self.faults = self.faults.saturating_add(1);
                Err(Failed)
            }
        }
    }
}
