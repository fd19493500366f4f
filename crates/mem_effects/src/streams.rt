// Standard input, standard output and standard error (7.21.3p7).
ghost use Rattle.std.specs.Prelude.{◌≡◌, ◌+◌, slice_get, is_some, if◌then◌else◌, OnOk, OnErr};
ghost use Rattle.mem_spec.specs.Streams.{printed_to, silent, total};

use mem_spec::Stream;
use std::alloc::Global;
use std::marker::Model;
use ub_base::{Bytes, NoMemory};

/// What a run wrote to standard output and to standard error.
#[derive(Drop)]
pub struct Outputs {
    pub standard: Bytes,
    pub errors: Bytes,
}

impl Model for Outputs {
    ghost use Rattle.mem_spec.specs.Streams as streams;

    ghost Value = { streams.Outputs };

    ghost view = { λ o. record { standard = o.standard; errors = o.errors } };
}

impl Outputs {
    // Nothing was written.
    fn silent(alloc: Global) -> Outputs
        ensures { result ≡ silent }
    {
        Outputs {
            standard: Bytes::from_vec(Vec::new(alloc)),
            errors: Bytes::from_vec(Vec::new(alloc)),
        }
    }

    // Appends to one of them.
    fn append(&mut self, to: Stream, bytes: &[u8]) -> Result<(), NoMemory>
        ensures ok { OnOk result (self.new ≡ printed_to to bytes.now self.old) }
        ensures err { OnErr result (self.new ≡ self.old) }
    {
        match to {
            Stream::Output => self.standard.append(bytes),
            Stream::Errors => self.errors.append(bytes),
        }
    }

    // How many bytes were written to both.
    fn total(&self) -> u64
        ensures { result ≡ total self.now }
    {
        self.standard.as_slice().len() as u64 + self.errors.as_slice().len() as u64
    }
}

/// The input with the position in it, and what was written.
#[derive(Drop)]
pub struct Streams {
    input: Bytes,
    position: usize,
    output: Outputs,
}

impl Model for Streams {
    ghost use Rattle.std.specs.Prelude.{◌≤◌, length};
    ghost use Rattle.mem_spec.specs.Streams.{Io};

    ghost Value = { Io };

    ghost view = { λ s. record { input = s.input; position = s.position; output = s.output } };

    ghost invariant = { λ s. s.position ≤ length s.input };
}

impl Streams {
    /// With this input, of which nothing is taken yet; nothing was written.
    pub fn new(alloc: Global, input: Bytes) -> Streams
        ensures { result ≡ record { input = input; position = 0; output = silent } }
    {
        Streams {
            input,
            position: 0,
            output: Outputs::silent(alloc),
        }
    }

    /// Takes the next byte of the input, None at its end.
    pub fn next(&mut self) -> Option<u8>
        ensures byte { result ≡ slice_get self.old.input self.old.position }
        ensures taken { self.new ≡ record self.old { position = self.old.position + (if is_some result then 1 else 0) } }
    {
        let byte = self.input.as_slice().get(self.position).copied()?;
        self.position += 1;
        Some(byte)
    }

    /// Writes to standard output or standard error.
    pub fn put(&mut self, to: Stream, bytes: &[u8]) -> Result<(), NoMemory>
        ensures ok { OnOk result (self.new ≡ record self.old { output = printed_to to bytes.now self.old.output }) }
        ensures err { OnErr result (self.new ≡ self.old) }
    {
        self.output.append(to, bytes)
    }

    /// How many bytes were written to both streams.
    pub fn written(&self) -> u64
        ensures { result ≡ total self.now.output }
    {
        self.output.total()
    }

    /// What was written.
    pub fn into_output(self) -> Outputs
        ensures { result ≡ self.output }
    {
        let Streams {
            input,
            position: _,
            output,
        } = self;
        drop(input);
        output
    }
}
