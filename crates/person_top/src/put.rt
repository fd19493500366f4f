// A text is put, and the call ends.
ghost use Rattle.person_top.specs.Ends.{EndsBy, EndsForMemory};

use ub_base::{Failed, Sink, put_all};

pub const WRITE_FAULT: u8 = 21;

const NO_MEMORY: u8 = 30;

/// Puts a text, and gives the status.
pub fn put_text<O: Sink>(out: &mut O, text: &[u8], status: u8) -> u8
    ensures { EndsBy (O.told out.old) (O.told out.new) (O.faults out.old) (O.faults out.new) result status text.now }
{
    match put_all(out, text) {
        Ok(()) => status,
        Err(Failed) => WRITE_FAULT,
    }
}

/// Says that memory ran out.
pub fn put_no_memory<O: Sink>(out: &mut O) -> u8
    ensures { EndsForMemory (O.told out.old) (O.told out.new) (O.faults out.old) (O.faults out.new) result }
{
    put_text(out, b"no memory\n", NO_MEMORY)
}
