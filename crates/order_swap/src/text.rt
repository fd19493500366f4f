// The report of a swap.
ghost use Rattle.std.specs.Prelude.{◌≡◌, ◌++◌, codes, decimal, IfOk, OnOk};
ghost use Rattle.c_names.specs.Texts.{event_text};
ghost use Rattle.ub_base.specs.Clause.{clause_text};
ghost use Rattle.order_swap.specs.Texts.{event_line, cause_text, end_text, end_line, verdict_text, swapped_text};

use crate::answer::Swapped;
use crate::end::End;
use c_names::write_event;
use itoa::Buffer;
use std::alloc::Global;
use ub_base::{Bytes, Cause, Event, Frames, NoMemory};

fn put_number(out: &mut Bytes, number: u64) -> Result<(), NoMemory>
    ensures { OnOk result (out.new ≡ out.old ++ decimal number) }
{
    let mut digits = Buffer::new();
    out.append(digits.format(number).as_bytes())
}

// A line of these words, an event and its line.
fn put_event_line(
    alloc: Global,
    out: &mut Bytes,
    frames: &Frames,
    words: &[u8],
    place: (Event, u32),
) -> Result<(), NoMemory>
    ensures { OnOk result (out.new ≡ out.old ++ event_line words.now frames.now place) }
{
    let (event, line) = place;
    let text = write_event(alloc, frames, &event)?;
    out.append(words)?;
    out.append(text.as_slice())?;
    out.append(b" line ")?;
    put_number(out, u64::from(line))?;
    out.append(b"\n")
}

fn cause_text(cause: Cause) -> &'static [u8]
    ensures { result.now ≡ cause_text cause }
{
    match cause {
        Cause::Output => b"output",
        Cause::Created => b"created",
        Cause::Depth => b"depth",
        Cause::Conversion => b"conversion",
        Cause::Directive => b"directive",
    }
}

fn put_ended(out: &mut Bytes, status: u8, output: &Bytes) -> Result<(), NoMemory>
    ensures { OnOk result (out.new ≡ out.old ++ end_text (End.Ended status output.now output.now)) }
{
    out.append(b"exit ")?;
    put_number(out, u64::from(status))?;
    out.append(b" output ")?;
    put_number(out, output.as_slice().len() as u64)
}

fn put_outside(out: &mut Bytes, cause: Cause, number: u64) -> Result<(), NoMemory>
    ensures { OnOk result (out.new ≡ out.old ++ end_text (End.Outside cause number)) }
{
    out.append(b"outside ")?;
    out.append(cause_text(cause))?;
    out.append(b" ")?;
    put_number(out, number)
}

fn put_end(out: &mut Bytes, end: &End) -> Result<(), NoMemory>
    ensures { OnOk result (out.new ≡ out.old ++ end_text end.now) }
{
    match end {
        End::Ended { status, output, .. } => put_ended(out, *status, output),
        End::Raised(clause) => {
            out.append(b"undefined ")?;
            out.append(clause.text().as_bytes())
        }
        End::OutOfSteps => out.append(b"out of steps"),
        End::Outside(cause, number) => put_outside(out, *cause, *number),
        End::Unplaced => out.append(b"unplaced"),
    }
}

// A line of this word, the number of picks and the end.
fn put_end_line(out: &mut Bytes, word: &[u8], end: &End, picks: u64) -> Result<(), NoMemory>
    ensures { OnOk result (out.new ≡ out.old ++ end_line word.now end.now picks) }
{
    out.append(word)?;
    put_number(out, picks)?;
    out.append(b" ")?;
    put_end(out, end)?;
    out.append(b"\n")
}

fn verdict_text(differs: bool) -> &'static [u8]
    ensures { result.now ≡ verdict_text differs }
{
    if differs { b"differs\n" } else { b"same\n" }
}

/// The report: `swap`, the two events with their lines, how each order ends and after how many picks, and whether the ends differ.
pub fn swapped_text(
    alloc: Global,
    frames: &Frames,
    event: (Event, u32),
    against: (Event, u32),
    swapped: &Swapped,
) -> Result<Bytes, NoMemory>
    ensures { IfOk result (λ text. text ≡ swapped_text frames.now event against swapped.now) }
{
    let mut out = Bytes::from_slice(alloc, b"swap\n")?;
    put_event_line(alloc, &mut out, frames, b"event ", event)?;
    put_event_line(alloc, &mut out, frames, b"against ", against)?;
    let canonical = &swapped.canonical;
    put_end_line(&mut out, b"canonical ", &canonical.0, canonical.1)?;
    let other = &swapped.swapped;
    put_end_line(&mut out, b"swapped ", &other.0, other.1)?;
    out.append(verdict_text(swapped.differs))?;
    Ok(out)
}
