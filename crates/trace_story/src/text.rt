// The text of a story.
ghost use Rattle.std.specs.Prelude.{◌≡◌, ◌++◌, codes, decimal, IfOk, OnOk};
ghost use Rattle.c_names.specs.Texts.{event_text};
ghost use Rattle.trace_story.specs.Texts.{range_text, item_text, cause_text, entry_text, lines_text, entries_text};

use crate::entry::{Entries, Entry};
use c_names::write_event;
use itoa::Buffer;
use std::alloc::Global;
use ub_base::{Bytes, Event, Frames, Item, NoMemory};

fn put_number(out: &mut Bytes, number: u64) -> Result<(), NoMemory>
    ensures { OnOk result (out.new ≡ out.old ++ decimal number) }
{
    let mut digits = Buffer::new();
    out.append(digits.format(number).as_bytes())
}

fn put_event(alloc: Global, out: &mut Bytes, frames: &Frames, event: Event) -> Result<(), NoMemory>
    ensures { OnOk result (out.new ≡ out.old ++ event_text frames.now event) }
{
    let text = write_event(alloc, frames, &event)?;
    out.append(text.as_slice())
}

fn put_range(out: &mut Bytes, words: &[u8], from: u64, len: u64) -> Result<(), NoMemory>
    ensures { OnOk result (out.new ≡ out.old ++ range_text words.now from len) }
{
    out.append(words)?;
    put_number(out, from)?;
    out.append(b" length ")?;
    put_number(out, len)
}

fn put_lookup(out: &mut Bytes, address: u64) -> Result<(), NoMemory>
    ensures { OnOk result (out.new ≡ out.old ++ (codes "lookup " ++ decimal address)) }
{
    out.append(b"lookup ")?;
    put_number(out, address)
}

fn put_narrow(alloc: Global, out: &mut Bytes, frames: &Frames, id: Event) -> Result<(), NoMemory>
    ensures { OnOk result (out.new ≡ out.old ++ (codes "narrow " ++ event_text frames.now id)) }
{
    out.append(b"narrow ")?;
    put_event(alloc, out, frames, id)
}

// An item without its object.
fn put_item(alloc: Global, out: &mut Bytes, frames: &Frames, item: Item) -> Result<(), NoMemory>
    ensures { OnOk result (out.new ≡ out.old ++ item_text frames.now item) }
{
    match item {
        Item::Read { from, len, .. } => put_range(out, b"read from ", from, len),
        Item::Write { from, len, .. } => put_range(out, b"write from ", from, len),
        Item::Born(_) => out.append(b"born"),
        Item::Dies(_) => out.append(b"dies"),
        Item::Alive(_) => out.append(b"alive"),
        Item::Expose(_) => out.append(b"expose"),
        Item::Lookup(address) => put_lookup(out, address),
        Item::Narrow { id, .. } => put_narrow(alloc, out, frames, id),
        Item::Input => out.append(b"in"),
        Item::Output => out.append(b"out"),
        Item::Ending => out.append(b"end"),
        Item::Any => out.append(b"any"),
    }
}

// A control step, or an event and its line.
fn put_cause(
    alloc: Global,
    out: &mut Bytes,
    frames: &Frames,
    event: Option<Event>,
    line: u32,
) -> Result<(), NoMemory>
    ensures { OnOk result (out.new ≡ out.old ++ cause_text frames.now event line) }
{
    let Some(event) = event else {
        return out.append(b" control ");
    };
    out.append(b" ")?;
    put_event(alloc, out, frames, event)?;
    out.append(b" line ")?;
    put_number(out, u64::from(line))?;
    out.append(b" ")
}

fn put_entry(alloc: Global, out: &mut Bytes, frames: &Frames, entry: &Entry) -> Result<(), NoMemory>
    ensures { OnOk result (out.new ≡ out.old ++ entry_text frames.now entry.now) }
{
    put_number(out, entry.pick)?;
    put_cause(alloc, out, frames, entry.event, entry.line)?;
    put_item(alloc, out, frames, entry.item)?;
    out.append(b"\n")
}

fn put_lines(
    alloc: Global,
    out: &mut Bytes,
    frames: &Frames,
    entries: &[Entry],
) -> Result<(), NoMemory>
    ensures { OnOk result (out.new ≡ out.old ++ lines_text frames.now entries.now) }
{
    for entry in entries {
        put_entry(alloc, out, frames, entry)?;
    }
    Ok(())
}

/// The text of a story's entries, whose frames these are: a line `PICK control ITEM` or `PICK EVENT line L ITEM` for each entry, and
/// `entries N`. ITEM leaves out the object.
pub fn entries_text(alloc: Global, frames: &Frames, entries: &Entries) -> Result<Bytes, NoMemory>
    ensures { IfOk result (λ text. text ≡ entries_text frames.now entries.now) }
{
    let mut out = Bytes::from_vec(Vec::new(alloc));
    let lines = entries.as_slice();
    put_lines(alloc, &mut out, frames, lines)?;
    out.append(b"entries ")?;
    put_number(&mut out, lines.len() as u64)?;
    out.append(b"\n")?;
    Ok(out)
}
