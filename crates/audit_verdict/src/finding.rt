// The report of a finding.
ghost use Rattle.std.specs.Prelude.{◌≡◌, ◌++◌, codes, decimal, IfOk, OnOk};
ghost use Rattle.audit_verdict.specs.Finding.{event_line, byte_text, item_text, item_line, against_text, race_text, order_text, clean_text, cause_text};
ghost use Rattle.audit_verdict.specs.Finding.{finding_report, finding_status};
ghost use Rattle.c_names.specs.Texts.{event_text, object_text};
ghost use Rattle.ub_base.specs.Clause.{clause_text};

use c_names::{write_event, write_object};
use footprint_run::{Audit, Finding, Race};
use itoa::Buffer;
use std::alloc::Global;
use ub_base::{Bytes, Cause, Clause, Event, Frames, Item, NoMemory, ObjName};

fn put_number(out: &mut Bytes, number: u64) -> Result<(), NoMemory>
    ensures { OnOk result (out.new ≡ out.old ++ decimal number) }
{
    let mut digits = Buffer::new();
    out.append(digits.format(number).as_bytes())
}

// Words and a number.
fn put_counted(out: &mut Bytes, words: &[u8], number: u64) -> Result<(), NoMemory>
    ensures { OnOk result (out.new ≡ out.old ++ (words.now ++ decimal number)) }
{
    out.append(words)?;
    put_number(out, number)
}

fn put_event(alloc: Global, out: &mut Bytes, frames: &Frames, event: Event) -> Result<(), NoMemory>
    ensures { OnOk result (out.new ≡ out.old ++ event_text frames.now event) }
{
    let text = write_event(alloc, frames, &event)?;
    out.append(text.as_slice())
}

// A line of these words, an event and its line.
fn put_event_line(
    alloc: Global,
    out: &mut Bytes,
    frames: &Frames,
    words: &[u8],
    place: (Event, u32),
) -> Result<(), NoMemory>
    ensures { OnOk result (out.new ≡ out.old ++ event_line words.now frames.now place) }
{
    let (event, line) = place;
    out.append(words)?;
    put_event(alloc, out, frames, event)?;
    out.append(b" line ")?;
    put_number(out, u64::from(line))?;
    out.append(b"\n")
}

fn put_object(
    alloc: Global,
    out: &mut Bytes,
    frames: &Frames,
    words: &[u8],
    object: ObjName,
) -> Result<(), NoMemory>
    ensures { OnOk result (out.new ≡ out.old ++ (words.now ++ object_text frames.now object)) }
{
    let text = write_object(alloc, frames, &object)?;
    out.append(words)?;
    out.append(text.as_slice())
}

// The item of one byte of an object.
fn put_byte(
    alloc: Global,
    out: &mut Bytes,
    frames: &Frames,
    words: &[u8],
    place: (ObjName, u64),
) -> Result<(), NoMemory>
    ensures { OnOk result (out.new ≡ out.old ++ byte_text words.now frames.now place) }
{
    let (object, at) = place;
    put_object(alloc, out, frames, words, object)?;
    out.append(b" byte ")?;
    put_number(out, at)
}

fn put_narrow(
    alloc: Global,
    out: &mut Bytes,
    frames: &Frames,
    id: Event,
    keep: ObjName,
) -> Result<(), NoMemory>
    ensures { OnOk result (out.new ≡ out.old ++ (codes "narrow " ++ (event_text frames.now id ++ (codes " to " ++ object_text frames.now keep)))) }
{
    out.append(b"narrow ")?;
    put_event(alloc, out, frames, id)?;
    put_object(alloc, out, frames, b" to ", keep)
}

fn put_lookup(out: &mut Bytes, address: u64) -> Result<(), NoMemory>
    ensures { OnOk result (out.new ≡ out.old ++ (codes "lookup " ++ decimal address)) }
{
    out.append(b"lookup ")?;
    put_number(out, address)
}

fn put_item(alloc: Global, out: &mut Bytes, frames: &Frames, item: Item) -> Result<(), NoMemory>
    ensures { OnOk result (out.new ≡ out.old ++ item_text frames.now item) }
{
    match item {
        Item::Read { object, from, .. } => put_byte(alloc, out, frames, b"read ", (object, from)),
        Item::Write { object, from, .. } => put_byte(alloc, out, frames, b"write ", (object, from)),
        Item::Born(object) => put_object(alloc, out, frames, b"born ", object),
        Item::Dies(object) => put_object(alloc, out, frames, b"dies ", object),
        Item::Alive(object) => put_object(alloc, out, frames, b"alive ", object),
        Item::Expose(object) => put_object(alloc, out, frames, b"expose ", object),
        Item::Lookup(address) => put_lookup(out, address),
        Item::Narrow { id, keep } => put_narrow(alloc, out, frames, id, keep),
        Item::Input => out.append(b"in"),
        Item::Output => out.append(b"out"),
        Item::Ending => out.append(b"end"),
        Item::Any => out.append(b"any"),
    }
}

fn put_item_line(
    alloc: Global,
    out: &mut Bytes,
    frames: &Frames,
    item: Item,
) -> Result<(), NoMemory>
    ensures { OnOk result (out.new ≡ out.old ++ item_line frames.now item) }
{
    out.append(b"item ")?;
    put_item(alloc, out, frames, item)?;
    out.append(b"\n")
}

// The other event of a pair, and the two items that conflict.
fn put_against(alloc: Global, out: &mut Bytes, frames: &Frames, race: Race) -> Result<(), NoMemory>
    ensures { OnOk result (out.new ≡ out.old ++ against_text frames.now race) }
{
    let place = (race.against, race.against_line);
    put_event_line(alloc, out, frames, b"against ", place)?;
    put_item_line(alloc, out, frames, race.items.0)?;
    put_item_line(alloc, out, frames, race.items.1)
}

fn put_race(
    alloc: Global,
    out: &mut Bytes,
    frames: &Frames,
    race: Option<Race>,
) -> Result<(), NoMemory>
    ensures { OnOk result (out.new ≡ out.old ++ race_text frames.now race) }
{
    match race {
        Some(race) => put_against(alloc, out, frames, race),
        None => out.append(b""),
    }
}

fn put_order(out: &mut Bytes, picks: u64) -> Result<(), NoMemory>
    ensures { OnOk result (out.new ≡ out.old ++ order_text picks) }
{
    out.append(b"order canonical ")?;
    put_number(out, picks)?;
    out.append(b"\n")
}

fn put_clean(out: &mut Bytes, status: u8, output: &[u8]) -> Result<(), NoMemory>
    ensures { OnOk result (out.new ≡ out.old ++ clean_text status output.now) }
{
    put_counted(out, b"clean\nexit ", u64::from(status))?;
    put_counted(out, b"\noutput ", output.len() as u64)?;
    out.append(b"\n")?;
    out.append(output)
}

fn cause_text(cause: Cause) -> &'static [u8]
    ensures { result.now ≡ cause_text cause }
{
    match cause {
        Cause::Output => b"output",
        Cause::Created => b"created",
        Cause::Depth => b"depth",
        Cause::Conversion => b"conversion",
        Cause::Directive => b"directive",
    }
}

fn put_outside(out: &mut Bytes, cause: Cause, number: u64) -> Result<(), NoMemory>
    ensures { OnOk result (out.new ≡ out.old ++ (codes "outside " ++ (cause_text cause ++ (codes " " ++ (decimal number ++ codes "\n"))))) }
{
    out.append(b"outside ")?;
    out.append(cause_text(cause))?;
    out.append(b" ")?;
    put_number(out, number)?;
    out.append(b"\n")
}

fn put_out_of_steps(out: &mut Bytes, steps: u64) -> Result<(), NoMemory>
    ensures { OnOk result (out.new ≡ out.old ++ (codes "out of steps " ++ (decimal steps ++ codes "\n"))) }
{
    put_counted(out, b"out of steps ", steps)?;
    out.append(b"\n")
}

// The clause that an event breaks, the event and its line.
fn put_raised(
    alloc: Global,
    out: &mut Bytes,
    frames: &Frames,
    clause: Clause,
    place: (Event, u32),
) -> Result<(), NoMemory>
    ensures { OnOk result (out.new ≡ out.old ++ (codes "undefined " ++ (clause_text clause ++ event_line (codes "\nevent ") frames.now place))) }
{
    out.append(b"undefined ")?;
    out.append(clause.text().as_bytes())?;
    put_event_line(alloc, out, frames, b"\nevent ", place)
}

// The other event of a race, where there is one, and the order.
fn put_race_order(
    alloc: Global,
    out: &mut Bytes,
    frames: &Frames,
    race: Option<Race>,
    picks: u64,
) -> Result<(), NoMemory>
    ensures { OnOk result (out.new ≡ out.old ++ (race_text frames.now race ++ order_text picks)) }
{
    put_race(alloc, out, frames, race)?;
    put_order(out, picks)
}

fn put_finding(alloc: Global, out: &mut Bytes, audit: &Audit, steps: u64) -> Result<(), NoMemory>
    ensures { OnOk result (out.new ≡ out.old ++ finding_report audit.now.frames audit.now.output steps audit.now.finding) }
{
    let frames = &audit.frames;
    match audit.finding {
        Finding::Clean { status, .. } => put_clean(out, status, audit.output.as_slice()),
        Finding::Undefined {
            clause,
            event,
            line,
            race,
            picks,
        } => {
            put_raised(alloc, out, frames, clause, (event, line))?;
            put_race_order(alloc, out, frames, race, picks)
        }
        Finding::OrderDependent {
            event,
            line,
            against,
            against_line,
            items,
            picks,
        } => {
            let words = b"order-dependent\nevent ";
            put_event_line(alloc, out, frames, words, (event, line))?;
            let race = Race {
                against,
                against_line,
                items,
            };
            put_race_order(alloc, out, frames, Some(race), picks)
        }
        Finding::OutOfSteps { .. } => put_out_of_steps(out, steps),
        Finding::Outside { cause, number, .. } => put_outside(out, cause, number),
    }
}

/// The report of an audit of at most so many steps.
pub fn report_of(alloc: Global, audit: &Audit, steps: u64) -> Result<Bytes, NoMemory>
    ensures { IfOk result (λ bytes. bytes ≡ finding_report audit.now.frames audit.now.output steps audit.now.finding) }
{
    let mut out = Bytes::from_slice(alloc, b"")?;
    put_finding(alloc, &mut out, audit, steps)?;
    Ok(out)
}

pub fn status_of(finding: &Finding) -> u8
    ensures { result ≡ finding_status finding.now }
{
    match finding {
        Finding::Clean { .. } => 0,
        Finding::Undefined { .. } => 1,
        Finding::OrderDependent { .. } => 2,
        Finding::OutOfSteps { .. } => 3,
        Finding::Outside { .. } => 4,
    }
}
