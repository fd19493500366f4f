// The text of a certificate.
ghost use Rattle.std.specs.Prelude.{◌≡◌, ◌⊎◌, ◌<◌, map, length, codes, IfOk, OnOk};
ghost use Rattle.serde_json.specs.Data.{string, put as with_member};
ghost use Rattle.serde_json.specs.View.{view, members_view};
ghost use Rattle.hex.specs.Hex.{IsBytes, encode_lower};
ghost use Rattle.certificate.specs.declared.cert.Version.TheVariants.{Two};
ghost use Rattle.certificate.specs.Form.{HasBytes, HasForm};
ghost use Rattle.certificate_text.specs.Reading.{States};
ghost use Rattle.certificate_writing.specs.Writing.{list, frame_entry, event_entry, pair_entry, row_entry, run_entry, IsAlone, IsRun, Packs, segment_entry};
ghost use Rattle.certificate_writing.specs.Writing.{pair_list, value_of, IsTextOf};
ghost use Rattle.certificate_writing.specs.Members.{common, with_claim};

use crate::longest::longest_run;
use crate::words::{cause_text, kind_text};
use addr_map::Row;
use certificate::{Cert, Claim, Segment};
use certificate_text::Run;
use serde_json::{Map, Value, json, put};
use std::alloc::{AllocError, Global};
use ub_base::{Bytes, Event, Frame, Frames, NoMemory, ObjName};

fn frames_value(alloc: Global, frames: &Frames) -> Result<Value, AllocError>
    ensures { IfOk result (λ value. view value ≡ list (map frame_entry frames.now)) }
{
    let mut items = Vec::new(alloc);
    for at in 0..frames.len() {
        let row = frames.row(Frame(at + 1));
        items.push(frame_value(alloc, row)?)?;
    }
    Ok(Value::Array(items))
}

fn frame_value(alloc: Global, row: (Frame, u64, u32)) -> Result<Value, AllocError>
    ensures { IfOk result (λ value. view value ≡ frame_entry row) }
{
    let (parent, turn, node) = row;
    json!(in alloc; [parent.0, turn, node])
}

fn row_value(alloc: Global, row: Row) -> Result<Value, AllocError>
    ensures { IfOk result (λ value. view value ≡ row_entry row) }
{
    let (base, size, align) = (row.base, row.size, row.align);
    match row.name {
        ObjName::Static(k) => json!(in alloc; ["static", k, base, size, align]),
        ObjName::Lit(k) => json!(in alloc; ["lit", k, base, size, align]),
        ObjName::Argv => json!(in alloc; ["argv", base, size, align]),
        ObjName::Arg(k) => json!(in alloc; ["arg", k, base, size, align]),
        ObjName::Auto { frame, turn, decl } => {
            json!(in alloc; ["auto", frame.0, turn, decl, base, size, align])
        }
        ObjName::Heap { frame, turn, node } => {
            json!(in alloc; ["heap", frame.0, turn, node, base, size, align])
        }
    }
}

fn run_value(alloc: Global, run: Run) -> Result<Value, AllocError>
    ensures { IfOk result (λ value. view value ≡ run_entry run) }
{
    let first = row_value(alloc, run.first)?;
    let (step, raise) = (run.stride.step, run.stride.raise);
    json!(in alloc; ["run", run.count, step, raise, first])
}

// The next entry of these rows, and the rows behind it.
fn entry<'r>(alloc: Global, rows: &'r [Row]) -> Result<(Value, &'r [Row]), AllocError>
    requires { 0 < length rows.now }
    ensures entry { IfOk result (λ pair. IsAlone rows.now pair.1.now (view pair.0) ⊎ IsRun rows.now pair.1.now (view pair.0)) }
    ensures fewer { IfOk result (λ pair. length pair.1.now < length rows.now) }
{
    match longest_run(rows) {
        Some(run) => {
            let (_, rest) = rows.split_at(run.count as usize);
            Ok((run_value(alloc, run)?, rest))
        }
        None => {
            let (_, rest) = rows.split_at(1);
            Ok((row_value(alloc, rows[0])?, rest))
        }
    }
}

fn map_value(alloc: Global, rows: &[Row]) -> Result<Value, AllocError>
    ensures { IfOk result (λ value. (entries : _) × Packs rows.now entries × (view value ≡ list entries)) }
{
    let mut items = Vec::new(alloc);
    let mut rest = rows;
    for _turn in 0..rows.len() {
        if rest.is_empty() {
            return Ok(Value::Array(items));
        }
        let (entry, others) = entry(alloc, rest)?;
        items.push(entry)?;
        rest = others;
    }
    Ok(Value::Array(items))
}

fn segment_value(alloc: Global, segment: Segment) -> Result<Value, AllocError>
    ensures { IfOk result (λ value. view value ≡ segment_entry segment) }
{
    match segment {
        Segment::Canonical(count) => Ok(Value::from(count)),
        Segment::Pick { node, kind } => {
            let word = kind_text(kind);
            json!(in alloc; [node, word])
        }
    }
}

fn order_value(alloc: Global, order: &[Segment]) -> Result<Value, AllocError>
    ensures { IfOk result (λ value. view value ≡ list (map segment_entry order.now)) }
{
    let mut items = Vec::new(alloc);
    for segment in order {
        items.push(segment_value(alloc, *segment)?)?;
    }
    Ok(Value::Array(items))
}

fn event_value(alloc: Global, event: Event) -> Result<Value, AllocError>
    ensures { IfOk result (λ value. view value ≡ event_entry event) }
{
    let (frame, turn, node) = (event.frame.0, event.turn, event.node);
    let word = kind_text(event.kind);
    json!(in alloc; [frame, turn, node, word])
}

fn pair_value(alloc: Global, event: Event, against: Event) -> Result<Value, AllocError>
    ensures { IfOk result (λ value. view value ≡ pair_entry event against) }
{
    let event = event_value(alloc, event)?;
    let against = event_value(alloc, against)?;
    json!(in alloc; [event, against])
}

// The two events of a pair, or an empty list.
fn pair_list(alloc: Global, pair: Option<(Event, Event)>) -> Result<Value, AllocError>
    ensures { IfOk result (λ value. view value ≡ pair_list pair) }
{
    match pair {
        Some((event, against)) => pair_value(alloc, event, against),
        None => Ok(Value::Array(Vec::new(alloc))),
    }
}

// The members of every certificate.
fn common(alloc: Global, c: &Cert) -> Result<Members, AllocError>
    ensures { IfOk result (λ made. (entries : _) × Packs c.now.map entries
        × (members_view made.entries ≡ common (list (map frame_entry c.now.frames)) (list entries) (list (map segment_entry c.now.order)))) }
{
    let mut members = Map::new(alloc);
    put(&mut members, alloc, "version", Value::from(2u64))?;
    put(
        &mut members,
        alloc,
        "order",
        order_value(alloc, c.order.as_slice())?,
    )?;
    put(
        &mut members,
        alloc,
        "map",
        map_value(alloc, c.map.as_slice())?,
    )?;
    put(
        &mut members,
        alloc,
        "frames",
        frames_value(alloc, &c.frames)?,
    )?;
    Ok(members)
}

type Members = Map<String, Value>;

fn put_text(alloc: Global, members: &mut Members, name: &str, text: &str) -> Result<(), AllocError>
    ensures { OnOk result (members_view members.new.entries ≡ with_member name.now (string text.now) (members_view members.old.entries)) }
{
    put(members, alloc, name, Value::try_from_str(alloc, text)?)
}

// The digits of the output.
fn put_output(alloc: Global, members: &mut Members, output: &[u8]) -> Result<(), AllocError>
    ensures put { OnOk result (members_view members.new.entries ≡ with_member (codes "output") (string (encode_lower output.now))
        (members_view members.old.entries)) }
    ensures bytes { IsBytes output.now }
{
    let digits = hex::encode(alloc, output)?;
    put(members, alloc, "output", Value::String(digits))
}

fn put_claim(alloc: Global, members: &mut Members, claim: &Claim) -> Result<(), AllocError>
    ensures put { OnOk result (members_view members.new.entries ≡ with_claim claim.now (members_view members.old.entries)) }
    ensures bytes { OnOk result (HasBytes claim.now) }
{
    match claim {
        Claim::Clean { status, output } => {
            put_text(alloc, members, "verdict", "clean")?;
            put(members, alloc, "status", Value::from(*status))?;
            put_output(alloc, members, output.as_slice())
        }
        Claim::Undefined { clause, pair } => {
            put_text(alloc, members, "verdict", "undefined")?;
            put_text(alloc, members, "clause", clause.text())?;
            put(members, alloc, "pair", pair_list(alloc, *pair)?)
        }
        Claim::OrderDependent { event, against } => {
            put_text(alloc, members, "verdict", "order-dependent")?;
            put(members, alloc, "pair", pair_value(alloc, *event, *against)?)
        }
        Claim::OutOfSteps => put_text(alloc, members, "verdict", "out-of-steps"),
        Claim::Outside { cause, number } => {
            put_text(alloc, members, "verdict", "outside")?;
            put_text(alloc, members, "cause", cause_text(*cause))?;
            put(members, alloc, "number", Value::from(*number))
        }
    }
}

// The value of a certificate.
fn value_of(alloc: Global, c: &Cert) -> Result<Value, AllocError>
    ensures value { IfOk result (λ value. (entries : _) × Packs c.now.map entries × (view value ≡ value_of c.now entries)) }
    ensures bytes { IfOk result (λ value. HasBytes c.now.claim) }
{
    let mut members = common(alloc, c)?;
    put_claim(alloc, &mut members, &c.claim)?;
    Ok(Value::Object(members))
}

/// The text of a certificate, in version 2: compact, its members in the order of their names, with no line feed.
pub fn to_json(alloc: Global, c: &Cert) -> Result<Bytes, NoMemory>
    ensures text { IfOk result (IsTextOf c.now) }
    // The text of a certificate in the form states that certificate.
    ensures states { IfOk result (λ text. HasForm Two c.now → States text c.now) }
{
    let value = value_of(alloc, c)?;
    let text = value.to_string(alloc)?;
    Ok(Bytes::from_slice(alloc, text.as_bytes())?)
}
