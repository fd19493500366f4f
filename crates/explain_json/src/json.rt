// An explanation as JSON.

use c_names::{write_event, write_object};
use explain_case::{
    Act, Case, NamedObject, end_of, naming, put_function, put_object_type, sites_of, size_of,
    storage_of, subject, token_at,
};
use explain_facts::{CallSite, Touch, Verdict};
use explain_heads::{Marked, marks_of, put_head, shown_first, told_at};
use explain_notes::notes_of;
use explain_page::{Page, Stretch, empty, put_number, put_type};
use explain_places::{declaration_of, function_of, token_of};
use explain_refusal::{Refusal, Rule, does_of, put_said, refusal_notes};
use serde_json::{Map, Value, put};
use std::alloc::Global;
use ub_base::{Bytes, Frame, Item, NoMemory, ObjName};

type Members = Map<String, Value>;

/// The report of an audit, and its status.
#[derive(Clone, Copy)]
pub struct Reported<'a> {
    pub report: &'a [u8],
    pub status: u8,
}

// A byte of a text that is no UTF-8.
fn ascii(byte: u8) -> u8 {
    if byte < 128 { byte } else { b'?' }
}

// The text with a question mark for each byte that isn't ASCII.
fn ascii_of(alloc: Global, bytes: &[u8]) -> Result<Bytes, NoMemory> {
    let mut text = empty(alloc);
    for byte in bytes {
        text.push(ascii(*byte))?;
    }
    Ok(text)
}

fn string_of(alloc: Global, text: &str) -> Result<Value, NoMemory> {
    Ok(Value::String(String::from_str(alloc, text)?))
}

fn ascii_text(alloc: Global, bytes: &[u8]) -> Result<Value, NoMemory> {
    let text = ascii_of(alloc, bytes)?;
    match str::from_utf8(text.as_slice()) {
        Ok(text) => string_of(alloc, text),
        Err(_) => string_of(alloc, ""),
    }
}

// A text; of one that is no UTF-8, each byte that isn't ASCII as a question mark.
fn text_value(alloc: Global, bytes: &[u8]) -> Result<Value, NoMemory> {
    match str::from_utf8(bytes) {
        Ok(text) => string_of(alloc, text),
        Err(_) => ascii_text(alloc, bytes),
    }
}

fn put_text(alloc: Global, map: &mut Members, name: &str, bytes: &[u8]) -> Result<(), NoMemory> {
    let value = text_value(alloc, bytes)?;
    put(map, alloc, name, value)?;
    Ok(())
}

fn put_count(alloc: Global, map: &mut Members, name: &str, count: u64) -> Result<(), NoMemory> {
    put(map, alloc, name, Value::from(count))?;
    Ok(())
}

// A file, a line and a column.
fn place_value(alloc: Global, file: &[u8], line: u32, column: usize) -> Result<Value, NoMemory> {
    let mut items = Vec::new(alloc);
    items.push(text_value(alloc, file)?)?;
    items.push(Value::from(line))?;
    items.push(Value::from(column))?;
    Ok(Value::Array(items))
}

fn put_place(
    alloc: Global,
    map: &mut Members,
    name: &str,
    page: &Page<'_, '_>,
    place: (usize, u32),
) -> Result<(), NoMemory> {
    let (at, line) = place;
    let value = place_value(alloc, page.file_at(at), line, page.column(at, line))?;
    put(map, alloc, name, value)?;
    Ok(())
}

// Where a stretch ends, one behind its last byte.
fn put_end(
    alloc: Global,
    map: &mut Members,
    page: &Page<'_, '_>,
    end: usize,
    line: u32,
) -> Result<(), NoMemory> {
    let value = place_value(alloc, page.file_at(end), line, page.end_column(end, line))?;
    put(map, alloc, "end", value)?;
    Ok(())
}

fn token_place(page: &Page<'_, '_>, token: u32) -> (usize, u32) {
    (page.start(token), page.line(token))
}

// The first word of the report, its words joined by `-`.
fn verdict_of(report: &[u8]) -> &'static [u8] {
    match report {
        [b'c', b'l', ..] => b"clean",
        [b'u', b'n', ..] => b"undefined",
        [b'o', b'r', ..] => b"order-dependent",
        [b'o', b'u', b't', b' ', ..] => b"out-of-steps",
        [b'o', b'u', b't', b's', ..] => b"outside",
        [b'l', b'e', ..] => b"lex",
        [b's', b'y', ..] => b"syntax",
        [b'n', b'o', b't', ..] => b"not-typed",
        [b't', b'o', b'o', b' ', b'l', ..] => b"too-long",
        [b't', b'o', b'o', b' ', b'd', ..] => b"too-deep",
        _ => b"fault",
    }
}

// The members that every explanation has but for its notes.
fn common(alloc: Global, of: Reported<'_>) -> Result<Members, NoMemory> {
    let mut map = Map::new(alloc);
    put_count(alloc, &mut map, "version", 1)?;
    put_count(alloc, &mut map, "status", u64::from(of.status))?;
    put_text(alloc, &mut map, "report", of.report)?;
    put_text(alloc, &mut map, "verdict", verdict_of(of.report))?;
    Ok(map)
}

fn put_map(alloc: Global, out: &mut Bytes, map: Members) -> Result<(), NoMemory> {
    let text = Value::Object(map).to_string(alloc)?;
    out.append(text.as_bytes())
}

fn note_value(alloc: Global, name: &[u8], text: &[u8]) -> Result<Value, NoMemory> {
    let mut items = Vec::new(alloc);
    items.push(text_value(alloc, name)?)?;
    items.push(text_value(alloc, text)?)?;
    Ok(Value::Array(items))
}

fn notes_value(alloc: Global, case: &Case<'_, '_>) -> Result<Value, NoMemory> {
    let mut values = Vec::new(alloc);
    let notes = notes_of(alloc, case)?;
    for note in notes.iter() {
        values.push(note_value(alloc, note.name.as_bytes(), note.text.as_slice())?)?;
    }
    Ok(Value::Array(values))
}

// The members of a mark that tell its place.
fn stretch_members(
    alloc: Global,
    page: &Page<'_, '_>,
    stretch: &Stretch,
    does: &[u8],
) -> Result<Members, NoMemory> {
    let mut map = Map::new(alloc);
    put_place(alloc, &mut map, "at", page, (stretch.start, stretch.line))?;
    put_end(alloc, &mut map, page, stretch.end, stretch.line)?;
    put_text(alloc, &mut map, "does", does)?;
    Ok(map)
}

// The operator of an evaluation, and its end, which may stand on another line.
fn put_operator(
    alloc: Global,
    map: &mut Members,
    case: &Case<'_, '_>,
    act: &Act<'_>,
) -> Result<(), NoMemory> {
    let page = case.page;
    put_place(
        alloc,
        map,
        "operator",
        page,
        token_place(page, act.extent.operator),
    )?;
    let line = page.line(act.extent.last);
    put_end(alloc, map, page, page.end(act.extent.last), line)
}

fn put_event(
    alloc: Global,
    map: &mut Members,
    case: &Case<'_, '_>,
    act: &Act<'_>,
) -> Result<(), NoMemory> {
    let event = write_event(alloc, case.found.frames, &act.event)?;
    put_text(alloc, map, "event", event.as_slice())?;
    let mut ty = empty(alloc);
    put_type(&mut ty, case.page, &act.tree.ty)?;
    put_text(alloc, map, "type", ty.as_slice())
}

// An access to one byte of an object.
#[derive(Clone, Copy)]
struct ByteAccess {
    words: &'static [u8],
    object: ObjName,
    at: u64,
}

fn access_of(item: Item) -> Option<ByteAccess> {
    match item {
        Item::Read { object, from, .. } => Some(ByteAccess {
            words: b"read ",
            object,
            at: from,
        }),
        Item::Write { object, from, .. } => Some(ByteAccess {
            words: b"write ",
            object,
            at: from,
        }),
        _ => None,
    }
}

fn access_text(alloc: Global, case: &Case<'_, '_>, access: ByteAccess) -> Result<Bytes, NoMemory> {
    let name = write_object(alloc, case.found.frames, &access.object)?;
    let mut text = Bytes::from_slice(alloc, access.words)?;
    text.append(name.as_slice())?;
    text.append(b" byte ")?;
    put_number(&mut text, access.at)?;
    Ok(text)
}

fn put_item(
    alloc: Global,
    map: &mut Members,
    case: &Case<'_, '_>,
    act: &Act<'_>,
) -> Result<(), NoMemory> {
    let Some(item) = act.item else {
        return Ok(());
    };
    let Some(access) = access_of(item) else {
        return Ok(());
    };
    let text = access_text(alloc, case, access)?;
    put_text(alloc, map, "item", text.as_slice())
}

fn put_act(
    alloc: Global,
    map: &mut Members,
    case: &Case<'_, '_>,
    act: &Act<'_>,
) -> Result<(), NoMemory> {
    put_operator(alloc, map, case, act)?;
    put_event(alloc, map, case, act)?;
    put_item(alloc, map, case, act)
}

fn mark_value(alloc: Global, case: &Case<'_, '_>, marked: &Marked<'_>) -> Result<Value, NoMemory> {
    let mut map = stretch_members(alloc, case.page, &marked.stretch, marked.does.as_slice())?;
    if let Some(act) = &marked.act {
        put_act(alloc, &mut map, case, act)?;
    }
    Ok(Value::Object(map))
}

fn marks_value(alloc: Global, case: &Case<'_, '_>) -> Result<Value, NoMemory> {
    let mut values = Vec::new(alloc);
    let marks = marks_of(alloc, case)?;
    for marked in marks.iter() {
        values.push(mark_value(alloc, case, marked)?)?;
    }
    Ok(Value::Array(values))
}

fn function_value(alloc: Global, page: &Page<'_, '_>, inside: u32) -> Result<Value, NoMemory> {
    let mut name = empty(alloc);
    put_function(&mut name, page, inside)?;
    text_value(alloc, name.as_slice())
}

fn call_value(
    alloc: Global,
    page: &Page<'_, '_>,
    inside: u32,
    site: CallSite,
) -> Result<Value, NoMemory> {
    let token = token_of(site.line);
    let mut map = Map::new(alloc);
    put(
        &mut map,
        alloc,
        "function",
        function_value(alloc, page, inside)?,
    )?;
    put(&mut map, alloc, "from", function_value(alloc, page, token)?)?;
    put_place(alloc, &mut map, "at", page, token_place(page, token))?;
    Ok(Value::Object(map))
}

fn calls_value(
    alloc: Global,
    case: &Case<'_, '_>,
    frame: Frame,
    at: u32,
) -> Result<Value, NoMemory> {
    let sites = sites_of(alloc, case, frame)?;
    let mut calls = Vec::new(alloc);
    let mut inside = at;
    for site in sites.as_slice() {
        calls.push(call_value(alloc, case.page, inside, *site)?)?;
        inside = token_of(site.line);
    }
    Ok(Value::Array(calls))
}

fn put_token(
    alloc: Global,
    map: &mut Members,
    name: &str,
    page: &Page<'_, '_>,
    token: Option<u32>,
) -> Result<(), NoMemory> {
    match token {
        Some(token) => put_place(alloc, map, name, page, token_place(page, token)),
        None => Ok(()),
    }
}

// The function that a token stands in.
fn put_inside(
    alloc: Global,
    map: &mut Members,
    page: &Page<'_, '_>,
    token: u32,
) -> Result<(), NoMemory> {
    match function_of(page.tokens, token) {
        Some(name) => put_text(alloc, map, "function", page.spelling(name)),
        None => Ok(()),
    }
}

fn put_named(
    alloc: Global,
    map: &mut Members,
    case: &Case<'_, '_>,
    object: ObjName,
    named: NamedObject<'_>,
) -> Result<(), NoMemory> {
    let page = case.page;
    let name = named.name;
    put_text(alloc, map, "name", page.spelling(name))?;
    let mut ty = empty(alloc);
    put_object_type(&mut ty, case, object, named)?;
    put_text(alloc, map, "type", ty.as_slice())?;
    if let ObjName::Auto { .. } = object {
        put_inside(alloc, map, page, name)?;
    }
    put_token(
        alloc,
        map,
        "declared",
        page,
        declaration_of(page.tokens, name),
    )
}

fn touched_at(case: &Case<'_, '_>, touch: Option<Touch>) -> Option<u32> {
    let touch = touch?;
    token_at(case, touch.opened, touch.node)
}

fn put_unnamed(
    alloc: Global,
    map: &mut Members,
    case: &Case<'_, '_>,
    object: ObjName,
) -> Result<(), NoMemory> {
    let ObjName::Heap { .. } = object else {
        return Ok(());
    };
    let born = touched_at(case, case.trail.born);
    if let Some(token) = born {
        put_inside(alloc, map, case.page, token)?;
    }
    put_token(alloc, map, "allocated", case.page, born)?;
    let died = touched_at(case, case.trail.died);
    put_token(alloc, map, "ended", case.page, died)
}

fn object_value(alloc: Global, case: &Case<'_, '_>, object: ObjName) -> Result<Value, NoMemory> {
    let mut map = Map::new(alloc);
    put_text(alloc, &mut map, "storage", storage_of(object))?;
    put_count(alloc, &mut map, "bytes", size_of(case, object))?;
    match naming(case, object, case.trail) {
        Some(named) => put_named(alloc, &mut map, case, object, named)?,
        None => put_unnamed(alloc, &mut map, case, object)?,
    }
    Ok(Value::Object(map))
}

fn put_object(alloc: Global, map: &mut Members, case: &Case<'_, '_>) -> Result<(), NoMemory> {
    if let Some(object) = subject(case) {
        let value = object_value(alloc, case, object)?;
        put(map, alloc, "object", value)?;
    }
    Ok(())
}

fn put_head_text(alloc: Global, map: &mut Members, case: &Case<'_, '_>) -> Result<(), NoMemory> {
    let mut head = empty(alloc);
    put_head(&mut head, case)?;
    put_text(alloc, map, "head", head.as_slice())
}

// The members of a case that stands at a place.
fn put_told(alloc: Global, map: &mut Members, case: &Case<'_, '_>) -> Result<(), NoMemory> {
    put_token(alloc, map, "at", case.page, told_at(case))?;
    if shown_first(case).is_some() {
        put(map, alloc, "marks", marks_value(alloc, case)?)?;
    }
    put_calls(alloc, map, case)?;
    put_object(alloc, map, case)
}

fn put_calls(alloc: Global, map: &mut Members, case: &Case<'_, '_>) -> Result<(), NoMemory> {
    if let (Some(_), Some((frame, at))) = (told_at(case), end_of(case)) {
        put(map, alloc, "calls", calls_value(alloc, case, frame, at)?)?;
    }
    Ok(())
}

fn put_clause(alloc: Global, map: &mut Members, case: &Case<'_, '_>) -> Result<(), NoMemory> {
    match case.found.verdict {
        Verdict::Undefined(clause) => put_text(alloc, map, "clause", clause.text().as_bytes()),
        Verdict::OrderDependent => put_text(alloc, map, "clause", b"6.5.2.2p10"),
        _ => Ok(()),
    }
}

fn digit(value: u8) -> u8 {
    if value < 10 {
        b'0'.saturating_add(value)
    } else {
        b'a'.saturating_add(value.saturating_sub(10))
    }
}

fn hexadecimal(alloc: Global, bytes: &[u8]) -> Result<Bytes, NoMemory> {
    let mut text = empty(alloc);
    for byte in bytes {
        text.push(digit(byte / 16))?;
        text.push(digit(byte % 16))?;
    }
    Ok(text)
}

// The bytes that a clean run wrote.
fn put_output(alloc: Global, map: &mut Members, case: &Case<'_, '_>) -> Result<(), NoMemory> {
    if let Verdict::Clean { .. } = case.found.verdict {
        let text = hexadecimal(alloc, case.found.output)?;
        return put_text(alloc, map, "output", text.as_slice());
    }
    Ok(())
}

// The bytes that a run wrote to standard error, where there are any.
fn put_errors(alloc: Global, map: &mut Members, case: &Case<'_, '_>) -> Result<(), NoMemory> {
    if case.found.errors.is_empty() {
        return Ok(());
    }
    let text = hexadecimal(alloc, case.found.errors)?;
    put_text(alloc, map, "errors", text.as_slice())
}

// The report without what the program wrote, which stands behind it where the run is clean.
fn without_output<'a>(of: Reported<'a>, case: &Case<'_, '_>) -> Reported<'a> {
    if let Verdict::Clean { .. } = case.found.verdict {
        let lines = of.report.len().saturating_sub(case.found.output.len());
        let (report, _) = of.report.split_at(lines);
        return Reported { report, ..of };
    }
    of
}

/// Adds the explanation of a finding as JSON.
pub fn put_case_json(
    alloc: Global,
    out: &mut Bytes,
    of: Reported<'_>,
    case: &Case<'_, '_>,
) -> Result<(), NoMemory> {
    let mut map = common(alloc, without_output(of, case))?;
    put(&mut map, alloc, "notes", notes_value(alloc, case)?)?;
    put_head_text(alloc, &mut map, case)?;
    put_clause(alloc, &mut map, case)?;
    put_told(alloc, &mut map, case)?;
    put_output(alloc, &mut map, case)?;
    put_errors(alloc, &mut map, case)?;
    put_map(alloc, out, map)
}

/// Adds the report alone as JSON.
pub fn put_report_json(alloc: Global, out: &mut Bytes, of: Reported<'_>) -> Result<(), NoMemory> {
    let mut map = common(alloc, of)?;
    put(&mut map, alloc, "notes", Value::Array(Vec::new(alloc)))?;
    put_map(alloc, out, map)
}

fn refused_notes(alloc: Global, page: &Page<'_, '_>, refusal: &Refusal) -> Result<Value, NoMemory> {
    let mut values = Vec::new(alloc);
    let notes = refusal_notes(alloc, page, refusal)?;
    for note in notes.iter() {
        values.push(note_value(alloc, note.name.as_bytes(), note.text.as_slice())?)?;
    }
    Ok(Value::Array(values))
}

fn refusal_marks(alloc: Global, page: &Page<'_, '_>, refusal: &Refusal) -> Result<Value, NoMemory> {
    let does = does_of(alloc, page, refusal)?;
    let mut mark = stretch_members(alloc, page, &refusal.stretch, does.as_slice())?;
    if refusal.constant.is_some() {
        put_text(alloc, &mut mark, "type", does.as_slice())?;
    } else if let Some(ty) = refusal.does.strip_prefix("a ") {
        put_text(alloc, &mut mark, "type", ty.as_bytes())?;
    }
    let mut marks = Vec::new(alloc);
    marks.push(Value::Object(mark))?;
    Ok(Value::Array(marks))
}

fn put_said_text(
    alloc: Global,
    map: &mut Members,
    page: &Page<'_, '_>,
    refusal: &Refusal,
) -> Result<(), NoMemory> {
    let mut head = empty(alloc);
    put_said(&mut head, page, refusal)?;
    put_text(alloc, map, "head", head.as_slice())
}

fn put_paragraph(alloc: Global, map: &mut Members, refusal: &Refusal) -> Result<(), NoMemory> {
    match (refusal.rule, refusal.paragraph) {
        (Rule::LeftOut(_), _) | (_, None) => Ok(()),
        (_, Some(paragraph)) => put_text(alloc, map, "clause", paragraph.as_bytes()),
    }
}

/// Adds a refusal as JSON.
pub fn put_refusal_json(
    alloc: Global,
    out: &mut Bytes,
    of: Reported<'_>,
    page: &Page<'_, '_>,
    refusal: &Refusal,
) -> Result<(), NoMemory> {
    let mut map = common(alloc, of)?;
    put(
        &mut map,
        alloc,
        "notes",
        refused_notes(alloc, page, refusal)?,
    )?;
    put(
        &mut map,
        alloc,
        "marks",
        refusal_marks(alloc, page, refusal)?,
    )?;
    put_said_text(alloc, &mut map, page, refusal)?;
    put_paragraph(alloc, &mut map, refusal)?;
    put_place(
        alloc,
        &mut map,
        "at",
        page,
        (refusal.stretch.start, refusal.stretch.line),
    )?;
    put_map(alloc, out, map)
}
