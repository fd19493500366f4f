// The map of a certificate from its text.
ghost use Rattle.std.specs.Prelude.{◌≡◌, false, true, IfErr, map, codes, option_and_then};
ghost use Rattle.serde_json.specs.View.{view};
ghost use Rattle.certificate_text.specs.Reading.{counted_name, framed_name, counted_in, framed_in, argv_in, placed, row_in, row_of, run_words, run_in, rows_of};
ghost use Rattle.certificate_text.specs.Reading.{entry_in, has_few_rows, map_in, list_at, need, Answers, Adds, IsTooMuch};

use crate::row::{MAX_ROWS, Run, Stride, row_at};
use crate::values::{frame, items, list_member, number, small_number};
use addr_map::Row;
use certificate::{CertFault, Field, Rows, Version};
use serde_json::Value;
use std::alloc::Global;
use ub_base::{Frame, Items, ObjName};

fn counted_name(word: &str, k: u32) -> Option<ObjName>
    ensures { result ≡ counted_name word.now k }
{
    if word == "static" {
        Some(ObjName::Static(k))
    } else if word == "lit" {
        Some(ObjName::Lit(k))
    } else if word == "arg" {
        Some(ObjName::Arg(k))
    } else {
        None
    }
}

fn framed_name(word: &str, frame: Frame, turn: u64, last: u32) -> Option<ObjName>
    ensures { result ≡ framed_name word.now frame turn last }
{
    if word == "auto" {
        Some(ObjName::Auto {
            frame,
            turn,
            decl: last,
        })
    } else if word == "heap" {
        Some(ObjName::Heap {
            frame,
            turn,
            node: last,
        })
    } else {
        None
    }
}

fn placed(name: ObjName, base: &Value, size: &Value, align: &Value) -> Option<Row>
    ensures { result ≡ placed name (view base.now) (view size.now) (view align.now) }
{
    Some(Row {
        name,
        base: number(base)?,
        size: number(size)?,
        align: number(align)?,
    })
}

// The name of a row of a static object, a literal or an argument.
fn counted(word: &Value, k: &Value) -> Option<ObjName>
    ensures { result ≡ counted_in (view word.now) (view k.now) }
{
    counted_name(word.as_str()?, small_number(k)?)
}

// The name of a row of an object of a block or of the heap.
fn framed(word: &Value, at: &Value, turn: &Value, last: &Value, count: u32) -> Option<ObjName>
    ensures { result ≡ framed_in count (view word.now) (view at.now) (view turn.now) (view last.now) }
{
    let at = frame(at, count)?;
    framed_name(word.as_str()?, at, number(turn)?, small_number(last)?)
}

// The name `argv`, where this is the word.
fn argv(word: &Value) -> Option<ObjName>
    ensures { result ≡ argv_in (view word.now) }
{
    if word.as_str()? == "argv" {
        Some(ObjName::Argv)
    } else {
        None
    }
}

// A row alone.
fn row(items: &[Value], frames: u32) -> Option<Row>
    ensures { result ≡ row_in frames (map view items.now) }
{
    match items {
        [word, base, size, align] => placed(argv(word)?, base, size, align),
        [word, k, base, size, align] => placed(counted(word, k)?, base, size, align),
        [word, at, turn, last, base, size, align] => {
            placed(framed(word, at, turn, last, frames)?, base, size, align)
        }
        _ => None,
    }
}

// The row of an entry, if it is one.
fn row_of(value: &Value, frames: u32) -> Option<Row>
    ensures { result ≡ row_of frames (view value.now) }
{
    row(items(value)?, frames)
}

// The words of a run of at least two rows that stand apart.
fn run_words(count: &Value, step: &Value, raise: &Value, first: &Value, frames: u32) -> Option<Run>
    ensures { result ≡ run_words frames (view count.now) (view step.now) (view raise.now) (view first.now) }
{
    let count = number(count)?;
    let step = number(step)?;
    let raise = number(raise)?;
    let first = row_of(first, frames)?;
    if count < 2 || step == 0 {
        return None;
    }
    Some(Run {
        count,
        stride: Stride { step, raise },
        first,
    })
}

fn run(items: &[Value], frames: u32) -> Option<Run>
    ensures { result ≡ run_in frames (map view items.now) }
{
    let [word, count, step, raise, first] = items else {
        return None;
    };
    if word.as_str()? != "run" {
        return None;
    }
    run_words(count, step, raise, first, frames)
}

// Adds the rows of a run, unless one has a number past its bound or they are too many.
fn add_run(rows: &mut Rows, words: &Run) -> Result<bool, CertFault>
    ensures added { result ≡ Ok true → Adds rows.old rows.new (rows_of words.now) }
    ensures refused { result ≡ Ok false → IsTooMuch Version.Two rows.old (rows_of words.now) }
    ensures memory { IfErr result (λ e. e ≡ CertFault.NoMemory) }
{
    for at in 0..words.count {
        if rows.len() >= MAX_ROWS {
            return Ok(false);
        }
        match row_at(words.first, words.stride, at) {
            Some(row) => rows.push(row)?,
            None => return Ok(false),
        }
    }
    Ok(true)
}

// Adds what an entry of the map stands for, and says whether it is one.
fn add_entry(
    rows: &mut Rows,
    value: &Value,
    version: Version,
    frames: u32,
) -> Result<bool, CertFault>
    ensures added { result ≡ Ok true → Adds rows.old rows.new (entry_in version frames (view value.now)) }
    ensures few { result ≡ Ok true → has_few_rows version rows.new ≡ true }
    ensures refused { result ≡ Ok false → IsTooMuch version rows.old (entry_in version frames (view value.now)) }
    ensures memory { IfErr result (λ e. e ≡ CertFault.NoMemory) }
{
    let Some(items) = items(value) else {
        return Ok(false);
    };
    if let Some(row) = row(items, frames) {
        rows.push(row)?;
        return Ok(version == Version::One || rows.len() <= MAX_ROWS);
    }
    if version == Version::One {
        return Ok(false);
    }
    match run(items, frames) {
        Some(words) => Ok(add_run(rows, &words)? && rows.len() <= MAX_ROWS),
        None => Ok(false),
    }
}

fn all_rows(
    alloc: Global,
    entries: &[Value],
    version: Version,
    frames: u32,
) -> Result<Rows, CertFault>
    ensures value { Answers (need Field.Map (map_in version frames (map view entries.now)) Ok) result }
{
    let wrong = CertFault::BadShape(Field::Map);
    let mut rows = Items::new(alloc);
    for entry in entries {
        if !add_entry(&mut rows, entry, version, frames)? {
            return Err(wrong);
        }
    }
    Ok(rows)
}

/// The rows of the map, `frames` being how many frames the certificate has beside `main`.
pub fn read_map(
    alloc: Global,
    value: &Value,
    version: Version,
    frames: u32,
) -> Result<Rows, CertFault>
    ensures { Answers (need Field.Map (option_and_then (map_in version frames) (list_at (codes "map") (view value.now))) Ok) result }
{
    match list_member(value, "map") {
        Some(entries) => all_rows(alloc, entries, version, frames),
        None => Err(CertFault::BadShape(Field::Map)),
    }
}
