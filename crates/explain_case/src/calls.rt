// The calls that lead to an evaluation.

use crate::case::{Act, Case};
use crate::text::put_function;
use c_typed::Typed;
use explain_facts::{CallSite, Opened, calls_of, tree_at};
use explain_page::{Page, empty, put_note, put_number};
use explain_places::{extent_of, token_of};
use std::alloc::Global;
use ub_base::{Bytes, Event, Frame, Frames, Kind, NoMemory};

// Adds a call of the function that holds the token `inside`.
fn put_call(
    out: &mut Bytes,
    page: &Page<'_, '_>,
    inside: u32,
    site: CallSite,
) -> Result<(), NoMemory> {
    put_function(out, page, inside)?;
    out.append(b", called at ")?;
    page.put_token_place(out, token_of(site.line))?;
    out.append(b" from ")?;
    put_function(out, page, token_of(site.line))?;
    put_repeated(out, site.times)
}

fn put_repeated(out: &mut Bytes, times: u32) -> Result<(), NoMemory> {
    if times > 1 {
        out.append(b", ")?;
        put_number(out, u64::from(times))?;
        out.append(b" times")?;
    }
    Ok(())
}

const HALF: usize = 5;

// Whether the call of this number, of so many, is listed.
fn is_listed(number: usize, count: usize) -> bool {
    count <= HALF.saturating_mul(2) || number < HALF || number.saturating_add(HALF) >= count
}

fn put_left_out(out: &mut Bytes, count: usize) -> Result<(), NoMemory> {
    let left = count.saturating_sub(HALF.saturating_mul(2));
    out.append(b"          .. ")?;
    put_number(out, left as u64)?;
    out.append(b" more\n")
}

fn put_call_line(
    alloc: Global,
    out: &mut Bytes,
    page: &Page<'_, '_>,
    inside: u32,
    site: CallSite,
    is_first: bool,
) -> Result<(), NoMemory> {
    let mut text = empty(alloc);
    put_call(&mut text, page, inside, site)?;
    let name: &[u8] = if is_first { b"calls" } else { b"" };
    put_note(out, name, text.as_slice())
}

// Adds the call of this number, where it is listed.
fn put_numbered(
    alloc: Global,
    out: &mut Bytes,
    page: &Page<'_, '_>,
    inside: u32,
    site: CallSite,
    number: usize,
    count: usize,
) -> Result<(), NoMemory> {
    if is_listed(number, count) {
        return put_call_line(alloc, out, page, inside, site, number == 0);
    }
    if number == HALF {
        return put_left_out(out, count);
    }
    Ok(())
}

fn put_sites(
    alloc: Global,
    out: &mut Bytes,
    page: &Page<'_, '_>,
    at: u32,
    sites: &[CallSite],
) -> Result<(), NoMemory> {
    let mut inside = at;
    for (number, site) in sites.iter().enumerate() {
        put_numbered(alloc, out, page, inside, *site, number, sites.len())?;
        inside = token_of(site.line);
    }
    Ok(())
}

/// The calls that lead to this frame.
pub fn sites_of(
    alloc: Global,
    case: &Case<'_, '_>,
    frame: Frame,
) -> Result<Vec<CallSite>, NoMemory> {
    calls_of(
        alloc,
        case.roots,
        case.found.frames,
        case.moment.open.as_slice(),
        frame,
    )
}

/// Where the run stands at its end: a frame and a token of it.
pub fn end_of(case: &Case<'_, '_>) -> Option<(Frame, u32)> {
    if let Some(first) = &case.first {
        return Some((first.event.frame, first.extent.first));
    }
    let opened = case.moment.innermost()?;
    let root = tree_at(case.roots, opened.tree, 0)?;
    Some((opened.frame, token_of(root.line)))
}

/// Adds the calls that lead to where the run ends.
pub fn put_calls(alloc: Global, out: &mut Bytes, case: &Case<'_, '_>) -> Result<(), NoMemory> {
    let Some((frame, at)) = end_of(case) else {
        return Ok(());
    };
    let sites = sites_of(alloc, case, frame)?;
    put_sites(alloc, out, case.page, at, sites.as_slice())
}

// The event that started a frame, where this full expression made it.
fn call_from<'p>(
    page: &Page<'_, '_>,
    frames: &Frames,
    roots: &[&'p Typed],
    frame: Frame,
    opened: &Opened,
) -> Option<Act<'p>> {
    if frame.0 == 0 || frame.0 > frames.len() {
        return None;
    }
    let (parent, turn, node) = frames.row(frame);
    if parent != opened.frame || turn != opened.turn {
        return None;
    }
    let root = tree_at(roots, opened.tree, 0)?;
    let tree = tree_at(roots, opened.tree, node)?;
    Some(Act {
        event: Event {
            frame: parent,
            turn,
            node,
            kind: Kind::Body,
        },
        root,
        tree,
        extent: extent_of(page.tokens, tree),
        item: None,
    })
}

fn is_in_library(page: &Page<'_, '_>, act: &Act<'_>) -> bool {
    is_header(page.file_at(page.start(act.extent.first)))
}

/// Whether a file of this name is one of the library's headers: it stands in a folder `headers`.
pub fn is_header(name: &[u8]) -> bool {
    let mut rest = name;
    for _ in 0..name.len() {
        if rest.starts_with(b"headers/") {
            return true;
        }
        let Some((_, behind)) = rest.split_first() else {
            return false;
        };
        rest = behind;
    }
    false
}

/// The call of the program that led into a header, where the first event of a finding stands in one. The full expressions that are
/// open are looked through from the innermost one on.
pub fn library_call<'p>(
    page: &Page<'_, '_>,
    frames: &Frames,
    open: &[Opened],
    roots: &[&'p Typed],
    first: Option<Act<'p>>,
) -> Option<Act<'p>> {
    let first = first?;
    if !is_in_library(page, &first) {
        return None;
    }
    let mut frame = first.event.frame;
    for opened in open.iter().rev() {
        if let Some(call) = call_from(page, frames, roots, frame, opened) {
            if !is_in_library(page, &call) {
                return Some(call);
            }
            frame = opened.frame;
        }
    }
    None
}
