// The calls that are open.

use crate::facts::Opened;
use crate::node::tree_at;
use c_typed::Typed;
use std::alloc::Global;
use ub_base::{Frame, Frames, NoMemory};

/// Where a function was called, by the line of the call; and how many calls in a row stand there.
#[derive(Clone, Copy, PartialEq, Eq)]
pub struct CallSite {
    pub line: u32,
    pub times: u32,
}

// The event that started a frame.
fn start_of(frames: &Frames, frame: Frame) -> Option<(Frame, u64, u32)> {
    if frame.0 > 0 && frame.0 <= frames.len() {
        Some(frames.row(frame))
    } else {
        None
    }
}

// The line of the call that started the frame, where this full expression made it.
fn site_of(roots: &[&Typed], frames: &Frames, frame: Frame, opened: &Opened) -> Option<u32> {
    let (parent, turn, node) = start_of(frames, frame)?;
    if parent != opened.frame || turn != opened.turn {
        return None;
    }
    let call = tree_at(roots, opened.tree, node)?;
    Some(call.line)
}

fn add_site(sites: &mut Vec<CallSite>, line: u32) -> Result<(), NoMemory> {
    if let Some(last) = sites.last_mut()
        && last.line == line
    {
        last.times = last.times.saturating_add(1);
        return Ok(());
    }
    sites.push(CallSite { line, times: 1 })?;
    Ok(())
}

/// The calls that lead to a frame, the innermost first, where these full expressions are open.
pub fn calls_of(
    alloc: Global,
    roots: &[&Typed],
    frames: &Frames,
    open: &[Opened],
    top: Frame,
) -> Result<Vec<CallSite>, NoMemory> {
    let mut sites = Vec::new(alloc);
    let mut frame = top;
    for opened in open.iter().rev() {
        if let Some(line) = site_of(roots, frames, frame, opened) {
            add_site(&mut sites, line)?;
            frame = opened.frame;
        }
    }
    Ok(sites)
}
