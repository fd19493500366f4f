// Which frames a certificate keeps.
ghost use Rattle.std.specs.Prelude.{◌≡◌, ◌≤◌, ◌<◌, ◌-◌, true, set, IfOk, length};
ghost use Rattle.std.specs.List.{slice_get};
ghost use Rattle.certificate_making.specs.Marking.{claim_frames, kept_marks, mark_all, mark_starter, mark_starters, name_frames, named_frames, row_frames};

use addr_map::Row;
use certificate::Claim;
use std::alloc::Global;
use ub_base::{Frame, Frames, NoMemory, ObjName};

fn mark(marks: &mut [bool], frame: Frame)
    ensures { marks.new ≡ set marks.old frame.0 true }
{
    let at = frame.0 as usize;
    if at < marks.len() {
        marks[at] = true;
    }
}

fn mark_name(marks: &mut [bool], name: ObjName)
    ensures { marks.new ≡ mark_all marks.old (name_frames name) }
{
    match name {
        ObjName::Auto { frame, .. } | ObjName::Heap { frame, .. } => mark(marks, frame),
        _ => {}
    }
}

// Marks the frames of a claim's events.
fn mark_claim(marks: &mut [bool], claim: &Claim)
    ensures { marks.new ≡ mark_all marks.old (claim_frames claim.now) }
{
    match claim {
        Claim::Undefined {
            pair: Some((event, against)),
            ..
        } => {
            mark(marks, event.frame);
            mark(marks, against.frame);
        }
        Claim::OrderDependent { event, against } => {
            mark(marks, event.frame);
            mark(marks, against.frame);
        }
        _ => {}
    }
}

// Marks the frames that rows name.
fn mark_rows(marks: &mut [bool], rows: &[Row])
    ensures { marks.new ≡ mark_all marks.old (row_frames rows.now) }
{
    for row in rows {
        mark_name(marks, row.name);
    }
}

// Marks the frame that started this one, if this one is marked.
fn mark_starter(marks: &mut [bool], frames: &Frames, frame: Frame)
    requires started { 0 < frame.0 }
    requires within { frame.0 ≤ length frames.now }
    ensures { marks.new ≡ mark_starter (slice_get frames.now (frame.0 - 1)) frame.0 marks.old }
{
    let parent = frames.row(frame).0;
    if marks.get(frame.0 as usize).copied().unwrap_or(false) {
        mark(marks, parent);
    }
}

// Marks each frame that started a marked one.
fn mark_starters(marks: &mut [bool], frames: &Frames)
    ensures { marks.new ≡ mark_starters frames.now (length frames.now) marks.old }
{
    for below in 0..frames.len() {
        mark_starter(marks, frames, Frame(frames.len() - below));
    }
}

// Marks the frames that rows and a claim name, and those that started them.
fn mark_needed(marks: &mut [bool], rows: &[Row], claim: &Claim, frames: &Frames)
    ensures { marks.new ≡ mark_starters frames.now (length frames.now) (mark_all marks.old (named_frames rows.now claim.now)) }
{
    mark_rows(marks, rows);
    mark_claim(marks, claim);
    mark_starters(marks, frames);
}

/// Whether each frame is one that a row or the claim names, or one that started such a frame.
pub fn marks_of(
    alloc: Global,
    rows: &[Row],
    claim: &Claim,
    frames: &Frames,
) -> Result<Vec<bool>, NoMemory>
    ensures { IfOk result (λ marks. marks.items ≡ kept_marks frames.now (named_frames rows.now claim.now)) }
{
    let mut marks = vec![in alloc; false; frames.len() as usize + 1]?;
    mark_needed(&mut marks, rows, claim, frames);
    Ok(marks)
}
