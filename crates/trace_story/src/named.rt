// An object of the same name among the frames of a run.
ghost use Rattle.std.specs.Prelude.{◌≡◌, ◌<◌, IfOk, IfSome, IsTrue};
ghost use Rattle.ub_base.specs.Frames.{row_of, path_of, IsFrameList};
ghost use Rattle.trace_story.specs.Named.{IsNamed, IsFrameOf};

use std::alloc::Global;
use ub_base::{Frame, Frames, NoMemory, ObjName};

/// The row of the frame, where it has one.
fn row_at(frames: &Frames, frame: Frame) -> Option<(Frame, u64, u32)>
    ensures row { result ≡ row_of frames.now frame.0 }
    ensures earlier { IfSome result (λ row. row.0.0 < frame.0) }
    ensures rows { IsFrameList frames.now }
{
    let count = frames.len();
    if frame.0 > 0 && frame.0 <= count {
        Some(frames.row(frame))
    } else {
        None
    }
}

/// The steps to a frame, the newest first: of each the turn and the node.
fn steps_to(alloc: Global, frames: &Frames, of: Frame) -> Result<Vec<(u64, u32)>, NoMemory>
    ensures { IfOk result (λ steps. steps.items ≡ path_of frames.now of.0) }
{
    let mut steps = Vec::new(alloc);
    let mut frame = of;
    while let Some((parent, turn, node)) = row_at(frames, frame) {
        steps.push((turn, node))?;
        frame = parent;
    }
    Ok(steps)
}

/// `main`, from which every path leads.
fn first_frame(frames: &Frames) -> Frame
    ensures main { result.0 ≡ 0 }
    ensures rows { IsFrameList frames.now }
{
    let _count = frames.len();
    Frame(0)
}

/// The frame that these steps lead to.
fn reached(frames: &Frames, steps: &[(u64, u32)]) -> Option<Frame>
    ensures { IsFrameOf frames.now steps.now result }
{
    let mut frame = first_frame(frames);
    for i in 0..steps.len() {
        let (turn, node) = steps[steps.len() - 1 - i];
        match frames.find(frame, turn, node) {
            Some(next) => frame = next,
            None => return None,
        }
    }
    Some(frame)
}

/// The frame among these that has the path which a given one has among others.
fn frame_in(
    alloc: Global,
    given: &Frames,
    of: Frame,
    frames: &Frames,
) -> Result<Option<Frame>, NoMemory>
    ensures { IfOk result (λ found. IsFrameOf frames.now (path_of given.now of.0) found) }
{
    let steps = steps_to(alloc, given, of)?;
    Ok(reached(frames, steps.as_slice()))
}

/// The object among these frames that has the name which a given one has among others.
pub fn named_in(
    alloc: Global,
    given: &Frames,
    object: &ObjName,
    frames: &Frames,
) -> Result<Option<ObjName>, NoMemory>
    ensures { IfOk result (λ found. IsNamed given.now object.now frames.now found) }
{
    match *object {
        ObjName::Auto { frame, turn, decl } => match frame_in(alloc, given, frame, frames)? {
            Some(frame) => Ok(Some(ObjName::Auto { frame, turn, decl })),
            None => Ok(None),
        },
        ObjName::Heap { frame, turn, node } => match frame_in(alloc, given, frame, frames)? {
            Some(frame) => Ok(Some(ObjName::Heap { frame, turn, node })),
            None => Ok(None),
        },
        ObjName::Static(number) => Ok(Some(ObjName::Static(number))),
        ObjName::Lit(number) => Ok(Some(ObjName::Lit(number))),
        ObjName::Argv => Ok(Some(ObjName::Argv)),
        ObjName::Arg(number) => Ok(Some(ObjName::Arg(number))),
    }
}

/// A frame's row.
type Row = (Frame, u64, u32);

fn is_row(row: Row, other: Row) -> bool
    ensures { IsTrue result → row ≡ other }
{
    row.0.0 == other.0.0 && (row.1 == other.1 && row.2 == other.2)
}

/// Whether two lists of frames are one.
pub fn are_same(frames: &Frames, others: &Frames) -> bool
    ensures { IsTrue result → frames.now ≡ others.now }
{
    let count = frames.len();
    if others.len() != count {
        return false;
    }
    for i in 0..count {
        let frame = Frame(i + 1);
        if !is_row(frames.row(frame), others.row(frame)) {
            return false;
        }
    }
    true
}
