// The steps by which a frame was reached.
ghost use Rattle.std.specs.Prelude.{◌≡◌, ◌<◌, IfOk, IfSome};
ghost use Rattle.ub_base.specs.Frames.{path_of, row_of, IsFrameList};

use std::alloc::Global;
use ub_base::{Frame, Frames, NoMemory};

/// The step that started a frame: the turn and the node.
pub(crate) type Step = (u64, u32);

/// The steps from the frame down to `main`, the newest first. A number without a row counts as `main`.
pub(crate) fn path_to(alloc: Global, frames: &Frames, of: Frame) -> Result<Vec<Step>, NoMemory>
    ensures { IfOk result (λ path. path.items ≡ path_of frames.now of.0) }
{
    let mut path = Vec::new(alloc);
    let mut frame = of;
    while let Some((parent, turn, node)) = row_at(frames, frame) {
        path.push((turn, node))?;
        frame = parent;
    }
    Ok(path)
}

/// The row of the frame, where it has one.
pub(crate) fn row_at(frames: &Frames, frame: Frame) -> Option<(Frame, u64, u32)>
    ensures row { result ≡ row_of frames.now frame.0 }
    ensures earlier { IfSome result (λ row. row.0.0 < frame.0) }
    ensures rows { IsFrameList frames.now }
{
    let count = frames.len();
    if frame.0 > 0 && frame.0 <= count {
        Some(frames.row(frame))
    } else {
        None
    }
}
