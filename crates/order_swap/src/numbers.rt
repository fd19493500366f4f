// The numbers of frames.
ghost use Rattle.std.specs.Prelude.{◌≡◌, IfOk};

use std::alloc::Global;
use ub_base::{Frame, Frames, NoMemory};

/// The same frames.
pub fn copied(alloc: Global, frames: &Frames) -> Result<Frames, NoMemory>
    ensures { IfOk result (λ copy. copy ≡ frames.now) }
{
    let mut copy = Frames::new(alloc);
    for number in 0..frames.len() {
        let (parent, turn, node) = frames.row(Frame(number + 1));
        copy.call(parent, turn, node)?;
    }
    Ok(copy)
}
