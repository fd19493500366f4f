// The frames of a certificate from its text.
ghost use Rattle.std.specs.Prelude.{◌≡◌, ◌++◌, ◌∷◌, [], false, true, IfOk, IfErr, map, codes, option_and_then};
ghost use Rattle.serde_json.specs.View.{view};
ghost use Rattle.certificate_text.specs.Reading.{frame_row_in, frame_row_of, can_follow, more_frames, list_at, need, Answers};

use crate::values::{items, list_member, number, small_number};
use certificate::{CertFault, Field};
use serde_json::Value;
use std::alloc::Global;
use ub_base::{Frame, Frames};

/// The most frames of a certificate (own).
const FRAMES_END: u32 = 1 << 31;

/// A frame's parent, turn and node.
type FrameRow = (Frame, u64, u32);

fn frame_row(items: &[Value]) -> Option<FrameRow>
    ensures { result ≡ frame_row_in (map view items.now) }
{
    match items {
        [parent, turn, node] => Some((
            Frame(small_number(parent)?),
            number(turn)?,
            small_number(node)?,
        )),
        _ => None,
    }
}

// The frame of an entry.
fn frame_entry(value: &Value) -> Option<FrameRow>
    ensures { result ≡ frame_row_of (view value.now) }
{
    frame_row(items(value)?)
}

// Adds a frame that is started from one that is there and isn't there itself, and says whether it is such a frame.
fn add_frame(frames: &mut Frames, row: FrameRow) -> Result<bool, CertFault>
    ensures test { IfOk result (λ added. added ≡ can_follow frames.old row) }
    ensures added { result ≡ Ok true → frames.new ≡ frames.old ++ row ∷ [] }
    ensures refused { result ≡ Ok false → frames.new ≡ frames.old }
    ensures memory { IfErr result (λ e. e ≡ CertFault.NoMemory) }
{
    let (parent, turn, node) = row;
    if parent.0 > frames.len() || frames.len() >= FRAMES_END - 1 {
        return Ok(false);
    }
    if frames.find(parent, turn, node).is_some() {
        return Ok(false);
    }
    frames.call(parent, turn, node)?;
    Ok(true)
}

fn frames_of(alloc: Global, entries: &[Value]) -> Result<Frames, CertFault>
    ensures { Answers (need Field.Frames (more_frames [] (map view entries.now)) Ok) result }
{
    let wrong = CertFault::BadShape(Field::Frames);
    let mut frames = Frames::new(alloc);
    for entry in entries {
        let Some(row) = frame_entry(entry) else {
            return Err(wrong);
        };
        if !add_frame(&mut frames, row)? {
            return Err(wrong);
        }
    }
    Ok(frames)
}

/// The frames of a certificate.
pub fn read_frames(alloc: Global, value: &Value) -> Result<Frames, CertFault>
    ensures { Answers (need Field.Frames (option_and_then (more_frames []) (list_at (codes "frames") (view value.now))) Ok) result }
{
    match list_member(value, "frames") {
        Some(entries) => frames_of(alloc, entries),
        None => Err(CertFault::BadShape(Field::Frames)),
    }
}
