// Texts of frames read, and the frames of their paths started where they are missing.
ghost use Rattle.std.specs.Prelude.{◌≡◌, ◌<◌, ◌≤◌, ◌-◌, ◌+◌, ◌^◌, ◌∷◌, ◌++◌, length, reverse, codes, IfOk, OnErr, MatchOption, Contains};
ghost use Rattle.ub_base.specs.Frames.{IsFrameList, path_of};
ghost use Rattle.c_names.specs.Names.{IsStep, HasSteps, IsFrame};
ghost use Rattle.c_names.specs.Texts.{frame_text, step_text};
ghost use Rattle.c_names.specs.Parts.{AtByte, BeginsWithNoStep, IsNoPathText, IsNoFrameText};
ghost use Rattle.c_names.specs.Ways.{Extends, Reaches, IsNext};

use crate::path::Step;
use crate::words::{cut, number, small_number};
use std::alloc::Global;
use ub_base::{Frame, Frames, NoMemory};

/// One more than the most steps of a frame's path.
const STEPS_END: usize = 0x8000_0000;

/// The frame that has this text, None where no frame has. Starts the frames of its path that are missing; where None is
/// answered `frames` stays, and after NoMemory it may have gained rows.
pub(crate) fn read_frame(
    alloc: Global,
    frames: &mut Frames,
    text: &[u8],
) -> Result<Option<Frame>, NoMemory>
    requires { length frames.old < 2 ^ 31 }
    ensures answer { IfOk result (λ found. MatchOption found (IsNoFrameText text.now) (λ f. (frame_text (path_of frames.new f.0) ≡ text.now)
        × IsFrame (path_of frames.new f.0))) }
    ensures frames { IfOk result (λ found. MatchOption found (frames.new ≡ frames.old) (λ f. Reaches frames.old frames.new f.0)) }
    ensures err { OnErr result (Extends frames.old frames.new) }
{
    let Some(steps) = read_steps(alloc, text)? else {
        return Ok(None);
    };
    if steps.len() >= STEPS_END {
        return Ok(None);
    }
    let frame = entered(frames, &steps)?;
    Ok(Some(frame))
}

/// The steps of the path that has this text, the oldest first.
fn read_steps(alloc: Global, text: &[u8]) -> Result<Option<Vec<Step>>, NoMemory>
    ensures { IfOk result (λ found. MatchOption found (IsNoPathText text.now) (λ steps. (frame_text (reverse steps.items) ≡ text.now) × HasSteps steps.items)) }
{
    let mut steps = Vec::new(alloc);
    let Some(mut rest) = text.strip_prefix(b"main") else {
        return Ok(None);
    };
    while rest.len() > 0 {
        let Some((step, more)) = first_step(rest) else {
            return Ok(None);
        };
        steps.push(step)?;
        rest = more;
    }
    Ok(Some(steps))
}

/// The step at the front, and the text after it, which is empty or begins with the next step's slash.
fn first_step(text: &[u8]) -> Option<(Step, &[u8])>
    ensures { MatchOption result (BeginsWithNoStep text.now) (λ r. (step_text r.0 ++ r.1.now ≡ text.now) × IsStep r.0 × AtByte 47 r.1.now) }
{
    let Some(rest) = text.strip_prefix(b"/") else {
        return None;
    };
    let (step, more) = until_slash(rest);
    let Some((turn, node)) = cut(step, b':') else {
        return None;
    };
    let Some(turn) = number(turn) else {
        return None;
    };
    let Some(node) = small_number(node) else {
        return None;
    };
    Some(((turn, node), more))
}

/// What stands before the next slash, and the text from it on.
fn until_slash(text: &[u8]) -> (&[u8], &[u8])
    ensures whole { text.now ≡ result.0.now ++ result.1.now }
    ensures front { ¬ Contains result.0.now 47 }
    ensures rest { AtByte 47 result.1.now }
{
    match text.iter().position(|b| *b == b'/') {
        Some(at) => (&text[..at], &text[at..]),
        None => (text, &text[text.len()..]),
    }
}

/// The frame to which these steps lead from `main`; starts what is missing of the way.
fn entered(frames: &mut Frames, steps: &[Step]) -> Result<Frame, NoMemory>
    requires few { length steps.now < 2 ^ 31 }
    requires room { length frames.old < 2 ^ 31 }
    ensures path { IfOk result (λ f. path_of frames.new f.0 ≡ reverse steps.now) }
    ensures reached { IfOk result (λ f. Reaches frames.old frames.new f.0) }
    ensures err { OnErr result (Extends frames.old frames.new) }
{
    let mut frame = first_frame(frames);
    for step in steps {
        frame = next_frame(frames, frame, *step)?;
    }
    Ok(frame)
}

/// `main`, the first frame of every list.
fn first_frame(frames: &Frames) -> Frame
    ensures main { result.0 ≡ 0 }
    ensures rows { IsFrameList frames.now }
{
    let _count = frames.len();
    Frame(0)
}

/// The frame that this step starts.
fn next_frame(frames: &mut Frames, frame: Frame, step: Step) -> Result<Frame, NoMemory>
    requires rows { IsFrameList frames.old }
    requires there { frame.0 ≤ length frames.old }
    requires room { length frames.old < 2 ^ 32 - 1 }
    ensures next { IfOk result (λ f. IsNext frames.old frames.new frame.0 step f.0) }
    ensures err { OnErr result (frames.new ≡ frames.old) }
{
    if let Some(found) = frames.find(frame, step.0, step.1) {
        return Ok(found);
    }
    let started = frames.call(frame, step.0, step.1)?;
    Ok(started)
}
