// Names written as texts.
ghost use Rattle.std.specs.Prelude.{◌≡◌, ◌++◌, decimal, IfOk, OnOk};
ghost use Rattle.c_names.specs.Texts.{event_text, object_text, frame_text, numbers_text, kind_text, step_text};
ghost use Rattle.ub_base.specs.Frames.{path_of};

use crate::path::{Step, path_to};
use itoa::Buffer;
use std::alloc::Global;
use ub_base::{Bytes, Event, Frame, Frames, Kind, NoMemory, ObjName};

/// The text of an event: frame, turn, node and kind.
pub fn write_event(alloc: Global, frames: &Frames, e: &Event) -> Result<Bytes, NoMemory>
    ensures { IfOk result (λ text. text ≡ event_text frames.now e.now) }
{
    let mut out = Vec::new(alloc);
    put_frame(alloc, &mut out, frames, e.frame)?;
    put_numbers(&mut out, e.turn, e.node)?;
    out.extend_from_slice(b" ")?;
    out.extend_from_slice(word_of(e.kind))?;
    Ok(Bytes::from_vec(out))
}

/// The text of an object: the word of its kind, and what tells it from the others of that kind.
pub fn write_object(alloc: Global, frames: &Frames, o: &ObjName) -> Result<Bytes, NoMemory>
    ensures { IfOk result (λ text. text ≡ object_text frames.now o.now) }
{
    let mut out = Vec::new(alloc);
    match *o {
        ObjName::Static(k) => put_counted(&mut out, b"static ", k)?,
        ObjName::Lit(k) => put_counted(&mut out, b"lit ", k)?,
        ObjName::Argv => out.extend_from_slice(b"argv")?,
        ObjName::Arg(k) => put_counted(&mut out, b"arg ", k)?,
        ObjName::Auto { frame, turn, decl } => {
            out.extend_from_slice(b"auto ")?;
            put_frame(alloc, &mut out, frames, frame)?;
            put_numbers(&mut out, turn, decl)?;
        }
        ObjName::Heap { frame, turn, node } => {
            out.extend_from_slice(b"heap ")?;
            put_frame(alloc, &mut out, frames, frame)?;
            put_numbers(&mut out, turn, node)?;
        }
    }
    Ok(Bytes::from_vec(out))
}

fn word_of(kind: Kind) -> &'static [u8]
    ensures { result.now ≡ kind_text kind }
{
    match kind {
        Kind::Val => b"val",
        Kind::Eff => b"eff",
        Kind::Body => b"body",
    }
}

fn put_counted(out: &mut Vec<u8>, word: &[u8], number: u32) -> Result<(), NoMemory>
    ensures { OnOk result (out.new.items ≡ out.old.items ++ (word.now ++ decimal number)) }
{
    out.extend_from_slice(word)?;
    put_number(out, u64::from(number))
}

fn put_number(out: &mut Vec<u8>, number: u64) -> Result<(), NoMemory>
    ensures { OnOk result (out.new.items ≡ out.old.items ++ decimal number) }
{
    let mut buffer = Buffer::new();
    out.extend_from_slice(buffer.format(number).as_bytes())?;
    Ok(())
}

fn put_numbers(out: &mut Vec<u8>, first: u64, second: u32) -> Result<(), NoMemory>
    ensures { OnOk result (out.new.items ≡ out.old.items ++ numbers_text first second) }
{
    out.extend_from_slice(b" ")?;
    put_number(out, first)?;
    out.extend_from_slice(b" ")?;
    put_number(out, u64::from(second))
}

fn put_frame(
    alloc: Global,
    out: &mut Vec<u8>,
    frames: &Frames,
    frame: Frame,
) -> Result<(), NoMemory>
    ensures { OnOk result (out.new.items ≡ out.old.items ++ frame_text (path_of frames.now frame.0)) }
{
    let path = path_to(alloc, frames, frame)?;
    put_path(out, &path)
}

fn put_path(out: &mut Vec<u8>, path: &[Step]) -> Result<(), NoMemory>
    ensures { OnOk result (out.new.items ≡ out.old.items ++ frame_text path.now) }
{
    out.extend_from_slice(b"main")?;
    for i in 0..path.len() {
        let (turn, node) = path[path.len() - 1 - i];
        put_step(out, turn, node)?;
    }
    Ok(())
}

fn put_step(out: &mut Vec<u8>, turn: u64, node: u32) -> Result<(), NoMemory>
    ensures { OnOk result (out.new.items ≡ out.old.items ++ step_text (turn, node)) }
{
    out.extend_from_slice(b"/")?;
    put_number(out, turn)?;
    out.extend_from_slice(b":")?;
    put_number(out, u64::from(node))
}
