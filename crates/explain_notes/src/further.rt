// The command that looks further into a finding.

use addr_map::Mode;
use c_names::write_object;
use explain_case::{Act, Case, Words};
use explain_facts::{Opened, Shown, Verdict, operand_number};
use explain_page::{empty, put_number};
use std::alloc::Global;
use ub_base::{Bytes, Clause, Frame, NoMemory, ObjName};

// How much of a note stands in one line.
const WIDTH: usize = 108;

// The longest name of an object that is shown.
const LONGEST_NAME: usize = 80;

// How many steps are taken where the words name no number.
const STEPS: u64 = 1_000_000;

// Whether a shell takes the byte for itself.
fn is_plain(byte: u8) -> bool {
    byte.is_ascii_alphanumeric()
        || matches!(
            byte,
            b'_' | b'-' | b'.' | b'/' | b':' | b',' | b'=' | b'+' | b'@' | b'%'
        )
}

// Whether a word can be typed as it is: each byte is plain, and it doesn't look like an option.
fn is_plain_word(word: &[u8]) -> bool {
    match word {
        [] | [b'-', _, ..] => false,
        _ => word.iter().all(|byte| is_plain(*byte)),
    }
}

// Whether all words can be typed as they are.
fn are_plain(words: &Words<'_>) -> bool {
    let is_input_plain = match words.input {
        Some(name) => is_plain_word(name.as_bytes()),
        None => true,
    };
    is_input_plain
        && is_plain_word(words.file)
        && words.args.iter().all(|arg| is_plain_word(arg.as_bytes()))
}

// Adds the words behind the file.
fn put_rest(out: &mut Bytes, words: &Words<'_>) -> Result<(), NoMemory> {
    if let Some(name) = words.input {
        out.append(b" --input ")?;
        out.append(name.as_bytes())?;
    }
    if words.steps != STEPS {
        out.append(b" --steps ")?;
        put_number(out, words.steps)?;
    }
    if let Mode::Tight = words.mode {
        out.append(b" --tight")?;
    }
    for arg in words.args {
        out.push(b' ')?;
        out.append(arg.as_bytes())?;
    }
    Ok(())
}

// A command, with the name of an object behind its file, and what it shows.
#[derive(Clone, Copy)]
struct Look<'a> {
    command: &'static [u8],
    object: Option<&'a [u8]>,
    shows: &'static [u8],
}

fn put_front(out: &mut Bytes, look: &Look<'_>, file: &[u8]) -> Result<(), NoMemory> {
    out.append(b"`cub ")?;
    out.append(look.command)?;
    out.push(b' ')?;
    out.append(file)?;
    if let Some(name) = look.object {
        out.append(b" \"")?;
        out.append(name)?;
        out.push(b'"')?;
    }
    Ok(())
}

// Adds the command with all words of the audit.
fn put_whole(out: &mut Bytes, look: &Look<'_>, words: &Words<'_>) -> Result<(), NoMemory> {
    put_front(out, look, words.file)?;
    put_rest(out, words)?;
    out.append(b"` ")?;
    out.append(look.shows)
}

// Adds the command without these words.
fn put_short(out: &mut Bytes, look: &Look<'_>) -> Result<(), NoMemory> {
    put_front(out, look, b"FILE")?;
    out.append(b" ..`, with the words of this audit, ")?;
    out.append(look.shows)
}

// Adds the command with the words of the audit, where they can be typed as they are and stand in one line, and else without.
fn put_look(
    alloc: Global,
    out: &mut Bytes,
    look: &Look<'_>,
    words: &Words<'_>,
) -> Result<(), NoMemory> {
    let mut whole = empty(alloc);
    put_whole(&mut whole, look, words)?;
    if are_plain(words) && whole.as_slice().len() <= WIDTH {
        return out.append(whole.as_slice());
    }
    put_short(out, look)
}

// Whether a full expression of this frame is open.
fn is_open(open: &[Opened], frame: Frame) -> bool {
    open.iter().any(|opened| opened.frame == frame)
}

// Whether the object that is touched is known to have ended: an allocated one by what was done to it, an automatic one by its frame.
fn has_ended(case: &Case<'_, '_>, object: ObjName) -> bool {
    match object {
        ObjName::Auto { frame, .. } => !is_open(case.moment.open.as_slice(), frame),
        ObjName::Heap { .. } => case.trail.died.is_some(),
        _ => false,
    }
}

// The object that is touched, where it is known to have ended.
fn dead_place(case: &Case<'_, '_>) -> Option<ObjName> {
    let object = case.moment.place?.object?;
    if has_ended(case, object) {
        Some(object)
    } else {
        None
    }
}

// The object that the pointer there points to, where it is one that ends within a run.
fn dead_target(case: &Case<'_, '_>) -> Option<ObjName> {
    let object = case.moment.held?;
    match object {
        ObjName::Auto { .. } | ObjName::Heap { .. } => Some(object),
        _ => None,
    }
}

// The allocated object that the first argument of a call points to.
fn given(case: &Case<'_, '_>, call: &Act<'_>) -> Option<ObjName> {
    let number = operand_number(call.tree, call.event.node, 1);
    let Shown::Pointer(aim) = case.moment.value(number) else {
        return None;
    };
    let object = aim.object?;
    match object {
        ObjName::Heap { .. } => Some(object),
        _ => None,
    }
}

// The object whose life a finding is about.
fn ended_object(case: &Case<'_, '_>) -> Option<ObjName> {
    match case.found.verdict.clause()? {
        Clause::DeadObject => match dead_place(case) {
            Some(object) => Some(object),
            None => dead_target(case),
        },
        Clause::Free | Clause::Realloc => {
            let call = case.first?;
            given(case, &call)
        }
        _ => None,
    }
}

fn put_story(
    alloc: Global,
    out: &mut Bytes,
    case: &Case<'_, '_>,
    object: ObjName,
) -> Result<(), NoMemory> {
    let name = write_object(alloc, case.found.frames, &object)?;
    if name.as_slice().len() > LONGEST_NAME {
        return Ok(());
    }
    let look = Look {
        command: b"story",
        object: Some(name.as_slice()),
        shows: b"shows what the run does with the object.",
    };
    put_look(alloc, out, &look, &case.words)
}

const SWAP: Look<'static> = Look {
    command: b"swap",
    object: None,
    shows: b"shows how both orders end.",
};

/// Adds the command that looks further into the finding, where one does.
pub fn put_further(alloc: Global, out: &mut Bytes, case: &Case<'_, '_>) -> Result<(), NoMemory> {
    if let Verdict::OrderDependent = case.found.verdict {
        return put_look(alloc, out, &SWAP, &case.words);
    }
    match ended_object(case) {
        Some(object) => put_story(alloc, out, case, object),
        None => Ok(()),
    }
}
