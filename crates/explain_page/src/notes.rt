// Notes.
ghost use Rattle.std.specs.Prelude.{◌≡◌, ◌++◌, ◌∷◌, [], ◌-◌, length, replicate, codes, OnOk};

use crate::shown::put_times;
use ub_base::{Bytes, NoMemory};

const WIDTH: usize = 118;

const INDENT: usize = 10;

// Adds the name of a note, up to the column where its text begins.
fn put_name(out: &mut Bytes, name: &[u8]) -> Result<(), NoMemory>
    ensures { OnOk result (out.new ≡ ((out.old ++ codes "  ") ++ name.now) ++ replicate (8 - length name.now) 32) }
{
    out.append(b"  ")?;
    out.append(name)?;
    put_times(out, b' ', 8usize.saturating_sub(name.len()))
}

/// Adds a note in one line.
pub fn put_note(out: &mut Bytes, name: &[u8], text: &[u8]) -> Result<(), NoMemory>
    ensures { OnOk result (out.new ≡ ((((out.old ++ codes "  ") ++ name.now) ++ replicate (8 - length name.now) 32) ++ text.now) ++ 10 ∷ []) }
{
    put_name(out, name)?;
    out.append(text)?;
    out.push(b'\n')
}

// How many bytes stand up to the next blank.
fn word_len(text: &[u8]) -> usize {
    for (i, byte) in text.iter().enumerate() {
        if *byte == b' ' {
            return i;
        }
    }
    text.len()
}

// What stands at this byte of a text: the byte, or in place of a blank, where the word behind it passes the width, a line feed
// and an indent. The column behind it is the answer.
fn put_wrapped(out: &mut Bytes, byte: u8, behind: &[u8], column: usize) -> Result<usize, NoMemory> {
    let reached = column.saturating_add(1).saturating_add(word_len(behind));
    if byte == b' ' && reached > WIDTH {
        out.push(b'\n')?;
        put_times(out, b' ', INDENT)?;
        return Ok(INDENT);
    }
    out.push(byte)?;
    Ok(column.saturating_add(1))
}

/// Adds a note whose text is wrapped at column 118.
pub fn put_long_note(out: &mut Bytes, name: &[u8], text: &[u8]) -> Result<(), NoMemory> {
    put_name(out, name)?;
    let mut column = INDENT;
    let mut rest = text;
    for _ in 0..text.len() {
        let Some((byte, behind)) = rest.split_first() else {
            break;
        };
        column = put_wrapped(out, *byte, behind, column)?;
        rest = behind;
    }
    out.push(b'\n')
}
