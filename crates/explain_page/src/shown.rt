// Bytes as they are shown.
ghost use Rattle.std.specs.Prelude.{◌≡◌, ◌++◌, ◌<◌, ◌^◌, decimal, replicate, OnOk};
ghost use Rattle.explain_page.specs.Columns.{column_behind};

use itoa::Buffer;
use ub_base::{Bytes, NoMemory};

/// Adds a number in decimal.
pub fn put_number(out: &mut Bytes, number: u64) -> Result<(), NoMemory>
    ensures { OnOk result (out.new ≡ out.old ++ decimal number) }
{
    let mut digits = Buffer::new();
    out.append(digits.format(number).as_bytes())
}

/// Adds a byte so many times.
pub fn put_times(out: &mut Bytes, byte: u8, times: usize) -> Result<(), NoMemory>
    ensures { OnOk result (out.new ≡ out.old ++ replicate times byte) }
{
    for _turn in 0..times {
        out.push(byte)?;
    }
    Ok(())
}

/// The column behind a byte at this column, from 0; tabs go to multiples of 8.
pub fn column_behind(column: usize, byte: u8) -> usize
    ensures { column < 2 ^ 62 → result ≡ column_behind column byte }
{
    if byte == b'\t' {
        (column / 8).saturating_add(1).saturating_mul(8)
    } else {
        column.saturating_add(1)
    }
}

/// How many columns the bytes take.
pub fn width_of(bytes: &[u8]) -> usize {
    let mut column = 0usize;
    for byte in bytes {
        column = column_behind(column, *byte);
    }
    column
}

// A byte that can be shown.
fn shown(byte: u8) -> u8 {
    if byte >= b' ' && byte < 127 {
        byte
    } else {
        b'?'
    }
}

fn put_shown_byte(out: &mut Bytes, byte: u8, columns: usize) -> Result<(), NoMemory> {
    if byte == b'\t' {
        put_times(out, b' ', columns)
    } else {
        out.push(shown(byte))
    }
}

/// Adds a line with its tabs opened; bytes that aren't ASCII are question marks.
pub fn put_shown(out: &mut Bytes, line: &[u8]) -> Result<(), NoMemory> {
    let mut column = 0usize;
    for byte in line {
        let next = column_behind(column, *byte);
        put_shown_byte(out, *byte, next.saturating_sub(column))?;
        column = next;
    }
    Ok(())
}

const EXCERPT: usize = 60;

fn is_space(byte: u8) -> bool {
    byte == b' ' || byte == b'\t' || byte == b'\n' || byte == b'\r'
}

// The byte that an excerpt has for this one; none for a blank behind a blank.
fn excerpted(byte: u8, behind_space: bool) -> Option<u8> {
    if !is_space(byte) {
        Some(shown(byte))
    } else if behind_space {
        None
    } else {
        Some(b' ')
    }
}

/// Adds a part of the text in one line, at most 60 bytes of it.
pub fn put_excerpt(out: &mut Bytes, part: &[u8]) -> Result<(), NoMemory> {
    let mut behind_space = true;
    let (front, _) = part.split_at(EXCERPT.min(part.len()));
    for byte in front {
        if let Some(byte) = excerpted(*byte, behind_space) {
            out.push(byte)?;
        }
        behind_space = is_space(*byte);
    }
    if part.len() > EXCERPT {
        out.append(b"..")?;
    }
    Ok(())
}
