// Lines that define macros.
ghost use Rattle.std.specs.Prelude.{◌≤◌, length};

use crate::places::line_end;

fn is_name_byte(byte: u8) -> bool {
    byte.is_ascii_alphanumeric() || byte == b'_'
}

// How many bytes of a name stand in front.
fn name_len(text: &[u8]) -> usize
    ensures { result ≤ length text.now }
{
    match text.iter().position(|byte| !is_name_byte(*byte)) {
        Some(len) => len.min(text.len()),
        None => text.len(),
    }
}

fn is_blank(byte: u8) -> bool {
    byte == b' ' || byte == b'\t'
}

fn skip_blanks(text: &[u8]) -> &[u8] {
    let len = match text.iter().position(|byte| !is_blank(*byte)) {
        Some(len) => len.min(text.len()),
        None => text.len(),
    };
    let (_, behind) = text.split_at(len);
    behind
}

// The word at the front, and what stands behind it and blanks.
fn first_word(text: &[u8]) -> (&[u8], &[u8]) {
    let (word, behind) = text.split_at(name_len(text));
    (word, skip_blanks(behind))
}

// What a line says of a name.
#[derive(Clone, Copy)]
enum Said {
    /// It defines the name, which stands so many bytes behind the line's beginning.
    Defined(usize),
    Undefined,
    Nothing,
}

fn said_of(line: &[u8], name: &[u8]) -> Said {
    let Some(directive) = skip_blanks(line).strip_prefix(b"#") else {
        return Said::Nothing;
    };
    let (word, behind) = first_word(skip_blanks(directive));
    let (macro_name, _) = first_word(behind);
    if macro_name != name {
        Said::Nothing
    } else if word == "define".as_bytes() {
        Said::Defined(line.len().saturating_sub(behind.len()))
    } else if word == "undef".as_bytes() {
        Said::Undefined
    } else {
        Said::Nothing
    }
}

// The bytes from `start` up to but without `end`, as far as they are there.
fn part(text: &[u8], start: usize, end: usize) -> &[u8] {
    let (front, _) = text.split_at(end.min(text.len()));
    let (_, behind) = front.split_at(start.min(front.len()));
    behind
}

/// Where this name stands in the line that defines it as a macro, of the lines before this offset; none where none does, or the
/// last one that names it takes its definition back.
pub fn definition_before(text: &[u8], name: &[u8], before: usize) -> Option<usize> {
    let mut found = None;
    let mut start = 0usize;
    for _turn in 0..text.len() {
        if start >= before {
            return found;
        }
        let end = line_end(text, start);
        match said_of(part(text, start, end), name) {
            Said::Defined(at) => found = Some(start.saturating_add(at)),
            Said::Undefined => found = None,
            Said::Nothing => {}
        }
        start = end.saturating_add(1);
    }
    found
}
