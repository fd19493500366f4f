// Lines, columns and files.

/// The part of a text from `start` up to but without `end`.
#[derive(Clone, Copy, PartialEq, Eq)]
pub struct FileName {
    pub start: usize,
    pub end: usize,
}

/// Where the line of this offset begins.
pub fn line_start(text: &[u8], at: usize) -> usize {
    let (before, _) = text.split_at(at.min(text.len()));
    let mut start = 0usize;
    for (i, byte) in before.iter().enumerate() {
        if *byte == b'\n' {
            start = i.saturating_add(1);
        }
    }
    start
}

/// Where the line of this offset ends: the offset of its line feed, or the end of the text.
pub fn line_end(text: &[u8], at: usize) -> usize {
    let from = at.min(text.len());
    let (_, behind) = text.split_at(from);
    for (i, byte) in behind.iter().enumerate() {
        if *byte == b'\n' {
            return from.saturating_add(i);
        }
    }
    text.len()
}

/// The column of this offset, in bytes from 1; a tab is one.
pub fn column_of(text: &[u8], at: usize) -> usize {
    at.saturating_sub(line_start(text, at)).saturating_add(1)
}

// What was read of a line that may be a line marker.
#[derive(Clone, Copy)]
enum Marker {
    // Only blanks so far.
    Fresh,
    // A number sign, and what may stand before the name.
    Sign,
    // The name, which begins there.
    Name(usize),
    // No marker, or all of it.
    Passed,
}

// A blank, a digit, or a letter of the word `line`.
fn is_before_name(byte: u8) -> bool {
    matches!(byte, b' ' | b'\t' | b'l' | b'i' | b'n' | b'e') || byte.is_ascii_digit()
}

// One byte more of the line.
fn marker_after(marker: Marker, at: usize, byte: u8) -> Marker {
    match marker {
        Marker::Fresh => match byte {
            b'#' => Marker::Sign,
            b' ' | b'\t' => Marker::Fresh,
            _ => Marker::Passed,
        },
        Marker::Sign => {
            if byte == b'"' {
                Marker::Name(at.saturating_add(1))
            } else if is_before_name(byte) {
                Marker::Sign
            } else {
                Marker::Passed
            }
        }
        Marker::Name(start) => {
            if byte == b'"' {
                Marker::Passed
            } else {
                Marker::Name(start)
            }
        }
        Marker::Passed => Marker::Passed,
    }
}

// The name that ends at this byte.
fn name_at(marker: Marker, at: usize, byte: u8) -> Option<FileName> {
    match marker {
        Marker::Name(start) if byte == b'"' => Some(FileName { start, end: at }),
        _ => None,
    }
}

/// The name in the last line marker before this offset, if there is one.
pub fn file_of(text: &[u8], at: usize) -> Option<FileName> {
    let (before, _) = text.split_at(at.min(text.len()));
    let mut marker = Marker::Fresh;
    let mut name = None;
    for (i, byte) in before.iter().enumerate() {
        name = name_at(marker, i, *byte).or(name);
        marker = if *byte == b'\n' {
            Marker::Fresh
        } else {
            marker_after(marker, i, *byte)
        };
    }
    name
}

/// The first name in a line marker from this offset on, which is the beginning of a line or stands behind such a name.
pub fn next_file(text: &[u8], from: usize) -> Option<FileName> {
    let from = from.min(text.len());
    let (_, behind) = text.split_at(from);
    let mut marker = Marker::Fresh;
    for (i, byte) in behind.iter().enumerate() {
        let at = from.saturating_add(i);
        if let Some(name) = name_at(marker, at, *byte) {
            return Some(name);
        }
        marker = if *byte == b'\n' {
            Marker::Fresh
        } else {
            marker_after(marker, at, *byte)
        };
    }
    None
}

// What was read of a line that may be a line marker, up to its number.
#[derive(Clone, Copy)]
enum Numbering {
    // Only blanks so far.
    Fresh,
    // A number sign, and what may stand before the number.
    Sign,
    // The digits so far.
    Number(u32),
    // All of the number.
    Numbered(u32),
    Other,
}

fn digit_of(byte: u8) -> u32 {
    u32::from(byte.saturating_sub(b'0'))
}

// One byte more of the line.
fn numbering_after(numbering: Numbering, byte: u8) -> Numbering {
    match numbering {
        Numbering::Fresh => match byte {
            b'#' => Numbering::Sign,
            b' ' | b'\t' => Numbering::Fresh,
            _ => Numbering::Other,
        },
        Numbering::Sign if byte.is_ascii_digit() => Numbering::Number(digit_of(byte)),
        Numbering::Sign if is_before_name(byte) => Numbering::Sign,
        Numbering::Sign => Numbering::Other,
        Numbering::Number(number) if byte.is_ascii_digit() => {
            Numbering::Number(number.saturating_mul(10).saturating_add(digit_of(byte)))
        }
        Numbering::Number(number) | Numbering::Numbered(number) => Numbering::Numbered(number),
        Numbering::Other => Numbering::Other,
    }
}

/// The number of the line of this offset, as line markers number the lines.
pub fn line_number(text: &[u8], at: usize) -> u32 {
    let (before, _) = text.split_at(line_start(text, at).min(text.len()));
    let mut numbering = Numbering::Fresh;
    let mut line = 1u32;
    for byte in before {
        if *byte == b'\n' {
            line = match numbering {
                Numbering::Number(number) | Numbering::Numbered(number) => number,
                _ => line.saturating_add(1),
            };
            numbering = Numbering::Fresh;
        } else {
            numbering = numbering_after(numbering, *byte);
        }
    }
    line
}
