// The pieces of a line: words, literals, and single bytes.

/// A part of a line from `start` up to but without `end`.
#[derive(Clone, Copy, PartialEq, Eq)]
pub struct Piece {
    pub start: usize,
    pub end: usize,
}

fn is_word_byte(byte: u8) -> bool {
    byte.is_ascii_alphanumeric() || byte == b'_'
}

fn is_blank(byte: u8) -> bool {
    byte == b' ' || byte == b'\t' || byte == b'\r'
}

// The byte at this offset; a line feed behind the end.
fn byte_at(line: &[u8], at: usize) -> u8 {
    match line.get(at) {
        Some(byte) => *byte,
        None => b'\n',
    }
}

// Where the word ends that is entered at this offset.
fn word_end(line: &[u8], from: usize) -> usize {
    for at in from..line.len() {
        if !is_word_byte(byte_at(line, at)) {
            return at;
        }
    }
    line.len()
}

// Where the literal ends whose quote stands at this offset; the end of the line, where it isn't closed.
fn literal_end(line: &[u8], from: usize) -> usize {
    let quote = byte_at(line, from);
    let mut is_escaped = false;
    for at in from.saturating_add(1)..line.len() {
        let byte = byte_at(line, at);
        if byte == quote && !is_escaped {
            return at.saturating_add(1);
        }
        is_escaped = byte == b'\\' && !is_escaped;
    }
    line.len()
}

// Where the comment ends that begins at this offset; the end of the line, where it isn't closed.
fn comment_end(line: &[u8], from: usize) -> usize {
    for at in from.saturating_add(2)..line.len() {
        if byte_at(line, at) == b'*' && byte_at(line, at.saturating_add(1)) == b'/' {
            return at.saturating_add(2);
        }
    }
    line.len()
}

fn begins_comment(line: &[u8], at: usize, second: u8) -> bool {
    byte_at(line, at) == b'/' && byte_at(line, at.saturating_add(1)) == second
}

// Where the blank or comment at this offset ends; none where neither stands there.
fn space_end(line: &[u8], at: usize) -> Option<usize> {
    if is_blank(byte_at(line, at)) {
        Some(at.saturating_add(1))
    } else if begins_comment(line, at, b'*') {
        Some(comment_end(line, at))
    } else if begins_comment(line, at, b'/') {
        Some(line.len())
    } else {
        None
    }
}

// The first offset from this one on that stands in no blanks and no comment.
fn skip_space(line: &[u8], from: usize) -> usize {
    let mut at = from;
    for _turn in 0..line.len() {
        match space_end(line, at) {
            Some(end) => at = end,
            None => return at,
        }
    }
    at
}

/// The first piece from this offset on; an empty one at the end of the line.
pub fn piece_from(line: &[u8], from: usize) -> Piece {
    let start = skip_space(line, from).min(line.len());
    let first = byte_at(line, start);
    let end = if is_word_byte(first) {
        word_end(line, start)
    } else if first == b'"' || first == b'\'' {
        literal_end(line, start)
    } else {
        start.saturating_add(1)
    };
    Piece {
        start,
        end: end.min(line.len()),
    }
}

/// How many pieces the line has.
pub fn count_of(line: &[u8]) -> usize {
    let mut at = 0usize;
    let mut count = 0usize;
    for _turn in 0..line.len() {
        let piece = piece_from(line, at);
        if piece.start >= piece.end {
            return count;
        }
        count = count.saturating_add(1);
        at = piece.end;
    }
    count
}

/// The piece of this number; an empty one at the end of the line, where there are fewer.
pub fn piece_of(line: &[u8], number: usize) -> Piece {
    let mut piece = piece_from(line, 0);
    for _turn in 0..number.min(line.len()) {
        piece = piece_from(line, piece.end);
    }
    piece
}
