// Lines as they were written, lined up with the lines that a preprocessor made of them.

use crate::page::{Page, part};
use crate::pieces::{Piece, count_of, piece_from, piece_of};
use explain_places::{line_end, line_start};
use ub_base::Bytes;

/// A file that a line marker names, with its text; an empty one, where it wasn't read.
#[derive(Drop)]
pub struct Written {
    pub name: Bytes,
    pub text: Bytes,
}

/// A line of the text, and the line that it was made of. So many of their pieces are alike in front and so many at the end.
#[derive(Clone, Copy)]
pub struct Lined<'t> {
    /// Where the line of the text begins.
    pub start: usize,
    pub made: &'t [u8],
    pub written: &'t [u8],
    front: usize,
    back: usize,
    made_count: usize,
    written_count: usize,
}

// Longer lines aren't lined up.
const LONGEST: usize = 1000;

fn same(made: &[u8], one: Piece, written: &[u8], other: Piece) -> bool {
    part(made, one.start, one.end) == part(written, other.start, other.end)
}

// How many pieces are alike in front.
fn front_of(made: &[u8], written: &[u8], most: usize) -> usize {
    let mut one = piece_from(made, 0);
    let mut other = piece_from(written, 0);
    for count in 0..most {
        if !same(made, one, written, other) {
            return count;
        }
        one = piece_from(made, one.end);
        other = piece_from(written, other.end);
    }
    most
}

// How many pieces are alike at the end, of at most so many.
fn back_of(lined: &Lined<'_>, most: usize) -> usize {
    for count in 0..most {
        let one = lined.made_count.saturating_sub(count).saturating_sub(1);
        let other = lined.written_count.saturating_sub(count).saturating_sub(1);
        let is_same = same(
            lined.made,
            piece_of(lined.made, one),
            lined.written,
            piece_of(lined.written, other),
        );
        if !is_same {
            return count;
        }
    }
    most
}

fn is_opening(byte: u8) -> bool {
    byte == b'(' || byte == b'[' || byte == b'{'
}

fn is_closing(byte: u8) -> bool {
    byte == b')' || byte == b']' || byte == b'}'
}

// Whether as many brackets open in these pieces as close.
fn is_balanced(line: &[u8], from: usize, to: usize) -> bool {
    let mut open = 0usize;
    let mut closed = 0usize;
    let mut piece = piece_of(line, from);
    for _turn in from..to {
        let first = match line.get(piece.start) {
            Some(byte) => *byte,
            None => b' ',
        };
        if is_opening(first) {
            open = open.saturating_add(1);
        } else if is_closing(first) {
            closed = closed.saturating_add(1);
        }
        piece = piece_from(line, piece.end);
    }
    open == closed
}

// So many pieces at the end that what isn't alike has whole brackets.
fn balanced_back(lined: &Lined<'_>, most: usize) -> usize {
    for less in 0..most {
        let back = most.saturating_sub(less);
        let made_end = lined.made_count.saturating_sub(back);
        let written_end = lined.written_count.saturating_sub(back);
        if is_balanced(lined.made, lined.front, made_end)
            && is_balanced(lined.written, lined.front, written_end)
        {
            return back;
        }
    }
    0
}

// The bytes from one piece up to another one; where there is none between them, the place before the second.
fn span(line: &[u8], from: usize, to: usize) -> Piece {
    let first = piece_of(line, from);
    if from >= to {
        return Piece {
            start: first.start,
            end: first.start,
        };
    }
    Piece {
        start: first.start,
        end: piece_of(line, to.saturating_sub(1)).end,
    }
}

fn line_up<'t>(start: usize, made: &'t [u8], written: &'t [u8]) -> Lined<'t> {
    let made_count = count_of(made);
    let written_count = count_of(written);
    let most = made_count.min(written_count);
    let front = front_of(made, written, most);
    let mut lined = Lined {
        start,
        made,
        written,
        front,
        back: 0,
        made_count,
        written_count,
    };
    let back = back_of(&lined, most.saturating_sub(front));
    lined.back = balanced_back(&lined, back);
    lined
}

impl<'t> Lined<'t> {
    /// What stands in the text only.
    pub fn made_alone(&self) -> Piece {
        let end = self.made_count.saturating_sub(self.back);
        span(self.made, self.front, end)
    }

    /// What stands in the written line only.
    pub fn written_alone(&self) -> Piece {
        let end = self.written_count.saturating_sub(self.back);
        span(self.written, self.front, end)
    }

    // Whether all pieces are alike.
    fn is_alike(&self) -> bool {
        self.front == self.made_count && self.front == self.written_count
    }

    fn written_alone_text(&self) -> &'t [u8] {
        let alone = self.written_alone();
        part(self.written, alone.start, alone.end)
    }

    // The piece of the written line that is alike to this one of the text.
    fn alike(&self, number: usize) -> Option<Piece> {
        if number < self.front {
            Some(piece_of(self.written, number))
        } else if number >= self.made_count.saturating_sub(self.back) {
            let behind = self.made_count.saturating_sub(number);
            Some(piece_of(self.written, self.written_count.saturating_sub(behind)))
        } else {
            None
        }
    }

    // The number of the first piece that ends behind this offset.
    fn number_at(&self, at: usize) -> usize {
        let mut piece = piece_from(self.made, 0);
        for number in 0..self.made_count {
            if at < piece.end {
                return number;
            }
            piece = piece_from(self.made, piece.end);
        }
        self.made_count
    }

    /// Where the byte at this offset of the text stands in the written line; none where it isn't alike there.
    pub fn begin_of(&self, at: usize) -> Option<usize> {
        let at = at.saturating_sub(self.start);
        let number = self.number_at(at);
        let within = at.saturating_sub(piece_of(self.made, number).start);
        match self.alike(number) {
            Some(piece) => Some(piece.start.saturating_add(within)),
            None if at == self.made_alone().start => Some(self.written_alone().start),
            None => None,
        }
    }

    /// The same for the end of what ends there.
    pub fn end_of(&self, at: usize) -> Option<usize> {
        let at = at.saturating_sub(self.start);
        let number = self.number_at(at.saturating_sub(1));
        let within = at.saturating_sub(piece_of(self.made, number).start);
        match self.alike(number) {
            Some(piece) => Some(piece.start.saturating_add(within)),
            None if at == self.made_alone().end => Some(self.written_alone().end),
            None => None,
        }
    }
}

// The line of this number, from 1, without its line feed.
fn numbered(text: &[u8], number: u32) -> Option<&[u8]> {
    let mut start = 0usize;
    for _turn in 1..number {
        let end = line_end(text, start);
        if end >= text.len() {
            return None;
        }
        start = end.saturating_add(1);
    }
    if start >= text.len() {
        return None;
    }
    Some(part(text, start, line_end(text, start)))
}

// The line of this number of the file of this name.
fn written_line<'t>(files: &'t [Written], name: &[u8], number: u32) -> Option<&'t [u8]> {
    for file in files {
        if file.name.as_slice() == name {
            return numbered(file.text.as_slice(), number);
        }
    }
    None
}

impl<'t, 'a> Page<'t, 'a> {
    /// The line of the text in which this offset stands, of this number, with the line that it was made of; none where that
    /// wasn't read, or differs otherwise than by a macro, as where the file has changed since.
    pub(crate) fn lined(&self, at: usize, line: u32) -> Option<Lined<'t>> {
        let written = written_line(self.written, self.file_at(at), line)?;
        let start = line_start(self.text, at);
        let made = part(self.text, start, line_end(self.text, at));
        if made.len() > LONGEST || written.len() > LONGEST {
            return None;
        }
        let lined = line_up(start, made, written);
        if lined.is_alike() || self.may_be_expanded(lined.written_alone_text()) {
            Some(lined)
        } else {
            None
        }
    }

    // Whether what stands in a written line only begins with the name of a macro: with a name that no token of the text has, since
    // each is expanded.
    fn may_be_expanded(&self, alone: &[u8]) -> bool {
        let piece = piece_from(alone, 0);
        let name = part(alone, piece.start, piece.end);
        let is_name = match name.first() {
            Some(first) => first.is_ascii_alphabetic() || *first == b'_',
            None => false,
        };
        is_name && !self.has_token(name)
    }

    fn has_token(&self, spelling: &[u8]) -> bool {
        for at in 0..self.tokens.len() {
            if self.spelling(at) == spelling {
                return true;
            }
        }
        false
    }
}
