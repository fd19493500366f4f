// A text with its tokens, and the places in it.
ghost use Rattle.std.specs.Prelude.{◌≡◌, drop, take};

use crate::shown::put_number;
use crate::written::Written;
use c_lex::Tokens;
use explain_places::{Extent, FileName, column_of, file_of};
use std::alloc::Global;
use ub_base::{Bytes, NoMemory};

/// A text, the name that it was asked for by, and its tokens, or those of a front of it.
#[derive(Clone, Copy)]
pub struct Page<'t, 'a> {
    pub text: &'t [u8],
    pub file: &'t [u8],
    pub tokens: &'t Tokens<'a>,
    /// Where the structures and unions are named, in the order of their numbers.
    pub tags: &'t [u32],
    /// The files that the text was made of, as far as they were read.
    pub written: &'t [Written],
}

/// A stretch of the text: from `start` up to but without `end`, its operator, and the line that it begins on, as the line
/// markers number the lines.
#[derive(Clone, Copy, PartialEq, Eq)]
pub struct Stretch {
    pub start: usize,
    pub end: usize,
    pub operator: usize,
    pub operator_end: usize,
    pub line: u32,
}

/// The bytes from `start` up to but without `end`, as far as they are there.
pub fn part(text: &[u8], start: usize, end: usize) -> &[u8]
    ensures { result.now ≡ drop start (take end text.now) }
{
    let (front, _) = text.split_at(end.min(text.len()));
    let (_, behind) = front.split_at(start.min(front.len()));
    behind
}

impl<'t, 'a> Page<'t, 'a> {
    /// Where the token begins; behind the last one, the end of that one.
    pub fn start(&self, token: u32) -> usize {
        match self.tokens.get(token) {
            Some(found) => found.start as usize,
            None => self.end(self.tokens.len().saturating_sub(1)),
        }
    }

    /// Where the token ends.
    pub fn end(&self, token: u32) -> usize {
        match self.tokens.get(token) {
            Some(found) => found.end as usize,
            None => 0,
        }
    }

    /// The line of the token; behind the last one, the line of that one.
    pub fn line(&self, token: u32) -> u32 {
        match self.tokens.line(token) {
            Some(line) => line,
            None => self
                .tokens
                .line(self.tokens.len().saturating_sub(1))
                .unwrap_or(1),
        }
    }

    /// The bytes of the tokens.
    pub fn stretch(&self, extent: Extent) -> Stretch {
        Stretch {
            start: self.start(extent.first),
            end: self.end(extent.last),
            operator: self.start(extent.operator),
            operator_end: self.end(extent.operator),
            line: self.line(extent.first),
        }
    }

    /// How the token is spelled; nothing behind the last one.
    pub fn spelling(&self, token: u32) -> &'t [u8] {
        part(self.text, self.start(token), self.end(token))
    }

    /// The name of the file in which this offset stands.
    pub fn file_at(&self, at: usize) -> &'t [u8] {
        match file_of(self.text, at) {
            Some(FileName { start, end }) => part(self.text, start, end),
            None => self.file,
        }
    }

    /// The column of this offset, on this line: that in the written line, where it is known; of what a macro expands to, that of
    /// the macro.
    pub fn column(&self, at: usize, line: u32) -> usize {
        match self.lined(at, line) {
            Some(lined) => {
                let start = match lined.begin_of(at) {
                    Some(start) => start,
                    None => lined.written_alone().start,
                };
                start.saturating_add(1)
            }
            None => column_of(self.text, at),
        }
    }

    /// The column of the end of what stands on this line, one behind its last byte.
    pub fn end_column(&self, end: usize, line: u32) -> usize {
        match self.lined(end, line) {
            Some(lined) => {
                let end = match lined.end_of(end) {
                    Some(end) => end,
                    None => lined.written_alone().end,
                };
                end.saturating_add(1)
            }
            None => column_of(self.text, end),
        }
    }

    /// Adds `FILE:LINE:COLUMN` of an offset on this line.
    pub fn put_place(&self, out: &mut Bytes, at: usize, line: u32) -> Result<(), NoMemory> {
        out.append(self.file_at(at))?;
        out.push(b':')?;
        put_number(out, u64::from(line))?;
        out.push(b':')?;
        put_number(out, self.column(at, line) as u64)
    }

    /// Adds `FILE:LINE:COLUMN` of a token.
    pub fn put_token_place(&self, out: &mut Bytes, token: u32) -> Result<(), NoMemory> {
        self.put_place(out, self.start(token), self.line(token))
    }

    /// The bytes from `start` up to but without `end`.
    pub fn between(&self, start: usize, end: usize) -> &'t [u8] {
        part(self.text, start, end)
    }
}

/// No bytes.
pub fn empty(alloc: Global) -> Bytes {
    Bytes::from_vec(Vec::new(alloc))
}
