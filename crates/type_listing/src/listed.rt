// What the list of an initializer names (6.7.9).

use crate::cursor::Choice;
use c_typed::Content;
use c_types::Ty;
use std::alloc::Global;
use type_operands::Operand;
use ub_base::NoMemory;

/// What initializes a part: an expression, or bytes that are known now.
#[derive(Drop)]
pub enum Given {
    Value(Operand),
    Content(Content),
}

/// A part that the list names, in the order of the text: its offset, its type, how many bytes it has, its line, and what
/// initializes it.
#[derive(Drop)]
pub struct Listed {
    pub offset: u64,
    pub size: u64,
    pub ty: Ty,
    pub line: u32,
    pub given: Given,
}

/// A part that braces or a string give as a whole, where parts before it in the text reach behind its start: its bytes, and
/// how many parts stand before it in the text.
#[derive(Clone, Copy)]
pub struct Whole {
    pub start: u64,
    pub end: u64,
    pub before: u64,
}

/// All that a list names, and which members of unions. `fixed` says that the object has static storage: each value is then
/// constant (6.7.9p4). `furthest` is where the part ends that reaches furthest.
#[derive(Drop)]
pub struct Listing {
    pub parts: Vec<Listed>,
    pub choices: Vec<Choice>,
    pub wholes: Vec<Whole>,
    pub fixed: bool,
    pub furthest: u64,
}

impl Listing {
    /// Nothing yet.
    pub fn new(alloc: Global, fixed: bool) -> Listing {
        Listing {
            parts: Vec::new(alloc),
            choices: Vec::new(alloc),
            wholes: Vec::new(alloc),
            fixed,
            furthest: 0,
        }
    }

    /// Adds a part.
    pub fn add(&mut self, part: Listed) -> Result<(), NoMemory> {
        self.furthest = self.furthest.max(part.offset.saturating_add(part.size));
        self.parts.push(part)?;
        Ok(())
    }

    /// Notes that braces or a string give a part of so many bytes as a whole.
    pub fn note_whole(&mut self, offset: u64, size: u64) -> Result<(), NoMemory> {
        if offset < self.furthest {
            self.wholes.push(Whole {
                start: offset,
                end: offset.saturating_add(size),
                before: self.parts.len() as u64,
            })?;
        }
        Ok(())
    }
}
