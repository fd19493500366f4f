// The bytes of a value.
ghost use Rattle.std.specs.Prelude.{◌≡◌, ◌==◌, ◌++◌, ◌∷◌, [], None, length, take, drop, IfOk, OnOk, OnErr};
ghost use Rattle.mem_objects.specs.Cells.{cell_of, byte_of, cell_at, part_of};

use crate::MemByte;
use crate::cell::Cell;
use std::alloc::Global;
use std::marker::Model;
use ub_base::NoMemory;

/// The bytes of a value with their tags and, where they were loaded from a place, its address.
#[derive(Drop)]
pub struct Block {
    cells: Vec<Cell>,
    source: Option<u64>,
}

impl Model for Block {
    ghost use Rattle.mem_objects.specs.Cells.{Loaded};

    ghost Value = { Loaded };

    ghost view = { λ b. record { cells = b.cells.items; source = b.source } };
}

impl Block {
    /// No bytes.
    pub fn new(alloc: Global) -> Block
        ensures { result ≡ record { cells = []; source = None } }
    {
        Block {
            cells: Vec::new(alloc),
            source: None,
        }
    }

    /// These bytes.
    pub fn of_cells(cells: Vec<Cell>, source: Option<u64>) -> Block
        ensures { result ≡ record { cells = cells.items; source = source } }
    {
        Block { cells, source }
    }

    /// Adds a byte without a tag at the end.
    pub fn push(&mut self, byte: MemByte) -> Result<(), NoMemory>
        ensures ok { OnOk result (self.new ≡ record self.old { cells = self.old.cells ++ cell_of byte ∷ [] }) }
        ensures err { OnErr result (self.new ≡ self.old) }
    {
        self.cells.push(Cell::of(byte))?;
        Ok(())
    }

    /// The `len` bytes from `from` on, or those of them that are there.
    pub fn part(&self, alloc: Global, from: u64, len: u64) -> Result<Block, NoMemory>
        ensures { IfOk result (λ b. b ≡ part_of self.now from len) }
    {
        let cells = Vec::from_slice(alloc, self.range(from, len))?;
        let source = match self.source {
            None => None,
            Some(addr) => Some(addr.wrapping_add(from)),
        };
        Ok(Block { cells, source })
    }

    /// A copy.
    pub fn copied(&self, alloc: Global) -> Result<Block, NoMemory>
        ensures { IfOk result (λ b. b ≡ self.now) }
    {
        Ok(Block {
            cells: Vec::from_slice(alloc, self.cells.as_slice())?,
            source: self.source,
        })
    }

    pub fn len(&self) -> u64
        ensures { result ≡ length self.now.cells }
    {
        self.cells.len() as u64
    }

    pub fn is_empty(&self) -> bool
        ensures { result ≡ (length self.now.cells == 0) }
    {
        self.cells.is_empty()
    }

    /// The byte at the place, unwritten past the end.
    pub fn byte(&self, at: u64) -> MemByte
        ensures { result ≡ byte_of (cell_at self.now.cells at) }
    {
        match self.cells.get(at as usize) {
            None => MemByte::Unwritten,
            Some(cell) => cell.byte(),
        }
    }

    /// The address that the bytes were loaded from.
    pub fn source(&self) -> Option<u64>
        ensures { result ≡ self.now.source }
    {
        self.source
    }

    /// Forgets that address.
    pub fn unplace(&mut self)
        ensures { self.new ≡ record self.old { source = None } }
    {
        self.source = None;
    }

    pub fn cells(&self) -> &[Cell]
        ensures { result.now ≡ self.now.cells }
    {
        self.cells.as_slice()
    }

    /// The `len` bytes from `from` on, or those of them that are there.
    pub fn range(&self, from: u64, len: u64) -> &[Cell]
        ensures { result.now ≡ take len (drop from self.now.cells) }
    {
        let end = self.cells.len();
        let start = (from as usize).min(end);
        let stop = (from.saturating_add(len) as usize).min(end);
        &self.cells[start..stop]
    }
}
