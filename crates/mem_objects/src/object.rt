// Objects.
ghost use Rattle.std.specs.Prelude.{◌≡◌, ℕ, ◌+◌, ◌^◌, ◌≤◌, ◌+ℤ◌, ◌&&◌, [], pos, int_le, max, length, true, false, option_map, vec_len, vec_capacity};
ghost use Rattle.mem_objects.specs.Cells.{byte_of, cell_at, cell_left, cell_put};

use crate::cell::{Cell, cell_at};
use crate::{MemByte, Origin, TypeId, Via};
use c_types::Shape;
use mem_spec::ObjKind;
use std::alloc::Global;
use std::marker::Model;
use std::rc::Rc;
use ub_base::ObjName;

/// An object's life and exposure.
#[derive(Clone, Copy, PartialEq, Eq)]
pub struct ObjState {
    pub live: bool,
    pub exposed: bool,
    pub kind: ObjKind,
}

/// An object that was created. `cells` are its bytes up to the last that was ever written, those behind are unwritten. So a
/// fresh object costs no writing, and a store costs at most one write for each byte up to its end that was never reached
/// before.
#[derive(Drop)]
pub struct Object {
    pub(crate) name: ObjName,
    base: u64,
    size: u64,
    state: ObjState,
    declared: Option<Rc<Shape>>,
    origin: Origin,
    cells: Vec<Cell>,
}

impl Model for Object {
    ghost use Rattle.std.specs.Coded.{codes};
    ghost use Rattle.c_types.specs.contracts.shape.Shape as shape;
    ghost use Rattle.std.specs.Prelude.{◌≡◌, ◌≤◌, ◌+◌, ◌^◌, true, option_map, vec_len, vec_capacity};
    ghost use Rattle.mem_objects.specs.Held.{Held};

    ghost Value = { Held };

    ghost coded = { Prim.hlevel (codes, shape.the_row.coded) };

    ghost view = { λ o. record {
      name = o.name;
      base = o.base;
      size = o.size;
      state = o.state;
      declared = option_map (λ shape. shape.value) o.declared;
      origin = o.origin;
      cells = o.cells.items;
    } };

    ghost invariant = { λ o. (o.base + o.size ≤ 2 ^ 47) × (vec_len o.cells ≤ o.size) × (o.state.live ≡ true → o.size ≤ vec_capacity o.cells) };
}

impl Object {
    ghost use Rattle.mem_objects.specs.Held.{Fits, IsWritten, has_range, is_near, emptied, killed, uncovered};

    /// A live object, unexposed and unwritten, with room for its bytes.
    pub fn new(
        name: ObjName,
        base: u64,
        size: u64,
        kind: ObjKind,
        declared: Option<Rc<Shape>>,
        origin: Origin,
        room: Vec<Cell>,
    ) -> Object
        requires end { base + size ≤ 2 ^ 47 }
        requires room { size ≤ vec_capacity room }
        requires empty { room.items ≡ [] }
        ensures { result ≡ record {
          name = name;
          base = base;
          size = size;
          state = record { live = true; exposed = false; kind = kind };
          declared = option_map (λ shape. shape.value) declared;
          origin = origin;
          cells = [];
        } }
    {
        Object {
            name,
            base,
            size,
            state: ObjState {
                live: true,
                exposed: false,
                kind,
            },
            declared,
            origin,
            cells: room,
        }
    }

    /// Where it begins.
    #[inline(always)]
    pub fn base(&self) -> u64
        ensures { result ≡ self.now.base }
    {
        self.base
    }

    /// How many bytes it has.
    #[inline(always)]
    pub fn size(&self) -> u64
        ensures { result ≡ self.now.size }
    {
        self.size
    }

    /// Its life and exposure.
    #[inline(always)]
    pub fn state(&self) -> ObjState
        ensures { result ≡ self.now.state }
    {
        self.state
    }

    /// The shape of its declared type, if any.
    #[inline(always)]
    pub fn declared(&self) -> &Option<Rc<Shape>>
        ensures { option_map (λ shape. shape.value) result.now ≡ self.now.declared }
    {
        &self.declared
    }

    /// The number of its provenance.
    #[inline(always)]
    pub fn origin(&self) -> Origin
        ensures { result ≡ self.now.origin }
    {
        self.origin
    }

    /// The byte at the place.
    pub fn byte(&self, at: u64) -> MemByte
        ensures { result ≡ byte_of (cell_at self.now.cells at) }
    {
        match self.cells.get(at as usize) {
            None => MemByte::Unwritten,
            Some(cell) => cell.byte(),
        }
    }

    /// The byte at the place with its tag.
    pub fn cell(&self, at: u64) -> Cell
        ensures { result ≡ cell_at self.now.cells at }
    {
        cell_at(self.cells(), at)
    }

    /// The bytes up to the last that was ever written.
    pub fn cells(&self) -> &[Cell]
        ensures { result.now ≡ self.now.cells }
    {
        self.cells.as_slice()
    }

    /// Whether the range lies in the object.
    #[inline(always)]
    pub fn has_range(&self, addr: u64, len: u64) -> bool
        ensures { result ≡ has_range self.now addr len }
    {
        self.base <= addr && len <= self.size && addr - self.base <= self.size - len
    }

    /// Whether the address lies in the object or one past it once it has moved.
    pub fn is_near(&self, addr: u64, by: i128) -> bool
        ensures { result ≡ is_near self.now (pos addr +ℤ by) }
    {
        is_within(self.base, self.size, addr, by)
    }

    /// All bytes become unwritten.
    pub fn unwrite(&mut self)
        ensures { self.new ≡ emptied self.old }
    {
        self.cells.clear();
    }

    /// The object dies, and its bytes are dropped.
    pub fn die(&mut self, alloc: Global)
        ensures { self.new ≡ killed self.old }
    {
        self.state.live = false;
        self.cells = Vec::new(alloc);
    }

    /// The object becomes exposed.
    pub fn expose(&mut self)
        ensures { self.new ≡ uncovered self.old }
    {
        self.state.exposed = true;
    }

    /// Writes a range of a live object.
    pub fn write(&mut self, from: u64, via: Via, cells: &[Cell])
        requires live { self.old.state.live ≡ true }
        requires range { from + length cells.now ≤ self.old.size }
        ensures fits { Fits self.new }
        ensures written { IsWritten self.old self.new from via cells.now }
    {
        let is_declared = self.declared.is_some();
        let start = from as usize;
        reach(&mut self.cells, start + cells.len());
        put_cells(&mut self.cells, start, is_declared, via, cells);
    }
}

/// Whether the address lies in a range or one past it once it has moved.
pub fn is_within(base: u64, size: u64, addr: u64, by: i128) -> bool
    ensures { result ≡ (int_le (pos base) (pos addr +ℤ by) && int_le (pos addr +ℤ by) (pos (base + size))) }
{
    let start = i128::from(base) - i128::from(addr);
    start <= by && by <= start + i128::from(size)
}

/// Bytes that were never reached before `end` count as unwritten ones from now on.
fn reach(cells: &mut Vec<Cell>, end: usize)
    requires { end ≤ vec_capacity cells.old }
    ensures len { vec_len cells.new ≡ max (vec_len cells.old) end }
    ensures capacity { vec_capacity cells.old ≤ vec_capacity cells.new }
    ensures bytes { (at : ℕ) → cell_at cells.new.items at ≡ cell_at cells.old.items at }
{
    if cells.len() < end {
        let _ = cells.resize(end, Cell::UNWRITTEN);
    }
}

/// The cell that a store by `via` leaves: in an object without declared type a scalar that is no character leaves its
/// tag, a whole keeps its tags, and all else leaves none.
fn kept_cell(is_declared: bool, via: Via, cell: Cell, index: u8) -> Cell
    ensures { result ≡ cell_left is_declared via index cell }
{
    if is_declared {
        return cell.tagged(TypeId::NONE, 0);
    }
    match via {
        Via::Whole => cell,
        Via::Scalar(ty) => {
            if ty.is_character() {
                cell.tagged(TypeId::NONE, 0)
            } else {
                cell.tagged(ty, index)
            }
        }
        Via::Bytes => cell.tagged(TypeId::NONE, 0),
    }
}

/// Puts the cells that a store leaves.
fn put_cells(to: &mut Vec<Cell>, start: usize, is_declared: bool, via: Via, cells: &[Cell])
    requires { start + length cells.now ≤ vec_len to.old }
    ensures len { vec_len to.new ≡ vec_len to.old }
    ensures capacity { vec_capacity to.old ≤ vec_capacity to.new }
    ensures bytes { (at : ℕ) → cell_at to.new.items at ≡ cell_put to.old.items start (length cells.now) is_declared via cells.now at }
{
    for at in 0..cells.len() {
        to[start + at] = kept_cell(is_declared, via, cells[at], (at % 256) as u8);
    }
}
