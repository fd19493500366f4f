// Values from bytes and bytes of values.
ghost use Rattle.std.specs.Prelude.{◌≡◌, ℕ, ◌+◌, ◌<◌, ◌≤◌, ◌++◌, [], false, List, None, Ok, Err, length, map, IfOk, IfErr, IfSome, OnOk, OnErr};
ghost use Rattle.ub_base.specs.declared.names.Item.TheVariants.{Expose};
ghost use Rattle.c_types.specs.Types.{CType};
ghost use Rattle.mem_spec.specs.Agreement.{bytes_of_kind};
ghost use Rattle.mem_spec.specs.Acts as acts;
ghost use Rattle.mem_spec.specs.Script.{run, Done, Raised};
ghost use Rattle.mem_spec.specs.Streams.{Io};
ghost use Rattle.mem_objects.specs.Cells.{part_of, tagged_in};
ghost use Rattle.mem_objects.specs.Memory.{Kept, AreKnown, CellsKnown, store_of, uncovered_each};
ghost use Rattle.mem_objects.specs.Made.{AreNamed, HasMore, IsMade};
ghost use Rattle.mem_objects.specs.Loads as loads;
ghost use Rattle.mem_objects.specs.Loads.{IfPointer, IfRaise, number_if, origins_of};
ghost use Rattle.prov_memory.specs.Parts as parts;
ghost use Rattle.prov_memory.specs.Parts.{part_items};
ghost use Rattle.mem_objects.specs.Tags.{CellsTagged};
ghost use Rattle.mem_objects.specs.Keeps.{Keeps};
ghost use Rattle.mem_objects.specs.Sound.{IsSound};
ghost use Rattle.mem_spec.specs.Bytes.{number_bytes, pointer_bytes};
ghost use Rattle.mem_objects.specs.Pieces.{IsKnownValue, IsMadeValue, IsTaggedValue, seen, source_of, value_bytes, piece_cells, plain_cells};

use super::load::{is_bool, number_at, number_checked};
use super::*;
use crate::{Block, MemFault, Value};
use c_types::IntKind;
use mem_objects::cell::{cell_at, low_bits, value_of};
use ub_base::Clause;

impl Memory {
    // Exposes what the pieces of pointers among the cells were made from.
    fn show_cells(&mut self, cells: &[Cell], t: &mut Touched)
        requires { length cells.now ≤ 8 }
        ensures shown { self.new ≡ record self.old { objects = uncovered_each (origins_of (seen self.old cells.now)) self.old.objects } }
        ensures items { length t.old + 16 < 32 → t.new ≡ t.old ++ map Expose (origins_of (seen self.old cells.now)) }
    {
        for at in 0..cells.len() {
            let cell = cell_at(cells, at as u64);
            self.show_piece(cell, t);
        }
    }

    // The number of a member whose bytes these are.
    fn part_number(&mut self, cells: &[Cell], is_bool: bool, t: &mut Touched) -> Result<u64, Clause>
        requires { length cells.now ≤ 8 }
        ensures number { IfOk result (λ number. Ok number ≡ loads.number_checked is_bool (number_if (seen self.old cells.now))) }
        ensures shown { OnOk result (self.new ≡ record self.old { objects = uncovered_each (origins_of (seen self.old cells.now)) self.old.objects }) }
        ensures items { OnOk result (length t.old + 16 < 32 → t.new ≡ t.old ++ map Expose (origins_of (seen self.old cells.now))) }
        ensures raises { IfErr result (λ c. Err c ≡ loads.number_checked is_bool (number_if (seen self.old cells.now))) }
        ensures same { OnErr result (self.new ≡ self.old) }
        ensures rest { record self.new { objects = [] } ≡ record self.old { objects = [] } }
        ensures made { (p : Prov) → IsMade self.old p → IsMade self.new p }
        ensures sound { IsSound self.old → IsSound self.new }
        ensures kept { Keeps self.old self.new }
    {
        let number = self.read_cells(cells, is_bool)?;
        self.show_cells(cells, t);
        Ok(number)
    }

    // The number of the bytes, by the checks of a load.
    fn read_cells(&self, cells: &[Cell], is_bool: bool) -> Result<u64, Clause>
        requires { length cells.now ≤ 8 }
        ensures { result ≡ loads.number_checked is_bool (number_if (seen self.now cells.now)) }
    {
        number_checked(is_bool, number_in(cells))
    }

    /// The integer member at the offset of a structure or union value, as a load reads it.
    pub fn part_int(
        &mut self,
        kind: IntKind,
        bytes: &Block,
        from: u64,
        t: &mut Touched,
    ) -> Result<i128, Clause>
        ensures exact { IfOk result (λ value. (io : Io) → run self.old.rows (parts.part_int kind
            (seen self.old (part_of bytes.now from (bytes_of_kind kind)).cells)) (store_of self.old io) ≡ Done value t.new (store_of self.new io)) }
        ensures raises { IfErr result (λ c. (io : Io) → run self.old.rows
            (parts.part_int kind (seen self.old (part_of bytes.now from (bytes_of_kind kind)).cells)) (store_of self.old io) ≡ Raised c) }
        ensures same { OnErr result (self.new ≡ self.old) }
        ensures rest { record self.new { objects = [] } ≡ record self.old { objects = [] } }
        ensures made { (p : Prov) → IsMade self.old p → IsMade self.new p }
        ensures sound { IsSound self.old → IsSound self.new }
        ensures kept { Keeps self.old self.new }
    {
        t.clear();
        let cells = bytes.range(from, kind.bytes());
        let number = self.part_number(cells, is_bool(kind), t)?;
        Ok(value_of(kind, number))
    }

    /// The member at the offset that is a pointer to a function, as a load reads it.
    pub fn part_func(&mut self, bytes: &Block, from: u64, t: &mut Touched) -> Result<u64, Clause>
        ensures exact { IfOk result (λ target. (io : Io) → run self.old.rows (parts.part_func (seen self.old (part_of bytes.now from 8).cells))
            (store_of self.old io) ≡ Done target t.new (store_of self.new io)) }
        ensures raises { IfErr result (λ c. (io : Io) → run self.old.rows (parts.part_func (seen self.old (part_of bytes.now from 8).cells))
            (store_of self.old io) ≡ Raised c) }
        ensures same { OnErr result (self.new ≡ self.old) }
        ensures rest { record self.new { objects = [] } ≡ record self.old { objects = [] } }
        ensures made { (p : Prov) → IsMade self.old p → IsMade self.new p }
        ensures sound { IsSound self.old → IsSound self.new }
        ensures kept { Keeps self.old self.new }
    {
        t.clear();
        self.part_number(bytes.range(from, 8), false, t)
    }

    /// The member at the offset that is a pointer to an object, as a load reads it, but for the check of a dead target.
    pub fn part_ptr(
        &mut self,
        who: Event,
        bytes: &Block,
        from: u64,
        t: &mut Touched,
    ) -> Result<Value, MemFault>
        ensures exact { IfOk result (λ value. IfPointer value (λ a p. AreKnown self.old → (io : Io) →
            run self.old.rows (parts.part_ptr who (seen self.old (part_of bytes.now from 8).cells)) (store_of self.old io) ≡ Done (a, p) t.new
            (store_of self.new io))) }
        ensures raises { IfErr result (λ fault. IfRaise fault (λ c. (io : Io) →
            run self.old.rows (parts.part_ptr who (seen self.old (part_of bytes.now from 8).cells)) (store_of self.old io) ≡ Raised c)) }
        ensures same { IfErr result (λ fault. IfRaise fault (λ c. self.new ≡ self.old)) }
        ensures more { HasMore self.old self.new }
        ensures value { IfOk result (λ value. IfPointer value (λ a p. IsSound self.old → IsMade self.new p)) }
        ensures made { (p : Prov) → IsMade self.old p → IsMade self.new p }
        ensures sound { IsSound self.old → IsSound self.new }
        ensures kept { Keeps self.old self.new }
    {
        t.clear();
        let cells = bytes.range(from, 8);
        let number = self.read_cells(cells, false)?;
        let pointer = self.pointer_among(cells);
        let prov = self.part_target(pointer, who, number, t)?;
        Ok(Value::Ptr { addr: number, prov })
    }

    // What the bytes were made from, where they are the pieces of one pointer value, from 0 on.
    fn pointer_among(&self, cells: &[Cell]) -> Option<Prov>
        requires { length cells.now ≤ 8 }
        ensures { result ≡ acts.pointer_in (seen self.now cells.now) }
    {
        let cell = cell_at(cells, 0);
        match self.origin_in(cell) {
            None => None,
            Some(prov) => self
                .are_pieces(cells, cell.origin, 0, cells.len() as u64)
                .then_some(prov),
        }
    }

    // The provenance of a member that is a pointer, by that of its pieces, if any; a number is looked up.
    fn part_target(
        &mut self,
        pointer: Option<Prov>,
        who: Event,
        number: u64,
        t: &mut Touched,
    ) -> Result<Prov, NoMemory>
        ensures exact { IfOk result (λ prov. (io : Io) → run self.old.rows (parts.pointer_or_found who pointer number) (store_of self.old io) ≡ Done
            (number, prov) (part_items pointer number) (store_of self.old io)) }
        ensures items { OnOk result (length t.old < 32 → t.new ≡ t.old ++ part_items pointer number) }
        ensures more { HasMore self.old self.new }
        ensures value { IfOk result (λ prov. IfSome pointer (λ p. IsMade self.old p) → IsMade self.new prov) }
        ensures sound { IsSound self.old → IsSound self.new }
        ensures kept { Keeps self.old self.new }
    {
        match pointer {
            Some(prov) => Ok(prov),
            None => self.look_up(who, number, t),
        }
    }

    /// The bytes of a value: `size` bytes of an integer, but at most eight, eight of a pointer, those of a structure or union.
    pub fn bytes_of(&self, alloc: Global, v: &Value, size: u64) -> Result<Block, NoMemory>
        ensures bytes { AreNamed self.now → IsMadeValue self.now v.now → IfOk result (λ b. seen self.now b.cells ≡ value_bytes self.now size v.now) }
        ensures known { AreNamed self.now → IsMadeValue self.now v.now → IsKnownValue self.now v.now →
            IfOk result (λ b. CellsKnown (length self.now.origins) b.cells) }
        ensures tagged { IsTaggedValue self.now v.now → IfOk result (λ b. CellsTagged (length self.now.types) b.cells) }
        ensures source { IfOk result (λ b. b.source ≡ source_of v.now) }
    {
        match v {
            Value::Int(number) => plain_bytes(alloc, low_bits(*number), size.min(8)),
            Value::Ptr { addr, prov } => self.pieces_of(alloc, *addr, *prov),
            Value::Func(addr) => plain_bytes(alloc, *addr, 8),
            Value::Block(block) => block.copied(alloc),
            Value::Missing | Value::Nothing => Ok(Block::new(alloc)),
        }
    }

    // The eight pieces of a pointer.
    fn pieces_of(&self, alloc: Global, addr: u64, prov: Prov) -> Result<Block, NoMemory>
        ensures bytes { AreNamed self.now → IsMade self.now prov → IfOk result (λ b. seen self.now b.cells ≡ pointer_bytes 8 0 prov addr) }
        ensures known { AreNamed self.now → IsMade self.now prov → IfOk result (λ b. CellsKnown (length self.now.origins) b.cells) }
        ensures tagged { (n : ℕ) → IfOk result (λ b. CellsTagged n b.cells) }
        ensures source { IfOk result (λ b. b.source ≡ None) }
    {
        let cells = piece_cells(alloc, addr, self.origin_of(prov))?;
        Ok(Block::of_cells(cells, None))
    }
}

/// The little-endian number of at most eight bytes, where all are written.
fn number_in(cells: &[Cell]) -> Option<u64>
    requires { length cells.now ≤ 8 }
    ensures { (m : Kept) → result ≡ number_if (seen m cells.now) }
{
    number_at(cells, 0, cells.len() as u64)
}

fn piece_cells(alloc: Global, addr: u64, origin: Origin) -> Result<Vec<Cell>, NoMemory>
    ensures { IfOk result (λ cells. cells.items ≡ piece_cells 8 0 origin addr) }
{
    let mut cells = Vec::with_capacity(alloc, 8)?;
    let mut rest = addr;
    for index in 0..8u8 {
        cells.push(Cell::piece((rest % 256) as u8, origin, index))?;
        rest /= 256;
    }
    Ok(cells)
}

// The `count` lowest bytes of a number.
fn plain_bytes(alloc: Global, number: u64, count: u64) -> Result<Block, NoMemory>
    ensures bytes { IfOk result (λ b. (ps : List Prov) (ts : List CType) → map (tagged_in ps ts) b.cells ≡ number_bytes count number) }
    ensures known { (n : ℕ) → IfOk result (λ b. CellsKnown n b.cells) }
    ensures tagged { (n : ℕ) → IfOk result (λ b. CellsTagged n b.cells) }
    ensures source { IfOk result (λ b. b.source ≡ None) }
{
    let cells = plain_cells(alloc, number, count)?;
    Ok(Block::of_cells(cells, None))
}

fn plain_cells(alloc: Global, number: u64, count: u64) -> Result<Vec<Cell>, NoMemory>
    ensures { IfOk result (λ cells. cells.items ≡ plain_cells count number) }
{
    let mut cells = Vec::with_capacity(alloc, 8)?;
    let mut rest = number;
    for index in 0..count {
        cells.push(Cell::plain((rest % 256) as u8))?;
        rest /= 256;
    }
    Ok(cells)
}
