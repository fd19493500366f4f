// Bytes that library functions read and write.
ghost use Rattle.std.specs.Prelude.{◌≡◌, ℕ, ◌++◌, ◌∷◌, List, [], length, map, replicate, false, Some, IfOk, IfSome, OnOk, OnErr};
ghost use Rattle.addr_map.specs.declared.map.Row.{Row};
ghost use Rattle.ub_base.specs.declared.names.Item.TheVariants.{Expose};
ghost use Rattle.mem_spec.specs.Acts.{Seen, candidates, declared_of, stored_from};
ghost use Rattle.mem_objects.specs.Keeps.{Keeps, IsNumbered};
ghost use Rattle.mem_objects.specs.Cells.{plain_cell};
ghost use Rattle.mem_objects.specs.Held.{held_of};
ghost use Rattle.mem_spec.specs.Store.{with_bytes};
ghost use Rattle.mem_objects.specs.Stores.{tagged_all};
ghost use Rattle.mem_objects.specs.Tags.{AreTagged, CellsTagged};
ghost use Rattle.mem_spec.specs.Streams.{Io};
ghost use Rattle.mem_spec.specs.Script.{Script, run};
ghost use Rattle.mem_objects.specs.Memory.{AreKnown, CellsKnown, life_in, store_of};
ghost use Rattle.libc_spec.specs.Library.{LibValue};
ghost use Rattle.libc_arguments.specs.Seen.{value_seen};
ghost use Rattle.libc_arguments.specs.Answers.{AreWithin, Answers, answer_in};
ghost use Rattle.libc_arguments.specs.Parts.{after, Follows, IsPassed, limited, CanFollow, byte_at, bytes_of, IsShort, read_items, ReadsByte, ReadsAll};
ghost use Rattle.libc_arguments.specs.Parts.{IsSettled};
ghost use Rattle.libc_arguments.specs.Parts.{AreSettled};
ghost use Rattle.libc_arguments.specs.Writes.{Tells, within_limits, IsPlace, FillsRange, LiveOn, SeesBytes, has_expose, is_expose, overwritten, without_empty};
ghost use Rattle.libc_arguments.specs.Writes.{writable, write_items};

use crate::arguments::{Range, read_of};
use exposure::Prov;
use prov_memory::{Block, LibAnswer, MemByte, Memory, Touched, Value, Via};
use std::alloc::Global;
use ub_base::{Clause, Item, NoMemory, ObjName};

/// Adds what a pointer exposes when it is seen as a number, also where a piece of it is.
pub fn expose(prov: Prov, t: &mut Touched) -> Result<(), NoMemory>
    ensures { OnOk result (t.new ≡ t.old ++ map Expose (candidates prov)) }
{
    match prov {
        Prov::Empty => Ok(()),
        Prov::Whole(object) => t.add(Item::Expose(object)),
        Prov::Either { past, start, .. } => {
            t.add(Item::Expose(past))?;
            t.add(Item::Expose(start))
        }
    }
}

/// Adds the read of a range that isn't empty.
pub fn add_read(range: Range, t: &mut Touched) -> Result<(), NoMemory>
    ensures { OnOk result (t.new ≡ t.old ++ read_items range) }
{
    if range.len == 0 {
        return Ok(());
    }
    t.add(read_of(range))
}

/// The bytes of a range: J.2-indeterminate where one is unwritten. `t` gains the read, and what the pieces of pointers
/// among the bytes expose.
pub fn read(alloc: Global, m: &Memory, range: Range, t: &mut Touched) -> Result<Vec<u8>, LibAnswer>
    ensures { IsShort range → ReadsAll (λ v. v.items) result (bytes_of m.now range) (t.old ++ read_items range) t.new }
{
    add_read(range, t)?;
    numbers(alloc, m, range, t)
}

/// The bytes of a range whose read `t` has: J.2-indeterminate where one is unwritten. `t` gains what the pieces of pointers
/// among the bytes expose.
pub fn numbers(
    alloc: Global,
    m: &Memory,
    range: Range,
    t: &mut Touched,
) -> Result<Vec<u8>, LibAnswer>
    ensures { IsShort range → ReadsAll (λ v. v.items) result (bytes_of m.now range) t.old t.new }
{
    let mut numbers = Vec::new(alloc);
    for offset in 0..range.len {
        let number = read_byte(m, range.object, range.from.saturating_add(offset), t)?;
        push_number(&mut numbers, number)?;
    }
    Ok(numbers)
}

fn push_number(numbers: &mut Vec<u8>, number: u8) -> Result<(), NoMemory>
    ensures { OnOk result (numbers.new.items ≡ numbers.old.items ++ number ∷ []) }
{
    numbers.push(number)?;
    Ok(())
}

fn read_byte(m: &Memory, object: ObjName, at: u64, t: &mut Touched) -> Result<u8, LibAnswer>
    ensures { ReadsByte result (byte_at m.now object at) t.old t.new }
{
    match m.byte(object, at) {
        MemByte::Unwritten => Err(LibAnswer::Raise(Clause::Indeterminate)),
        MemByte::Written { number, piece } => {
            if let Some((origin, _)) = piece {
                expose(m.prov(origin), t)?;
            }
            Ok(number)
        }
    }
}

/// Whether the object may be written to: 6.4.5p7 for a literal, 6.7.3p6 for one defined const.
pub fn check_writable(m: &Memory, object: ObjName) -> Result<(), Clause>
    ensures { result ≡ writable (life_in (held_of m.now.objects object)) }
{
    let Some(state) = m.object(object) else {
        return Ok(());
    };
    if state.kind.literal {
        return Err(Clause::StoreToLiteral);
    }
    if state.kind.constant {
        return Err(Clause::StoreToConst);
    }
    Ok(())
}

// Adds a number at the end.
fn push_plain(block: &mut Block, number: u8) -> Result<(), NoMemory>
    ensures { OnOk result (block.new.cells ≡ block.old.cells ++ plain_cell number ∷ []) }
{
    block.push(MemByte::Written {
        number,
        piece: None,
    })
}

/// These numbers as bytes to be stored.
pub fn block_of(alloc: Global, numbers: &[u8]) -> Result<Block, NoMemory>
    ensures { IfOk result (λ b. b.cells ≡ map plain_cell numbers.now) }
{
    let mut block = Block::new(alloc);
    for number in numbers {
        push_plain(&mut block, *number)?;
    }
    Ok(block)
}

/// The same number again and again.
pub fn filled(alloc: Global, number: u8, len: u64) -> Result<Block, NoMemory>
    ensures { IfOk result (λ b. b.cells ≡ map plain_cell (replicate len number)) }
{
    let mut block = Block::new(alloc);
    for _turn in 0..len {
        push_plain(&mut block, number)?;
    }
    Ok(block)
}

/// Adds the write of a range that isn't empty.
pub fn add_write(range: Range, t: &mut Touched) -> Result<(), NoMemory>
    ensures { OnOk result (t.new ≡ t.old ++ write_items (Some range)) }
{
    if range.len == 0 {
        return Ok(());
    }
    t.add(Item::Write {
        object: range.object,
        from: range.from,
        len: range.len,
    })
}

/// The end of a call that allocates and writes nothing: what its items settle and expose takes effect.
pub fn finish(
    alloc: Global,
    read: Result<Value, LibAnswer>,
    m: &mut Memory,
    t: &Touched,
) -> Result<Value, LibAnswer>
    ensures exact { (io : Io) (script : List Row → Script LibValue) → AreWithin io → IfOk read IsPassed →
        Follows false value_seen read m.old io [] t.now (script m.old.rows) →
        Answers (answer_in result) t.now (store_of m.new io) (limited (store_of m.old io) (run m.new.rows (script m.new.rows) (store_of m.old io))) }
    ensures each { (io : Io) (script : List Row → Script LibValue) → AreWithin io → IfOk read IsPassed →
        Tells value_seen read m.old io [] t.now (script m.old.rows) → Answers (answer_in result) t.now (store_of m.new io)
        (within_limits (store_of m.old io) (run m.new.rows (script m.new.rows) (store_of m.old io))) }
    ensures known { AreKnown m.old → AreKnown m.new }
    ensures same { OnErr result (m.new ≡ m.old) }
    ensures kept { Keeps m.old m.new }
{
    let value = read?;
    let mut scratch = Touched::new(alloc)?;
    settle(m, t, &mut scratch);
    Ok(value)
}

/// Stores the bytes over the range that begins at the address, in a live object.
pub fn put_over(
    m: &mut Memory,
    addr: u64,
    range: Range,
    via: Via,
    block: &Block,
    scratch: &mut Touched,
)
    requires place { IsPlace m.old addr range }
    requires len { length block.now.cells ≡ range.len }
    ensures store { (io : Io) (seen : Seen) → SeesBytes via seen → store_of m.new io ≡ with_bytes (store_of m.old io) range.object range.from
        (stored_from (declared_of (life_in (held_of m.old.objects range.object))) seen 0 (tagged_all m.old block.now.cells)) }
    ensures rows { m.new.rows ≡ m.old.rows }
    ensures known { AreKnown m.old → CellsKnown (length m.old.origins) block.now.cells → AreKnown m.new }
    ensures kept { IsNumbered (length m.old.types) via → CellsKnown (length m.old.origins) block.now.cells → CellsTagged (length m.old.types) block.now.cells →
        Keeps m.old m.new }
{
    let _ = m.store(
        true,
        via,
        1,
        addr,
        Prov::Whole(range.object),
        block,
        scratch,
    );
}

/// The end of a call that writes numbers over a range, if there is one: what the items settle and expose takes effect, and
/// the bytes are replaced. `t` gains the write.
pub fn overwrite(
    alloc: Global,
    m: &mut Memory,
    addr: u64,
    target: Option<Range>,
    block: &Block,
    t: &mut Touched,
) -> Result<(), NoMemory>
    requires place { IfSome target (IsPlace m.old addr) }
    requires len { FillsRange (length block.now.cells) target }
    ensures items { OnOk result (t.new ≡ t.old ++ write_items target) }
    ensures store { OnOk result ((io : Io) (ns : List ℕ) → block.now.cells ≡ map plain_cell ns → CanFollow m.old.cells t.old (store_of m.old io) →
        store_of m.new io ≡ overwritten target ns (after t.old (store_of m.old io))) }
    ensures rows { m.new.rows ≡ m.old.rows }
    ensures known { (ns : List ℕ) → block.now.cells ≡ map plain_cell ns → AreKnown m.old → AreKnown m.new }
    ensures same { OnErr result (m.new ≡ m.old) }
    ensures kept { (ns : List ℕ) → block.now.cells ≡ map plain_cell ns → Keeps m.old m.new }
{
    let mut scratch = Touched::new(alloc)?;
    let Some(range) = without_empty(target) else {
        settle(m, t, &mut scratch);
        return Ok(());
    };
    add_write(range, t)?;
    settle(m, t, &mut scratch);
    put_over(m, addr, range, Via::Bytes, block, &mut scratch);
    Ok(())
}

// None for a range of no bytes.
fn without_empty(range: Option<Range>) -> Option<Range>
    ensures { result ≡ without_empty range }
{
    match range {
        Some(range) if range.len != 0 => Some(range),
        _ => None,
    }
}

// Settles the ambiguity, or exposes the object, that the item names.
fn take_effect(m: &mut Memory, item: Item, scratch: &mut Touched)
    ensures settled { IsSettled m.old m.new item }
    ensures lives { LiveOn m.old m.new }
    ensures tagged { is_expose item ≡ false → AreTagged m.old → AreTagged m.new }
    ensures keeps { Keeps m.old m.new }
{
    match item {
        Item::Narrow { id, keep } => {
            let _ = m.narrow(id, keep);
        }
        Item::Expose(object) => m.expose(Prov::Whole(object), scratch),
        _ => {}
    }
}

/// Settles the ambiguities and exposes the objects that the items name.
pub fn settle(m: &mut Memory, t: &Touched, scratch: &mut Touched)
    ensures store { (io : Io) → CanFollow m.old.cells t.now (store_of m.old io) → store_of m.new io ≡ after t.now (store_of m.old io) }
    ensures rows { m.new.rows ≡ m.old.rows }
    ensures known { AreKnown m.old → AreKnown m.new }
    ensures lives { LiveOn m.old m.new }
    ensures tagged { has_expose t.now ≡ false → AreTagged m.old → AreTagged m.new }
    ensures keeps { Keeps m.old m.new }
{
    settle_each(m, t.items(), scratch);
}

fn settle_each(m: &mut Memory, items: &[Item], scratch: &mut Touched)
    ensures settled { AreSettled m.old m.new items.now }
    ensures lives { LiveOn m.old m.new }
    ensures tagged { has_expose items.now ≡ false → AreTagged m.old → AreTagged m.new }
    ensures keeps { Keeps m.old m.new }
{
    for item in items {
        take_effect(m, *item, scratch);
    }
}
