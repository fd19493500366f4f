// The arguments of library functions and their checks (7.1.4p1).
ghost use Rattle.std.specs.Prelude.{◌≡◌, ◌+◌, ◌-◌, ◌<◌, ◌≤◌, ◌^◌, ◌++◌, ◌∷◌, [], length, true, false, Some, IsTrue, IfSome, IfOk, OnOk};
ghost use Rattle.ub_base.specs.declared.names.Item.TheVariants.{Alive, Read};
ghost use Rattle.ub_base.specs.Names.{same_event};
ghost use Rattle.addr_map.specs.Rows.{row_of};
ghost use Rattle.exposure.specs.Cells.{has_cell, is_other};
ghost use Rattle.mem_objects.specs.declared.value.Value.TheVariants.{Ptr};
ghost use Rattle.mem_spec.specs.Store.{is_live};
ghost use Rattle.mem_spec.specs.Acts.{in_row, size_in, argument_object, argument_in, argument};
ghost use Rattle.mem_spec.specs.Streams.{Io};
ghost use Rattle.mem_objects.specs.Held.{held_of};
ghost use Rattle.mem_objects.specs.Memory.{HasCell, life_in, store_of};
ghost use Rattle.libc_spec.specs.Library.{argument_at, pointer_in, integer_in, size_of_value, is_zero, text};
ghost use Rattle.libc_arguments.specs.Answers.{is_size};
ghost use Rattle.libc_arguments.specs.Parts.{after, kept_by, kept_after, Follows, settled_to, one_of_two, offset_if, byte_at, accessed, accessed_if, text_in};
ghost use Rattle.libc_arguments.specs.Parts.{IsShort, IsRange, string_size};
ghost use Rattle.libc_arguments.specs.Writes.{IsPlace};
ghost use Rattle.libc_arguments.specs.Seen.{value_seen, values_seen, pointer_seen};

use addr_map::Row;
use exposure::Prov;
use prov_memory::{LibAnswer, MemByte, Memory, Touched, Value};
use ub_base::{Clause, Event, Item, ObjName};

/// A pointer that a library function was given.
#[derive(Clone, Copy, PartialEq, Eq)]
pub struct Pointer {
    pub addr: u64,
    pub prov: Prov,
}

impl Pointer {
    /// The null pointer.
    pub const NULL: Pointer = Pointer {
        addr: 0,
        prov: Prov::Empty,
    };

    /// As a value.
    pub fn value(self) -> Value
        ensures { result ≡ Ptr self.addr self.prov }
    {
        Value::Ptr {
            addr: self.addr,
            prov: self.prov,
        }
    }
}

/// The bytes of an object that an argument names.
#[derive(Clone, Copy, PartialEq, Eq)]
pub struct Range {
    pub object: ObjName,
    pub from: u64,
    pub len: u64,
}

fn pointer_of(value: &Value) -> Pointer
    ensures { pointer_seen result ≡ pointer_in (value_seen value.now) }
{
    match value {
        Value::Ptr { addr, prov } => Pointer {
            addr: *addr,
            prov: *prov,
        },
        _ => Pointer::NULL,
    }
}

fn int_of(value: &Value) -> i128
    ensures { result ≡ integer_in (value_seen value.now) }
{
    match value {
        Value::Int(number) => *number,
        _ => 0,
    }
}

/// The pointer among the arguments at the place; null where there is none.
pub fn pointer_at(args: &[Value], at: usize) -> Pointer
    ensures { pointer_seen result ≡ pointer_in (argument_at (values_seen args.now) at) }
{
    match args.get(at) {
        Some(value) => pointer_of(value),
        None => Pointer::NULL,
    }
}

/// The integer among the arguments at the place; 0 where there is none.
pub fn int_at(args: &[Value], at: usize) -> i128
    ensures { result ≡ integer_in (argument_at (values_seen args.now) at) }
{
    match args.get(at) {
        Some(value) => int_of(value),
        None => 0,
    }
}

/// The number of bytes among the arguments at the place, the distance of the integer from 0; 0 where there is none.
pub fn size_at(args: &[Value], at: usize) -> u64
    ensures { IsTrue (is_size (integer_in (argument_at (values_seen args.now) at))) → result ≡ size_of_value (argument_at (values_seen args.now) at) }
{
    u64::try_from(int_at(args, at).unsigned_abs()).unwrap_or(0)
}

// Whether the range lies in the object; one of no bytes may also begin one past it.
fn has_range(m: &Memory, object: ObjName, addr: u64, len: u64) -> bool
    ensures { result ≡ in_row (row_of m.now.rows object) addr len }
{
    match m.map().row(object) {
        None => false,
        Some(row) => row.base <= addr && len <= row.size && addr - row.base <= row.size - len,
    }
}

// The row of the object, which ends within the address space (own: 47 bits).
fn row_in(m: &Memory, object: ObjName) -> Option<Row>
    ensures row { result ≡ row_of m.now.rows object }
    ensures low { IfSome result (λ r. r.base + r.size ≤ 2 ^ 47) }
{
    let row = m.map().row(object)?;
    Some(row)
}

// Where the range begins in the object, if it lies in it.
fn place_in(m: &Memory, object: ObjName, addr: u64, len: u64) -> Option<u64>
    ensures place { result ≡ offset_if (row_of m.now.rows object) addr len }
    ensures short { IfSome result (λ from. from + len < 2 ^ 64) }
    ensures near { IfSome result (λ from. addr ≤ from + 2 ^ 47) }
{
    let row = row_in(m, object)?;
    if row.base <= addr && len <= row.size && addr - row.base <= row.size - len {
        Some(addr - row.base)
    } else {
        None
    }
}

fn is_same(id: Event, other: Event) -> bool
    ensures { result ≡ same_event id other }
{
    id == other
}

// The object to which the ambiguity is settled after the item.
fn kept_by(item: Item, id: Event, before: Option<ObjName>) -> Option<ObjName>
    ensures { result ≡ kept_by item id before }
{
    match item {
        Item::Narrow { id: other, keep } => {
            if is_same(other, id) {
                Some(keep)
            } else {
                before
            }
        }
        _ => before,
    }
}

// The same after each of these items.
fn kept_after(items: &[Item], id: Event, before: Option<ObjName>) -> Option<ObjName>
    ensures { result ≡ kept_after items.now id before }
{
    let mut kept = before;
    for item in items {
        kept = kept_by(*item, id, kept);
    }
    kept
}

// The object to which the ambiguity is settled, by this act or before.
fn kept(m: &Memory, t: &Touched, id: Event) -> Option<ObjName>
    ensures { (io : Io) → result ≡ (after t.now (store_of m.now io)).kept id }
{
    kept_after(t.items(), id, m.kept(id))
}

// Whether the ambiguity is settled to another object.
fn is_lost(m: &Memory, t: &Touched, id: Event, keep: ObjName) -> bool
    ensures { (io : Io) → result ≡ is_other ((after t.now (store_of m.now io)).kept id) keep }
{
    match kept(m, t, id) {
        None => false,
        Some(other) => other != keep,
    }
}

// The object, to which the ambiguity is settled, where it wasn't settled to the other one.
fn keep_one(
    m: &Memory,
    id: Event,
    keep: ObjName,
    t: &mut Touched,
) -> Result<Option<ObjName>, LibAnswer>
    ensures { (io : Io) → has_cell m.now.cells id ≡ true → Follows true (λ x. x) result m.now io t.old t.new (settled_to id keep) }
{
    if is_lost(m, t, id, keep) {
        return Err(LibAnswer::Raise(Clause::LibraryArgument));
    }
    t.add(Item::Narrow { id, keep })?;
    Ok(Some(keep))
}

// The one of two candidates that has the range; none where both have it.
fn one_of(
    m: &Memory,
    in_past: bool,
    in_start: bool,
    id: Event,
    past: ObjName,
    start: ObjName,
    t: &mut Touched,
) -> Result<Option<ObjName>, LibAnswer>
    ensures { (io : Io) → has_cell m.now.cells id ≡ true → Follows true (λ x. x) result m.now io t.old t.new (one_of_two in_past in_start id past start) }
{
    if in_past {
        if in_start {
            return Ok(None);
        }
        return keep_one(m, id, past, t);
    }
    if in_start {
        return keep_one(m, id, start, t);
    }
    Err(LibAnswer::Raise(Clause::LibraryArgument))
}

// The object of a range; none where a range of no bytes leaves the ambiguity open.
fn object_of(
    m: &Memory,
    pointer: Pointer,
    len: u64,
    t: &mut Touched,
) -> Result<Option<ObjName>, LibAnswer>
    ensures { (io : Io) → HasCell m.now pointer.prov → Follows true (λ x. x) result m.now io t.old t.new
        (argument_object m.now.rows len pointer.addr pointer.prov) }
{
    match pointer.prov {
        Prov::Empty => Err(LibAnswer::Raise(Clause::LibraryArgument)),
        Prov::Whole(object) => Ok(Some(object)),
        Prov::Either { id, past, start } => {
            let in_past = has_range(m, past, pointer.addr, len);
            let in_start = has_range(m, start, pointer.addr, len);
            one_of(m, in_past, in_start, id, past, start, t)
        }
    }
}

fn is_live(m: &Memory, object: ObjName) -> bool
    ensures { result ≡ is_live (life_in (held_of m.now.objects object)) }
{
    match m.object(object) {
        Some(state) => state.live,
        None => false,
    }
}

// The range in the object: 6.2.4p2 where the object is dead, then 7.1.4p1 where the range isn't in it.
fn range_of(
    m: &Memory,
    object: ObjName,
    addr: u64,
    len: u64,
    t: &mut Touched,
) -> Result<Range, LibAnswer>
    ensures follows { (io : Io) → Follows true (λ r. Some (accessed m.now r)) result m.now io t.old t.new (argument_in m.now.rows len addr (Some object)) }
    ensures range { IfOk result (λ r. IsRange len (Some r)) }
    ensures near { IfOk result (λ r. addr ≤ r.from + 2 ^ 47) }
    ensures place { 1 ≤ addr → IfOk result (IsPlace m.now addr) }
    ensures items { OnOk result (t.new ≡ t.old ++ Alive object ∷ []) }
{
    t.add(Item::Alive(object))?;
    if !is_live(m, object) {
        return Err(LibAnswer::Raise(Clause::DeadObject));
    }
    match place_in(m, object, addr, len) {
        Some(from) => Ok(Range { object, from, len }),
        None => Err(LibAnswer::Raise(Clause::LibraryArgument)),
    }
}

/// The range of `len` bytes that a pointer argument names: 7.1.4p1 where the pointer is null, invalid or ambiguous in vain,
/// then 6.2.4p2 where the object is dead, then 7.1.4p1 where the range isn't in it. None where a range of no bytes leaves an
/// ambiguity open. `t` gains the items; the memory changes by `settle` alone.
pub fn check(
    m: &Memory,
    pointer: Pointer,
    len: u64,
    t: &mut Touched,
) -> Result<Option<Range>, LibAnswer>
    ensures follows { (io : Io) → HasCell m.now pointer.prov →
        Follows true (accessed_if m.now) result m.now io t.old t.new (argument m.now.rows len pointer.addr pointer.prov) }
    ensures range { IfOk result (IsRange len) }
    ensures near { IfOk result (λ range. IfSome range (λ r. pointer.addr ≤ r.from + 2 ^ 47)) }
    ensures place { IfOk result (λ range. IfSome range (IsPlace m.now pointer.addr)) }
    ensures grows { (io : Io) → HasCell m.now pointer.prov → IfOk result (λ range. IfSome range (λ r. length t.old < length t.new)) }
{
    if pointer.addr == 0 {
        return Err(LibAnswer::Raise(Clause::LibraryArgument));
    }
    let Some(object) = object_of(m, pointer, len, t)? else {
        return Ok(None);
    };
    let range = range_of(m, object, pointer.addr, len, t)?;
    Ok(Some(range))
}

fn is_zero(m: &Memory, object: ObjName, at: u64) -> bool
    ensures { result ≡ is_zero (byte_at m.now object at).byte }
{
    match m.byte(object, at) {
        MemByte::Unwritten => false,
        MemByte::Written { number, .. } => number == 0,
    }
}

// How many bytes a string has with its zero, if the object has a written zero from the place on.
fn string_size(m: &Memory, object: ObjName, from: u64) -> Option<u64>
    ensures size { result ≡ string_size (byte_at m.now object) (size_in (row_of m.now.rows object) - from) from }
    ensures low { IfSome result (λ size. from + size ≤ 2 ^ 47) }
{
    let row = row_in(m, object)?;
    for at in from..row.size {
        if is_zero(m, object, at) {
            return Some((at - from).saturating_add(1));
        }
    }
    None
}

/// The string that a pointer argument names, with its zero: the checks of its first byte, and 7.1.4p1 where the object has no
/// zero behind it. `t` gains the items, the read of the string among them.
pub fn check_string(m: &Memory, pointer: Pointer, t: &mut Touched) -> Result<Range, LibAnswer>
    ensures follows { (io : Io) → HasCell m.now pointer.prov →
        Follows false (text_in m.now) result m.now io t.old t.new (text m.now.rows pointer.addr pointer.prov) }
    ensures short { IfOk result IsShort }
    ensures near { IfOk result (λ r. pointer.addr + r.len ≤ 2 ^ 48) }
{
    let Some(first) = check(m, pointer, 1, t)? else {
        return Err(LibAnswer::Raise(Clause::LibraryArgument));
    };
    let Some(len) = string_size(m, first.object, first.from) else {
        return Err(LibAnswer::Raise(Clause::LibraryArgument));
    };
    let range = Range { len, ..first };
    t.add(read_of(range))?;
    Ok(range)
}

/// The read of a range.
pub fn read_of(range: Range) -> Item
    ensures { result ≡ Read range.object range.from range.len }
{
    Item::Read {
        object: range.object,
        from: range.from,
        len: range.len,
    }
}
