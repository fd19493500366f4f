// Allocation (7.22.3).

ghost use Rattle.std.specs.Prelude.{◌≡◌, ◌≢◌, ◌+◌, ◌*◌, ◌^◌, ◌∷◌, ◌++◌, length, min, max, true, nat_lt, Some, None, Ok, Err, IfOk, OnOk, OnErr, []};
ghost use Rattle.std.specs.Prelude.{if◌then◌else◌};
ghost use Rattle.ub_base.specs.declared.clause.Cause.TheVariants.{Created};
ghost use Rattle.ub_base.specs.declared.names.Item.TheVariants.{Read, Born, Alive, Write, Dies};
ghost use Rattle.exposure.specs.declared.prov.Prov.TheVariants.{Whole, Either};
ghost use Rattle.exposure.specs.Cells.{has_cell, kept_in, is_other};
ghost use Rattle.mem_objects.specs.Keeps.{Keeps, IsNumbered};
ghost use Rattle.mem_objects.specs.declared.answer.LibAnswer.TheVariants as answers;
ghost use Rattle.mem_spec.specs.Acts.{Seen, create, base_in, size_in, stored_from};
ghost use Rattle.mem_objects.specs.Held.{held_of};
ghost use Rattle.mem_objects.specs.Pieces.{IsMadeValue};
ghost use Rattle.mem_objects.specs.Tags.{AreTagged, CellsTagged};
ghost use Rattle.mem_objects.specs.Memory.{AreKnown, CellsKnown, HasCell, IsBorn, life_in, store_of};
ghost use Rattle.mem_objects.specs.Made.{IsMade, CanSettle, after_settling, settling_items};
ghost use Rattle.mem_spec.specs.Script.{run};
ghost use Rattle.mem_spec.specs.Store.{Store, with_bytes};
ghost use Rattle.mem_objects.specs.Stores.{Sees, IsShort, tagged_all};
ghost use Rattle.mem_spec.specs.Streams.{Io};
ghost use Rattle.addr_map.specs.Rows.{row_of};
ghost use Rattle.addr_map.specs.Sound.{Above};
ghost use Rattle.c_types.specs.declared.library.LibFunc.TheVariants.{Calloc, Realloc};
ghost use Rattle.libc_spec.specs.Library.{asked, library, is_given, is_heap_start, heap_name, heap_kind, malloc, calloc, free, realloc, resized};
ghost use Rattle.libc_spec.specs.Library.{created_within};
ghost use Rattle.libc_arguments.specs.Seen.{values_seen};
ghost use Rattle.libc_heap.specs.Making.{moved_store, released, rows_made, CanMove, IsNewAt, IsStart, start_in, heap_start_in};
ghost use Rattle.libc_arguments.specs.Answers.{Does, IsCall, are_sizes, given_value};

use addr_map::Row;
use exposure::Prov;
use libc_arguments::{Pointer, Range, copied, filled, pointer_at, size_at};
use prov_memory::{Block, CreateFault, LibAnswer, Memory, ObjKind, Touched, Value, Via};
use std::alloc::Global;
use ub_base::{Cause, Clause, Event, Item, NoMemory, ObjName};

/// How many bytes a single allocation gives at most (own).
const MOST: u64 = 1 << 20;

/// The limit on the sum of created bytes (own).
const CREATED: u64 = 1 << 26;

// The bytes of an allocation that gives an object.
fn given(size: u128) -> Option<u64>
    ensures { result ≡ (if is_given size then Some size else None) }
{
    if size == 0 || size > u128::from(MOST) {
        None
    } else {
        Some(size as u64)
    }
}

// The exact product of calloc.
fn product(count: u64, size: u64) -> u128
    ensures { result ≡ count * size }
{
    u128::from(count) * u128::from(size)
}

// The name of the object that an event allocates.
fn name_of(who: Event) -> ObjName
    ensures { result ≡ heap_name who }
{
    ObjName::Heap {
        frame: who.frame,
        turn: who.turn,
        node: who.node,
    }
}

// The sum of created bytes with one more object, at most 2^62.
fn sum_with(created: u64, size: u64) -> u64
    ensures { result ≡ min (created + max size 16) (2 ^ 62) }
{
    created.saturating_add(size.max(16)).min(1 << 62)
}

// Whether an object of this size passes the limit on created bytes.
fn check_created(m: &Memory, size: u64) -> Result<(), LibAnswer>
    ensures { result ≡ (if nat_lt (2 ^ 26) (min (m.now.created + max size 16) (2 ^ 62)) then Err
        (answers.Outside Created (min (m.now.created + max size 16) (2 ^ 62))) else Ok tt) }
{
    let sum = sum_with(m.created(), size);
    if sum > CREATED {
        Err(LibAnswer::Outside(Cause::Created, sum))
    } else {
        Ok(())
    }
}

// A new heap object, unwritten.
fn created(m: &mut Memory, name: ObjName, size: u64, t: &mut Touched) -> Result<Pointer, LibAnswer>
    ensures exact { (io : Io) → AreKnown m.old → Does (λ base. record { addr = base; prov = Whole name }) result t.new (store_of m.new io)
        (run m.new.rows (create m.new.rows name size 16 heap_kind None) (store_of m.old io)) }
    ensures rows { result ≢ Err answers.NoMemory → m.new.rows ≡ rows_made m.old name size }
    ensures born { IfOk result (λ new. IsBorn m.old m.new name new.addr size 16 heap_kind None) }
    ensures known { AreKnown m.old → OnOk result (AreKnown m.new) }
    ensures same { OnErr result (result ≢ Err answers.NoMemory → m.new ≡ m.old) }
    ensures keeps { Keeps m.old m.new }
    ensures whole { IfOk result (λ new. IsMade m.new new.prov) }
{
    let kind = ObjKind {
        heap: true,
        literal: false,
        constant: false,
    };
    match m.create(name, size, 16, kind, None, t) {
        Ok(addr) => Ok(Pointer {
            addr,
            prov: Prov::Whole(name),
        }),
        Err(CreateFault::Unplaced) => Err(LibAnswer::Unplaced),
        Err(CreateFault::NoMemory) => Err(LibAnswer::NoMemory),
    }
}

/// malloc: null for 0 bytes and for more than 2^20 (own).
pub fn allocate(size: u64, who: Event, m: &mut Memory, t: &mut Touched) -> Result<Value, LibAnswer>
    ensures exact { (io : Io) → AreKnown m.old → Does given_value result t.new (store_of m.new io)
        (created_within size (store_of m.old io) (run m.new.rows (malloc m.new.rows who size) (store_of m.old io))) }
    ensures known { AreKnown m.old → OnOk result (AreKnown m.new) }
    ensures same { OnErr result (result ≢ Err answers.NoMemory → m.new ≡ m.old) }
    ensures failed { OnErr result (Keeps m.old m.new) }
    ensures kept { Keeps m.old m.new }
    ensures made { IfOk result (IsMadeValue m.new) }
{
    t.clear();
    let Some(size) = given(u128::from(size)) else {
        return Ok(Pointer::NULL.value());
    };
    check_created(m, size)?;
    match created(m, name_of(who), size, t) {
        Ok(new) => Ok(new.value()),
        Err(answer) => Err(answer),
    }
}

/// calloc: the same with the exact product, and zeros.
pub fn allocate_zeros(
    alloc: Global,
    args: &[Value],
    who: Event,
    m: &mut Memory,
    t: &mut Touched,
) -> Result<Value, LibAnswer>
    requires items { t.old ≡ [] }
    ensures exact { (io : Io) → are_sizes (values_seen args.now) (0 ∷ 1 ∷ []) ≡ true → AreKnown m.old → Above 16777216 m.old.rows →
        Does given_value result t.new (store_of m.new io) (created_within (asked Calloc (values_seen args.now)) (store_of m.old io)
        (run m.new.rows (calloc m.new.rows who (asked Calloc (values_seen args.now))) (store_of m.old io))) }
    ensures known { AreKnown m.old → OnOk result (AreKnown m.new) }
    ensures same { OnErr result (result ≢ Err answers.NoMemory → m.new ≡ m.old) }
    ensures failed { OnErr result (Keeps m.old m.new) }
    ensures kept { Keeps m.old m.new }
    ensures made { IfOk result (IsMadeValue m.new) }
{
    zeroed(
        alloc,
        product(size_at(args, 0), size_at(args, 1)),
        who,
        m,
        t,
    )
}

// calloc of so many bytes in all.
fn zeroed(
    alloc: Global,
    size: u128,
    who: Event,
    m: &mut Memory,
    t: &mut Touched,
) -> Result<Value, LibAnswer>
    requires items { t.old ≡ [] }
    ensures exact { (io : Io) → AreKnown m.old → Above 16777216 m.old.rows → Does given_value result t.new (store_of m.new io)
        (created_within size (store_of m.old io) (run m.new.rows (calloc m.new.rows who size) (store_of m.old io))) }
    ensures known { AreKnown m.old → OnOk result (AreKnown m.new) }
    ensures same { OnErr result (result ≢ Err answers.NoMemory → m.new ≡ m.old) }
    ensures failed { OnErr result (Keeps m.old m.new) }
    ensures kept { Keeps m.old m.new }
    ensures made { IfOk result (IsMadeValue m.new) }
{
    let Some(size) = given(size) else {
        return Ok(Pointer::NULL.value());
    };
    check_created(m, size)?;
    let name = name_of(who);
    add_zeroed(name, size, t)?;
    let mut scratch = Touched::new(alloc)?;
    let zeros = filled(alloc, 0, size)?;
    let new = created(m, name, size, &mut scratch)?;
    fill(m, name, new.addr, Via::Bytes, &zeros, &mut scratch);
    Ok(new.value())
}

// The items of a new object that is written whole.
fn add_zeroed(name: ObjName, size: u64, t: &mut Touched) -> Result<(), NoMemory>
    ensures { OnOk result (t.new ≡ t.old ++ (Born name ∷ Alive name ∷ Write name 0 size ∷ [])) }
{
    t.add(Item::Born(name))?;
    t.add(Item::Alive(name))?;
    t.add(Item::Write {
        object: name,
        from: 0,
        len: size,
    })
}

// Stores the bytes at the start of a new object, which refuses none.
fn fill(m: &mut Memory, object: ObjName, addr: u64, via: Via, block: &Block, scratch: &mut Touched)
    ensures exact { IsShort via (length block.now.cells) → (seen : Seen) → Sees m.old via seen → IsNewAt m.old object addr
        (length (tagged_all m.old block.now.cells)) → (io : Io) →
        store_of m.new io ≡ with_bytes (store_of m.old io) object 0 (stored_from None seen 0 (tagged_all m.old block.now.cells)) }
    ensures rows { m.new.rows ≡ m.old.rows }
    ensures known { AreKnown m.old → CellsKnown (length m.old.origins) block.now.cells → AreKnown m.new }
    ensures kept { IsNumbered (length m.old.types) via → CellsKnown (length m.old.origins) block.now.cells → CellsTagged (length m.old.types) block.now.cells →
        Keeps m.old m.new }
{
    let _ = m.store(true, via, 1, addr, Prov::Whole(object), block, scratch);
}

fn base_in(row: Option<Row>) -> u64
    ensures { result ≡ base_in row }
{
    match row {
        Some(row) => row.base,
        None => 0,
    }
}

// Whether the object is a live one of the heap that begins at the address.
fn is_heap_start(m: &Memory, object: ObjName, addr: u64) -> bool
    ensures { result ≡ is_heap_start (row_of m.now.rows object) addr (life_in (held_of m.now.objects object)) }
{
    let base = base_in(m.map().row(object));
    match m.object(object) {
        Some(state) => state.live && state.kind.heap && base == addr,
        None => false,
    }
}

/// free: nothing for null; 7.22.3.3p2 for what isn't the start of a live heap object, which otherwise dies.
pub fn free(
    alloc: Global,
    pointer: Pointer,
    clause: Clause,
    m: &mut Memory,
    t: &mut Touched,
) -> Result<(), LibAnswer>
    ensures exact { (io : Io) → HasCell m.old pointer.prov → Does (λ u. u) result t.new (store_of m.new io)
        (run m.new.rows (free m.new.rows pointer.addr pointer.prov clause) (store_of m.old io)) }
    ensures known { AreKnown m.old → AreKnown m.new }
    ensures same { OnErr result (m.new ≡ m.old) }
    ensures kept { Keeps m.old m.new }
{
    t.clear();
    if pointer.addr == 0 {
        return Ok(());
    }
    match pointer.prov {
        Prov::Empty => Err(LibAnswer::Raise(clause)),
        Prov::Whole(object) => free_object(object, pointer.addr, clause, m, t),
        Prov::Either { id, past, start } => {
            free_start(alloc, id, past, start, pointer.addr, clause, m, t)
        }
    }
}

// What a pointer of one object frees.
fn free_object(
    object: ObjName,
    addr: u64,
    clause: Clause,
    m: &mut Memory,
    t: &mut Touched,
) -> Result<(), LibAnswer>
    requires { addr ≢ 0 }
    ensures exact { (io : Io) → Does (λ u. u) result t.new (store_of m.new io)
        (run m.new.rows (free m.new.rows addr (Whole object) clause) (store_of m.old io)) }
    ensures known { AreKnown m.old → AreKnown m.new }
    ensures same { OnErr result (m.new ≡ m.old) }
    ensures kept { Keeps m.old m.new }
{
    let is_start = is_heap_start(m, object, addr);
    if is_start {
        m.kill(object, t);
        Ok(())
    } else {
        Err(LibAnswer::Raise(clause))
    }
}

// What an ambiguous pointer frees: the object that it may begin.
fn free_start(
    alloc: Global,
    id: Event,
    past: ObjName,
    start: ObjName,
    addr: u64,
    clause: Clause,
    m: &mut Memory,
    t: &mut Touched,
) -> Result<(), LibAnswer>
    requires start { addr ≢ 0 }
    requires items { t.old ≡ [] }
    ensures exact { (io : Io) → has_cell m.old.cells id ≡ true → Does (λ u. u) result t.new (store_of m.new io)
        (run m.new.rows (free m.new.rows addr (Either id past start) clause) (store_of m.old io)) }
    ensures known { AreKnown m.old → AreKnown m.new }
    ensures same { OnErr result (m.new ≡ m.old) }
    ensures kept { Keeps m.old m.new }
{
    let mut scratch = Touched::new(alloc)?;
    t.add(Item::Narrow { id, keep: start })?;
    t.add(Item::Dies(start))?;
    let is_start = is_heap_start(m, start, addr);
    if is_start && m.narrow(id, start) {
        m.kill(start, &mut scratch);
        Ok(())
    } else {
        Err(LibAnswer::Raise(clause))
    }
}

// Whether the ambiguity was settled to another object.
fn is_lost(m: &Memory, id: Event, keep: ObjName) -> bool
    ensures { result ≡ is_other (kept_in m.now.cells id) keep }
{
    match m.kept(id) {
        None => false,
        Some(kept) => kept != keep,
    }
}

// The object that a pointer to the heap means, and what that settles.
fn start_of(m: &Memory, prov: Prov) -> Option<(ObjName, Option<(Event, ObjName)>)>
    ensures { result ≡ start_in m.now.cells prov }
{
    match prov {
        Prov::Empty => None,
        Prov::Whole(object) => Some((object, None)),
        Prov::Either { id, start, .. } => {
            if is_lost(m, id, start) {
                None
            } else {
                Some((start, Some((id, start))))
            }
        }
    }
}

// The same where a live heap object begins at the address.
fn heap_start(m: &Memory, pointer: Pointer) -> Option<(ObjName, Option<(Event, ObjName)>)>
    ensures { result ≡ heap_start_in m.now pointer.addr pointer.prov }
{
    let start = start_of(m, pointer.prov)?;
    if is_heap_start(m, start.0, pointer.addr) {
        Some(start)
    } else {
        None
    }
}

/// realloc: as malloc for null; 7.22.3.5p3 for what isn't the start of a live heap object; as free for 0 bytes; null, with
/// the object as it was, for more than 2^20; else a new object with the bytes that both have, and the old one dies.
pub fn reallocate(
    alloc: Global,
    args: &[Value],
    who: Event,
    m: &mut Memory,
    t: &mut Touched,
) -> Result<Value, LibAnswer>
    requires items { t.old ≡ [] }
    ensures exact { (io : Io) → IsCall Realloc (values_seen args.now) m.old io → Does given_value result t.new (store_of m.new io)
        (created_within (asked Realloc (values_seen args.now)) (store_of m.old io)
        (run m.new.rows (library m.new.rows Realloc (values_seen args.now) who) (store_of m.old io))) }
    ensures known { AreKnown m.old → OnOk result (AreKnown m.new) }
    ensures same { OnErr result (result ≢ Err answers.NoMemory → m.new ≡ m.old) }
    ensures failed { OnErr result (Keeps m.old m.new) }
    ensures kept { AreKnown m.old → AreTagged m.old → Keeps m.old m.new }
    ensures made { AreKnown m.old → AreTagged m.old → IfOk result (IsMadeValue m.new) }
{
    change_size(alloc, pointer_at(args, 0), size_at(args, 1), who, m, t)
}

// realloc of a pointer to a size.
fn change_size(
    alloc: Global,
    pointer: Pointer,
    size: u64,
    who: Event,
    m: &mut Memory,
    t: &mut Touched,
) -> Result<Value, LibAnswer>
    requires items { t.old ≡ [] }
    ensures exact { (io : Io) → CanMove m.old → HasCell m.old pointer.prov → Does given_value result t.new (store_of m.new io)
        (created_within size (store_of m.old io) (run m.new.rows (realloc m.new.rows who pointer.addr pointer.prov size) (store_of m.old io))) }
    ensures known { AreKnown m.old → OnOk result (AreKnown m.new) }
    ensures same { OnErr result (result ≢ Err answers.NoMemory → m.new ≡ m.old) }
    ensures failed { OnErr result (Keeps m.old m.new) }
    ensures kept { AreKnown m.old → AreTagged m.old → Keeps m.old m.new }
    ensures made { AreKnown m.old → AreTagged m.old → IfOk result (IsMadeValue m.new) }
{
    if pointer.addr == 0 {
        return allocate(size, who, m, t);
    }
    if size == 0 {
        return release(alloc, pointer, m, t);
    }
    resize(alloc, pointer, size, who, m, t)
}

// realloc to no bytes.
fn release(
    alloc: Global,
    pointer: Pointer,
    m: &mut Memory,
    t: &mut Touched,
) -> Result<Value, LibAnswer>
    ensures exact { (io : Io) → HasCell m.old pointer.prov → Does given_value result t.new (store_of m.new io)
        (run m.new.rows (released m.new.rows pointer.addr pointer.prov) (store_of m.old io)) }
    ensures known { AreKnown m.old → AreKnown m.new }
    ensures same { OnErr result (m.new ≡ m.old) }
    ensures kept { Keeps m.old m.new }
    ensures made { IfOk result (IsMadeValue m.new) }
{
    match free(alloc, pointer, Clause::Realloc, m, t) {
        Ok(()) => Ok(Pointer::NULL.value()),
        Err(answer) => Err(answer),
    }
}

// realloc of an object to some bytes.
fn resize(
    alloc: Global,
    pointer: Pointer,
    size: u64,
    who: Event,
    m: &mut Memory,
    t: &mut Touched,
) -> Result<Value, LibAnswer>
    requires start { pointer.addr ≢ 0 }
    requires some { size ≢ 0 }
    requires items { t.old ≡ [] }
    ensures exact { (io : Io) → CanMove m.old → HasCell m.old pointer.prov → Does given_value result t.new (store_of m.new io)
        (created_within size (store_of m.old io) (run m.new.rows (resized m.new.rows who pointer.addr pointer.prov size) (store_of m.old io))) }
    ensures known { AreKnown m.old → OnOk result (AreKnown m.new) }
    ensures same { OnErr result (result ≢ Err answers.NoMemory → m.new ≡ m.old) }
    ensures failed { OnErr result (Keeps m.old m.new) }
    ensures kept { AreKnown m.old → AreTagged m.old → Keeps m.old m.new }
    ensures made { AreKnown m.old → AreTagged m.old → IfOk result (IsMadeValue m.new) }
{
    let Some((object, settles)) = heap_start(m, pointer) else {
        return Err(LibAnswer::Raise(Clause::Realloc));
    };
    add_start(object, settles, t)?;
    if size > MOST {
        settle_start(m, settles);
        return Ok(Pointer::NULL.value());
    }
    check_created(m, size)?;
    match move_to(
        alloc,
        object,
        settles,
        pointer.addr,
        size,
        name_of(who),
        m,
        t,
    ) {
        Ok(new) => Ok(new.value()),
        Err(answer) => Err(answer),
    }
}

// The items of what is asked about the object that a pointer means.
fn add_start(
    object: ObjName,
    settles: Option<(Event, ObjName)>,
    t: &mut Touched,
) -> Result<(), NoMemory>
    ensures { OnOk result (t.new ≡ t.old ++ (settling_items settles ++ Alive object ∷ [])) }
{
    if let Some((id, keep)) = settles {
        t.add(Item::Narrow { id, keep })?;
    }
    t.add(Item::Alive(object))
}

// Settles what a pointer settles.
fn settle_start(m: &mut Memory, settles: Option<(Event, ObjName)>)
    ensures store { CanSettle m.old.cells settles → (io : Io) → store_of m.new io ≡ after_settling settles (store_of m.old io) }
    ensures rest { record m.new { cells = [] } ≡ record m.old { cells = [] } }
    ensures keeps { Keeps m.old m.new }
{
    if let Some((id, keep)) = settles {
        let _ = m.narrow(id, keep);
    }
}

// A new object that begins with the bytes that both have, pieces and tags among them; the old one dies.
fn move_to(
    alloc: Global,
    object: ObjName,
    settles: Option<(Event, ObjName)>,
    addr: u64,
    size: u64,
    name: ObjName,
    m: &mut Memory,
    t: &mut Touched,
) -> Result<Pointer, LibAnswer>
    requires { IsStart m.old object addr }
    ensures made { (io : Io) → AreKnown m.old → (s : Store) × Does (λ base. record { addr = base; prov = Whole name }) result (Born name ∷ []) s
        (run (rows_made m.old name size) (create (rows_made m.old name size) name size 16 heap_kind None) (store_of m.old io)) }
    ensures store { OnOk result ((io : Io) → CanMove m.old → CanSettle m.old.cells settles →
        store_of m.new io ≡ moved_store (rows_made m.old name size) object name size (after_settling settles (store_of m.old io))) }
    ensures rows { result ≢ Err answers.NoMemory → m.new.rows ≡ rows_made m.old name size }
    ensures items { OnOk result (t.new ≡ t.old ++ (Read object 0 (min (size_in (row_of m.old.rows object)) size) ∷ Born name ∷ Alive name ∷ Write name 0
        (min (size_in (row_of m.old.rows object)) size) ∷ Dies object ∷ [])) }
    ensures known { AreKnown m.old → OnOk result (AreKnown m.new) }
    ensures same { OnErr result (result ≢ Err answers.NoMemory → m.new ≡ m.old) }
    ensures failed { OnErr result (Keeps m.old m.new) }
    ensures kept { AreKnown m.old → AreTagged m.old → Keeps m.old m.new }
    ensures whole { AreKnown m.old → AreTagged m.old → IfOk result (λ new. IsMade m.new new.prov) }
{
    let len = size_in(m.map().row(object)).min(size);
    add_moved(object, len, name, t)?;
    let mut scratch = Touched::new(alloc)?;
    let new = created(m, name, size, &mut scratch)?;
    settle_start(m, settles);
    let old = Range {
        object,
        from: 0,
        len,
    };
    let block = copied(m, addr, old, &mut scratch)?;
    fill(m, name, new.addr, Via::Whole, &block, &mut scratch);
    m.kill(object, &mut scratch);
    Ok(new)
}

fn size_in(row: Option<Row>) -> u64
    ensures { result ≡ size_in row }
{
    match row {
        Some(row) => row.size,
        None => 0,
    }
}

// The items of bytes that move to a new object.
fn add_moved(object: ObjName, len: u64, name: ObjName, t: &mut Touched) -> Result<(), NoMemory>
    ensures { OnOk result (t.new ≡ t.old ++ (Read object 0 len ∷ Born name ∷ Alive name ∷ Write name 0 len ∷ Dies object ∷ [])) }
{
    t.add(Item::Read {
        object,
        from: 0,
        len,
    })?;
    t.add(Item::Born(name))?;
    t.add(Item::Alive(name))?;
    t.add(Item::Write {
        object: name,
        from: 0,
        len,
    })?;
    t.add(Item::Dies(object))
}
