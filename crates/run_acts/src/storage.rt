// Loads, stores, and members of values.
ghost use Rattle.std.specs.Prelude.{◌≡◌, length, List, [], ◌++◌, IfOk, IfErr, OnOk};
ghost use Rattle.c_model.specs.Nodes as nodes;
ghost use Rattle.c_model.specs.Nodes.{overlap_inexactly};
ghost use Rattle.c_model.specs.Program.{Filling as Filled};
ghost use Rattle.c_model.specs.Values.{Nothing, int_bytes, part_bytes};
ghost use Rattle.c_types.specs.Types.{CType, type_of};
ghost use Rattle.mem_spec.specs.Acts as acts;
ghost use Rattle.mem_spec.specs.Acts.{Seen};
ghost use Rattle.mem_spec.specs.Agreement.{bytes_of_kind};
ghost use Rattle.mem_spec.specs.Bytes.{number_bytes, pointer_bytes};
ghost use Rattle.mem_spec.specs.Script.{run, Done, Raised};
ghost use Rattle.mem_spec.specs.Streams.{Io};
ghost use Rattle.mem_objects.specs.Loads.{IfRaise};
ghost use Rattle.mem_objects.specs.Made.{AreNamed, IsMade};
ghost use Rattle.mem_objects.specs.Keeps.{Keeps, IsNumbered};
ghost use Rattle.mem_objects.specs.Memory.{HasCell, AreKnown, CellsKnown, store_of};
ghost use Rattle.mem_objects.specs.Pieces.{seen};
ghost use Rattle.mem_objects.specs.Stores.{Sees};
ghost use Rattle.mem_objects.specs.Sound.{IsSound};
ghost use Rattle.mem_objects.specs.Tags.{AreTagged, CellsTagged};
ghost use Rattle.exposure.specs.declared.prov.Prov.{Prov};
ghost use Rattle.exposure.specs.declared.prov.Prov.TheVariants.{Whole};
ghost use Rattle.run_values.specs.Fills.{AreFillings, filling_act};
ghost use Rattle.run_acts.specs.Loads.{integer_act, pointer_act, function_act, whole_act};
ghost use Rattle.run_values.specs.Kept.{AreOf, IsOf};
ghost use Rattle.run_acts.specs.Parts.{integer_part, function_part};
ghost use Rattle.run_values.specs.Stores.{CanStore, SeesAs};
ghost use Rattle.run_values.specs.Views.{value_in, pointer_at};

use c_typed::Access;
use c_types::{IntKind, Ty};
use exposure::Prov;
use prov_memory::{Block, MemFault, Memory, Touched, Value, Via};
use run_values::{Filling, Pointer, as_function, as_integer, as_pointer};
use std::alloc::Global;
use ub_base::{Clause, Event};

/// The value at a place (6.3.2.1p2). `ty` is its type where it is a pointer or a function pointer.
pub fn load(
    m: &mut Memory,
    access: Access,
    ty: &Ty,
    who: Event,
    place: Pointer,
    t: &mut Touched,
) -> Result<Value, MemFault>
    ensures exact { IfOk result (λ value. HasCell m.old place.prov → AreKnown m.old → AreTagged m.old → (io : Io) →
        run m.old.rows (nodes.load m.old.rows who access (type_of ty.now) (pointer_at place)) (store_of m.old io) ≡ Done (value_in m.new value) t.new
        (store_of m.new io)) }
    ensures raises { IfErr result (λ fault. IfRaise fault (λ c. (io : Io) →
        run m.old.rows (nodes.load m.old.rows who access (type_of ty.now) (pointer_at place)) (store_of m.old io) ≡ Raised c)) }
    ensures same { IfErr result (λ fault. IfRaise fault (λ c. m.new ≡ m.old)) }
    ensures kept { Keeps m.old m.new }
    ensures made { IfOk result (λ value. IsSound m.old → AreTagged m.old → IsOf m.new value) }
{
    match access {
        Access::Integer(kind) => load_integer(m, kind, place, t),
        Access::Pointer => load_pointer(m, ty, who, place, t),
        Access::Function => load_function(m, ty, place, t),
        Access::Whole { size, align } => load_whole(m, size, align, place, t),
    }
}

fn load_integer(
    m: &mut Memory,
    kind: IntKind,
    place: Pointer,
    t: &mut Touched,
) -> Result<Value, MemFault>
    ensures exact { IfOk result (λ value. HasCell m.old place.prov → (io : Io) →
        run m.old.rows (integer_act m.old.rows kind (pointer_at place)) (store_of m.old io) ≡ Done (value_in m.new value) t.new (store_of m.new io)) }
    ensures raises { IfErr result (λ fault. IfRaise fault (λ c. (io : Io) →
        run m.old.rows (integer_act m.old.rows kind (pointer_at place)) (store_of m.old io) ≡ Raised c)) }
    ensures same { IfErr result (λ fault. IfRaise fault (λ c. m.new ≡ m.old)) }
    ensures kept { Keeps m.old m.new }
    ensures made { IfOk result (IsOf m.new) }
{
    let number = m.load_int(kind, place.addr, place.prov, t)?;
    Ok(Value::Int(number))
}

fn load_pointer(
    m: &mut Memory,
    ty: &Ty,
    who: Event,
    place: Pointer,
    t: &mut Touched,
) -> Result<Value, MemFault>
    ensures exact { IfOk result (λ value. HasCell m.old place.prov → AreKnown m.old → (io : Io) →
        run m.old.rows (pointer_act m.old.rows who (type_of ty.now) (pointer_at place)) (store_of m.old io) ≡ Done (value_in m.new value) t.new
        (store_of m.new io)) }
    ensures raises { IfErr result (λ fault. IfRaise fault (λ c. (io : Io) →
        run m.old.rows (pointer_act m.old.rows who (type_of ty.now) (pointer_at place)) (store_of m.old io) ≡ Raised c)) }
    ensures same { IfErr result (λ fault. IfRaise fault (λ c. m.new ≡ m.old)) }
    ensures kept { Keeps m.old m.new }
    ensures made { IfOk result (λ value. IsSound m.old → IsOf m.new value) }
{
    m.load_ptr(ty, who, 8, place.addr, place.prov, t)
}

fn load_function(
    m: &mut Memory,
    ty: &Ty,
    place: Pointer,
    t: &mut Touched,
) -> Result<Value, MemFault>
    ensures exact { IfOk result (λ value. HasCell m.old place.prov → (io : Io) →
        run m.old.rows (function_act m.old.rows (type_of ty.now) (pointer_at place)) (store_of m.old io) ≡ Done (value_in m.new value) t.new
        (store_of m.new io)) }
    ensures raises { IfErr result (λ fault. IfRaise fault (λ c. (io : Io) →
        run m.old.rows (function_act m.old.rows (type_of ty.now) (pointer_at place)) (store_of m.old io) ≡ Raised c)) }
    ensures same { IfErr result (λ fault. IfRaise fault (λ c. m.new ≡ m.old)) }
    ensures kept { Keeps m.old m.new }
    ensures made { IfOk result (IsOf m.new) }
{
    let addr = m.load_func(ty, place.addr, place.prov, t)?;
    Ok(Value::Func(addr))
}

fn load_whole(
    m: &mut Memory,
    size: u64,
    align: u64,
    place: Pointer,
    t: &mut Touched,
) -> Result<Value, MemFault>
    ensures exact { IfOk result (λ value. HasCell m.old place.prov → AreTagged m.old → (io : Io) →
        run m.old.rows (whole_act m.old.rows size align (pointer_at place)) (store_of m.old io) ≡ Done (value_in m.new value) t.new (store_of m.new io)) }
    ensures raises { IfErr result (λ fault. IfRaise fault (λ c. (io : Io) →
        run m.old.rows (whole_act m.old.rows size align (pointer_at place)) (store_of m.old io) ≡ Raised c)) }
    ensures same { IfErr result (λ fault. IfRaise fault (λ c. m.new ≡ m.old)) }
    ensures kept { Keeps m.old m.new }
    ensures made { IfOk result (λ value. IsSound m.old → AreTagged m.old → IsOf m.new value) }
{
    let block = m.load_block(size, align, place.addr, place.prov, t)?;
    Ok(Value::Block(block))
}

/// The member at this offset of a structure or union value (6.5.2.3p3), as a load reads its bytes.
pub fn part(
    alloc: Global,
    m: &mut Memory,
    access: Access,
    who: Event,
    whole: &Value,
    offset: u64,
    t: &mut Touched,
) -> Result<Value, MemFault>
    ensures exact { IfOk result (λ value. AreKnown m.old → (io : Io) → run m.old.rows (nodes.part_of who offset access (value_in m.old whole.now))
        (store_of m.old io) ≡ Done (value_in m.new value) t.new (store_of m.new io)) }
    ensures raises { IfErr result (λ fault. IfRaise fault (λ c. (io : Io) →
        run m.old.rows (nodes.part_of who offset access (value_in m.old whole.now)) (store_of m.old io) ≡ Raised c)) }
    ensures same { IfErr result (λ fault. IfRaise fault (λ c. m.new ≡ m.old)) }
    ensures kept { Keeps m.old m.new }
    ensures made { IfOk result (λ value. IsSound m.old → IsOf m.old whole.now → IsOf m.new value) }
{
    t.clear();
    let Value::Block(block) = whole else {
        return Ok(Value::Nothing);
    };
    match access {
        Access::Integer(kind) => part_integer(m, kind, block, offset, t),
        Access::Pointer => m.part_ptr(who, block, offset, t),
        Access::Function => part_function(m, block, offset, t),
        Access::Whole { size, align: _ } => {
            let part = block.part(alloc, offset, size)?;
            Ok(Value::Block(part))
        }
    }
}

fn part_integer(
    m: &mut Memory,
    kind: IntKind,
    block: &Block,
    offset: u64,
    t: &mut Touched,
) -> Result<Value, MemFault>
    ensures exact { IfOk result (λ value. (io : Io) → run m.old.rows (integer_part kind (part_bytes offset (bytes_of_kind kind) (seen m.old block.now.cells)))
        (store_of m.old io) ≡ Done (value_in m.new value) t.new (store_of m.new io)) }
    ensures raises { IfErr result (λ fault. IfRaise fault (λ c. (io : Io) →
        run m.old.rows (integer_part kind (part_bytes offset (bytes_of_kind kind) (seen m.old block.now.cells))) (store_of m.old io) ≡ Raised c)) }
    ensures same { IfErr result (λ fault. IfRaise fault (λ c. m.new ≡ m.old)) }
    ensures kept { Keeps m.old m.new }
    ensures made { IfOk result (IsOf m.new) }
{
    let number = m.part_int(kind, block, offset, t)?;
    Ok(Value::Int(number))
}

fn part_function(
    m: &mut Memory,
    block: &Block,
    offset: u64,
    t: &mut Touched,
) -> Result<Value, MemFault>
    ensures exact { IfOk result (λ value. (io : Io) → run m.old.rows (function_part (part_bytes offset 8 (seen m.old block.now.cells)))
        (store_of m.old io) ≡ Done (value_in m.new value) t.new (store_of m.new io)) }
    ensures raises { IfErr result (λ fault. IfRaise fault (λ c. (io : Io) →
        run m.old.rows (function_part (part_bytes offset 8 (seen m.old block.now.cells))) (store_of m.old io) ≡ Raised c)) }
    ensures same { IfErr result (λ fault. IfRaise fault (λ c. m.new ≡ m.old)) }
    ensures kept { Keeps m.old m.new }
    ensures made { IfOk result (IsOf m.new) }
{
    let addr = m.part_func(block, offset, t)?;
    Ok(Value::Func(addr))
}

/// Stores a value at a place (6.5.16). `via` is the type of the access. A structure or union value that was loaded from a
/// place which overlaps this one inexactly raises 6.5.16.1p3 after the checks of the store; the bytes are then replaced.
pub fn store(
    m: &mut Memory,
    access: Access,
    via: Via,
    initializing: bool,
    place: Pointer,
    value: &Value,
    t: &mut Touched,
) -> Result<(), Clause>
    ensures exact { OnOk result (CanStore m.old place value.now → (ty : CType) → SeesAs m.old via access ty → (io : Io) →
        run m.old.rows (nodes.put m.old.rows initializing access ty (pointer_at place) (value_in m.old value.now)) (store_of m.old io) ≡ Done Nothing t.new
        (store_of m.new io)) }
    ensures raises { IfErr result (λ c. CanStore m.old place value.now → (ty : CType) → SeesAs m.old via access ty → (io : Io) →
        run m.old.rows (nodes.put m.old.rows initializing access ty (pointer_at place) (value_in m.old value.now)) (store_of m.old io) ≡ Raised c) }
    ensures kept { IsNumbered (length m.old.types) via → IsSound m.old → IsOf m.old value.now → Keeps m.old m.new }
{
    t.clear();
    match access {
        Access::Integer(kind) => store_number(
            m,
            kind,
            via,
            initializing,
            place,
            as_integer(value),
            t,
        ),
        Access::Pointer => store_pointer(m, via, initializing, place, as_pointer(value), t),
        Access::Function => store_function(m, via, initializing, place, as_function(value), t),
        Access::Whole { size, align } => store_value(m, size, align, initializing, place, value, t),
    }
}

fn store_number(
    m: &mut Memory,
    kind: IntKind,
    via: Via,
    initializing: bool,
    place: Pointer,
    number: i128,
    t: &mut Touched,
) -> Result<(), Clause>
    ensures exact { OnOk result (HasCell m.old place.prov → (seen : Seen) → Sees m.old via seen → (io : Io) →
        run m.old.rows (acts.store m.old.rows initializing seen (bytes_of_kind kind) place.addr place.prov (int_bytes kind number))
        (store_of m.old io) ≡ Done tt t.new (store_of m.new io)) }
    ensures raises { IfErr result (λ c. (seen : Seen) → Sees m.old via seen → (io : Io) →
        run m.old.rows (acts.store m.old.rows initializing seen (bytes_of_kind kind) place.addr place.prov (int_bytes kind number))
        (store_of m.old io) ≡ Raised c) }
    ensures kept { IsNumbered (length m.old.types) via → Keeps m.old m.new }
{
    m.store_int(
        initializing,
        via,
        kind,
        number,
        kind.bytes(),
        place.addr,
        place.prov,
        t,
    )
}

fn store_pointer(
    m: &mut Memory,
    via: Via,
    initializing: bool,
    place: Pointer,
    pointer: Pointer,
    t: &mut Touched,
) -> Result<(), Clause>
    ensures exact { AreNamed m.old → IsMade m.old pointer.prov → OnOk result (HasCell m.old place.prov → (seen : Seen) → Sees m.old via seen → (io : Io) →
        run m.old.rows (acts.store m.old.rows initializing seen 8 place.addr place.prov (pointer_bytes 8 0 pointer.prov pointer.addr))
        (store_of m.old io) ≡ Done tt t.new (store_of m.new io)) }
    ensures raises { AreNamed m.old → IsMade m.old pointer.prov → IfErr result (λ c. (seen : Seen) → Sees m.old via seen → (io : Io) →
        run m.old.rows (acts.store m.old.rows initializing seen 8 place.addr place.prov (pointer_bytes 8 0 pointer.prov pointer.addr))
        (store_of m.old io) ≡ Raised c) }
    ensures kept { IsNumbered (length m.old.types) via → IsSound m.old → IsMade m.old pointer.prov → Keeps m.old m.new }
{
    m.store_ptr(
        initializing,
        via,
        8,
        place.addr,
        place.prov,
        pointer.addr,
        pointer.prov,
        t,
    )
}

fn store_function(
    m: &mut Memory,
    via: Via,
    initializing: bool,
    place: Pointer,
    addr: u64,
    t: &mut Touched,
) -> Result<(), Clause>
    ensures exact { OnOk result (HasCell m.old place.prov → (seen : Seen) → Sees m.old via seen → (io : Io) →
        run m.old.rows (acts.store m.old.rows initializing seen 8 place.addr place.prov (number_bytes 8 addr)) (store_of m.old io) ≡ Done tt t.new
        (store_of m.new io)) }
    ensures raises { IfErr result (λ c. (seen : Seen) → Sees m.old via seen → (io : Io) →
        run m.old.rows (acts.store m.old.rows initializing seen 8 place.addr place.prov (number_bytes 8 addr)) (store_of m.old io) ≡ Raised c) }
    ensures kept { IsNumbered (length m.old.types) via → Keeps m.old m.new }
{
    m.store_int(
        initializing,
        via,
        IntKind::ULong,
        i128::from(addr),
        8,
        place.addr,
        place.prov,
        t,
    )
}

fn store_value(
    m: &mut Memory,
    size: u64,
    align: u64,
    initializing: bool,
    place: Pointer,
    value: &Value,
    t: &mut Touched,
) -> Result<(), Clause>
    requires { t.old ≡ [] }
    ensures exact { OnOk result (HasCell m.old place.prov → (io : Io) → run m.old.rows
        (nodes.put_whole m.old.rows initializing size align (pointer_at place) (value_in m.old value.now)) (store_of m.old io) ≡ Done Nothing t.new
        (store_of m.new io)) }
    ensures raises { IfErr result (λ c. HasCell m.old place.prov → (io : Io) →
        run m.old.rows (nodes.put_whole m.old.rows initializing size align (pointer_at place) (value_in m.old value.now)) (store_of m.old io) ≡ Raised c) }
    ensures kept { IsOf m.old value.now → Keeps m.old m.new }
{
    let Value::Block(block) = value else {
        return Ok(());
    };
    m.store(
        initializing,
        Via::Whole,
        align,
        place.addr,
        place.prov,
        block,
        t,
    )?;
    if overlaps(block.source(), place.addr, size) {
        return Err(Clause::OverlappingAssignment);
    }
    Ok(())
}

// Two ranges of so many bytes overlap and aren't the same.
fn overlaps(source: Option<u64>, addr: u64, size: u64) -> bool
    ensures { result ≡ overlap_inexactly size addr source }
{
    match source {
        Some(from) => {
            from != addr && from < addr.saturating_add(size) && addr < from.saturating_add(size)
        }
        None => false,
    }
}

/// Stores the bytes in an object as its initialization (6.7.9). `spare` is overwritten.
pub fn fill(
    m: &mut Memory,
    fillings: &[Filling],
    object: Pointer,
    t: &mut Touched,
    spare: &mut Touched,
) -> Result<(), MemFault>
    ensures exact { OnOk result (IsMade m.old object.prov → (cs : List Filled) → AreFillings m.old fillings.now cs → (io : Io) →
        run m.old.rows (nodes.fill m.old.rows (pointer_at object) cs) (store_of m.old io) ≡ Done Nothing t.new (store_of m.new io)) }
    ensures raises { IfErr result (λ fault. IfRaise fault (λ c. IsMade m.old object.prov → (cs : List Filled) → AreFillings m.old fillings.now cs → (io : Io) →
        run m.old.rows (nodes.fill m.old.rows (pointer_at object) cs) (store_of m.old io) ≡ Raised c)) }
    ensures kept { AreOf m.old fillings.now → Keeps m.old m.new }
{
    t.clear();
    for filling in fillings {
        fill_one(m, filling, object, t, spare)?;
    }
    Ok(())
}

// One store of an initialization. Its items go behind those of the stores before it.
fn fill_one(
    m: &mut Memory,
    filling: &Filling,
    object: Pointer,
    t: &mut Touched,
    spare: &mut Touched,
) -> Result<(), MemFault>
    ensures exact { OnOk result (IsMade m.old object.prov → (io : Io) →
        run m.old.rows (filling_act m.old filling.now (pointer_at object)) (store_of m.old io) ≡ Done tt spare.new (store_of m.new io)) }
    ensures items { OnOk result (t.new ≡ t.old ++ spare.new) }
    ensures raises { IfErr result (λ fault. IfRaise fault (λ c. (io : Io) →
        run m.old.rows (filling_act m.old filling.now (pointer_at object)) (store_of m.old io) ≡ Raised c)) }
    ensures rest { record m.new { objects = []; cells = [] } ≡ record m.old { objects = []; cells = [] } }
    ensures made { (p : Prov) → IsMade m.old p → IsMade m.new p }
    ensures kept { CellsKnown (length m.old.origins) filling.now.bytes.cells → CellsTagged (length m.old.types) filling.now.bytes.cells → Keeps m.old m.new }
{
    let addr = object.addr.saturating_add(filling.at);
    m.store(
        true,
        Via::Bytes,
        1,
        addr,
        object.prov,
        &filling.bytes,
        spare,
    )?;
    t.join(spare)?;
    Ok(())
}
