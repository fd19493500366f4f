// The acts that store: an assignment, a declaration's value, the constant bytes of an initializer list (6.5.16, 6.7.9).
ghost use Rattle.std.specs.Prelude.{◌≡◌, ◌+◌, ◌<◌, List, length, slice_get, None, Some, IfOk, OnErr};
ghost use Rattle.addr_map.specs.declared.map.Row.{Row};
ghost use Rattle.c_model.specs.Values as model;
ghost use Rattle.mem_objects.specs.Made.{IsMade};
ghost use Rattle.mem_objects.specs.Keeps.{Keeps, RowsStay};
ghost use Rattle.mem_objects.specs.Sound.{IsSound};
ghost use Rattle.run_values.specs.Kept.{IsOf};
ghost use Rattle.run_values.specs.Views.{value_in, pointer_at};
ghost use Rattle.run_layout.specs.declared.steps.Operand.TheVariants as operands;
ghost use Rattle.run_state.specs.Stands.{StandsTables};
ghost use Rattle.run_answers.specs.Acts.{filled_from, given_by, stored_by, IsGiven};
ghost use Rattle.run_answers.specs.Performs.{CanAct, CanPut, Effects, Puts};
ghost use Rattle.run_answers.specs.Performs.{TouchesMemory, TouchesSpare};

use prov_memory::{Value, Via};
use run_acts::{fill, store};
use run_answers::{Fault, Outcome};
use run_layout::{Operand, StoreCode};
use run_state::{Image, Machine};
use run_values::{Filling, Pointer};
use ub_base::{Clause, NoMemory};

// How the store of this number accesses memory.
fn target_of<'p>(machine: &Machine<'p, '_>, number: u32) -> (StoreCode<'p>, Via)
    requires there { number < length machine.now.image.code.now.tables.stores.items }
    ensures store { slice_get machine.now.image.code.now.tables.stores.items number ≡ Some result.0 }
    ensures via { slice_get machine.now.image.vias.items number ≡ Some result.1 }
{
    let at = number as usize;
    (machine.image.code.tables.stores[at], machine.image.vias[at])
}

// The value in the room of this number, from the first one of a full expression on.
fn in_room(values: &Vec<Value>, first: usize, room: u32) -> Result<&Value, NoMemory>
    ensures { IfOk result (λ v. slice_get values.now.items (first + room) ≡ Some v.now) }
{
    match values.get(first.saturating_add(room as usize)) {
        Some(value) => Ok(value),
        None => Err(NoMemory),
    }
}

// The effect of an Assign or Update: the value goes to the place.
pub fn store_value(
    machine: &mut Machine,
    number: u32,
    place: &Operand,
    value: &Operand,
) -> Result<Outcome, Fault>
    requires there { number < length machine.old.image.code.now.tables.stores.items }
    ensures exact { CanAct machine.old → StandsTables machine.old → IsGiven machine.old place.now → IsGiven machine.old value.now →
        Effects machine.old machine.new (stored_by machine.old.memory.rows (slice_get machine.old.image.code.now.tables.stores.items number)
        (model.pointer_of (given_by machine.old place.now)) (given_by machine.old value.now)) result }
    ensures rest { TouchesMemory machine.old machine.new }
    ensures rows { CanAct machine.old → StandsTables machine.old → IsGiven machine.old place.now → IsGiven machine.old value.now →
        OnErr result (RowsStay machine.old.memory.rows machine.new.memory.rows) }
{
    let place = machine.pointer(*place);
    match *value {
        Operand::Done(room) => store_room(machine, number, place, room),
        _ => store_quiet(machine, number, place, value),
    }
}

// The value in the room of this number goes to the place.
#[inline(never)]
fn store_room(
    machine: &mut Machine,
    number: u32,
    place: Pointer,
    room: u32,
) -> Result<Outcome, Fault>
    requires there { number < length machine.old.image.code.now.tables.stores.items }
    ensures exact { CanAct machine.old → StandsTables machine.old → IsMade machine.old.memory place.prov → IsGiven machine.old (operands.Done room) →
        Effects machine.old machine.new (stored_by machine.old.memory.rows (slice_get machine.old.image.code.now.tables.stores.items number) (pointer_at place)
        (given_by machine.old (operands.Done room))) result }
    ensures rest { TouchesMemory machine.old machine.new }
    ensures rows { CanAct machine.old → StandsTables machine.old → IsMade machine.old.memory place.prov → IsGiven machine.old (operands.Done room) →
        OnErr result (RowsStay machine.old.memory.rows machine.new.memory.rows) }
{
    let found = target_of(machine, number);
    let (target, via) = found;
    let value = in_room(&machine.values, machine.top.base, room)?;
    let (access, initializing) = (target.access, target.initializing);
    let t = &mut machine.items;
    store(
        &mut machine.memory,
        access,
        via,
        initializing,
        place,
        value,
        t,
    )?;
    Ok(Outcome::Done)
}

// A value that is known beforehand goes to the place.
#[inline(never)]
fn store_quiet(
    machine: &mut Machine,
    number: u32,
    place: Pointer,
    value: &Operand,
) -> Result<Outcome, Fault>
    requires there { number < length machine.old.image.code.now.tables.stores.items }
    ensures exact { CanAct machine.old → StandsTables machine.old → IsMade machine.old.memory place.prov → IsGiven machine.old value.now →
        Effects machine.old machine.new (stored_by machine.old.memory.rows (slice_get machine.old.image.code.now.tables.stores.items number) (pointer_at place)
        (given_by machine.old value.now)) result }
    ensures rest { TouchesMemory machine.old machine.new }
    ensures rows { CanAct machine.old → StandsTables machine.old → IsMade machine.old.memory place.prov → IsGiven machine.old value.now →
        OnErr result (RowsStay machine.old.memory.rows machine.new.memory.rows) }
{
    let found = target_of(machine, number);
    let (target, via) = found;
    let value = machine.value(*value)?;
    let (access, initializing) = (target.access, target.initializing);
    let t = &mut machine.items;
    store(
        &mut machine.memory,
        access,
        via,
        initializing,
        place,
        &value,
        t,
    )?;
    Ok(Outcome::Done)
}

/// A parameter's store: the value goes to the place, by the store of this number, and `spare` has its items. The error is the clause that it raises.
pub fn put_at(
    machine: &mut Machine,
    number: u32,
    place: Pointer,
    value: &Value,
) -> Result<(), Clause>
    requires there { number < length machine.old.image.code.now.tables.stores.items }
    ensures exact { (rows : List Row) → CanPut rows machine.old place value.now → Puts rows machine.old machine.new
        (stored_by rows (slice_get machine.old.image.code.now.tables.stores.items number) (pointer_at place) (value_in machine.old.memory value.now)) result }
    ensures kept { IsSound machine.old.memory → StandsTables machine.old → IsOf machine.old.memory value.now → Keeps machine.old.memory machine.new.memory }
    ensures rest { TouchesSpare machine.old machine.new }
    ensures work { machine.new.work ≡ machine.old.work }
{
    let found = target_of(machine, number);
    let (target, via) = found;
    let (access, initializing) = (target.access, target.initializing);
    let t = &mut machine.spare;
    store(
        &mut machine.memory,
        access,
        via,
        initializing,
        place,
        value,
        t,
    )
}

// The constant bytes of this number.
fn fillings_of<'m>(image: &'m Image, number: u32) -> &'m [Filling]
    requires there { number < length image.now.code.now.tables.constants.items }
    ensures { slice_get image.now.fillings.items number ≡ Some result.now }
{
    image.fillings[number as usize].as_slice()
}

// The effect of a List: its constant bytes go to its object.
#[inline(never)]
pub fn fill_list(machine: &mut Machine, object: &Operand, constants: u32) -> Result<Outcome, Fault>
    requires there { constants < length machine.old.image.code.now.tables.constants.items }
    ensures exact { CanAct machine.old → StandsTables machine.old → IsGiven machine.old object.now →
        Effects machine.old machine.new (filled_from machine.old.memory.rows (slice_get machine.old.image.code.now.tables.constants.items constants)
        (model.pointer_of (given_by machine.old object.now))) result }
    ensures rest { TouchesMemory machine.old machine.new }
    ensures rows { CanAct machine.old → StandsTables machine.old → IsGiven machine.old object.now →
        OnErr result (RowsStay machine.old.memory.rows machine.new.memory.rows) }
{
    let object = machine.pointer(*object);
    let fillings = fillings_of(&machine.image, constants);
    let (t, spare) = (&mut machine.items, &mut machine.spare);
    fill(&mut machine.memory, fillings, object, t, spare)?;
    Ok(Outcome::Done)
}
