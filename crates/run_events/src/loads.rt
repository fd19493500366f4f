// The acts that load: what an object holds goes to the room of the node (6.3.2.1p2).
ghost use Rattle.std.specs.Prelude.{◌≡◌, ◌<◌, None, Some, OnErr};
ghost use Rattle.mem_objects.specs.Keeps.{RowsStay};
ghost use Rattle.mem_objects.specs.Memory.{HasCell};
ghost use Rattle.run_values.specs.Views.{pointer_at};
ghost use Rattle.c_typed.specs.declared.tree.Access.TheVariants as accesses;
ghost use Rattle.run_acts.specs.Loads.{integer_act};
ghost use Rattle.run_layout.specs.declared.steps.Act.{Act as ActOf};
ghost use Rattle.run_layout.specs.declared.steps.Act.TheVariants as acts;
ghost use Rattle.run_answers.specs.Acts.{script_in, AreGiven};
ghost use Rattle.run_answers.specs.Performs.{kept_room, CanAct, ChangesOnly, Does};
ghost use Rattle.run_events.specs.Places.{LeadsTo};

use crate::places::{object_at, pointer_into};
use c_typed::Access;
use c_types::{IntKind, Ty};
use prov_memory::Value;
use run_acts::load;
use run_answers::{Fault, Outcome};
use run_layout::Operand;
use run_state::Machine;
use run_values::Pointer;
use ub_base::Event;

// The value at a place. Most loads are of integers, whose value is put into the room without a copy of what other values have, and of pointers.
#[inline(never)]
pub fn loaded(
    machine: &mut Machine,
    access: &Access,
    ty: &Ty,
    place: &Operand,
    event: Event,
) -> Result<Outcome, Fault>
    ensures exact { CanAct machine.old → AreGiven machine.old event (acts.Load access.now ty.entry place.now) →
        Does machine.old machine.new event (acts.Load access.now ty.entry place.now) result }
    ensures changes { ChangesOnly machine.old machine.new event.node (acts.Load access.now ty.entry place.now) }
    ensures rows { OnErr result (RowsStay machine.old.memory.rows machine.new.memory.rows) }
{
    match *access {
        Access::Integer(kind) => loaded_integer(machine, kind, ty, place, event),
        Access::Pointer => loaded_pointer(machine, ty, place, event),
        _ => loaded_value(machine, access, ty, place, event),
    }
}

// An integer. Most stand in places of one object.
#[inline(always)]
fn loaded_integer(
    machine: &mut Machine,
    kind: IntKind,
    ty: &Ty,
    place: &Operand,
    event: Event,
) -> Result<Outcome, Fault>
    ensures exact { CanAct machine.old → AreGiven machine.old event (acts.Load (accesses.Integer kind) ty.entry place.now) →
        Does machine.old machine.new event (acts.Load (accesses.Integer kind) ty.entry place.now) result }
    ensures changes { ChangesOnly machine.old machine.new event.node (acts.Load (accesses.Integer kind) ty.entry place.now) }
    ensures rows { OnErr result (RowsStay machine.old.memory.rows machine.new.memory.rows) }
{
    match object_at(machine, *place) {
        Some((name, addr)) => integer_at(machine, kind, pointer_into(name, addr), event),
        None => integer_elsewhere(machine, kind, ty, place, event),
    }
}

// An integer at any place. Not inlined, since few are others.
#[inline(never)]
fn integer_elsewhere(
    machine: &mut Machine,
    kind: IntKind,
    ty: &Ty,
    place: &Operand,
    event: Event,
) -> Result<Outcome, Fault>
    ensures exact { CanAct machine.old → AreGiven machine.old event (acts.Load (accesses.Integer kind) ty.entry place.now) →
        Does machine.old machine.new event (acts.Load (accesses.Integer kind) ty.entry place.now) result }
    ensures changes { ChangesOnly machine.old machine.new event.node (acts.Load (accesses.Integer kind) ty.entry place.now) }
    ensures rows { OnErr result (RowsStay machine.old.memory.rows machine.new.memory.rows) }
{
    let place = machine.pointer(*place);
    integer_at(machine, kind, place, event)
}

// The integer at this place goes to the room of the event's node.
#[inline(always)]
fn integer_at(
    machine: &mut Machine,
    kind: IntKind,
    place: Pointer,
    event: Event,
) -> Result<Outcome, Fault>
    ensures exact { CanAct machine.old → HasCell machine.old.memory place.prov → (a : ActOf) → kept_room a ≡ None →
        script_in machine.old.memory.rows machine.old event a ≡ integer_act machine.old.memory.rows kind (pointer_at place) →
        Does machine.old machine.new event a result }
    ensures changes { (a : ActOf) → ChangesOnly machine.old machine.new event.node a }
    ensures rows { OnErr result (RowsStay machine.old.memory.rows machine.new.memory.rows) }
{
    let t = &mut machine.items;
    let number = machine.memory.load_int(kind, place.addr, place.prov, t)?;
    machine.keep(event.node, Value::Int(number));
    Ok(Outcome::Done)
}

// A pointer to an object. Most stand in places of one object.
#[inline(never)]
fn loaded_pointer(
    machine: &mut Machine,
    ty: &Ty,
    place: &Operand,
    event: Event,
) -> Result<Outcome, Fault>
    ensures exact { CanAct machine.old → AreGiven machine.old event (acts.Load accesses.Pointer ty.entry place.now) →
        Does machine.old machine.new event (acts.Load accesses.Pointer ty.entry place.now) result }
    ensures changes { ChangesOnly machine.old machine.new event.node (acts.Load accesses.Pointer ty.entry place.now) }
    ensures rows { OnErr result (RowsStay machine.old.memory.rows machine.new.memory.rows) }
{
    match object_at(machine, *place) {
        Some((name, addr)) => {
            pointer_loaded_at(machine, ty, place, pointer_into(name, addr), event)
        }
        None => pointer_elsewhere(machine, ty, place, event),
    }
}

// A pointer at any place. Not inlined, since few are others.
#[inline(never)]
fn pointer_elsewhere(
    machine: &mut Machine,
    ty: &Ty,
    place: &Operand,
    event: Event,
) -> Result<Outcome, Fault>
    ensures exact { CanAct machine.old → AreGiven machine.old event (acts.Load accesses.Pointer ty.entry place.now) →
        Does machine.old machine.new event (acts.Load accesses.Pointer ty.entry place.now) result }
    ensures changes { ChangesOnly machine.old machine.new event.node (acts.Load accesses.Pointer ty.entry place.now) }
    ensures rows { OnErr result (RowsStay machine.old.memory.rows machine.new.memory.rows) }
{
    let at = machine.pointer(*place);
    pointer_loaded_at(machine, ty, place, at, event)
}

// The pointer at the place to which the operand leads goes to the room of the event's node.
#[inline(always)]
fn pointer_loaded_at(
    machine: &mut Machine,
    ty: &Ty,
    place: &Operand,
    at: Pointer,
    event: Event,
) -> Result<Outcome, Fault>
    ensures exact { LeadsTo machine.old place.now at → CanAct machine.old → AreGiven machine.old event (acts.Load accesses.Pointer ty.entry place.now) →
        Does machine.old machine.new event (acts.Load accesses.Pointer ty.entry place.now) result }
    ensures changes { ChangesOnly machine.old machine.new event.node (acts.Load accesses.Pointer ty.entry place.now) }
    ensures rows { OnErr result (RowsStay machine.old.memory.rows machine.new.memory.rows) }
{
    let t = &mut machine.items;
    let value = machine.memory.load_ptr(ty, event, 8, at.addr, at.prov, t)?;
    machine.keep(event.node, value);
    Ok(Outcome::Done)
}

#[inline(never)]
fn loaded_value(
    machine: &mut Machine,
    access: &Access,
    ty: &Ty,
    place: &Operand,
    event: Event,
) -> Result<Outcome, Fault>
    ensures exact { CanAct machine.old → AreGiven machine.old event (acts.Load access.now ty.entry place.now) →
        Does machine.old machine.new event (acts.Load access.now ty.entry place.now) result }
    ensures changes { ChangesOnly machine.old machine.new event.node (acts.Load access.now ty.entry place.now) }
    ensures rows { OnErr result (RowsStay machine.old.memory.rows machine.new.memory.rows) }
{
    let place = machine.pointer(*place);
    let t = &mut machine.items;
    let value = load(&mut machine.memory, *access, ty, event, place, t)?;
    machine.keep(event.node, value);
    Ok(Outcome::Done)
}
