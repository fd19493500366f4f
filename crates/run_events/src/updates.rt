// Updates: their value, and what they will store.
ghost use Rattle.std.specs.Prelude.{◌≡◌, OnErr};
ghost use Rattle.mem_objects.specs.Keeps.{RowsStay};
ghost use Rattle.run_layout.specs.declared.steps.Act.TheVariants as acts;
ghost use Rattle.run_answers.specs.Acts.{AreGiven};
ghost use Rattle.run_answers.specs.Performs.{CanAct, ChangesOnly, Does};
ghost use Rattle.run_events.specs.Places.{LeadsTo};

use crate::places::{object_at, pointer_into};
use c_typed::Change;
use c_types::Ty;
use run_acts::changed;
use run_answers::{Fault, Outcome};
use run_layout::Operand;
use run_state::Machine;
use run_values::Pointer;
use ub_base::Event;

// An Update's value, and in its room what it will store. Most are of places in one object.
#[inline(never)]
pub fn update(
    machine: &mut Machine,
    change: Change,
    old: bool,
    ty: &Ty,
    event: Event,
    place: &Operand,
    operand: &Operand,
    room: u32,
) -> Result<Outcome, Fault>
    ensures exact { CanAct machine.old → AreGiven machine.old event (acts.Change change old ty.entry place.now operand.now room) →
        Does machine.old machine.new event (acts.Change change old ty.entry place.now operand.now room) result }
    ensures changes { ChangesOnly machine.old machine.new event.node (acts.Change change old ty.entry place.now operand.now room) }
    ensures rows { OnErr result (RowsStay machine.old.memory.rows machine.new.memory.rows) }
{
    match object_at(machine, *place) {
        Some((name, addr)) => {
            let at = pointer_into(name, addr);
            update_at(machine, change, old, ty, event, place, at, operand, room)
        }
        None => update_elsewhere(machine, change, old, ty, event, place, operand, room),
    }
}

// That of any place. Not inlined, since few are others.
#[inline(never)]
fn update_elsewhere(
    machine: &mut Machine,
    change: Change,
    old: bool,
    ty: &Ty,
    event: Event,
    place: &Operand,
    operand: &Operand,
    room: u32,
) -> Result<Outcome, Fault>
    ensures exact { CanAct machine.old → AreGiven machine.old event (acts.Change change old ty.entry place.now operand.now room) →
        Does machine.old machine.new event (acts.Change change old ty.entry place.now operand.now room) result }
    ensures changes { ChangesOnly machine.old machine.new event.node (acts.Change change old ty.entry place.now operand.now room) }
    ensures rows { OnErr result (RowsStay machine.old.memory.rows machine.new.memory.rows) }
{
    let at = machine.pointer(*place);
    update_at(machine, change, old, ty, event, place, at, operand, room)
}

// That of the place to which the operand leads.
#[inline(always)]
fn update_at(
    machine: &mut Machine,
    change: Change,
    old: bool,
    ty: &Ty,
    event: Event,
    place: &Operand,
    at: Pointer,
    operand: &Operand,
    room: u32,
) -> Result<Outcome, Fault>
    ensures exact { LeadsTo machine.old place.now at → CanAct machine.old → AreGiven machine.old event
        (acts.Change change old ty.entry place.now operand.now room) →
        Does machine.old machine.new event (acts.Change change old ty.entry place.now operand.now room) result }
    ensures changes { LeadsTo machine.old place.now at →
        ChangesOnly machine.old machine.new event.node (acts.Change change old ty.entry place.now operand.now room) }
    ensures rows { OnErr result (RowsStay machine.old.memory.rows machine.new.memory.rows) }
{
    let operand = machine.integer(*operand);
    let (t, spare) = (&mut machine.items, &mut machine.spare);
    let memory = &mut machine.memory;
    let both = changed(memory, change, ty, event, at, operand, t, spare)?;
    let (before, after) = both;
    if old {
        machine.keep(room, after);
        machine.keep(event.node, before);
        Ok(Outcome::Done)
    } else {
        machine.keep(event.node, after);
        Ok(Outcome::Done)
    }
}
