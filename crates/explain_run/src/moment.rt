// A run before its last pick.

use crate::opened::opened_by;
use explain_facts::{Aim, Moment, Shown};
use exposure::Prov;
use prov_memory::{MemByte, Value};
use run_layout::{Act, Listed, Operand};
use run_machine::Machine;
use ub_base::{Event, NoMemory, ObjName};

fn object_in(prov: Prov) -> Option<ObjName> {
    match prov {
        Prov::Whole(object) => Some(object),
        _ => None,
    }
}

fn shown(value: Option<&Value>) -> Shown {
    match value {
        Some(Value::Int(number)) => Shown::Integer(*number),
        Some(Value::Ptr { addr, prov }) => Shown::Pointer(Aim {
            addr: *addr,
            object: object_in(*prov),
        }),
        _ => Shown::Other,
    }
}

fn put_open(moment: &mut Moment, machine: &Machine) -> Result<(), NoMemory> {
    for one in machine.shown() {
        moment.open.push(opened_by(one))?;
    }
    Ok(())
}

fn put_values(moment: &mut Moment, machine: &Machine) -> Result<(), NoMemory> {
    for room in 0..machine.top.rooms {
        let at = machine.top.base.saturating_add(room as usize);
        moment.values.push(shown(machine.values.get(at)))?;
    }
    Ok(())
}

fn put_place(moment: &mut Moment, machine: &Machine, event: Event) {
    if let Some(operand) = place_of(machine, event) {
        let aim = aim_of(machine, operand);
        moment.place = Some(aim);
        moment.held = held_at(machine, aim);
    }
}

/// Adds what stands now, with the place that this event accesses.
pub fn put_moment(
    moment: &mut Moment,
    machine: &Machine,
    event: Option<Event>,
) -> Result<(), NoMemory> {
    put_open(moment, machine)?;
    put_values(moment, machine)?;
    if let Some(event) = event {
        put_place(moment, machine, event);
    }
    Ok(())
}

fn aim_of(machine: &Machine, operand: Operand) -> Aim {
    let pointer = machine.pointer(operand);
    Aim {
        addr: pointer.addr,
        object: object_in(pointer.prov),
    }
}

// The operand that says where an act accesses memory.
fn accessed(act: &Act<'_>) -> Option<Operand> {
    match act {
        Act::Load { place, .. } | Act::Change { place, .. } | Act::Store { place, .. } => Some(
            *place,
        ),
        Act::Member { pointer, .. } | Act::Move { pointer, .. } => Some(*pointer),
        _ => None,
    }
}

// Where the event of the open full expression accesses memory.
fn place_of(machine: &Machine, event: Event) -> Option<Operand> {
    let stage = machine.top.stage?;
    let code = machine.image.code;
    let expression = code.expressions.get(stage.expression as usize)?;
    for at in expression.first..expression.end {
        if let Some(Listed::Event(due)) = code.listing.get(at)
            && due.place.node == event.node
            && due.place.kind == event.kind
        {
            return accessed(&due.act);
        }
    }
    None
}

// The object that the pointer which is stored at this address points to.
fn held_at(machine: &Machine, aim: Aim) -> Option<ObjName> {
    let object = aim.object?;
    let row = machine.memory.map().row(object)?;
    match machine
        .memory
        .byte(object, aim.addr.saturating_sub(row.base))
    {
        MemByte::Written {
            piece: Some((origin, _)),
            ..
        } => object_in(machine.memory.prov(origin)),
        _ => None,
    }
}
