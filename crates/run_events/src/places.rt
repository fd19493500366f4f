// Places in one object. Most are, and what is done there goes without a copy of what pointers to other places have.
ghost use Rattle.std.specs.Prelude.{◌≡◌, ◌+◌, option_copied, slice_get, IfSome};
ghost use Rattle.run_layout.specs.declared.steps.Operand.TheVariants as operands;
ghost use Rattle.run_events.specs.Places.{into_object, LeadsTo};

use exposure::Prov;
use prov_memory::Value;
use run_layout::Operand;
use run_state::Machine;
use run_values::{Pointer, pointer_to};
use ub_base::ObjName;

// The object and the address of a place, where it is an automatic object or what a node gives, and made from one object.
#[inline(always)]
pub fn object_at(machine: &Machine, place: Operand) -> Option<(ObjName, u64)>
    ensures { IfSome result (λ at. LeadsTo machine.now place (into_object at.0 at.1)) }
{
    match place {
        Operand::Local { object, offset } => local_at(machine, object, offset),
        Operand::Done(room) => value_at(machine, room),
        _ => None,
    }
}

// Those of an automatic object of the frame.
#[inline(always)]
fn local_at(machine: &Machine, object: u32, offset: u64) -> Option<(ObjName, u64)>
    ensures { IfSome result (λ at. LeadsTo machine.now (operands.Local object offset) (into_object at.0 at.1)) }
{
    let at = machine.top.locals.saturating_add(object as usize);
    let local = machine.locals.get(at)?;
    Some((local.name, local.addr.saturating_add(offset)))
}

// Those of a pointer in the room of a node.
#[inline(always)]
fn value_at(machine: &Machine, room: u32) -> Option<(ObjName, u64)>
    ensures { IfSome result (λ at. LeadsTo machine.now (operands.Done room) (into_object at.0 at.1)) }
{
    match value_in_room(machine, room) {
        Some(
            Value::Ptr {
                addr,
                prov: Prov::Whole(name),
            },
        ) => Some((*name, *addr)),
        _ => None,
    }
}

// A pointer to this address, made from one object.
#[inline(always)]
pub fn pointer_into(name: ObjName, addr: u64) -> Pointer
    ensures { result ≡ into_object name addr }
{
    Pointer {
        addr,
        prov: Prov::Whole(name),
    }
}

// The value in the room of this number of the full expression that is open, where there is such a room.
#[inline(always)]
pub fn value_in_room<'m>(machine: &'m Machine, room: u32) -> Option<&'m Value>
    ensures { option_copied result ≡ slice_get machine.now.values.items (machine.now.top.base + room) }
{
    machine
        .values
        .get(machine.top.base.saturating_add(room as usize))
}
