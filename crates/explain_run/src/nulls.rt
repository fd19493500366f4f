// Allocations that gave null at the limit of one allocation.

use c_typed::{Node, Typed};
use c_types::LibFunc;
use explain_facts::{Touch, Unallocated, node_at, operand_number};
use prov_memory::Value;
use run_layout::Listed;
use run_machine::Machine;
use ub_base::{Event, Kind};

// The most bytes that one allocation gives (own).
const MOST: u128 = 1_048_576;

// The function that a designator names.
fn named(designator: &Typed) -> Option<u32> {
    match (&designator.node, designator.children.get(0)) {
        (Node::Func(function), _) => Some(*function),
        (_, Some(inner)) => match &inner.node {
            Node::Func(function) => Some(*function),
            _ => None,
        },
        _ => None,
    }
}

// The function of the library that a call names.
fn library_of(machine: &Machine, call: &Typed) -> Option<LibFunc> {
    let Node::Call { .. } = &call.node else {
        return None;
    };
    let function = named(call.children.get(0)?)?;
    machine
        .program
        .functions
        .as_slice()
        .get(function as usize)?
        .library
}

// Where the value of the node of this number stands, of the open full expression.
fn room_of(machine: &Machine, number: u32) -> usize {
    machine.top.base.saturating_add(number as usize)
}

fn is_null(machine: &Machine, number: u32) -> bool {
    matches!(
        machine.values.get(room_of(machine, number)),
        Some(Value::Ptr { addr: 0, .. })
    )
}

// A constant, or one that is converted to the type of a size: no event gives its value.
fn constant(tree: &Typed) -> Option<i128> {
    match (&tree.node, tree.children.get(0)) {
        (Node::Const(value), _) => Some(*value),
        (Node::Conv(_), Some(inner)) => match &inner.node {
            Node::Const(value) => Some(*value),
            _ => None,
        },
        _ => None,
    }
}

// The value of an argument; none of a constant below 0.
fn size_at(machine: &Machine, call: &Typed, number: u32, argument: usize) -> Option<u128> {
    if let Some(value) = constant(call.children.get(argument)?) {
        return u128::try_from(value).ok();
    }
    let room = room_of(machine, operand_number(call, number, argument));
    match machine.values.get(room) {
        Some(Value::Int(value)) => u128::try_from(*value).ok(),
        _ => None,
    }
}

// How many bytes a call asks for.
fn asked(machine: &Machine, call: &Typed, number: u32) -> Option<u128> {
    match library_of(machine, call)? {
        LibFunc::Malloc => size_at(machine, call, number, 1),
        LibFunc::Realloc => size_at(machine, call, number, 2),
        LibFunc::Calloc => {
            let count = size_at(machine, call, number, 1)?;
            Some(count.saturating_mul(size_at(machine, call, number, 2)?))
        }
        _ => None,
    }
}

/// How many bytes the next event asks for, where it is the call of malloc, calloc or realloc: behind it the values of its
/// arguments are gone.
pub fn asked_next(machine: &Machine) -> Option<u128> {
    let stage = machine.top.stage?;
    let Some(Listed::Event(due)) = machine.image.code.listing.get(stage.cursor) else {
        return None;
    };
    if due.place.kind != Kind::Body {
        return None;
    }
    let innermost = machine.shown().last()?;
    let call = node_at(innermost.root, due.place.node)?;
    asked(machine, call, due.place.node)
}

/// The allocation that an event is which asked for so many bytes, where it has given null since they are too many.
pub fn unallocated(
    machine: &Machine,
    event: Event,
    touch: Touch,
    asked: Option<u128>,
) -> Option<Unallocated> {
    let size = asked?;
    if event.kind == Kind::Body && size > MOST && is_null(machine, event.node) {
        Some(Unallocated { touch, size })
    } else {
        None
    }
}
