// The accesses of a full expression.
ghost use Rattle.std.specs.Prelude.{◌≡◌, ◌++◌, slice_get, IfOk, OnOk};
ghost use Rattle.c_types.specs.Layout.{bytes};
ghost use Rattle.c_typed.specs.declared.tree.Typed.{out-Typed};
ghost use Rattle.static_places.specs.Preorder.{trees_at};
ghost use Rattle.static_seq.specs.Accesses.{length_of, changed_length, object_of, through, listed, node_accesses, accesses_from, some_writes};

use c_typed::{Access, Change, Node, Place, Program, Slot, Typed};
use c_types::IntKind;
use static_places::{FixedBase, place_of};
use std::alloc::Global;
use ub_base::{Kind, NoMemory};

/// Where an access stands: its place among the events of the full expression, and the line of its node.
#[derive(Clone, Copy)]
pub struct Accessed {
    pub place: Place,
    pub line: u32,
}

/// An access of a full expression: whether it writes, the fixed place that it accesses, if it is one, how many bytes, and
/// the object whose node is directly its place.
#[derive(Clone, Copy)]
pub struct MemoryAccess {
    pub at: Accessed,
    pub writes: bool,
    pub spot: Option<(FixedBase, u64)>,
    pub length: u64,
    pub object: Option<Slot>,
}

/// The accesses of these nodes, which have numbers from 0 on, by node and then `val`, `eff`.
pub fn accesses_of(
    alloc: Global,
    p: &Program,
    function: u32,
    nodes: &[&Typed],
) -> Result<Vec<MemoryAccess>, NoMemory>
    ensures { IfOk result (λ accesses. accesses.items ≡ accesses_from p.now function 0 (trees_at nodes.now)) }
{
    let mut accesses = Vec::new(alloc);
    let mut number = 0u32;
    for node in nodes {
        add_accesses(p, function, number, node, &mut accesses)?;
        number = number.saturating_add(1);
    }
    Ok(accesses)
}

fn add_accesses(
    p: &Program,
    function: u32,
    number: u32,
    node: &Typed,
    accesses: &mut Vec<MemoryAccess>,
) -> Result<(), NoMemory>
    ensures { OnOk result (accesses.new.items ≡ accesses.old.items ++ node_accesses p.now function number node.now) }
{
    match &node.node {
        Node::Load(access) => {
            let length = length_of(*access);
            accesses.push(through(p, function, number, node, Kind::Val, false, length))?;
        }
        Node::Assign { access, .. } => {
            let length = length_of(*access);
            accesses.push(through(p, function, number, node, Kind::Eff, true, length))?;
        }
        Node::Update { change, .. } => {
            let length = changed_length(*change);
            accesses.push(through(p, function, number, node, Kind::Val, false, length))?;
            accesses.push(through(p, function, number, node, Kind::Eff, true, length))?;
        }
        Node::List { object, .. } => accesses.push(listed(number, node, *object))?,
        _ => {}
    }
    Ok(())
}

/// An access through the first operand of the node.
fn through(
    p: &Program,
    function: u32,
    number: u32,
    node: &Typed,
    kind: Kind,
    writes: bool,
    length: u64,
) -> MemoryAccess
    ensures { result ≡ through p.now function number node.now kind writes length }
{
    let place = Place { node: number, kind };
    let at = Accessed {
        place,
        line: node.line,
    };
    let (spot, object) = match node.children.get(0) {
        Some(pointer) => (place_of(p, function, pointer), object_of(pointer)),
        None => (None, None),
    };
    MemoryAccess {
        at,
        writes,
        spot,
        length,
        object,
    }
}

/// The access of a list, which may reach any byte of its object.
fn listed(number: u32, node: &Typed, object: Slot) -> MemoryAccess
    ensures { result ≡ listed number node.now object }
{
    let place = Place {
        node: number,
        kind: Kind::Eff,
    };
    let at = Accessed {
        place,
        line: node.line,
    };
    MemoryAccess {
        at,
        writes: true,
        spot: Some((FixedBase::Slot(object), 0)),
        length: u64::MAX,
        object: Some(object),
    }
}

/// The object that a tree names directly.
fn object_of(tree: &Typed) -> Option<Slot>
    ensures { result ≡ object_of (Some tree.now) }
{
    match &tree.node {
        Node::Obj(slot) => Some(*slot),
        _ => None,
    }
}

fn length_of(access: Access) -> u64
    ensures { result ≡ length_of access }
{
    match access {
        Access::Integer(kind) => kind_length(kind),
        Access::Pointer | Access::Function => 8,
        Access::Whole { size, .. } => size,
    }
}

fn changed_length(change: Change) -> u64
    ensures { result ≡ changed_length change }
{
    match change {
        Change::Integer { kind, .. } => kind_length(kind),
        Change::Pointer { .. } => 8,
    }
}

/// How many bytes the kind has (6.2.6.1p4).
fn kind_length(kind: IntKind) -> u64
    ensures { result ≡ bytes kind }
{
    match kind {
        IntKind::Bool | IntKind::Char | IntKind::SChar | IntKind::UChar => 1,
        IntKind::Short | IntKind::UShort => 2,
        IntKind::Int | IntKind::UInt => 4,
        IntKind::Long | IntKind::ULong | IntKind::LLong | IntKind::ULLong => 8,
    }
}

/// Whether one of these writes.
pub fn some_writes(accesses: &[MemoryAccess]) -> bool
    ensures { result ≡ some_writes accesses.now }
{
    for access in accesses {
        if access.writes {
            return true;
        }
    }
    false
}
