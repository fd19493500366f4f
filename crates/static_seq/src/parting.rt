// Which accesses of one full expression never race.
ghost use Rattle.std.specs.Prelude.{◌≡◌, ◌+◌, ◌||◌, nat_le, IfOk};
ghost use Rattle.static_seq.specs.Choices.{Lists};
ghost use Rattle.static_seq.specs.Parted.{both_read, distant, same_base, sequenced, branched, secluded, parted};

use crate::MemoryAccess;
use crate::choices::{in_branches, spared};
use c_typed::{Program, Typed};
use seq_order::before;
use static_places::{FixedBase, private, same_slot};
use std::alloc::Global;
use ub_base::NoMemory;

/// Whether the two accesses never race. `nodes` are the nodes of the full expression. It costs a walk over the tree where both
/// aren't reads and their places tell nothing.
pub fn parted(
    alloc: Global,
    p: &Program,
    function: u32,
    root: &Typed,
    nodes: &[&Typed],
    a: &MemoryAccess,
    b: &MemoryAccess,
) -> Result<bool, NoMemory>
    ensures { Lists nodes.now root.now → IfOk result (λ answer. answer ≡ parted p.now function root.now a.now b.now) }
{
    if both_read(a, b) || distant(a, b) {
        return Ok(true);
    }
    if in_branches(nodes, a.at.place.node, b.at.place.node) {
        return Ok(true);
    }
    if sequenced(alloc, root, nodes, a, b)? {
        return Ok(true);
    }
    Ok(secluded(p, function, a, b) || secluded(p, function, b, a))
}

fn both_read(a: &MemoryAccess, b: &MemoryAccess) -> bool
    ensures { result ≡ both_read a.now b.now }
{
    !a.writes && !b.writes
}

/// Whether one is sequenced before the other for every choice of operands under which both are due.
fn sequenced(
    alloc: Global,
    root: &Typed,
    nodes: &[&Typed],
    a: &MemoryAccess,
    b: &MemoryAccess,
) -> Result<bool, NoMemory>
    ensures { Lists nodes.now root.now → IfOk result (λ answer. answer ≡ sequenced root.now a.now b.now) }
{
    let u = a.at.place;
    let v = b.at.place;
    let taken = spared(alloc, nodes, u.node, v.node)?;
    let first = before(root, u, v, &taken);
    let second = before(root, v, u, &taken);
    Ok(either(first, second))
}

fn either(first: bool, second: bool) -> bool
    ensures { result ≡ (first || second) }
{
    first || second
}

/// Whether both places are fixed, and the objects differ or the byte ranges don't overlap.
fn distant(a: &MemoryAccess, b: &MemoryAccess) -> bool
    ensures { result ≡ distant a.now b.now }
{
    let (Some((base, at)), Some((other, from))) = (a.spot, b.spot) else {
        return false;
    };
    !same_base(base, other) || ends_by(at, a.length, from) || ends_by(from, b.length, at)
}

/// Whether so many bytes from an offset on end by another offset.
fn ends_by(at: u64, length: u64, other: u64) -> bool
    ensures { result ≡ nat_le (at + length) other }
{
    match at.checked_add(length) {
        Some(end) => end <= other,
        None => false,
    }
}

fn same_base(a: FixedBase, b: FixedBase) -> bool
    ensures { result ≡ same_base a b }
{
    match (a, b) {
        (FixedBase::Slot(a), FixedBase::Slot(b)) => same_slot(a, b),
        (FixedBase::Literal(m), FixedBase::Literal(n)) => m == n,
        (FixedBase::Slot(_), FixedBase::Literal(_)) | (FixedBase::Literal(_), FixedBase::Slot(_)) =>
            false,
    }
}

/// Whether the place of the first is the node of a private object, and that of the second isn't fixed.
fn secluded(p: &Program, function: u32, a: &MemoryAccess, b: &MemoryAccess) -> bool
    ensures { result ≡ secluded p.now function a.now b.now }
{
    if b.spot.is_some() {
        return false;
    }
    match a.object {
        Some(slot) => private(p, function, slot),
        None => false,
    }
}
