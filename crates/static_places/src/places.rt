// Fixed places.
ghost use Rattle.std.specs.Prelude.{◌≡◌, ◌*◌, slice_get};
ghost use Rattle.c_typed.specs.declared.tree.Typed.{out-Typed};
ghost use Rattle.static_places.specs.Preorder.{nodes_of};
ghost use Rattle.static_places.specs.Fixed.{fixed_place, fixed_at, sought, constant_of, index_of, moved, indexed, stepped, size_of_base, magnitude, is_below};
ghost use Rattle.static_places.specs.Fixed.{opposite, small_magnitude};

use crate::extents::{literal_size, slot_size};
use c_typed::{Node, Program, Slot, Typed};

/// What a fixed place lies in: an object that the text names, or the literal of this number.
#[derive(Clone, Copy, PartialEq, Eq)]
pub enum FixedBase {
    Slot(Slot),
    Literal(u32),
}

/// What the node of this number of a full expression of the function names, and the offset in it in bytes: an object, a
/// literal, a member of a fixed place, or a fixed place and a constant index, the result in the object or one past it
/// (own). None exactly where the node is no fixed place. It costs a walk over the nodes before it.
pub fn fixed(p: &Program, function: u32, root: &Typed, node: u32) -> Option<(FixedBase, u64)>
    ensures { result ≡ fixed_at p.now function (slice_get (nodes_of root.now) node) }
{
    match seek(p, function, root, node) {
        Ok(_) => None,
        Err(found) => found,
    }
}

/// What is fixed at the node of this number, or what is left of the number behind the tree's nodes.
fn seek(
    p: &Program,
    function: u32,
    tree: &Typed,
    node: u32,
) -> Result<u32, Option<(FixedBase, u64)>>
    ensures { result ≡ sought p.now function node (nodes_of tree.now) }
{
    if node == 0 {
        return Err(place_of(p, function, tree));
    }
    let mut left = node - 1;
    for operand in tree.children.as_slice() {
        left = match seek(p, function, operand, left) {
            Ok(left) => left,
            Err(found) => return Err(found),
        };
    }
    Ok(left)
}

/// The fixed place that a tree of the function gives, and none where it gives none.
pub fn place_of(p: &Program, function: u32, tree: &Typed) -> Option<(FixedBase, u64)>
    ensures { result ≡ fixed_place p.now function tree.now }
{
    match &tree.node {
        Node::Obj(slot) => Some((FixedBase::Slot(*slot), 0)),
        Node::Str(number) => Some((FixedBase::Literal(*number), 0)),
        Node::Member { offset } => match tree.children.get(0) {
            Some(pointer) => moved(*offset, place_of(p, function, pointer)),
            None => None,
        },
        Node::PtrAdd { size, subtract } => match tree.children.get(0) {
            Some(pointer) => {
                let place = place_of(p, function, pointer);
                indexed(p, function, *size, *subtract, place, index_of(tree))
            }
            None => None,
        },
        _ => None,
    }
}

/// The constant index of a sum of a pointer and an index.
fn index_of(sum: &Typed) -> Option<i128>
    ensures { result ≡ index_of (out-Typed sum.now).children }
{
    match sum.children.get(1) {
        Some(index) => constant_of(index),
        None => None,
    }
}

/// The constant that a tree is.
fn constant_of(tree: &Typed) -> Option<i128>
    ensures { result ≡ constant_of tree.now }
{
    match &tree.node {
        Node::Const(value) => Some(*value),
        _ => None,
    }
}

/// The place further on by the offset of a member.
fn moved(offset: u64, place: Option<(FixedBase, u64)>) -> Option<(FixedBase, u64)>
    ensures { result ≡ moved offset place }
{
    let (base, at) = place?;
    match at.checked_add(offset) {
        Some(at) => Some((base, at)),
        None => None,
    }
}

/// The place on or back by a constant index of elements of this size.
fn indexed(
    p: &Program,
    function: u32,
    size: u64,
    subtract: bool,
    place: Option<(FixedBase, u64)>,
    index: Option<i128>,
) -> Option<(FixedBase, u64)>
    ensures { result ≡ indexed p.now function size subtract place index }
{
    let (base, at) = place?;
    let index = index?;
    let count = small_magnitude(index)?;
    let whole = size_of_base(p, function, base)?;
    let back = opposite(subtract, is_below(index));
    stepped(whole, back, count, size, base, at)
}

fn opposite(subtract: bool, below: bool) -> bool
    ensures { result ≡ opposite subtract below }
{
    if subtract { !below } else { below }
}

fn is_below(index: i128) -> bool
    ensures { result ≡ is_below index }
{
    index < 0
}

/// The magnitude of an index, where it is at most 2^40.
fn small_magnitude(index: i128) -> Option<u64>
    ensures { result ≡ small_magnitude index }
{
    if 0 <= index && index <= 1_099_511_627_776 {
        return Some(index as u64);
    }
    if -1_099_511_627_776 <= index && index < 0 {
        return Some((-index) as u64);
    }
    None
}

fn size_of_base(p: &Program, function: u32, base: FixedBase) -> Option<u64>
    ensures { result ≡ size_of_base p.now function base }
{
    match base {
        FixedBase::Slot(slot) => slot_size(p, function, slot),
        FixedBase::Literal(number) => literal_size(p, number),
    }
}

/// The place on or back by so many elements of this size, within an object of so many bytes or one past it.
fn stepped(
    whole: u64,
    back: bool,
    count: u64,
    size: u64,
    base: FixedBase,
    at: u64,
) -> Option<(FixedBase, u64)>
    ensures { result ≡ stepped whole back (count * size) (base, at) }
{
    let by = count.checked_mul(size)?;
    if back {
        let at = at.checked_sub(by)?;
        if at <= whole { Some((base, at)) } else { None }
    } else {
        let at = at.checked_add(by)?;
        if at <= whole { Some((base, at)) } else { None }
    }
}
