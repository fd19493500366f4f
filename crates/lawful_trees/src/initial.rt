// Initializers: one expression for the whole object, or a list of its parts (6.7.9).
ghost use Rattle.std.specs.Prelude.{◌≡◌, ◌++◌, Bool, true, IsTrue, IfOk, OnOk, map};
ghost use Rattle.std.specs.List.{All};
ghost use Rattle.c_types.specs.Types.{type_of};
ghost use Rattle.c_typed.specs.declared.program.Program.{Program};
ghost use Rattle.c_typed.specs.declared.tree.Access.{Access};
ghost use Rattle.c_typed.specs.declared.tree.Node.TheOpen as shape;
ghost use Rattle.c_typed.specs.declared.tree.Typed.{out-Typed};
ghost use Rattle.c_typed.specs.Lawful.{IsObject, IsPart, StoresPart, IsListed, IsOwn, IsOwnObject, Initializes, InitialFits, PartsFit, given_parts};
ghost use Rattle.c_typed.specs.Lawful.{operands_of, root_of};
ghost use Rattle.c_typed.specs.Lawful as lawful;
ghost use Rattle.c_typed.specs.Sites.{no_block};
ghost use Rattle.lawful_trees.specs.Parts.{listed_range};
ghost use Rattle.lawful_trees.specs.Places.{blocks_of, use_of};

use crate::addresses::are_lawful_contents;
use crate::names::object_at;
use crate::parts::{ranges_fit, ranges_of};
use crate::plain::is_plain_tree;
use crate::{Around, Purpose};
use c_typed::{Constant, Node, Program, Slot, Typed};
use c_types::{Tags, Ty};
use layout::size;
use std::alloc::Global;
use ub_base::NoMemory;

fn is_object(slot: Slot, place: &Typed) -> bool
    ensures { IsTrue result → IsObject slot (root_of place.now) }
{
    match &place.node {
        Node::Obj(named) => *named == slot,
        _ => false,
    }
}

// Whether the place is that of a part of the object.
fn is_part(slot: Slot, place: &Typed) -> bool
    ensures { IsTrue result → IsPart slot (root_of place.now) (operands_of place.now) }
{
    let Node::Member { .. } = &place.node else {
        return false;
    };
    match place.children.as_slice().split_first() {
        Some((object, rest)) => rest.is_empty() && is_object(slot, object),
        None => false,
    }
}

// Whether the operands are the place of a part of the object, and a value.
fn gives_part(slot: Slot, operands: &[Typed]) -> bool
    ensures { IsTrue result → (access : Access) → StoresPart slot (shape.Assign true access) operands.now }
{
    let Some((place, rest)) = operands.split_first() else {
        return false;
    };
    let Some((value, rest)) = rest.split_first() else {
        return false;
    };
    rest.is_empty() && is_part(slot, place) && is_plain_tree(value)
}

// Whether the tree stores a value in a part of the object.
fn stores_part(slot: Slot, tree: &Typed) -> bool
    ensures { IsTrue result → StoresPart slot (root_of tree.now) (operands_of tree.now) }
{
    match &tree.node {
        Node::Assign { initializing, .. } => {
            *initializing && gives_part(slot, tree.children.as_slice())
        }
        _ => false,
    }
}

fn is_listed(slot: Slot, operand: &Typed) -> bool
    ensures { IsTrue result → IsListed slot (root_of operand.now) }
{
    match &operand.node {
        Node::Isolated(tree) => stores_part(slot, tree.get()),
        _ => false,
    }
}

fn are_listed(slot: Slot, operands: &[Typed]) -> bool
    ensures { IsTrue result → All (λ t. IsListed slot (root_of t)) operands.now }
{
    for operand in operands {
        if !is_listed(slot, operand) {
            return false;
        }
    }
    true
}

fn target_size(tags: &Tags, ty: &Ty) -> u64
    ensures { result ≡ lawful.target_size tags.now (type_of ty.now) }
{
    match ty {
        Ty::Pointer(target) => size(tags, &target.get().ty),
        _ => 0,
    }
}

// Where the place of a part begins, and how many bytes it has.
fn member_span(tags: &Tags, place: &Typed) -> (u64, u64)
    ensures { result ≡ lawful.member_span tags.now (type_of (out-Typed place.now).ty) (root_of place.now) }
{
    match &place.node {
        Node::Member { offset } => (*offset, target_size(tags, &place.ty)),
        _ => (0, 0),
    }
}

fn place_span(tags: &Tags, operands: &[Typed]) -> (u64, u64)
    ensures { (initializing : Bool) (access : Access) → result ≡ lawful.stored_span tags.now (shape.Assign initializing access) operands.now }
{
    let Some((place, rest)) = operands.split_first() else {
        return (0, 0);
    };
    let Some((_, rest)) = rest.split_first() else {
        return (0, 0);
    };
    if rest.is_empty() {
        member_span(tags, place)
    } else {
        (0, 0)
    }
}

fn stored_span(tags: &Tags, tree: &Typed) -> (u64, u64)
    ensures { result ≡ lawful.stored_span tags.now (root_of tree.now) (operands_of tree.now) }
{
    match &tree.node {
        Node::Assign { .. } => place_span(tags, tree.children.as_slice()),
        _ => (0, 0),
    }
}

fn listed_span(tags: &Tags, operand: &Typed) -> (u64, u64)
    ensures { result ≡ lawful.listed_span tags.now (root_of operand.now) }
{
    match &operand.node {
        Node::Isolated(tree) => stored_span(tags, tree.get()),
        _ => (0, 0),
    }
}

// Where the part begins and ends that a listed expression is stored in.
fn listed_range(tags: &Tags, operand: &Typed) -> (u128, u128)
    ensures { result ≡ listed_range tags.now operand.now }
{
    let (offset, count) = listed_span(tags, operand);
    let begin = u128::from(offset);
    (begin, begin + u128::from(count))
}

// Adds the ranges of the parts that the listed expressions are stored in.
fn add_listed(
    tags: &Tags,
    operands: &[Typed],
    ranges: &mut Vec<(u128, u128)>,
) -> Result<(), NoMemory>
    ensures { OnOk result (ranges.new.items ≡ ranges.old.items ++ map (listed_range tags.now) operands.now) }
{
    for operand in operands {
        ranges.push(listed_range(tags, operand))?;
    }
    Ok(())
}

// Whether the parts that a list gives lie in an object of so many bytes, none over another.
fn list_fits(
    alloc: Global,
    tags: &Tags,
    size: u64,
    bytes: &[Constant],
    operands: &[Typed],
) -> Result<bool, NoMemory>
    ensures { IfOk result (λ b. IsTrue b → PartsFit size (given_parts tags.now bytes.now operands.now)) }
{
    let mut ranges = ranges_of(alloc, bytes)?;
    add_listed(tags, operands, &mut ranges)?;
    ranges_fit(size, ranges)
}

// Whether the object is one of the innermost block.
fn is_own(around: &[Around<'_>], slot: Slot) -> bool
    ensures { IsTrue result → IsOwn (blocks_of no_block around.now) slot }
{
    let Some((innermost, _)) = around.split_last() else {
        return false;
    };
    match slot {
        Slot::Auto { block, .. } => block == innermost.number,
        Slot::Static(_) => false,
    }
}

// Whether the place is that of an object of the innermost block.
fn is_own_object(around: &[Around<'_>], place: &Typed) -> bool
    ensures { IsTrue result → IsOwnObject (blocks_of no_block around.now) (root_of place.now) }
{
    match &place.node {
        Node::Obj(named) => is_own(around, *named),
        _ => false,
    }
}

// Whether the operands are the place of an object of the innermost block, and a value.
fn gives_whole(around: &[Around<'_>], operands: &[Typed]) -> bool
    ensures { IsTrue result → (p : Program) (access : Access) → Initializes p (blocks_of no_block around.now) (shape.Assign true access) operands.now }
{
    let Some((place, rest)) = operands.split_first() else {
        return false;
    };
    let Some((value, rest)) = rest.split_first() else {
        return false;
    };
    rest.is_empty() && is_own_object(around, place) && is_plain_tree(value)
}

fn is_list(
    alloc: Global,
    program: &Program,
    around: &[Around<'_>],
    slot: Slot,
    bytes: &[Constant],
    operands: &[Typed],
) -> Result<bool, NoMemory>
    ensures { IfOk result (λ b. IsTrue b → Initializes program.now (blocks_of no_block around.now) (shape.List slot bytes.now) operands.now) }
{
    let Some(object) = object_at(program, around, slot) else {
        return Ok(false);
    };
    if !is_own(around, slot)
        || !are_listed(slot, operands)
        || !are_lawful_contents(program, bytes)
    {
        return Ok(false);
    }
    let size = size(&program.tags, &object.ty);
    list_fits(alloc, &program.tags, size, bytes, operands)
}

// Whether the tree initializes an object of the innermost block.
fn is_initializer(
    alloc: Global,
    program: &Program,
    around: &[Around<'_>],
    tree: &Typed,
) -> Result<bool, NoMemory>
    ensures { IfOk result (λ b. IsTrue b → Initializes program.now (blocks_of no_block around.now) (root_of tree.now) (operands_of tree.now)) }
{
    let operands = tree.children.as_slice();
    match &tree.node {
        Node::Assign { initializing, .. } => Ok(*initializing && gives_whole(around, operands)),
        Node::List { object, bytes } => {
            is_list(alloc, program, around, *object, bytes.as_slice(), operands)
        }
        _ => Ok(false),
    }
}

/// Whether the tree initializes an object where it is for that, and nothing where it isn't.
pub fn initial_fits(
    alloc: Global,
    program: &Program,
    around: &[Around<'_>],
    purpose: Purpose,
    tree: &Typed,
) -> Result<bool, NoMemory>
    ensures { IfOk result (λ b. IsTrue b → InitialFits program.now (blocks_of no_block around.now) (use_of purpose) tree.now) }
{
    match purpose {
        Purpose::Initializes => is_initializer(alloc, program, around, tree),
        Purpose::Unused | Purpose::Tested | Purpose::Selects | Purpose::Returned => {
            Ok(is_plain_tree(tree))
        }
    }
}
