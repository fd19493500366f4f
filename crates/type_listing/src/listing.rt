// The tree of an initializer list (6.7.9), and the constants of a static one.

use crate::listed::{Given, Listed, Listing, Whole};
use crate::statics::{not_constant, part_reason};
use crate::zeros::{Zeros, add_zeros, push_runs};
use c_typed::{Constant, Node, Slot, Typed};
use c_types::{Qual, Shared, Ty, copied, copied_qual};
use std::alloc::Global;
use type_assignments::stored;
use type_operands::{Operand, leaf, with_child};
use type_reasons::Reason;
use type_scope::{State, TypeFault, placed, placed_for};
use ub_base::{Boxed, Items, NoMemory};

// Whether no part overlaps another one, the parts being in order.
fn are_apart(taken: &[(u64, u64)]) -> bool {
    let mut end = 0;
    for range in taken {
        if range.0 < end {
            return false;
        }
        end = range.1;
    }
    true
}

// Whether no union has two members named, the choices being in order.
fn are_single(choices: &[(u64, u32, u64)]) -> bool {
    let mut last: Option<(u64, u32, u64)> = None;
    for choice in choices {
        if let Some(before) = last
            && before.0 == choice.0
            && before.1 == choice.1
            && before.2 != choice.2
        {
            return false;
        }
        last = Some(*choice);
    }
    true
}

// Whether one of the parts that stand before a whole lies in it; the parts are in order.
fn is_in_whole(parts: &[(u64, u64, u64)], whole: Whole) -> bool {
    let first = parts.partition_point(|part| part.1 <= whole.start);
    for part in parts.get(first..).unwrap_or(&[]) {
        if part.0 >= whole.end {
            return false;
        }
        if part.2 < whole.before {
            return true;
        }
    }
    false
}

// Whether braces or a string give a part as a whole of which something stands before in the text (6.7.9p19).
fn overrides(alloc: Global, listing: &Listing) -> Result<bool, NoMemory> {
    let mut parts = Vec::new(alloc);
    if listing.wholes.is_empty() {
        return Ok(false);
    }
    for (i, part) in listing.parts.iter().enumerate() {
        parts.push((part.offset, part.offset.saturating_add(part.size), i as u64))?;
    }
    parts.sort()?;
    for whole in &listing.wholes {
        if is_in_whole(&parts, *whole) {
            return Ok(true);
        }
    }
    Ok(false)
}

/// The bytes that the list names, in order; none where it gives a part twice, or names two members of one union (own).
pub fn taken_ranges(
    alloc: Global,
    listing: &mut Listing,
) -> Result<Option<Vec<(u64, u64)>>, NoMemory> {
    let mut taken = Vec::new(alloc);
    for part in &listing.parts {
        taken.push((part.offset, part.offset.saturating_add(part.size)))?;
    }
    taken.sort()?;
    listing.choices.sort()?;
    if !are_apart(&taken) || !are_single(&listing.choices) || overrides(alloc, listing)? {
        return Ok(None);
    }
    Ok(Some(taken))
}

// The fault of a list that gives a part twice.
fn twice(line: u32) -> TypeFault {
    TypeFault::NotTyped {
        line,
        reason: Reason::PartGivenTwice,
    }
}

/// A pointer to an object of this type.
pub fn pointer_to(alloc: Global, qual: Qual) -> Result<Ty, NoMemory> {
    Ok(Ty::Pointer(Shared::new(alloc, qual)?))
}

/// The place of an object.
pub fn object_place(alloc: Global, slot: Slot, qual: &Qual, line: u32) -> Result<Typed, NoMemory> {
    let ty = pointer_to(alloc, copied_qual(alloc, qual)?)?;
    Ok(leaf(alloc, Node::Obj(slot), ty, line))
}

// A listed expression: a full expression of its own that stores it in its part (6.7.9p23).
fn isolated(
    state: &State,
    slot: Slot,
    object: &Qual,
    part: (u64, Ty, u32),
    operand: Operand,
) -> Result<Typed, TypeFault> {
    let alloc = state.alloc;
    let (offset, ty, line) = part;
    let whole = object_place(alloc, slot, object, line)?;
    let target = Qual {
        ty: copied(alloc, &ty)?,
        constant: false,
    };
    let pointer = pointer_to(alloc, target)?;
    let place = placed(
        line,
        with_child(alloc, Node::Member { offset }, pointer, line, whole),
    )?;
    let tree = placed_for(
        line,
        part_reason(&ty),
        stored(alloc, &state.tags, true, place, ty, operand, line),
    )?;
    let node = Node::Isolated(Boxed::new(alloc, tree)?);
    Ok(leaf(alloc, node, Ty::Void, line))
}

/// The list of an automatic object; `line` is that of its `{` or string.
pub fn list_node(
    state: &State,
    slot: Slot,
    object: &Qual,
    listing: Listing,
    line: u32,
) -> Result<Typed, TypeFault> {
    let alloc = state.alloc;
    let mut listing = listing;
    let Some(taken) = taken_ranges(alloc, &mut listing)? else {
        return Err(twice(line));
    };
    let Listing {
        parts,
        choices,
        wholes: _,
        fixed: _,
        furthest: _,
    } = listing;
    let mut children = Items::new(alloc);
    let mut bytes = Items::new(alloc);
    for part in parts {
        let Listed {
            offset,
            size: _,
            ty,
            line,
            given,
        } = part;
        match given {
            Given::Content(content) => bytes.push(Constant {
                at: offset,
                content,
            })?,
            Given::Value(operand) => {
                children.push(isolated(state, slot, object, (offset, ty, line), operand)?)?;
            }
        }
    }
    add_rest(state, object, &taken, &choices, &mut bytes, line)?;
    Ok(Typed {
        node: Node::List {
            object: slot,
            bytes,
        },
        ty: Ty::Void,
        line,
        children,
    })
}

// Adds the zeros of what the list on this line doesn't name.
fn add_rest(
    state: &State,
    object: &Qual,
    taken: &[(u64, u64)],
    choices: &[(u64, u32, u64)],
    bytes: &mut Items<Constant>,
    line: u32,
) -> Result<(), TypeFault> {
    let mut zeros = Zeros {
        taken,
        choices,
        runs: Vec::new(state.alloc),
    };
    add_zeros(state, &object.ty, &mut zeros, line)?;
    Ok(push_runs(&zeros.runs, bytes)?)
}

/// The constants of an object with static storage.
pub fn list_constants(
    alloc: Global,
    listing: Listing,
    line: u32,
) -> Result<Items<Constant>, TypeFault> {
    let mut listing = listing;
    if taken_ranges(alloc, &mut listing)?.is_none() {
        return Err(twice(line));
    }
    let Listing {
        parts,
        choices: _,
        wholes: _,
        fixed: _,
        furthest: _,
    } = listing;
    let mut constants = Items::new(alloc);
    for part in parts {
        let Listed {
            offset,
            size: _,
            ty: _,
            line,
            given,
        } = part;
        match given {
            Given::Content(content) => constants.push(Constant {
                at: offset,
                content,
            })?,
            Given::Value(_) => return Err(not_constant(line)),
        }
    }
    Ok(constants)
}
