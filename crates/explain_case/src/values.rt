// The values of operands.

use crate::accesses::last_store;
use crate::case::{Act, Case};
use crate::objects::{NamedObject, naming, origin_naming, place_of, put_subject, subject};
use crate::text::{put_a_type, put_function, put_integer, put_tree, token_at};
use c_typed::{Node, Typed};
use c_types::{BinOp, IntKind};
use explain_facts::{Aim, Shown, Touch, operand_number};
use explain_page::{put_number, put_type};
use explain_places::{declaration_of, token_of};
use ub_base::{Bytes, Clause, NoMemory, ObjName};

/// Two operands and their values.
#[derive(Clone, Copy)]
pub struct Pair<'p> {
    pub left_tree: &'p Typed,
    pub right_tree: &'p Typed,
    pub left: i128,
    pub right: i128,
}

/// The value of a node before the last pick.
pub fn value_of(case: &Case<'_, '_>, tree: &Typed, number: u32) -> Shown {
    match &tree.node {
        Node::Const(value) => Shown::Integer(*value),
        _ => case.moment.value(number),
    }
}

fn integer_of(case: &Case<'_, '_>, tree: &Typed, number: u32) -> Option<i128> {
    match value_of(case, tree, number) {
        Shown::Integer(value) => Some(value),
        _ => None,
    }
}

/// The operands of an act with two integers.
pub fn pair_of<'p>(case: &Case<'_, '_>, act: &Act<'p>) -> Option<Pair<'p>> {
    let node = act.event.node;
    let left_tree = act.tree.children.get(0)?;
    let right_tree = act.tree.children.get(1)?;
    let left = integer_of(case, left_tree, operand_number(act.tree, node, 0))?;
    let right = integer_of(case, right_tree, operand_number(act.tree, node, 1))?;
    Some(Pair {
        left_tree,
        right_tree,
        left,
        right,
    })
}

// Adds `NAME is VALUE`, where the node isn't a constant.
fn put_is(out: &mut Bytes, case: &Case<'_, '_>, tree: &Typed, value: i128) -> Result<(), NoMemory> {
    if let Node::Const(_) = &tree.node {
        return Ok(());
    }
    if !out.as_slice().is_empty() {
        out.append(b", ")?;
    }
    put_tree(out, case.page, tree)?;
    out.append(b" is ")?;
    put_integer(out, value)
}

fn result_of(op: BinOp, left: i128, right: i128) -> Option<(&'static [u8], i128)> {
    match op {
        BinOp::Mul => Some((b"the product", left.checked_mul(right)?)),
        BinOp::Add => Some((b"the sum", left.checked_add(right)?)),
        BinOp::Sub => Some((b"the difference", left.checked_sub(right)?)),
        _ => None,
    }
}

// Adds what a result is, and where its type ends or begins.
fn put_result(
    out: &mut Bytes,
    case: &Case<'_, '_>,
    act: &Act<'_>,
    op: BinOp,
    kind: IntKind,
    pair: &Pair<'_>,
) -> Result<(), NoMemory> {
    let Some((words, value)) = result_of(op, pair.left, pair.right) else {
        return Ok(());
    };
    if !out.as_slice().is_empty() {
        out.append(b"; ")?;
    }
    out.append(words)?;
    out.append(b" is ")?;
    put_integer(out, value)?;
    out.append(b", and ")?;
    put_type(out, case.page, &act.tree.ty)?;
    if value > 0 {
        out.append(b" ends at ")?;
        put_integer(out, kind.greatest())
    } else {
        out.append(b" begins at ")?;
        put_integer(out, kind.least())
    }
}

// Adds the values of two integers, and the result where that is out of range.
fn put_pair(
    out: &mut Bytes,
    case: &Case<'_, '_>,
    clause: Clause,
    act: &Act<'_>,
    pair: &Pair<'_>,
) -> Result<(), NoMemory> {
    put_is(out, case, pair.left_tree, pair.left)?;
    put_is(out, case, pair.right_tree, pair.right)?;
    match (&act.tree.node, clause) {
        (Node::Bin(op, kind), Clause::Exceptional) => put_result(out, case, act, *op, *kind, pair),
        _ => Ok(()),
    }
}

// The byte of its object that an address is.
fn byte_of(case: &Case<'_, '_>, aim: Aim) -> Option<i128> {
    let row = case.found.map.row(aim.object?)?;
    Some(i128::from(aim.addr) - i128::from(row.base))
}

// The last of so many bytes, one at least.
fn last_byte(first: i128, size: u64) -> i128 {
    first
        .saturating_add(i128::from(size.max(1)))
        .saturating_sub(1)
}

fn put_object_name(out: &mut Bytes, case: &Case<'_, '_>, object: ObjName) -> Result<(), NoMemory> {
    match naming(case, object, case.trail) {
        Some(named) => out.append(case.page.spelling(named.name)),
        None => out.append(b"the object"),
    }
}

// Adds where a pointer points to.
fn put_pointer(
    out: &mut Bytes,
    case: &Case<'_, '_>,
    tree: &Typed,
    aim: Aim,
) -> Result<(), NoMemory> {
    let (Some(object), Some(byte)) = (aim.object, byte_of(case, aim)) else {
        return Ok(());
    };
    if subject(case) != Some(object) {
        return Ok(());
    }
    put_tree(out, case.page, tree)?;
    out.append(b" points to byte ")?;
    put_integer(out, byte)?;
    out.append(b" of ")?;
    put_object_name(out, case, object)
}

// The node that moves a pointer to the place of an access, with its number.
fn moved<'p>(act: &Act<'p>) -> Option<(&'p Typed, u32)> {
    if let Node::PtrAdd { .. } = &act.tree.node {
        return Some((act.tree, act.event.node));
    }
    let place = place_of(act.tree);
    match &place.node {
        Node::PtrAdd { .. } => Some((place, act.event.node.saturating_add(1))),
        _ => None,
    }
}

// Adds the pointer and the index of a place.
fn put_moved(out: &mut Bytes, case: &Case<'_, '_>, act: &Act<'_>) -> Result<(), NoMemory> {
    let Some((tree, number)) = moved(act) else {
        return Ok(());
    };
    let (Some(pointer), Some(index)) = (tree.children.get(0), tree.children.get(1)) else {
        return Ok(());
    };
    if let Shown::Pointer(aim) = value_of(case, pointer, operand_number(tree, number, 0)) {
        put_pointer(out, case, pointer, aim)?;
    }
    match integer_of(case, index, operand_number(tree, number, 1)) {
        Some(value) => put_is(out, case, index, value),
        None => Ok(()),
    }
}

// Adds which bytes an access is to.
fn put_bytes(out: &mut Bytes, case: &Case<'_, '_>, act: &Act<'_>) -> Result<(), NoMemory> {
    let (Node::Load(_) | Node::Assign { .. } | Node::Update { .. }, Some(aim)) = (
        &act.tree.node,
        case.moment.place,
    ) else {
        return Ok(());
    };
    let (Some(byte), Some(extent)) = (byte_of(case, aim), case.program.tags.extent(&act.tree.ty))
    else {
        return Ok(());
    };
    if !out.as_slice().is_empty() {
        out.append(b": ")?;
    }
    out.append(b"the access is to bytes ")?;
    put_integer(out, byte)?;
    out.append(b" to ")?;
    put_integer(out, last_byte(byte, extent.size))?;
    out.push(b'.')
}

// Adds that the pointer which is followed is null, or points nowhere.
fn put_nowhere(out: &mut Bytes, case: &Case<'_, '_>) -> Result<(), NoMemory> {
    match case.moment.place {
        Some(Aim { addr: 0, .. }) => out.append(b"the pointer is null"),
        Some(Aim { object: None, .. }) => out.append(b"the pointer points to no object"),
        _ => Ok(()),
    }
}

// Adds what the bytes hold that are read by another type.
fn put_held(out: &mut Bytes, case: &Case<'_, '_>, act: &Act<'_>) -> Result<(), NoMemory> {
    let (Some(touch), Some(stored)) = (case.trail.stored, last_store(case)) else {
        return Ok(());
    };
    out.append(b"bytes ")?;
    put_number(out, touch.from)?;
    out.append(b" to ")?;
    put_number(out, touch.from.saturating_add(touch.len).saturating_sub(1))?;
    out.append(b" hold ")?;
    put_a_type(out, case.page, &stored.ty)?;
    out.append(b", stored at ")?;
    case.page.put_token_place(out, token_of(stored.line))?;
    put_read_bytes(out, case, act)
}

fn put_read_bytes(out: &mut Bytes, case: &Case<'_, '_>, act: &Act<'_>) -> Result<(), NoMemory> {
    let (Some(aim), Some(extent)) = (case.moment.place, case.program.tags.extent(&act.tree.ty))
    else {
        return Ok(());
    };
    let Some(byte) = byte_of(case, aim) else {
        return Ok(());
    };
    out.append(b"; 1 reads bytes ")?;
    put_integer(out, byte)?;
    out.append(b" to ")?;
    put_integer(out, last_byte(byte, extent.size))
}

// Whether the object that is touched was initialized by its last store.
fn is_initialized(case: &Case<'_, '_>) -> bool {
    match last_store(case) {
        Some(stored) => matches!(
            &stored.node,
            Node::Assign {
                initializing: true,
                ..
            }
        ),
        None => false,
    }
}

// Adds where a store stands.
fn put_stored(out: &mut Bytes, case: &Case<'_, '_>, touch: Touch) -> Result<(), NoMemory> {
    if is_initialized(case) {
        return out.append(b" there");
    }
    match token_at(case, touch.opened, touch.node) {
        Some(token) => {
            out.append(b" at ")?;
            case.page.put_token_place(out, token)
        }
        None => Ok(()),
    }
}

// Adds the object that was copied.
fn put_origin(
    out: &mut Bytes,
    case: &Case<'_, '_>,
    named: NamedObject<'_>,
) -> Result<(), NoMemory> {
    let page = case.page;
    out.append(b", from ")?;
    out.append(page.spelling(named.name))?;
    out.append(b" of ")?;
    put_function(out, page, named.name)?;
    if let Some(at) = declaration_of(page.tokens, named.name) {
        out.append(b" (")?;
        page.put_token_place(out, at)?;
        out.push(b')')?;
    }
    out.append(b", which had no value there either")
}

// Adds why what is read has no value.
fn put_unset(out: &mut Bytes, case: &Case<'_, '_>) -> Result<(), NoMemory> {
    let Some(touch) = case.trail.stored else {
        return out.append(b"never stored");
    };
    out.append(b"never stored: ")?;
    put_subject(out, case)?;
    out.append(b" was stored whole")?;
    put_stored(out, case, touch)?;
    match origin_naming(case) {
        Some(named) => put_origin(out, case, named),
        None => out.append(b", from what had no value there either"),
    }
}

/// Adds the values that show a broken clause.
pub fn put_values(
    out: &mut Bytes,
    case: &Case<'_, '_>,
    clause: Clause,
    act: &Act<'_>,
) -> Result<(), NoMemory> {
    match clause {
        Clause::OutOfBounds => {
            put_moved(out, case, act)?;
            put_bytes(out, case, act)
        }
        Clause::InvalidPointer => put_nowhere(out, case),
        Clause::EffectiveType => put_held(out, case, act),
        Clause::Indeterminate => put_unset(out, case),
        Clause::Exceptional
        | Clause::DivideByZero
        | Clause::Unrepresentable
        | Clause::ShiftCount
        | Clause::LeftShift => match pair_of(case, act) {
            Some(pair) => put_pair(out, case, clause, act, &pair),
            None => Ok(()),
        },
        _ => Ok(()),
    }
}
