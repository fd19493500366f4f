// Assignments, increments and decrements (6.5.16, 6.5.2.4, 6.5.3.1).
ghost use Rattle.std.specs.Prelude.{◌≡◌};
ghost use Rattle.c_types.specs.Types.{type_of, qualified_of};
ghost use Rattle.c_typed.specs.Lawful as lawful;
ghost use Rattle.type_operands.specs.Terms.{term_of, expression_of, map_option, Gives};
ghost use Rattle.type_assignments.specs.Assignments.{place_of, work_of, step_of};
ghost use Rattle.type_assignments.specs.Assignments as spec;
ghost use Rattle.type_operands.specs.Layouts.{layouts};

use c_typed::{Change, Node, Typed};
use c_types::{BinOp, IntKind, Qual, Tags, Ty, copied};
use std::alloc::Global;
use type_conversions::{as_if_assigned, promoted, to_kind, usual_kind};
use type_operands::{
    Form, Operand, access_of, integer, kind_of, object_of, step_of, value, value_of, with_child,
    with_children,
};
use type_reasons::{Constants, Reason, Refused};

// Whether an object of this type may be assigned (6.3.2.1p1).
fn is_modifiable<C: Constants>(constants: &C, object: &Qual) -> bool
    ensures { result ≡ spec.is_modifiable (C.is_constant constants.now) (qualified_of object.now) }
{
    match &object.ty {
        Ty::Int(_) | Ty::Enum(_) | Ty::Pointer(_) => !object.constant,
        Ty::Struct(tag) | Ty::Union(tag) => !object.constant && !constants.has_constant(*tag),
        Ty::Void | Ty::Array(_, _) | Ty::Function(_) => false,
    }
}

/// The node of a modifiable lvalue, and the type of its object (6.5.16p2).
#[tactic(auto, unfolding(crate::specs::Assignments::modifiable))]
pub fn modifiable<C: Constants>(
    alloc: Global,
    constants: &C,
    operand: Operand,
) -> Result<(Typed, Ty), Refused>
    ensures { Gives place_of result (spec.modifiable (C.is_constant constants.now) (expression_of operand)) }
{
    let Operand {
        tree,
        form,
        line: _,
    } = operand;
    let Form::Place { register: _ } = form else {
        return Err(Refused::Constraint(Reason::NotModifiable));
    };
    match object_of(&tree.ty) {
        Some(object) if is_modifiable(constants, object) => {
            let ty = copied(alloc, &object.ty)?;
            Ok((tree, ty))
        }
        _ => Err(Refused::Constraint(Reason::NotModifiable)),
    }
}

/// The store of a converted value at a place.
#[tactic(auto, unfolding(crate::specs::Assignments::stored))]
pub fn stored(
    alloc: Global,
    tags: &Tags,
    initializing: bool,
    place: Typed,
    ty: Ty,
    operand: Operand,
    line: u32,
) -> Result<Typed, Refused>
    ensures { Gives term_of result (spec.stored (layouts tags.now) initializing (term_of place) (type_of ty) (expression_of operand) line) }
{
    let Some(access) = access_of(tags, &ty) else {
        return Err(Refused::Constraint(Reason::AssignedValue));
    };
    let tree = as_if_assigned(alloc, tags, operand, &ty)?;
    let node = Node::Assign {
        initializing,
        access,
    };
    with_children(alloc, node, ty, line, place, tree)
}

/// `a = b` (6.5.16.1).
#[tactic(auto, unfolding(crate::specs::Assignments::assigned))]
pub fn assigned<C: Constants>(
    alloc: Global,
    tags: &Tags,
    constants: &C,
    a: Operand,
    b: Operand,
    line: u32,
) -> Result<Operand, Refused>
    ensures { Gives expression_of result (spec.assigned (layouts tags.now) (C.is_constant constants.now) (expression_of a) (expression_of b) line) }
{
    let (place, ty) = modifiable(alloc, constants, a)?;
    Ok(value(stored(alloc, tags, false, place, ty, b, line)?))
}

fn is_shift(op: BinOp) -> bool
    ensures { result ≡ lawful.is_shift op }
{
    matches!(op, BinOp::Shl | BinOp::Shr)
}

// The kind in which an integer object of this type is worked on (6.5.16.2p3).
#[tactic(auto, unfolding(crate::specs::Assignments::working_kind, type_operands::specs::Conversions::usual_kind))]
fn working_kind(op: BinOp, ty: &Ty, right: &Ty) -> Option<(IntKind, IntKind)>
    ensures { map_option work_of result ≡ spec.working_kind op (type_of ty.now) (type_of right.now) }
{
    let kind = kind_of(ty)?;
    let _right = kind_of(right)?;
    if is_shift(op) {
        Some((kind, c_types::promote(kind)))
    } else {
        Some((kind, usual_kind(ty, right)?))
    }
}

#[tactic(auto, unfolding(crate::specs::Assignments::right_operand))]
fn integer_operand(alloc: Global, op: BinOp, work: IntKind, tree: Typed) -> Result<Typed, Refused>
    ensures { Gives term_of result (spec.right_operand op work (term_of tree)) }
{
    if is_shift(op) {
        let (tree, _count) = promoted(alloc, tree)?;
        Ok(tree)
    } else {
        to_kind(alloc, tree, work)
    }
}

#[tactic(auto, unfolding(crate::specs::Assignments::integer_compound))]
fn integer_compound(
    alloc: Global,
    op: BinOp,
    place: Typed,
    ty: Ty,
    right: Typed,
    line: u32,
) -> Result<Operand, Refused>
    ensures { Gives expression_of result (spec.integer_compound op (place_of (place, ty)) (term_of right) line) }
{
    let Some((kind, work)) = working_kind(op, &ty, &right.ty) else {
        return Err(Refused::Constraint(Reason::CompoundOther));
    };
    let right = integer_operand(alloc, op, work, right)?;
    let change = Change::Integer { op, kind, work };
    let node = Node::Update { change, old: false };
    Ok(value(with_children(alloc, node, ty, line, place, right)?))
}

// How a pointer object of this type is moved: only `+=` and `-=` by an integer (6.5.16.2p1).
#[tactic(auto, unfolding(crate::specs::Assignments::pointer_change))]
fn pointer_change(tags: &Tags, op: BinOp, ty: &Ty) -> Option<Change>
    ensures { result ≡ spec.pointer_change (layouts tags.now) op (type_of ty.now) }
{
    let size = step_of(tags, ty)?;
    match op {
        BinOp::Add => Some(Change::Pointer {
            size,
            subtract: false,
        }),
        BinOp::Sub => Some(Change::Pointer {
            size,
            subtract: true,
        }),
        _ => None,
    }
}

#[tactic(auto, unfolding(crate::specs::Assignments::pointer_compound))]
fn pointer_compound(
    alloc: Global,
    tags: &Tags,
    op: BinOp,
    place: Typed,
    ty: Ty,
    right: Typed,
    line: u32,
) -> Result<Operand, Refused>
    ensures { Gives expression_of result (spec.pointer_compound (layouts tags.now) op (place_of (place, ty)) (term_of right) line) }
{
    match (pointer_change(tags, op, &ty), kind_of(&right.ty)) {
        (Some(change), Some(_)) => {
            let node = Node::Update { change, old: false };
            Ok(value(with_children(alloc, node, ty, line, place, right)?))
        }
        _ => Err(Refused::Constraint(Reason::CompoundSum)),
    }
}

/// `a op= b` (6.5.16.2).
#[tactic(auto, unfolding(crate::specs::Assignments::compound))]
pub fn compound<C: Constants>(
    alloc: Global,
    tags: &Tags,
    constants: &C,
    op: BinOp,
    a: Operand,
    b: Operand,
    line: u32,
) -> Result<Operand, Refused>
    ensures { Gives expression_of result (spec.compound (layouts tags.now) (C.is_constant constants.now) op (expression_of a) (expression_of b) line) }
{
    let (place, ty) = modifiable(alloc, constants, a)?;
    let right = value_of(alloc, tags, b)?;
    match &ty {
        Ty::Pointer(_) => pointer_compound(alloc, tags, op, place, ty, right, line),
        _ => integer_compound(alloc, op, place, ty, right, line),
    }
}

// The change by one of an object of this type, and the kind of the operand 1.
#[tactic(auto, unfolding(crate::specs::Assignments::change_by_one))]
fn change_by_one(tags: &Tags, op: BinOp, ty: &Ty) -> Option<(Change, IntKind)>
    ensures { map_option step_of result ≡ spec.change_by_one (layouts tags.now) op (type_of ty.now) }
{
    match ty {
        Ty::Pointer(_) => Some((pointer_change(tags, op, ty)?, IntKind::Int)),
        ty => {
            let kind = kind_of(ty)?;
            let work = c_types::usual(kind, IntKind::Int);
            Some((Change::Integer { op, kind, work }, work))
        }
    }
}

/// `++E` and `--E`: an update by the constant 1 of the type that is worked in (6.5.3.1).
#[tactic(auto, unfolding(crate::specs::Assignments::stepped))]
pub fn stepped<C: Constants>(
    alloc: Global,
    tags: &Tags,
    constants: &C,
    op: BinOp,
    operand: Operand,
    line: u32,
) -> Result<Operand, Refused>
    ensures { Gives expression_of result (spec.stepped (layouts tags.now) (C.is_constant constants.now) op (expression_of operand) line) }
{
    let (place, ty) = modifiable(alloc, constants, operand)?;
    let Some((change, kind)) = change_by_one(tags, op, &ty) else {
        return Err(Refused::Constraint(Reason::PrefixStep));
    };
    let one = integer(alloc, 1, kind, line);
    let node = Node::Update { change, old: false };
    Ok(value(with_children(alloc, node, ty, line, place, one)?))
}

/// `E++` and `E--` (6.5.2.4).
#[tactic(auto, unfolding(crate::specs::Assignments::incremented))]
pub fn incremented<C: Constants>(
    alloc: Global,
    tags: &Tags,
    constants: &C,
    op: BinOp,
    operand: Operand,
    line: u32,
) -> Result<Operand, Refused>
    ensures { Gives expression_of result (spec.incremented (layouts tags.now) (C.is_constant constants.now) op (expression_of operand) line) }
{
    let (place, ty) = modifiable(alloc, constants, operand)?;
    let Some((change, _kind)) = change_by_one(tags, op, &ty) else {
        return Err(Refused::Constraint(Reason::PostfixStep));
    };
    let node = Node::Update { change, old: true };
    Ok(value(with_child(alloc, node, ty, line, place)?))
}
