// The types of a node's value and of its operands, where these are at most three (6.3, 6.5).
ghost use Rattle.std.specs.Prelude.{◌≡◌, Bool, IsTrue, [], ◌∷◌};
ghost use Rattle.c_types.specs.Types.{type_of, qualified_of};
ghost use Rattle.c_typed.specs.declared.tree.Node.TheOpen as shape;
ghost use Rattle.c_typed.specs.Lawful.{TypesAre, Converts, NoFunction, RightIs, UnaryTypes, IsStep, WorksIn, UpdateTypes};
ghost use Rattle.c_typed.specs.Lawful as lawful;
ghost use Rattle.c_typed.specs.Sites.{Blocks, no_block};
ghost use Rattle.lawful_trees.specs.Places.{blocks_of};
ghost use Rattle.lawful_trees.specs.Views.{head_at};

use crate::Around;
use crate::names::{points_to_function, points_to_object};
use crate::types::{
    access_is, aligns_to, comparable, gives, is_constant, is_function, is_int, is_integer,
    is_pointer, is_promoted, is_promoted_type, is_scalar, is_tagged, is_void, kind_of, lies_in,
    member_of, one_kind, ordered, points_to, points_to_literal, related, steps_over, value_is,
};
use c_typed::{Access, Change, Conversion, Node, Program, UnOp};
use c_types::{BinOp, IntKind, Qual, Tags, Ty, promote, same_type, usual};

fn is_object(target: &Qual) -> bool
    ensures { IsTrue result → NoFunction (qualified_of target.now).ty }
{
    !is_function(&target.ty)
}

// Whether it is a conversion of a pointer to an integer.
fn addresses(tags: &Tags, kind: IntKind, from: &Ty, to: &Ty) -> bool
    ensures { IsTrue result → Converts tags.now (Conversion.Address kind) (type_of from.now) (type_of to.now) }
{
    match from {
        Ty::Pointer(target) => {
            is_object(target.get()) && kind_of(to) == Some(kind) && kind != IntKind::Bool
        }
        _ => false,
    }
}

/// Whether this conversion leads from one scalar type to another that isn't equal (6.3.1, 6.3.2.3).
fn converts(tags: &Tags, conversion: Conversion, from: &Ty, to: &Ty) -> bool
    ensures { IsTrue result → Converts tags.now conversion (type_of from.now) (type_of to.now) }
{
    match (conversion, from, to) {
        (Conversion::Integer(kind), _, _) => is_integer(from) && kind_of(to) == Some(kind),
        (Conversion::Address(kind), _, _) => addresses(tags, kind, from, to),
        (Conversion::NotNull, Ty::Pointer(target), _) => {
            is_object(target.get()) && is_int(to, IntKind::Bool)
        }
        (Conversion::Lookup, _, Ty::Pointer(target)) => {
            is_integer(from) && is_object(target.get())
        }
        (Conversion::Pointer { align }, Ty::Pointer(s), Ty::Pointer(t)) => {
            is_object(s.get()) && is_object(t.get()) && aligns_to(tags, &t.get().ty, align)
        }
        (Conversion::Function, Ty::Pointer(s), Ty::Pointer(t)) => {
            is_function(&s.get().ty) && is_function(&t.get().ty)
        }
        _ => false,
    }
}

fn is_shift(op: BinOp) -> bool
    ensures { result ≡ lawful.is_shift op }
{
    matches!(op, BinOp::Shl | BinOp::Shr)
}

// Of a shift the right operand keeps its own promoted type (6.5.7p3).
fn right_is(shift: bool, kind: IntKind, right: &Ty) -> bool
    ensures { IsTrue result → RightIs shift kind (type_of right.now) }
{
    if shift {
        is_promoted_type(right)
    } else {
        is_int(right, kind)
    }
}

fn unary_types(op: UnOp, own: &Ty, operand: &Ty) -> bool
    ensures { IsTrue result → UnaryTypes op (type_of own.now) (type_of operand.now) }
{
    match op {
        UnOp::Minus(kind) | UnOp::Complement(kind) => {
            is_promoted(kind) && is_int(operand, kind) && is_int(own, kind)
        }
        UnOp::Not => is_scalar(operand) && is_int(own, IntKind::Int),
    }
}

// A node over no operand.
pub fn leaf_types(program: &Program, around: &[Around<'_>], node: &Node, own: &Ty) -> bool
    ensures { IsTrue result → TypesAre program.now (blocks_of no_block around.now) (head_at node.now) (type_of own.now) [] }
{
    match node {
        Node::Const(value) => is_constant(own, *value),
        Node::Obj(slot) => points_to_object(program, around, *slot, own),
        Node::Func(number) => points_to_function(program, *number, own),
        Node::Str(number) => match program.literals.get(*number as usize) {
            Some(bytes) => points_to_literal(own, bytes.len()),
            None => false,
        },
        Node::Isolated(_) => is_void(own),
        _ => false,
    }
}

fn load_types(program: &Program, access: Access, own: &Ty, place: &Ty) -> bool
    ensures { IsTrue result → (blocks : Blocks) → TypesAre program.now blocks (shape.Load access) (type_of own.now) (type_of place.now ∷ []) }
{
    match place {
        Ty::Pointer(object) => {
            let object = &object.get().ty;
            gives(own, object) && access_is(&program.tags, object, access)
        }
        _ => false,
    }
}

fn is_step(op: BinOp) -> bool
    ensures { IsTrue result → IsStep op }
{
    matches!(op, BinOp::Add | BinOp::Sub)
}

// Whether an object of the first kind is worked on in the second (6.5.7p3, 6.3.1.8p1).
fn works_in(shift: bool, kind: IntKind, work: IntKind) -> bool
    ensures { IsTrue result → WorksIn shift kind work }
{
    if shift {
        work == promote(kind)
    } else {
        usual(kind, work) == work
    }
}

// A change of the object, whose type this is, by one.
fn changes_by_one(tags: &Tags, change: Change, object: &Ty) -> bool
    ensures { IsTrue result → UpdateTypes tags.now change (type_of object.now) [] }
{
    match change {
        Change::Integer { op, kind, work } => {
            kind_of(object) == Some(kind) && is_step(op) && work == promote(kind)
        }
        Change::Pointer { size, .. } => steps_over(tags, object, size),
    }
}

// A change of the object, whose type this is, by the operand.
fn changes_by(tags: &Tags, change: Change, object: &Ty, operand: &Ty) -> bool
    ensures { IsTrue result → UpdateTypes tags.now change (type_of object.now) (type_of operand.now ∷ []) }
{
    match change {
        Change::Integer { op, kind, work } => {
            kind_of(object) == Some(kind)
                && works_in(is_shift(op), kind, work)
                && right_is(is_shift(op), work, operand)
        }
        Change::Pointer { size, .. } => steps_over(tags, object, size) && is_integer(operand),
    }
}

fn step_types(program: &Program, change: Change, own: &Ty, place: &Ty) -> bool
    ensures { IsTrue result → (blocks : Blocks) (old : Bool) →
        TypesAre program.now blocks (shape.Update change old) (type_of own.now) (type_of place.now ∷ []) }
{
    match place {
        Ty::Pointer(object) => {
            let object = object.get();
            gives(own, &object.ty)
                && !object.constant
                && changes_by_one(&program.tags, change, &object.ty)
        }
        _ => false,
    }
}

fn update_types(program: &Program, change: Change, own: &Ty, place: &Ty, operand: &Ty) -> bool
    ensures { IsTrue result → (blocks : Blocks) (old : Bool) →
        TypesAre program.now blocks (shape.Update change old) (type_of own.now) (type_of place.now ∷ type_of operand.now ∷ []) }
{
    match place {
        Ty::Pointer(object) => {
            let object = object.get();
            gives(own, &object.ty)
                && !object.constant
                && changes_by(&program.tags, change, &object.ty, operand)
        }
        _ => false,
    }
}

// A node over one operand.
pub fn unary_node_types(program: &Program, node: &Node, own: &Ty, operand: &Ty) -> bool
    ensures { IsTrue result → (blocks : Blocks) → TypesAre program.now blocks (head_at node.now) (type_of own.now) (type_of operand.now ∷ []) }
{
    let tags = &program.tags;
    match node {
        Node::Load(access) => load_types(program, *access, own, operand),
        Node::Conv(conversion) => {
            converts(tags, *conversion, operand, own)
                && (!same_type(operand, own) || is_pointer(own))
        }
        Node::Un(op) => unary_types(*op, own, operand),
        Node::Member { offset } => member_of(tags, *offset, own, operand),
        Node::Part { offset, access } => {
            is_tagged(operand)
                && lies_in(tags, *offset, own, operand)
                && access_is(tags, own, *access)
        }
        Node::Update { change, .. } => step_types(program, *change, own, operand),
        _ => false,
    }
}

fn binary_types(
    program: &Program,
    op: BinOp,
    kind: IntKind,
    own: &Ty,
    left: &Ty,
    right: &Ty,
) -> bool
    ensures { IsTrue result → (blocks : Blocks) → TypesAre program.now blocks (shape.Bin op kind) (type_of own.now)
        (type_of left.now ∷ type_of right.now ∷ []) }
{
    is_promoted(kind)
        && is_int(left, kind)
        && right_is(is_shift(op), kind, right)
        && is_int(own, kind)
}

fn pointer_sum_types(program: &Program, size: u64, own: &Ty, pointer: &Ty, index: &Ty) -> bool
    ensures { IsTrue result → (blocks : Blocks) (subtract : Bool) →
        TypesAre program.now blocks (shape.PtrAdd size subtract) (type_of own.now) (type_of pointer.now ∷ type_of index.now ∷ []) }
{
    match pointer {
        Ty::Pointer(target) => {
            steps_over(&program.tags, pointer, size)
                && is_integer(index)
                && points_to(own, &target.get().ty)
        }
        _ => false,
    }
}

fn difference_types(program: &Program, size: u64, own: &Ty, left: &Ty, right: &Ty) -> bool
    ensures { IsTrue result → (blocks : Blocks) → TypesAre program.now blocks (shape.PtrDiff size) (type_of own.now)
        (type_of left.now ∷ type_of right.now ∷ []) }
{
    steps_over(&program.tags, left, size)
        && steps_over(&program.tags, right, size)
        && ordered(left, right)
        && is_int(own, IntKind::Long)
}

// Only an initialization stores to what is const (6.5.16p2).
fn assignment_types(
    program: &Program,
    initializing: bool,
    access: Access,
    own: &Ty,
    place: &Ty,
    value: &Ty,
) -> bool
    ensures { IsTrue result → (blocks : Blocks) → TypesAre program.now blocks (shape.Assign initializing access) (type_of own.now)
        (type_of place.now ∷ type_of value.now ∷ []) }
{
    match place {
        Ty::Pointer(object) => {
            let object = object.get();
            gives(own, &object.ty)
                && same_type(value, &object.ty)
                && access_is(&program.tags, &object.ty, access)
                && (initializing || !object.constant)
        }
        _ => false,
    }
}

// A node over two operands.
pub fn binary_node_types(program: &Program, node: &Node, own: &Ty, left: &Ty, right: &Ty) -> bool
    ensures { IsTrue result → (blocks : Blocks) → TypesAre program.now blocks (head_at node.now) (type_of own.now) (type_of left.now ∷ type_of right.now ∷ []) }
{
    match node {
        Node::Bin(op, kind) => binary_types(program, *op, *kind, own, left, right),
        Node::PtrAdd { size, .. } => pointer_sum_types(program, *size, own, left, right),
        Node::PtrDiff { size } => difference_types(program, *size, own, left, right),
        Node::Rel { pointers, .. } => is_int(own, IntKind::Int) && related(*pointers, left, right),
        Node::Eq(_) => {
            is_int(own, IntKind::Int) && (one_kind(left, right) || comparable(left, right))
        }
        Node::Assign {
            initializing,
            access,
        } => assignment_types(program, *initializing, *access, own, left, right),
        Node::Update { change, .. } => update_types(program, *change, own, left, right),
        Node::And | Node::Or => is_int(own, IntKind::Int) && is_scalar(left) && is_scalar(right),
        _ => false,
    }
}

// A node over three operands.
pub fn choice_types(program: &Program, node: &Node, own: &Ty, test: &Ty, yes: &Ty, no: &Ty) -> bool
    ensures { IsTrue result → (blocks : Blocks) → TypesAre program.now blocks (head_at node.now) (type_of own.now)
        (type_of test.now ∷ type_of yes.now ∷ type_of no.now ∷ []) }
{
    match node {
        Node::Cond => is_scalar(test) && value_is(own, yes) && value_is(own, no),
        _ => false,
    }
}
