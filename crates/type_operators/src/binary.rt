// Multiplicative, shift, relational, equality, bitwise and logical operators (6.5.5, 6.5.7 to 6.5.14).
ghost use Rattle.std.specs.Prelude.{◌≡◌, Some};
ghost use Rattle.c_types.specs.Types.{qualified_of};
ghost use Rattle.type_operands.specs.Terms.{term_of, expression_of, Gives};
ghost use Rattle.type_conversions.specs.Pairs.{pair_of};
ghost use Rattle.type_operators.specs.Operators as spec;
ghost use Rattle.type_operands.specs.Layouts.{layouts};

use c_typed::{EqOp, Node, RelOp, Typed};
use c_types::{BinOp, IntKind, Qual, Tags, Ty, compatible};
use std::alloc::Global;
use type_conversions::{balanced, is_pointer, matched, may_meet, promoted, truth};
use type_operands::{Form, Operand, object_of, value, value_of, with_children};
use type_reasons::{Reason, Refused};

// An operator on two integers in their common type.
#[tactic(auto, unfolding(crate::specs::Operators::arithmetic))]
pub fn arithmetic(
    alloc: Global,
    op: BinOp,
    a: Typed,
    b: Typed,
    line: u32,
) -> Result<Operand, Refused>
    ensures { Gives expression_of result (spec.arithmetic op (term_of a) (term_of b) line) }
{
    let (a, b, kind) = balanced(alloc, a, b)?;
    let node = Node::Bin(op, kind);
    Ok(value(with_children(alloc, node, Ty::Int(kind), line, a, b)?))
}

/// `* / %` and `& ^ |`, in the common type (6.5.5, 6.5.10 to 6.5.12).
#[tactic(auto, unfolding(crate::specs::Operators::multiplied))]
pub fn multiplied(
    alloc: Global,
    tags: &Tags,
    op: BinOp,
    a: Operand,
    b: Operand,
    line: u32,
) -> Result<Operand, Refused>
    ensures { Gives expression_of result (spec.multiplied (layouts tags.now) op (expression_of a) (expression_of b) line) }
{
    let a = value_of(alloc, tags, a)?;
    let b = value_of(alloc, tags, b)?;
    arithmetic(alloc, op, a, b, line)
}

/// `<<` and `>>`: each operand is promoted by itself (6.5.7p3).
#[tactic(auto, unfolding(crate::specs::Operators::shifted))]
pub fn shifted(
    alloc: Global,
    tags: &Tags,
    op: BinOp,
    a: Operand,
    b: Operand,
    line: u32,
) -> Result<Operand, Refused>
    ensures { Gives expression_of result (spec.shifted (layouts tags.now) op (expression_of a) (expression_of b) line) }
{
    let (a, kind) = promoted(alloc, value_of(alloc, tags, a)?)?;
    let (b, _count) = promoted(alloc, value_of(alloc, tags, b)?)?;
    let node = Node::Bin(op, kind);
    Ok(value(with_children(alloc, node, Ty::Int(kind), line, a, b)?))
}

fn are_comparable(a: &Qual, b: &Qual) -> bool
    ensures { result ≡ spec.are_comparable (qualified_of a.now) (qualified_of b.now) }
{
    !matches!(a.ty, Ty::Function(_)) && compatible(&a.ty, &b.ty)
}

/// `< > <= >=`: two integers, or two pointers to compatible object types (6.5.8p2).
#[tactic(auto, unfolding(crate::specs::Operators::compared))]
pub fn compared(
    alloc: Global,
    tags: &Tags,
    op: RelOp,
    a: Operand,
    b: Operand,
    line: u32,
) -> Result<Operand, Refused>
    ensures { Gives expression_of result (spec.compared (layouts tags.now) op (expression_of a) (expression_of b) line) }
{
    let a = value_of(alloc, tags, a)?;
    let b = value_of(alloc, tags, b)?;
    let pointers = match (object_of(&a.ty), object_of(&b.ty)) {
        (Some(x), Some(y)) if are_comparable(x, y) => true,
        (None, None) => false,
        _ => return Err(Refused::Constraint(Reason::Relation)),
    };
    let node = Node::Rel { op, pointers };
    let (a, b) = if pointers {
        (a, b)
    } else {
        let (a, b, _kind) = balanced(alloc, a, b)?;
        (a, b)
    };
    let tree = with_children(alloc, node, Ty::Int(IntKind::Int), line, a, b)?;
    Ok(value(tree))
}

// Two pointers that may be compared for equality (6.5.9p2).
fn met_pointers(a: Typed, b: Typed) -> Result<(Typed, Typed), Refused>
    ensures { Gives pair_of result (spec.met_pointers (term_of a, term_of b)) }
{
    match (object_of(&a.ty), object_of(&b.ty)) {
        (Some(x), Some(y)) if may_meet(&x.ty, &y.ty) => Ok((a, b)),
        _ => Err(Refused::Constraint(Reason::Equality)),
    }
}

fn equal_operands(
    alloc: Global,
    f: Form,
    a: Typed,
    g: Form,
    b: Typed,
) -> Result<(Typed, Typed), Refused>
    ensures { Gives pair_of result (spec.equal_operands f (term_of a) g (term_of b)) }
{
    if is_pointer(&a.ty) || is_pointer(&b.ty) {
        let (a, b) = matched(alloc, f, a, g, b)?;
        met_pointers(a, b)
    } else {
        let (a, b, _kind) = balanced(alloc, a, b)?;
        Ok((a, b))
    }
}

/// `==` and `!=`: two integers; two pointers to compatible types; a pointer to an object type and one to `void`; a
/// pointer and a null pointer constant (6.5.9p2).
#[tactic(auto, unfolding(crate::specs::Operators::equated))]
pub fn equated(
    alloc: Global,
    tags: &Tags,
    op: EqOp,
    a: Operand,
    b: Operand,
    line: u32,
) -> Result<Operand, Refused>
    ensures { Gives expression_of result (spec.equated (layouts tags.now) op (expression_of a) (expression_of b) line) }
{
    let (f, g) = (a.form, b.form);
    let a = value_of(alloc, tags, a)?;
    let b = value_of(alloc, tags, b)?;
    let (a, b) = equal_operands(alloc, f, a, g, b)?;
    let tree = with_children(alloc, Node::Eq(op), Ty::Int(IntKind::Int), line, a, b)?;
    Ok(value(tree))
}

/// `&&`, and `||` where `either` is true: of two scalars (6.5.13p2, 6.5.14p2).
#[tactic(auto, unfolding(crate::specs::Operators::joined))]
pub fn joined(
    alloc: Global,
    tags: &Tags,
    either: bool,
    a: Operand,
    b: Operand,
    line: u32,
) -> Result<Operand, Refused>
    ensures { Gives expression_of result (spec.joined (layouts tags.now) either (expression_of a) (expression_of b) line) }
{
    let a = truth(alloc, tags, a)?;
    let b = truth(alloc, tags, b)?;
    let node = if either { Node::Or } else { Node::And };
    Ok(value(with_children(alloc, node, Ty::Int(IntKind::Int), line, a, b)?))
}
