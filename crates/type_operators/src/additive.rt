// Additive operators and subscripts (6.5.6, 6.5.2.1).
ghost use Rattle.std.specs.Prelude.{◌≡◌};
ghost use Rattle.c_types.specs.Types.{qualified_of};
ghost use Rattle.c_types.specs.Same as tests;
ghost use Rattle.type_operands.specs.Terms.{term_of, expression_of, Gives};
ghost use Rattle.type_operators.specs.Operators as spec;
ghost use Rattle.type_operands.specs.Layouts.{layouts};

use crate::binary::arithmetic;
use c_typed::{Node, Typed};
use c_types::{BinOp, IntKind, Qual, Tags, Ty, compatible, copied};
use std::alloc::Global;
use type_conversions::is_pointer;
use type_operands::{Operand, kind_of, object_of, place, step_of, value, value_of, with_children};
use type_reasons::{Reason, Refused};

// A pointer moved by an index, which keeps its type (6.5.6p8).
#[tactic(auto, unfolding(crate::specs::Operators::moved))]
fn moved(
    alloc: Global,
    tags: &Tags,
    subtract: bool,
    pointer: Typed,
    index: Typed,
    line: u32,
) -> Result<Typed, Refused>
    ensures { Gives term_of result (spec.moved (layouts tags.now) subtract (term_of pointer) (term_of index) line) }
{
    let (size, ty) = match (step_of(tags, &pointer.ty), kind_of(&index.ty)) {
        (Some(size), Some(_)) => (size, copied(alloc, &pointer.ty)?),
        _ => return Err(Refused::Constraint(Reason::Addition)),
    };
    let node = Node::PtrAdd { size, subtract };
    with_children(alloc, node, ty, line, pointer, index)
}

/// `a + b`: of two integers, or of a pointer and an integer in either order (6.5.6p2).
#[tactic(auto, unfolding(crate::specs::Operators::added))]
pub fn added(
    alloc: Global,
    tags: &Tags,
    a: Operand,
    b: Operand,
    line: u32,
) -> Result<Operand, Refused>
    ensures { Gives expression_of result (spec.added (layouts tags.now) (expression_of a) (expression_of b) line) }
{
    let a = value_of(alloc, tags, a)?;
    let b = value_of(alloc, tags, b)?;
    if is_pointer(&a.ty) {
        Ok(value(moved(alloc, tags, false, a, b, line)?))
    } else if is_pointer(&b.ty) {
        Ok(value(moved(alloc, tags, false, b, a, line)?))
    } else {
        arithmetic(alloc, BinOp::Add, a, b, line)
    }
}

fn same_elements(a: &Qual, b: &Qual) -> bool
    ensures { result ≡ tests.compatible (qualified_of a.now).ty (qualified_of b.now).ty }
{
    compatible(&a.ty, &b.ty)
}

// The difference of two pointers to elements of compatible complete types (6.5.6p3, 6.5.6p9).
#[tactic(auto, unfolding(crate::specs::Operators::difference))]
fn difference(alloc: Global, tags: &Tags, a: Typed, b: Typed, line: u32) -> Result<Operand, Refused>
    ensures { Gives expression_of result (spec.difference (layouts tags.now) (term_of a) (term_of b) line) }
{
    let size = match (object_of(&a.ty), object_of(&b.ty)) {
        (Some(x), Some(y)) if same_elements(x, y) => match (
            tags.extent(&x.ty),
            tags.extent(&y.ty),
        ) {
            (Some(e), Some(_)) => e.size,
            _ => return Err(Refused::Constraint(Reason::Subtraction)),
        },
        _ => return Err(Refused::Constraint(Reason::Subtraction)),
    };
    let node = Node::PtrDiff { size };
    let ty = Ty::Int(IntKind::Long);
    Ok(value(with_children(alloc, node, ty, line, a, b)?))
}

/// `a - b`: of two integers, of a pointer and an integer, or of two pointers (6.5.6p3).
#[tactic(auto, unfolding(crate::specs::Operators::subtracted))]
pub fn subtracted(
    alloc: Global,
    tags: &Tags,
    a: Operand,
    b: Operand,
    line: u32,
) -> Result<Operand, Refused>
    ensures { Gives expression_of result (spec.subtracted (layouts tags.now) (expression_of a) (expression_of b) line) }
{
    let a = value_of(alloc, tags, a)?;
    let b = value_of(alloc, tags, b)?;
    match (is_pointer(&a.ty), is_pointer(&b.ty)) {
        (true, true) => difference(alloc, tags, a, b, line),
        (true, false) => Ok(value(moved(alloc, tags, true, a, b, line)?)),
        (false, _) => arithmetic(alloc, BinOp::Sub, a, b, line),
    }
}

/// `a[b]`: the element at the index, whichever operand is the pointer (6.5.2.1).
#[tactic(auto, unfolding(crate::specs::Operators::indexed))]
pub fn indexed(
    alloc: Global,
    tags: &Tags,
    a: Operand,
    b: Operand,
    line: u32,
) -> Result<Operand, Refused>
    ensures { Gives expression_of result (spec.indexed (layouts tags.now) (expression_of a) (expression_of b) line) }
{
    let a = value_of(alloc, tags, a)?;
    let b = value_of(alloc, tags, b)?;
    let tree = if is_pointer(&a.ty) {
        moved(alloc, tags, false, a, b, line)?
    } else {
        moved(alloc, tags, false, b, a, line)?
    };
    Ok(place(tree, false))
}
