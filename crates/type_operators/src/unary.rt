// Unary operators (6.5.3).
ghost use Rattle.c_types.specs.Types.{int};
ghost use Rattle.c_typed.specs.declared.tree.Node.TheOpen as shape;
ghost use Rattle.type_operands.specs.Terms.{term_of, expression_of, unary, as_value, Gives};
ghost use Rattle.type_operators.specs.Operators as spec;
ghost use Rattle.type_operands.specs.Layouts.{layouts};

use c_typed::{Node, Typed, UnOp};
use c_types::{IntKind, Tags, Ty};
use std::alloc::Global;
use type_conversions::{promoted, truth};
use type_operands::{Form, Operand, object_of, value, value_of, with_child};
use type_reasons::{Reason, Refused};

/// `+E`: the promoted value (6.5.3.3p2).
#[tactic(auto, unfolding(crate::specs::Operators::plus))]
pub fn plus(alloc: Global, tags: &Tags, operand: Operand) -> Result<Operand, Refused>
    ensures { Gives expression_of result (spec.plus (layouts tags.now) (expression_of operand)) }
{
    let (tree, _kind) = promoted(alloc, value_of(alloc, tags, operand)?)?;
    Ok(value(tree))
}

fn integer_unary(
    alloc: Global,
    op: UnOp,
    kind: IntKind,
    tree: Typed,
    line: u32,
) -> Result<Operand, Refused>
    ensures { Gives expression_of result (Some (as_value (unary (shape.Un op) (int kind) line (term_of tree)))) }
{
    let node = Node::Un(op);
    Ok(value(with_child(alloc, node, Ty::Int(kind), line, tree)?))
}

/// `-E` (6.5.3.3p3).
#[tactic(auto, unfolding(crate::specs::Operators::of_promoted))]
pub fn negated(alloc: Global, tags: &Tags, operand: Operand, line: u32) -> Result<Operand, Refused>
    ensures { Gives expression_of result (spec.negated (layouts tags.now) (expression_of operand) line) }
{
    let (tree, kind) = promoted(alloc, value_of(alloc, tags, operand)?)?;
    integer_unary(alloc, UnOp::Minus(kind), kind, tree, line)
}

/// `~E` (6.5.3.3p4).
#[tactic(auto, unfolding(crate::specs::Operators::of_promoted))]
pub fn complemented(
    alloc: Global,
    tags: &Tags,
    operand: Operand,
    line: u32,
) -> Result<Operand, Refused>
    ensures { Gives expression_of result (spec.complemented (layouts tags.now) (expression_of operand) line) }
{
    let (tree, kind) = promoted(alloc, value_of(alloc, tags, operand)?)?;
    integer_unary(alloc, UnOp::Complement(kind), kind, tree, line)
}

/// `!E`, of any scalar (6.5.3.3p5).
#[tactic(auto, unfolding(crate::specs::Operators::inverted))]
pub fn inverted(alloc: Global, tags: &Tags, operand: Operand, line: u32) -> Result<Operand, Refused>
    ensures { Gives expression_of result (spec.inverted (layouts tags.now) (expression_of operand) line) }
{
    let tree = truth(alloc, tags, operand)?;
    integer_unary(alloc, UnOp::Not, IntKind::Int, tree, line)
}

/// `&E`: of a function, or of an lvalue that isn't declared `register` (6.5.3.2p1, 6.5.3.2p3). No node is added.
pub fn addressed(operand: Operand) -> Result<Operand, Refused>
    ensures { Gives expression_of result (spec.addressed (expression_of operand)) }
{
    let Operand {
        tree,
        form,
        line: _,
    } = operand;
    match form {
        Form::Designator | Form::Place { register: false } => Ok(value(tree)),
        Form::Place { register: true } | Form::Value | Form::NullPointer | Form::Void => {
            Err(Refused::Constraint(Reason::Address))
        }
    }
}

/// `*E`: the object or function that a pointer points to (6.5.3.2p2, 6.5.3.2p4). No node is added.
#[tactic(auto, unfolding(crate::specs::Operators::dereferenced))]
pub fn dereferenced(
    alloc: Global,
    tags: &Tags,
    operand: Operand,
    line: u32,
) -> Result<Operand, Refused>
    ensures { Gives expression_of result (spec.dereferenced (layouts tags.now) (expression_of operand) line) }
{
    let tree = value_of(alloc, tags, operand)?;
    let function = match object_of(&tree.ty) {
        None => return Err(Refused::Constraint(Reason::Indirection)),
        Some(target) => matches!(target.ty, Ty::Function(_)),
    };
    let form = if function {
        Form::Designator
    } else {
        Form::Place { register: false }
    };
    Ok(Operand { tree, form, line })
}
