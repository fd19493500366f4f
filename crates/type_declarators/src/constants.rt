// Why an expression is no integer constant expression (6.6).

use c_typed::{Node, Typed};
use c_types::Ty;
use type_constants::{Folded, worth};
use type_operands::{Form, Operand, object_of};
use type_reasons::{NoObjects, Reason};

// Whether the node is one of those that a constant expression doesn't have (6.6p3).
fn is_evaluated(node: &Node) -> bool {
    matches!(
        node,
        Node::Assign {
            initializing: _,
            access: _,
        } | Node::Update { change: _, old: _ }
            | Node::Call { discarded: _ }
            | Node::Comma
    )
}

// Whether such a node stands in the tree.
#[cycle(evaluated)]
fn has_evaluated(tree: &Typed) -> bool {
    is_evaluated(&tree.node) || have_evaluated(tree.children.as_slice())
}

#[cycle(evaluated)]
fn have_evaluated(trees: &[Typed]) -> bool {
    for tree in trees {
        if has_evaluated(tree) {
            return true;
        }
    }
    false
}

fn is_integer_type(ty: &Ty) -> bool {
    matches!(ty, Ty::Int(_) | Ty::Enum(_))
}

// Whether the operand has an integer type, as a value or as an object.
fn is_integer(operand: &Operand) -> bool {
    match operand.form {
        Form::Value => is_integer_type(&operand.tree.ty),
        Form::Place { register: _ } => match object_of(&operand.tree.ty) {
            Some(object) => is_integer_type(&object.ty),
            None => false,
        },
        Form::NullPointer | Form::Designator | Form::Void => false,
    }
}

// Of what doesn't fold: a length that is no integer breaks the constraint on lengths, not the rule on variable ones.
fn without_value(operand: &Operand, reason: Reason) -> Reason {
    match reason {
        Reason::LeftOutVariableLength if !is_integer(operand) => Reason::ArrayLength,
        reason => reason,
    }
}

/// Why the tree of constants has no value: an operator that is evaluated, or a value out of range (6.6p3, 6.6p4).
pub fn valueless(tree: &Typed) -> Reason {
    if has_evaluated(tree) {
        Reason::ConstantOperator
    } else {
        Reason::ConstantRange
    }
}

/// Why the operand is no integer constant expression, where its place gives this reason: its value may be out of range (6.6p4),
/// and as the value of an enumeration constant it may have an operator that is evaluated (6.6p3).
pub fn refusal(operand: &Operand, reason: Reason) -> Reason {
    if has_evaluated(&operand.tree) {
        return match reason {
            Reason::EnumeratorValue => Reason::ConstantOperator,
            reason => without_value(operand, reason),
        };
    }
    match worth(&NoObjects, &operand.tree) {
        Folded::Valueless => Reason::ConstantRange,
        Folded::Unknown | Folded::Number(_) | Folded::Address(_, _) => {
            without_value(operand, reason)
        }
    }
}

/// Why an enumeration constant with this value, or without one, has none that is an `int` (6.7.2.2p2, 6.7.2.2p3).
pub fn enumerator_refusal(value: Option<i128>) -> Reason {
    match value {
        Some(_) => Reason::EnumeratorValue,
        None => Reason::NextEnumerator,
    }
}
