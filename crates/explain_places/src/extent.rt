// The tokens of an expression.

use crate::brackets::{close_of, closed_behind};
use crate::operand::{is_index, operand_end, operator_before, steps_end};
use crate::operators::{
    ADD, AND, ASSIGN, BIT_AND, BIT_OR, BIT_XOR, CHOICE, COMMA, EQUAL, MULTIPLY, OR, RELATION, SHIFT,
};
use crate::renumber::token_of;
use c_lex::{Mark, TokenKind, Tokens};
use c_typed::{Node, Typed};
use c_types::BinOp;

/// The first token of an expression, that of its operator, and its last one.
#[derive(Clone, Copy, PartialEq, Eq)]
pub struct Extent {
    pub first: u32,
    pub operator: u32,
    pub last: u32,
}

// What stands round an operator.
#[derive(Clone, Copy)]
enum Shape {
    // A primary expression with so many postfix operators behind it.
    Chain(u32),
    // A unary operator, or a cast.
    Prefix,
    // An operator between operands: the first token of the one behind it, and how tightly it binds.
    Between(u32, u8),
    // An initializer in braces.
    Braces,
}

fn level_of(op: BinOp) -> u8 {
    match op {
        BinOp::Mul | BinOp::Div | BinOp::Rem => MULTIPLY,
        BinOp::Add | BinOp::Sub => ADD,
        BinOp::Shl | BinOp::Shr => SHIFT,
        BinOp::BitAnd => BIT_AND,
        BinOp::BitXor => BIT_XOR,
        BinOp::BitOr => BIT_OR,
    }
}

// The first token of the operand of this number.
fn operand_token(tree: &Typed, number: usize) -> u32 {
    match tree.children.get(number) {
        Some(operand) => token_of(operand.line),
        None => token_of(tree.line),
    }
}

// The first token of the operand that stands last in the text.
fn last_token(tree: &Typed) -> u32 {
    operand_token(tree, 0)
        .max(operand_token(tree, 1))
        .max(operand_token(tree, 2))
}

// How many postfix operators an expression has, where it begins at this token.
fn steps_of(tokens: &Tokens<'_>, tree: &Typed, first: u32) -> u32 {
    if token_of(tree.line) != first {
        return 0;
    }
    let below = match tree.children.get(0) {
        Some(operand) => steps_of(tokens, operand, first),
        None => 0,
    };
    match &tree.node {
        Node::Load(_) | Node::Conv(_) => below,
        Node::Member { .. } | Node::Part { .. } | Node::Call { .. } => below.saturating_add(1),
        Node::Update { old: true, .. } => below.saturating_add(1),
        Node::PtrAdd { .. } if is_index(tokens, first, last_token(tree)) => below.saturating_add(1),
        _ => 0,
    }
}

// A single operand, at this token.
fn leaf_shape(tokens: &Tokens<'_>, first: u32) -> Shape {
    match tokens.kind(first) {
        Some(TokenKind::Keyword(_)) | Some(TokenKind::Punct(_)) => Shape::Prefix,
        _ => Shape::Chain(0),
    }
}

fn is_step(tokens: &Tokens<'_>, at: u32) -> bool {
    matches!(
        tokens.kind(at),
        Some(TokenKind::Punct(Mark::PlusPlus | Mark::MinusMinus))
    )
}

// Of a node that isn't a load or a conversion.
fn shape_of(tokens: &Tokens<'_>, tree: &Typed) -> Shape {
    let first = token_of(tree.line);
    match &tree.node {
        Node::Obj(_) | Node::Func(_) | Node::Str(_) | Node::Const(_) => leaf_shape(tokens, first),
        Node::Member { .. } | Node::Part { .. } | Node::Call { .. } => {
            Shape::Chain(steps_of(tokens, tree, first))
        }
        Node::Un(_) => Shape::Prefix,
        Node::Update { old, .. } => {
            if *old {
                Shape::Chain(steps_of(tokens, tree, first))
            } else if is_step(tokens, first) {
                Shape::Prefix
            } else {
                Shape::Between(last_token(tree), ASSIGN)
            }
        }
        Node::PtrAdd { .. } => {
            let last = last_token(tree);
            if is_index(tokens, first, last) {
                Shape::Chain(steps_of(tokens, tree, first))
            } else {
                Shape::Between(last, ADD)
            }
        }
        Node::Bin(op, _) => Shape::Between(last_token(tree), level_of(*op)),
        Node::PtrDiff { .. } => Shape::Between(last_token(tree), ADD),
        Node::Rel { .. } => Shape::Between(last_token(tree), RELATION),
        Node::Eq(_) => Shape::Between(last_token(tree), EQUAL),
        Node::Assign { initializing, .. } => {
            if *initializing {
                Shape::Between(first, ASSIGN)
            } else {
                Shape::Between(last_token(tree), ASSIGN)
            }
        }
        Node::And => Shape::Between(last_token(tree), AND),
        Node::Or => Shape::Between(last_token(tree), OR),
        Node::Cond => Shape::Between(operand_token(tree, 1), CHOICE),
        Node::Comma => Shape::Between(operand_token(tree, 1), COMMA),
        Node::List { .. } => Shape::Braces,
        Node::Load(_) | Node::Conv(_) | Node::Isolated(_) => Shape::Prefix,
    }
}

// The level up to which operators behind the right operand do not belong to it.
fn right_level(level: u8) -> u8 {
    if level == ASSIGN || level == CHOICE {
        level.saturating_sub(1)
    } else {
        level
    }
}

fn extent_between(tokens: &Tokens<'_>, first: u32, right: u32, level: u8) -> Extent {
    let operator = operator_before(tokens, first, right, level);
    let from = if operator == first {
        first
    } else {
        operator.saturating_add(1)
    };
    Extent {
        first,
        operator,
        last: operand_end(tokens, from, right_level(level)),
    }
}

fn extent_by(tokens: &Tokens<'_>, first: u32, shape: Shape) -> Extent {
    match shape {
        Shape::Chain(steps) => {
            let (operator, last) = steps_end(tokens, first, steps);
            Extent {
                first,
                operator,
                last,
            }
        }
        Shape::Prefix => Extent {
            first,
            operator: first,
            last: operand_end(tokens, first.saturating_add(1), MULTIPLY),
        },
        Shape::Between(right, level) => extent_between(tokens, first, right, level),
        Shape::Braces => Extent {
            first,
            operator: first,
            last: close_of(tokens, first),
        },
    }
}

// The last token that an expression names on its right.
fn rightmost(tree: &Typed) -> u32 {
    let own = token_of(tree.line);
    match tree.children.as_slice().last() {
        Some(operand) => own.max(rightmost(operand)),
        None => own,
    }
}

// As far as its operands reach, which a cast before a sign hides: `(T)-x`.
fn reaching(tokens: &Tokens<'_>, extent: Extent, reach: u32) -> Extent {
    if reach <= extent.last {
        return extent;
    }
    let closed = closed_behind(tokens, extent.first, reach);
    Extent {
        last: operand_end(tokens, closed, MULTIPLY),
        ..extent
    }
}

/// The tokens of the expression that this node stands for, in a program whose lines are the numbers of tokens. A load and a
/// conversion that the text doesn't write stand for their operand.
pub fn extent_of(tokens: &Tokens<'_>, tree: &Typed) -> Extent {
    let first = token_of(tree.line);
    let operand = match tree.children.get(0) {
        Some(operand) if operand.line == tree.line => Some(operand),
        _ => None,
    };
    match (&tree.node, operand) {
        (Node::Load(_) | Node::Conv(_), Some(operand)) => extent_of(tokens, operand),
        _ => {
            let extent = extent_by(tokens, first, shape_of(tokens, tree));
            reaching(tokens, extent, rightmost(tree))
        }
    }
}
