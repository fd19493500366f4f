//! The operators by their punctuators, and how tightly each binds (6.5).

ghost use Rattle.std.specs.Prelude.{◌≡◌, ◌≢◌, ◌≤◌, IfSome, IfNone};
ghost use Rattle.c_ast.specs.declared.expression.BinaryOp.{BinaryOp};
ghost use Rattle.c_ast.specs.declared.expression.AssignOp.{AssignOp};
ghost use Rattle.c_ast.specs.declared.expression.UnaryOp.{UnaryOp};
ghost use Rattle.c_grammar.specs.Operators as spec;
ghost use Rattle.parse_cursor.specs.Places.{right_level};
ghost use Rattle.parse_spec.specs.Operators.{tight_by, tight_mark};
ghost use Rattle.parse_spec.specs.Operators as parsed;

use c_ast::{AssignOp, BinaryOp, UnaryOp};
use c_lex::Mark;

/// An expression (6.5.17).
pub const COMMA: u8 = 0;

/// An assignment expression (6.5.16).
pub const ASSIGNMENT: u8 = 1;

/// A conditional expression (6.5.15), which is a constant expression too (6.6).
pub const CONDITIONAL: u8 = 2;

/// A cast expression (6.5.4).
pub const CAST: u8 = 13;

/// A unary expression (6.5.3).
pub const UNARY: u8 = 14;

/// A postfix expression (6.5.2).
pub const POSTFIX: u8 = 15;

/// The binary operator of this punctuator.
pub fn binary_op(mark: Mark) -> Option<BinaryOp>
    ensures found { IfSome result (λ op. spec.binary_mark op ≡ mark) }
    ensures none { IfNone result ((op : BinaryOp) → spec.binary_mark op ≢ mark) }
    ensures read { result ≡ parsed.binary_op mark }
{
    match mark {
        Mark::OrOr => Some(BinaryOp::Or),
        Mark::AndAnd => Some(BinaryOp::And),
        Mark::Bar => Some(BinaryOp::BitOr),
        Mark::Caret => Some(BinaryOp::BitXor),
        Mark::Ampersand => Some(BinaryOp::BitAnd),
        Mark::EqualEqual => Some(BinaryOp::Eq),
        Mark::BangEqual => Some(BinaryOp::Ne),
        Mark::Less => Some(BinaryOp::Less),
        Mark::Greater => Some(BinaryOp::Greater),
        Mark::LessEqual => Some(BinaryOp::LessEq),
        Mark::GreaterEqual => Some(BinaryOp::GreaterEq),
        Mark::ShiftLeft => Some(BinaryOp::Shl),
        Mark::ShiftRight => Some(BinaryOp::Shr),
        Mark::Plus => Some(BinaryOp::Add),
        Mark::Minus => Some(BinaryOp::Sub),
        Mark::Star => Some(BinaryOp::Mul),
        Mark::Slash => Some(BinaryOp::Div),
        Mark::Percent => Some(BinaryOp::Rem),
        _ => None,
    }
}

/// The level of what the operator makes, and of the loosest left operand that it takes (6.5.5 to 6.5.14).
pub fn level_of(op: BinaryOp) -> u8
    ensures level { result ≡ spec.level_of op }
    ensures most { result ≤ 12 }
{
    match op {
        BinaryOp::Or => 3,
        BinaryOp::And => 4,
        BinaryOp::BitOr => 5,
        BinaryOp::BitXor => 6,
        BinaryOp::BitAnd => 7,
        BinaryOp::Eq | BinaryOp::Ne => 8,
        BinaryOp::Less | BinaryOp::Greater | BinaryOp::LessEq | BinaryOp::GreaterEq => 9,
        BinaryOp::Shl | BinaryOp::Shr => 10,
        BinaryOp::Add | BinaryOp::Sub => 11,
        BinaryOp::Mul | BinaryOp::Div | BinaryOp::Rem => 12,
    }
}

/// The level of the loosest right operand that the operator takes: it groups from the left.
pub fn right_level_of(op: BinaryOp) -> u8
    ensures { result ≡ right_level op }
{
    1 + level_of(op)
}

/// The assignment operator of this punctuator.
pub fn assign_op(mark: Mark) -> Option<AssignOp>
    ensures found { IfSome result (λ op. spec.assign_mark op ≡ mark) }
    ensures none { IfNone result ((op : AssignOp) → spec.assign_mark op ≢ mark) }
    ensures read { result ≡ parsed.assign_op mark }
{
    match mark {
        Mark::Equal => Some(AssignOp::Plain),
        Mark::StarEqual => Some(AssignOp::Mul),
        Mark::SlashEqual => Some(AssignOp::Div),
        Mark::PercentEqual => Some(AssignOp::Rem),
        Mark::PlusEqual => Some(AssignOp::Add),
        Mark::MinusEqual => Some(AssignOp::Sub),
        Mark::ShiftLeftEqual => Some(AssignOp::Shl),
        Mark::ShiftRightEqual => Some(AssignOp::Shr),
        Mark::AmpersandEqual => Some(AssignOp::BitAnd),
        Mark::CaretEqual => Some(AssignOp::BitXor),
        Mark::BarEqual => Some(AssignOp::BitOr),
        _ => None,
    }
}

/// The unary operator of this punctuator.
pub fn unary_op(mark: Mark) -> Option<UnaryOp>
    ensures found { IfSome result (λ op. spec.unary_mark op ≡ mark) }
    ensures none { IfNone result ((op : UnaryOp) → spec.unary_mark op ≢ mark) }
{
    match mark {
        Mark::Ampersand => Some(UnaryOp::Address),
        Mark::Star => Some(UnaryOp::Deref),
        Mark::Plus => Some(UnaryOp::Plus),
        Mark::Minus => Some(UnaryOp::Minus),
        Mark::Tilde => Some(UnaryOp::Tilde),
        Mark::Bang => Some(UnaryOp::Not),
        Mark::PlusPlus => Some(UnaryOp::Increment),
        Mark::MinusMinus => Some(UnaryOp::Decrement),
        _ => None,
    }
}

/// `++` and `--` stand before a unary expression, the others before a cast expression (6.5.3).
pub fn operand_level(op: UnaryOp) -> u8
    ensures { result ≡ spec.operand_level op }
{
    match op {
        UnaryOp::Increment | UnaryOp::Decrement => UNARY,
        _ => CAST,
    }
}

/// How tightly a punctuator binds what stands before it: one more than the level of what the two make, and 0 for one that
/// goes on with nothing.
pub fn tight(mark: Mark) -> u8
    ensures { result ≡ tight_mark mark }
{
    match mark {
        Mark::OpenParen
        | Mark::OpenBracket
        | Mark::Dot
        | Mark::Arrow
        | Mark::PlusPlus
        | Mark::MinusMinus => POSTFIX + 1,
        Mark::Comma => COMMA + 1,
        Mark::Question => CONDITIONAL + 1,
        _ => tight_operator(mark),
    }
}

/// The same of an operator that stands between two operands.
fn tight_operator(mark: Mark) -> u8
    ensures { result ≡ tight_by (parsed.binary_op mark) (parsed.assign_op mark) }
{
    match binary_op(mark) {
        Some(op) => level_of(op) + 1,
        None => match assign_op(mark) {
            Some(_) => ASSIGNMENT + 1,
            None => 0,
        },
    }
}
