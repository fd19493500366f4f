//! Expressions (A.2.1). A `u32` that stands for a name or a literal is the number of its token.

use crate::TypeName;
use ub_base::{Boxed, Items};

/// `& * + - ~ !` (6.5.3), and `++` and `--` before their operand (6.5.3.1).
#[derive(Clone, Copy, Debug, PartialEq, Eq)]
pub enum UnaryOp {
    Address,
    Deref,
    Plus,
    Minus,
    Tilde,
    Not,
    Increment,
    Decrement,
}

/// `++` and `--` behind their operand (6.5.2.4).
#[derive(Clone, Copy, Debug, PartialEq, Eq)]
pub enum PostOp {
    Increment,
    Decrement,
}

/// The binary operators of 6.5.5 to 6.5.14.
#[derive(Clone, Copy, Debug, PartialEq, Eq)]
pub enum BinaryOp {
    Mul,
    Div,
    Rem,
    Add,
    Sub,
    Shl,
    Shr,
    Less,
    Greater,
    LessEq,
    GreaterEq,
    Eq,
    Ne,
    BitAnd,
    BitXor,
    BitOr,
    And,
    Or,
}

/// The assignment operators of 6.5.16.
#[derive(Clone, Copy, Debug, PartialEq, Eq)]
pub enum AssignOp {
    Plain,
    Mul,
    Div,
    Rem,
    Add,
    Sub,
    Shl,
    Shr,
    BitAnd,
    BitXor,
    BitOr,
}

#[cycle(ast)]
#[derive(Drop)]
pub struct Expr {
    /// The number of its first token; of a parenthesised expression, of the first token inside the parentheses.
    pub at: u32,
    pub node: ExprNode,
}

#[cycle(ast)]
#[derive(Drop)]
pub enum ExprNode {
    Name(u32),
    Number(u32),
    CharLit(u32),
    /// Adjacent string literals: the first token, and how many.
    Strings(u32, u32),
    Unary(UnaryOp, Boxed<Expr>),
    Postfix(PostOp, Boxed<Expr>),
    Binary(BinaryOp, Boxed<Expr>, Boxed<Expr>),
    Assign(AssignOp, Boxed<Expr>, Boxed<Expr>),
    Cond(Boxed<Expr>, Boxed<Expr>, Boxed<Expr>),
    /// At least two operands.
    Comma(Items<Expr>),
    Call(Boxed<Expr>, Items<Expr>),
    Index(Boxed<Expr>, Boxed<Expr>),
    Dot(Boxed<Expr>, u32),
    Arrow(Boxed<Expr>, u32),
    Cast(Boxed<TypeName>, Boxed<Expr>),
    SizeofExpr(Boxed<Expr>),
    SizeofType(Boxed<TypeName>),
    AlignofType(Boxed<TypeName>),
}
