//! Statements (A.2.3) and the translation unit (A.2.4). A `u32` that stands for a name or a literal is the number of its
//! token.

use crate::{Declaration, Declarator, Expr, Specs};
use ub_base::{Boxed, Items};

/// A statement (6.8). `at` is the number of its first token where no expression tells its place.
#[cycle(stmt)]
#[derive(Drop)]
pub enum Stmt {
    Simple(Option<Expr>),
    Block(Items<Entry>),
    If(Expr, Boxed<Stmt>, Option<Boxed<Stmt>>),
    Switch(Expr, Boxed<Stmt>),
    While(Expr, Boxed<Stmt>),
    Do(Boxed<Stmt>, Expr),
    For(Boxed<ForInit>, Option<Expr>, Option<Expr>, Boxed<Stmt>),
    Goto(u32),
    /// The number of its token.
    Continue(u32),
    /// The number of its token.
    Break(u32),
    /// The number of its token.
    Return(u32, Option<Expr>),
    Label(u32, Boxed<Stmt>),
    /// The number of its token.
    Case(u32, Expr, Boxed<Stmt>),
    /// The number of its token.
    Default(u32, Boxed<Stmt>),
}

#[derive(Drop)]
pub enum ForInit {
    Empty,
    Value(Expr),
    Declared(Declaration),
}

/// A block item (6.8.2).
#[cycle(stmt)]
#[derive(Drop)]
pub enum Entry {
    Statement(Stmt),
    Declaration(Declaration),
    /// A static assertion (6.7.10): its condition, and the first string literal of its message.
    Assertion(Expr, u32),
}

/// A translation unit (6.9).
#[derive(Drop)]
pub struct Unit {
    pub entries: Items<UnitEntry>,
}

/// An external declaration (6.9). A lone `;` is one too (own).
#[derive(Drop)]
pub enum UnitEntry {
    Function {
        specs: Specs,
        declarator: Declarator,
        body: Items<Entry>,
    },
    Declaration(Declaration),
    Assertion(Expr, u32),
    Empty,
}
