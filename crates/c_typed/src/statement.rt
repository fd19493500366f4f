//! Statements with their full expressions.

use crate::Typed;
use c_types::Qual;
use ub_base::{Boxed, Items};

/// A statement (6.8). Labels are numbered in the function.
#[cycle(body)]
#[derive(Drop)]
pub enum Body {
    Simple(Option<Typed>),
    Block(Block),
    If(Typed, Boxed<Body>, Option<Boxed<Body>>),
    Switch(Typed, Boxed<Body>),
    While(Typed, Boxed<Body>),
    Do(Boxed<Body>, Typed),
    For {
        start: ForStart,
        test: Option<Typed>,
        step: Option<Typed>,
        body: Boxed<Body>,
    },
    Goto(u32),
    Continue,
    Break,
    Return(Option<Typed>),
    Label(u32, Boxed<Body>),
    /// Its value, of the promoted type of the controlling expression.
    Case(i128, Boxed<Body>),
    Default(Boxed<Body>),
}

/// The first part of `for`. One that declares is a block: its entries are those of the declaration.
#[cycle(body)]
#[derive(Drop)]
pub enum ForStart {
    Empty,
    Value(Typed),
    Declared(Block),
}

/// A block with the types of its objects; the body block of a function begins with the parameters. `number` counts the
/// blocks of the function in preorder from 0.
#[cycle(body)]
#[derive(Drop)]
pub struct Block {
    pub number: u32,
    pub objects: Items<Qual>,
    pub entries: Items<Entry>,
}

/// A block item (6.8.2).
#[cycle(body)]
#[derive(Drop)]
pub enum Entry {
    Statement(Body),
    /// The tree of an automatic object's initializer: an initializing Assign, or a List.
    Initializer(Typed),
    /// An automatic object of this block that is declared without initializer.
    Declare(u32),
}
