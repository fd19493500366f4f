//! Declarations (A.2.2). A `u32` that stands for a name or a literal is the number of its token.

use crate::Expr;
use c_lex::Word;
use ub_base::{Boxed, Items};

/// A type name (6.7.7).
#[cycle(ast)]
#[derive(Drop)]
pub struct TypeName {
    pub specs: Specs,
    pub declarator: Declarator,
}

/// Declaration specifiers, or specifiers and qualifiers (6.7): the keywords among them in order, and the one specifier
/// that is no keyword.
#[cycle(ast)]
#[derive(Drop)]
pub struct Specs {
    pub words: Items<Word>,
    pub base: Base,
}

#[cycle(ast)]
#[derive(Drop)]
pub enum Base {
    Plain,
    /// A structure, or a union where `union` is true, with its tag and its member list (6.7.2.1).
    Tagged {
        union: bool,
        tag: Option<u32>,
        members: Option<Items<MemberEntry>>,
    },
    /// An enumeration with its tag and its list (6.7.2.2).
    Enumerated {
        tag: Option<u32>,
        enumerators: Option<Items<Enumerator>>,
    },
    /// A typedef name (6.7.8).
    Typedef(u32),
}

#[cycle(ast)]
#[derive(Drop)]
pub enum MemberEntry {
    Fields(Specs, Items<Declarator>),
    /// A static assertion (6.7.10): its condition, and the first string literal of its message.
    Assertion(Expr, u32),
}

/// A name, and its value where one is written.
#[cycle(ast)]
#[derive(Drop)]
pub struct Enumerator {
    pub name: u32,
    pub value: Option<Expr>,
}

/// A declarator, or an abstract one (6.7.6, 6.7.7).
#[cycle(ast)]
#[derive(Drop)]
pub enum Declarator {
    Ident(Option<u32>),
    /// The qualifiers of the pointer, and what it stands before.
    Pointer(Items<Word>, Boxed<Declarator>),
    Array(Boxed<Declarator>, Option<Boxed<Expr>>),
    /// True where an ellipsis follows the parameters.
    Function(Boxed<Declarator>, Items<Param>, bool),
}

/// A parameter declaration (6.7.6).
#[cycle(ast)]
#[derive(Drop)]
pub struct Param {
    pub specs: Specs,
    pub declarator: Declarator,
}

/// An initializer (6.7.9).
#[cycle(init)]
#[derive(Drop)]
pub enum Init {
    Single(Expr),
    /// A list; `at` is the number of its `{`.
    Braced { at: u32, entries: Items<InitEntry> },
}

#[cycle(init)]
#[derive(Drop)]
pub struct InitEntry {
    pub designators: Items<Designator>,
    pub init: Init,
}

#[derive(Drop)]
pub enum Designator {
    Member(u32),
    Element(Expr),
}

/// A declaration that is no static assertion (6.7).
#[derive(Drop)]
pub struct Declaration {
    pub specs: Specs,
    pub parts: Items<Part>,
}

/// An init-declarator (6.7).
#[derive(Drop)]
pub struct Part {
    pub declarator: Declarator,
    pub init: Option<Init>,
}
