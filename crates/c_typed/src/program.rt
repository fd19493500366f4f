//! Functions, static objects and the whole program.

use crate::{Body, Target};
use c_types::{FuncTy, LibFunc, Qual, Tags};
use ub_base::{Bytes, Items};

/// What stands at an offset of an object.
#[derive(Drop)]
pub struct Constant {
    pub at: u64,
    pub content: Content,
}

#[derive(Drop)]
pub enum Content {
    /// So many zeros.
    Zeros(u64),
    Bytes(Bytes),
    /// The address of the target plus an offset, in eight bytes.
    Address { target: Target, offset: u64 },
}

/// An object with static storage. Bytes that no constant gives are 0.
#[derive(Drop)]
pub struct Static {
    pub qual: Qual,
    pub constants: Items<Constant>,
}

/// A function, in order of first declaration.
#[derive(Drop)]
pub struct Function {
    pub ty: FuncTy,
    pub library: Option<LibFunc>,
    /// A Block, where the function is defined.
    pub body: Option<Body>,
}

/// A translation unit. `main` is the number of that function.
#[derive(Drop)]
pub struct Program {
    pub functions: Items<Function>,
    pub statics: Items<Static>,
    pub literals: Items<Bytes>,
    pub tags: Tags,
    pub main: u32,
}
