// The types of the profile (6.2.5, 6.7).

use crate::{IntKind, Shared};
use ub_base::Items;

/// A type without its top qualifiers. Copies share their parts. A `u32` is the number of a tag, or of an enumeration.
#[cycle(ty)]
#[derive(Drop)]
pub enum Ty {
    Void,
    Int(IntKind),
    Enum(u32),
    Pointer(Shared<Qual>),
    /// Its element and, where it is known, the count of them.
    Array(Shared<Qual>, Option<u64>),
    Struct(u32),
    Union(u32),
    Function(Shared<FuncTy>),
}

/// A type with its top qualifier.
#[cycle(ty)]
#[derive(Drop)]
pub struct Qual {
    pub ty: Ty,
    pub constant: bool,
}

/// A function type with a prototype (6.7.6.3).
#[cycle(ty)]
#[derive(Drop)]
pub struct FuncTy {
    pub result: Ty,
    pub params: Items<Qual>,
    pub variadic: bool,
}
