//! The types of the profile: integer kinds with their ranks and ranges, the conversions between them, and the types built on them.
#![tactic(auto)]

mod agree;
mod composites;
mod copies;
mod kind;
mod library;
mod members;
mod same;
mod shape;
mod shared;
mod sizes;
mod table;
mod tags;
mod ty;

pub use agree::{agrees, compatible, compatible_functions};
pub use composites::{composite, law_composites};
pub use copies::{copied, copied_qual};
pub use kind::{BinOp, IntKind, promote, usual};
pub use library::LibFunc;
pub use same::{law_same, same_qualified, same_type};
pub use shape::{Placed, Shape};
pub use shared::Shared;
pub use table::Tags;
pub use tags::{Extent, Member, Tag, TagKind};
pub use ty::{FuncTy, Qual, Ty};
