//! The syntax tree of a translation unit (Annex A of ISO/IEC 9899:2011, in the profile).
#![tactic(auto)]

mod declaration;
mod expression;
mod nesting;
mod statement;

pub use declaration::{
    Base, Declaration, Declarator, Designator, Enumerator, Init, InitEntry, MemberEntry, Param,
    Part, Specs, TypeName,
};
pub use expression::{AssignOp, BinaryOp, Expr, ExprNode, PostOp, UnaryOp};
pub use nesting::{Level, nest};
pub use statement::{Entry, ForInit, Stmt, Unit, UnitEntry};
