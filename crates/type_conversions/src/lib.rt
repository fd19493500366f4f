//! Conversions of operands: promotions, casts, values as if assigned, and two operands in a common type
//! (ISO/IEC 9899:2011, 6.3, 6.5.4, 6.5.16.1).
#![tactic(auto)]

mod convert;
mod pair;

pub use convert::{
    as_if_assigned, cast, converted, is_pointer, is_scalar, may_meet, promoted, promoted_argument,
    to_kind, truth, usual_kind,
};
pub use pair::{balanced, matched};
