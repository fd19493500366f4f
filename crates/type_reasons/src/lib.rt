//! Why operands can't be made of a text: the constraint or the rule of the profile that forbids it, with its paragraph; and what
//! operators ask of the declarations around an expression.
#![tactic(auto)]

mod declarations;
mod reason;
mod refused;

pub use declarations::{Constants, NoObjects, Objects};
pub use reason::Reason;
pub use refused::Refused;
