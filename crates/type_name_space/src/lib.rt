//! Name spaces: what each name means in the scopes that are open (ISO/IEC 9899:2011, 6.2.1, 6.2.3).
#![tactic(auto)]

mod laws;
mod places;
mod space;

pub use laws::law_scopes;
pub use space::{Binding, Space};
