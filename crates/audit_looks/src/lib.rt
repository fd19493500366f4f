//! Further looks at a program or its run: standard error, races that aren't known away, both orders, the story of an object.
#![tactic(auto)]

mod errors;
mod judged;
mod looks;
mod statics;
mod story;
mod swap;

pub use errors::errors_sheet;
pub use looks::{mode_of, stopped_page};
pub use statics::static_sheet;
pub use story::story_sheet;
pub use swap::swap_sheet;
