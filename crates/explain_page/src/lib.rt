//! The parts of an explanation as text: places, lines of source with carets, notes, types.
#![tactic(auto)]

mod carets;
mod kinds;
mod notes;
mod page;
mod pieces;
mod shown;
mod tags;
mod written;

pub use carets::{Mark, put_marks};
pub use kinds::put_type;
pub use notes::{put_long_note, put_note};
pub use page::{Page, Stretch, empty};
pub use shown::{put_excerpt, put_number};
pub use tags::tags_of;
pub use written::Written;
