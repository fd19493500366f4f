// A conflict that is seen.
ghost use Rattle.evaluation_log.specs.FoundItems.{IsConflict};

use evaluation_log::Found;

/// Two evaluations that conflict, and their lines.
#[derive(Clone, Copy)]
pub struct Seen {
    pub found: Found,
    pub line: u32,
    pub against_line: u32,
    ghost conflict: { IsConflict found },
}
