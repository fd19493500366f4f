// How the check of a function ends before its end.
ghost use Rattle.std.specs.Prelude.{IsTrue, OnOk};

use std::alloc::AllocError;
use ub_base::NoMemory;

/// Why the check of a function ends before its end.
#[derive(Clone, Copy, PartialEq, Eq, Drop)]
pub(crate) enum Stop {
    Unlawful,
    NoMemory,
}

impl From<AllocError> for Stop {
    fn from(_: AllocError) -> Stop {
        Stop::NoMemory
    }
}

impl From<NoMemory> for Stop {
    fn from(_: NoMemory) -> Stop {
        Stop::NoMemory
    }
}

/// Goes on only where the condition holds.
pub(crate) fn must(holds: bool) -> Result<(), Stop>
    ensures { OnOk result (IsTrue holds) }
{
    if holds { Ok(()) } else { Err(Stop::Unlawful) }
}
