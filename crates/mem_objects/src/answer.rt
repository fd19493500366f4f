// Why an act gave no value.

use crate::Value;
use ub_base::{Cause, Clause, NoMemory};

/// Why a load or a copy gave nothing: undefined behaviour, or want of memory.
#[derive(Clone, Copy, PartialEq, Eq)]
pub enum MemFault {
    Raise(Clause),
    NoMemory,
}

impl From<Clause> for MemFault {
    ghost use Rattle.std.specs.Prelude.{◌≡◌};
    ghost use Rattle.mem_objects.specs.declared.answer.MemFault.TheVariants.{Raise};

    ghost from_gives = { λ c e. e ≡ Raise c };

    fn from(clause: Clause) -> MemFault {
        MemFault::Raise(clause)
    }
}

impl From<NoMemory> for MemFault {
    ghost use Rattle.std.specs.Prelude.{◌≡◌};
    ghost use Rattle.mem_objects.specs.declared.answer.MemFault.TheVariants.{NoMemory};

    ghost from_gives = { λ _ e. e ≡ NoMemory };

    fn from(_e: NoMemory) -> MemFault {
        MemFault::NoMemory
    }
}

/// Why an object wasn't created: it has no place, or want of memory.
#[derive(Clone, Copy, PartialEq, Eq)]
pub enum CreateFault {
    Unplaced,
    NoMemory,
}

impl From<NoMemory> for CreateFault {
    ghost use Rattle.std.specs.Prelude.{◌≡◌};
    ghost use Rattle.mem_objects.specs.declared.answer.CreateFault.TheVariants.{NoMemory};

    ghost from_gives = { λ _ e. e ≡ NoMemory };

    fn from(_e: NoMemory) -> CreateFault {
        CreateFault::NoMemory
    }
}

/// What a call of a library function gives: its value, the end of the run with a status, undefined behaviour, a limit that
/// it would pass, an object without a place, or want of memory.
#[derive(Drop)]
pub enum LibAnswer {
    Value(Value),
    End(u8),
    Raise(Clause),
    Outside(Cause, u64),
    Unplaced,
    NoMemory,
}

impl From<NoMemory> for LibAnswer {
    ghost use Rattle.std.specs.Prelude.{◌≡◌};
    ghost use Rattle.mem_objects.specs.declared.answer.LibAnswer.TheVariants.{NoMemory};

    ghost from_gives = { λ _ e. e ≡ NoMemory };

    fn from(_e: NoMemory) -> LibAnswer {
        LibAnswer::NoMemory
    }
}

impl From<Clause> for LibAnswer {
    ghost use Rattle.std.specs.Prelude.{◌≡◌};
    ghost use Rattle.mem_objects.specs.declared.answer.LibAnswer.TheVariants.{Raise};

    ghost from_gives = { λ c e. e ≡ Raise c };

    fn from(clause: Clause) -> LibAnswer {
        LibAnswer::Raise(clause)
    }
}
