// Why an operand can't be made.
ghost use Rattle.std.specs.Prelude.{◌≡◌};

use crate::Reason;
use std::alloc::{AllocError, AllocFailed};
use ub_base::NoMemory;

/// Why no node is made: a constraint or a rule of the profile forbids it, or memory ran out.
#[derive(Clone, Copy, Debug, PartialEq, Eq)]
pub enum Refused {
    Constraint(Reason),
    NoMemory,
}

impl From<NoMemory> for Refused {
    ghost use Rattle.type_reasons.specs.declared.refused.Refused.TheVariants.{NoMemory};

    ghost from_gives = { λ _ e. e ≡ NoMemory };

    fn from(_e: NoMemory) -> Refused {
        Refused::NoMemory
    }
}

impl From<AllocError> for Refused {
    ghost use Rattle.type_reasons.specs.declared.refused.Refused.TheVariants.{NoMemory};

    ghost from_gives = { λ _ e. e ≡ NoMemory };

    fn from(_e: AllocError) -> Refused {
        Refused::NoMemory
    }
}

impl<T: Drop> From<AllocFailed<T>> for Refused {
    ghost use Rattle.type_reasons.specs.declared.refused.Refused.TheVariants.{NoMemory};

    ghost from_gives = { λ _ e. e ≡ NoMemory };

    fn from(_e: AllocFailed<T>) -> Refused {
        Refused::NoMemory
    }
}
