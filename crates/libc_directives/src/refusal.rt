// Why a directive prints nothing.

use prov_memory::LibAnswer;
use ub_base::{Cause, Clause, NoMemory};

/// Undefined behaviour, a limit that would be passed or a directive that is left out (own), or want of memory.
#[derive(Clone, Copy, PartialEq, Eq)]
pub enum Refusal {
    Raise(Clause),
    Outside(Cause, u64),
    NoMemory,
}

impl From<Clause> for Refusal {
    ghost use Rattle.std.specs.Prelude.{◌≡◌};
    ghost use Rattle.libc_directives.specs.declared.refusal.Refusal.TheVariants.{Raise};

    ghost from_gives = { λ c e. e ≡ Raise c };

    fn from(clause: Clause) -> Refusal {
        Refusal::Raise(clause)
    }
}

impl From<NoMemory> for Refusal {
    ghost use Rattle.std.specs.Prelude.{◌≡◌};
    ghost use Rattle.libc_directives.specs.declared.refusal.Refusal.TheVariants.{NoMemory};

    ghost from_gives = { λ _ e. e ≡ NoMemory };

    fn from(_e: NoMemory) -> Refusal {
        Refusal::NoMemory
    }
}

impl From<Refusal> for LibAnswer {
    ghost use Rattle.std.specs.Prelude.{◌≡◌};
    ghost use Rattle.libc_directives.specs.Answers.{answer_of};

    ghost from_gives = { λ refusal answer. answer ≡ answer_of refusal };

    fn from(refusal: Refusal) -> LibAnswer {
        match refusal {
            Refusal::Raise(clause) => LibAnswer::Raise(clause),
            Refusal::Outside(cause, number) => LibAnswer::Outside(cause, number),
            Refusal::NoMemory => LibAnswer::NoMemory,
        }
    }
}
