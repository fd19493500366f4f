// Why a pick isn't taken.
use prov_memory::CreateFault;
use ub_base::{Cause, Clause, Event, NoMemory};

/// Why a pick isn't taken.
#[derive(Clone, Copy, Debug, PartialEq, Eq)]
pub enum Halt {
    /// The event, of a node in this line, raises the clause.
    Raised {
        event: Event,
        line: u32,
        clause: Clause,
    },
    /// It would pass the limit, with the number that would be reached.
    Over(Cause, u64),
    /// An object that it creates has no row in the address map.
    Unplaced,
    NoMemory,
}

impl From<NoMemory> for Halt {
    ghost use Rattle.std.specs.Prelude.{◌≡◌};
    ghost use Rattle.run_state.specs.declared.halt.Halt.TheVariants.{NoMemory};

    ghost from_gives = { λ _ e. e ≡ NoMemory };

    fn from(_e: NoMemory) -> Halt {
        Halt::NoMemory
    }
}

impl From<CreateFault> for Halt {
    ghost use Rattle.std.specs.Prelude.{◌≡◌};
    ghost use Rattle.run_state.specs.Faults.{halt_of};

    ghost from_gives = { λ fault e. e ≡ halt_of fault };

    fn from(fault: CreateFault) -> Halt {
        match fault {
            CreateFault::Unplaced => Halt::Unplaced,
            CreateFault::NoMemory => Halt::NoMemory,
        }
    }
}
