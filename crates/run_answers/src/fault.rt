// Why an act isn't done.
ghost use Rattle.std.specs.Prelude.{◌≡◌};
ghost use Rattle.run_answers.specs.Faults.{halt_by};

use prov_memory::MemFault;
use run_state::Halt;
use ub_base::{Cause, Clause, Event, NoMemory};

/// Why an act isn't done.
#[derive(Clone, Copy, Debug, PartialEq, Eq)]
pub enum Fault {
    Raise(Clause),
    Over(Cause, u64),
    Unplaced,
    NoMemory,
}

impl Fault {
    /// Why the pick isn't taken: the act was that of this event, of a node in this line.
    pub fn of(self, event: Event, line: u32) -> Halt
        ensures { result ≡ halt_by event line self }
    {
        match self {
            Fault::Raise(clause) => Halt::Raised {
                event,
                line,
                clause,
            },
            Fault::Over(cause, number) => Halt::Over(cause, number),
            Fault::Unplaced => Halt::Unplaced,
            Fault::NoMemory => Halt::NoMemory,
        }
    }
}

impl From<NoMemory> for Fault {
    ghost use Rattle.std.specs.Prelude.{◌≡◌};
    ghost use Rattle.run_answers.specs.declared.fault.Fault.TheVariants.{NoMemory};

    ghost from_gives = { λ _ e. e ≡ NoMemory };

    fn from(_e: NoMemory) -> Fault {
        Fault::NoMemory
    }
}

impl From<Clause> for Fault {
    ghost use Rattle.std.specs.Prelude.{◌≡◌};
    ghost use Rattle.run_answers.specs.declared.fault.Fault.TheVariants.{Raise};

    ghost from_gives = { λ c e. e ≡ Raise c };

    fn from(clause: Clause) -> Fault {
        Fault::Raise(clause)
    }
}

impl From<MemFault> for Fault {
    ghost use Rattle.std.specs.Prelude.{◌≡◌};
    ghost use Rattle.run_answers.specs.Faults.{fault_of};

    ghost from_gives = { λ f e. e ≡ fault_of f };

    fn from(fault: MemFault) -> Fault {
        match fault {
            MemFault::Raise(clause) => Fault::Raise(clause),
            MemFault::NoMemory => Fault::NoMemory,
        }
    }
}
