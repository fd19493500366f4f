//! Why tokens have no tree.

ghost use Rattle.std.specs.Prelude.{◌≡◌};

use parse_cursor::Refusal;
use ub_base::NoMemory;

#[derive(Clone, Copy, PartialEq, Eq)]
pub enum ParseFault {
    /// What `nest` gives, where that is above 2,000.
    TooDeep(u32),
    /// The number of the first token with which no translation unit goes on; the count of tokens where the end comes too soon.
    Syntax(u32),
    NoMemory,
}

impl From<NoMemory> for ParseFault {
    ghost use Rattle.c_parse.specs.declared.error.ParseFault.TheVariants as fault;

    ghost from_gives = { λ _ e. e ≡ fault.NoMemory };

    fn from(_e: NoMemory) -> ParseFault {
        ParseFault::NoMemory
    }
}

impl From<Refusal> for ParseFault {
    ghost use Rattle.c_parse.specs.Faults.{fault_of};

    ghost from_gives = { λ r e. e ≡ fault_of r };

    fn from(r: Refusal) -> ParseFault {
        match r {
            Refusal::Syntax(at) => ParseFault::Syntax(at),
            Refusal::NoMemory => ParseFault::NoMemory,
        }
    }
}
