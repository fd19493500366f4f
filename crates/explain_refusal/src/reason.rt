// Why there is no program.
use parse_reason::Reason as SyntaxReason;
use type_reasons::Reason;
use ub_base::NoMemory;

/// Why a text isn't run.
#[derive(Clone, Copy, PartialEq, Eq)]
pub enum Refused {
    /// The byte at this offset begins no token.
    Stray(u32),
    OpenLiteral(u32),
    BadNumber(u32),
    /// No program goes on with this token; the count of tokens stands for the end.
    Syntax(u32, SyntaxReason),
    /// What begins at this token breaks a constraint, or leaves the profile.
    NotTyped(u32, Reason),
    /// It is nested too deep, or is too long to be explained.
    TooDeep,
    NoMemory,
}

impl From<NoMemory> for Refused {
    fn from(_e: NoMemory) -> Refused {
        Refused::NoMemory
    }
}
