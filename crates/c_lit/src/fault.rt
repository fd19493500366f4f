// Why a constant or a literal has no value.
ghost use Rattle.std.specs.Prelude.{◌≡◌};

use ub_base::NoMemory;

/// Why a constant or a literal has no value.
#[derive(Clone, Copy, Debug, PartialEq, Eq)]
pub enum LitFault {
    /// An integer constant whose value no type of its list holds (6.4.4.1p5, p6).
    TooWide,
    /// An escape sequence that 6.4.4.4 doesn't have or that no byte holds, or a character constant of
    /// no or of several characters.
    BadEscape,
    /// The text is no constant or literal of the kind that is read.
    BadSuffix,
    /// Memory ran out.
    NoMemory,
}

impl From<NoMemory> for LitFault {
    ghost use Rattle.c_lit.specs.declared.fault.LitFault.TheVariants.{NoMemory};

    ghost from_gives = { λ _ e. e ≡ NoMemory };

    fn from(_e: NoMemory) -> LitFault {
        LitFault::NoMemory
    }
}
