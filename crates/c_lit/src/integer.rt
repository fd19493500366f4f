// The values of integer constants (6.4.4.1).
ghost use Rattle.std.specs.Prelude.{◌≡◌, pos, find};
ghost use Rattle.c_types.specs.Kinds.{holds};
ghost use Rattle.c_lit.specs.Integers.{kinds_of, int_value};

use crate::LitFault;
use crate::digits::value;
use c_lex::{Suffix, integer_of};
use c_types::IntKind;

/// The value of an integer constant and its type (6.4.4.1p4, p5).
#[derive(Clone, Copy, Debug, PartialEq, Eq)]
pub struct IntLit {
    pub value: u64,
    pub kind: IntKind,
}

fn kinds_of(decimal: bool, suffix: Suffix) -> &'static [IntKind]
    ensures { result.now ≡ kinds_of decimal suffix }
{
    match suffix {
        Suffix::Plain => {
            if decimal {
                &[IntKind::Int, IntKind::Long, IntKind::LLong]
            } else {
                &[
                    IntKind::Int,
                    IntKind::UInt,
                    IntKind::Long,
                    IntKind::ULong,
                    IntKind::LLong,
                    IntKind::ULLong,
                ]
            }
        }
        Suffix::Unsigned => &[IntKind::UInt, IntKind::ULong, IntKind::ULLong],
        Suffix::Long => {
            if decimal {
                &[IntKind::Long, IntKind::LLong]
            } else {
                &[
                    IntKind::Long,
                    IntKind::ULong,
                    IntKind::LLong,
                    IntKind::ULLong,
                ]
            }
        }
        Suffix::UnsignedLong => &[IntKind::ULong, IntKind::ULLong],
        Suffix::LongLong => {
            if decimal {
                &[IntKind::LLong]
            } else {
                &[IntKind::LLong, IntKind::ULLong]
            }
        }
        Suffix::UnsignedLongLong => &[IntKind::ULLong],
    }
}

fn first_holding(kinds: &[IntKind], value: u64) -> Option<IntKind>
    ensures { result ≡ find (λ kind. holds kind (pos value)) kinds.now }
{
    kinds
        .iter()
        .copied()
        .find(|kind| kind.holds(i128::from(value)))
}

/// The value and the type of an integer constant, whose spelling this is.
pub fn int_value(text: &[u8]) -> Result<IntLit, LitFault>
    ensures { result ≡ int_value text.now }
{
    let Some(parts) = integer_of(text) else {
        return Err(LitFault::BadSuffix);
    };
    let Some(value) = value(parts.digits, parts.radix) else {
        return Err(LitFault::TooWide);
    };
    match first_holding(kinds_of(parts.radix == 10, parts.suffix), value) {
        Some(kind) => Ok(IntLit { value, kind }),
        None => Err(LitFault::TooWide),
    }
}
