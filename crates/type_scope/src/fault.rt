// Why a unit has no typed program.
ghost use Rattle.std.specs.Prelude.{◌≡◌};
ghost use Rattle.std.specs.Result.{result_map_both};
ghost use Rattle.type_scope.specs.Faults.{told_on, told_for, is_own_rule, reason_told};

use std::alloc::{AllocError, AllocFailed};
use type_reasons::{Reason, Refused};
use ub_base::NoMemory;

/// Why there is no program: a constraint or a rule of the profile is broken on this line, or memory ran out.
#[derive(Clone, Copy, Debug, PartialEq, Eq)]
pub enum TypeFault {
    NotTyped { line: u32, reason: Reason },
    NoMemory,
}

impl From<NoMemory> for TypeFault {
    ghost use Rattle.type_scope.specs.declared.fault.TypeFault.TheVariants as fault;

    ghost from_gives = { λ _ e. e ≡ fault.NoMemory };

    fn from(_e: NoMemory) -> TypeFault {
        TypeFault::NoMemory
    }
}

impl From<AllocError> for TypeFault {
    ghost use Rattle.type_scope.specs.declared.fault.TypeFault.TheVariants as fault;

    ghost from_gives = { λ _ e. e ≡ fault.NoMemory };

    fn from(_e: AllocError) -> TypeFault {
        TypeFault::NoMemory
    }
}

impl<T: Drop> From<AllocFailed<T>> for TypeFault {
    ghost use Rattle.type_scope.specs.declared.fault.TypeFault.TheVariants as fault;

    ghost from_gives = { λ _ e. e ≡ fault.NoMemory };

    fn from(_e: AllocFailed<T>) -> TypeFault {
        TypeFault::NoMemory
    }
}

/// The result, a refusal standing on this line.
pub fn placed<T>(line: u32, made: Result<T, Refused>) -> Result<T, TypeFault>
    ensures { result ≡ result_map_both (λ value. value) (told_on line) made }
{
    match made {
        Ok(value) => Ok(value),
        Err(Refused::Constraint(reason)) => Err(TypeFault::NotTyped { line, reason }),
        Err(Refused::NoMemory) => Err(TypeFault::NoMemory),
    }
}

// Whether it is a rule of the profile that is told of operands.
fn is_own_rule(told: Reason) -> bool
    ensures { result ≡ is_own_rule told }
{
    matches!(told, Reason::FunctionConversion | Reason::ArrayOfValue)
}

// Why a call refuses whose operand was refused for the reason `told`: a rule of the profile stays, and so does `kept`.
fn reason_of(told: Reason, kept: Reason, reason: Reason) -> Reason
    ensures { result ≡ reason_told kept reason told }
{
    if is_own_rule(told) || told == kept {
        told
    } else {
        reason
    }
}

/// The result, a refusal standing on this line and for this reason, unless it is for a rule of the profile or for `kept`.
pub fn placed_unless<T>(
    line: u32,
    kept: Reason,
    reason: Reason,
    made: Result<T, Refused>,
) -> Result<T, TypeFault>
    ensures { result ≡ result_map_both (λ value. value) (told_for line kept reason) made }
{
    match made {
        Ok(value) => Ok(value),
        Err(Refused::Constraint(told)) => Err(TypeFault::NotTyped {
            line,
            reason: reason_of(told, kept, reason),
        }),
        Err(Refused::NoMemory) => Err(TypeFault::NoMemory),
    }
}

/// The result, a refusal standing on this line and for this reason, unless it is for a rule of the profile.
pub fn placed_for<T>(line: u32, reason: Reason, made: Result<T, Refused>) -> Result<T, TypeFault>
    ensures { result ≡ result_map_both (λ value. value) (told_for line reason reason) made }
{
    placed_unless(line, reason, reason, made)
}
