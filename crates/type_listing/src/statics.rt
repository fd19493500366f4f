// The bytes of objects with static storage (6.6p7 to 6.6p9, 6.7.9p4, 6.7.9p10).

use c_arith::convert;
use c_typed::{Content, Target};
use c_types::{IntKind, Ty};
use std::alloc::Global;
use type_constants::{Folded, worth};
use type_conversions::as_if_assigned;
use type_declarators::constants::valueless;
use type_operands::Operand;
use type_reasons::Reason;
use type_scope::{Mark, State, TypeFault, placed_for};
use ub_base::{Bytes, NoMemory};

// The so many lowest bytes of the number, the lowest first.
fn number_bytes(alloc: Global, number: i128, size: u64) -> Result<Bytes, NoMemory> {
    let bits = u64::try_from(convert(IntKind::ULong, number)).unwrap_or(0);
    let all = bits.to_le_bytes();
    let size = usize::try_from(size).unwrap_or(8);
    match all.get(..size) {
        Some(bytes) => Bytes::from_slice(alloc, bytes),
        None => Bytes::from_slice(alloc, &all),
    }
}

/// The constraint on an expression that initializes a part of this type: a structure or union, or a scalar (6.7.9p11, 6.7.9p13).
pub fn part_reason(ty: &Ty) -> Reason {
    match ty {
        Ty::Struct(_) | Ty::Union(_) => Reason::WholeInitializer,
        _ => Reason::ScalarInitializer,
    }
}

/// The fault of an initializer that isn't constant and has to be (6.7.9p4).
pub fn not_constant(line: u32) -> TypeFault {
    TypeFault::NotTyped {
        line,
        reason: Reason::StaticInitializer,
    }
}

/// What the constant expression stores in a part of this type and size (6.6p7); `line` is that of the expression.
pub fn static_content(
    state: &State,
    operand: Operand,
    ty: &Ty,
    size: u64,
    line: u32,
) -> Result<Content, TypeFault> {
    let tree = placed_for(
        line,
        part_reason(ty),
        as_if_assigned(state.alloc, &state.tags, operand, ty),
    )?;
    match worth(state, &tree) {
        Folded::Number(number) => Ok(Content::Bytes(number_bytes(state.alloc, number, size)?)),
        Folded::Address(target, offset) if matches!(ty, Ty::Pointer(_)) => {
            match u64::try_from(offset) {
                Ok(offset) => Ok(Content::Address { target, offset }),
                Err(_) => Err(not_constant(line)),
            }
        }
        Folded::Valueless => Err(TypeFault::NotTyped {
            line,
            reason: valueless(&tree),
        }),
        Folded::Unknown | Folded::Address(_, _) => Err(not_constant(line)),
    }
}

/// Of the literals since the mark keeps the one whose address the content is.
pub fn keep_literal(state: &mut State, mark: Mark, content: &mut Content) -> Result<(), NoMemory> {
    if let Content::Address { target, offset: _ } = content
        && let Target::Literal(number) = *target
    {
        *target = Target::Literal(state.keep_literal(mark, number)?);
    } else {
        state.forget_literals(mark);
    }
    Ok(())
}
