// Constants and string literals (6.4.4, 6.4.5).
ghost use Rattle.std.specs.Prelude.{◌≡◌, ℕ, ◌+◌, ◌<◌, ◌^◌, List, [], ◌∷◌, ◌++◌, length, Option, IfOk, OnOk};
ghost use Rattle.c_lex.specs.TokenText.{text_at, line_at};
ghost use Rattle.c_lit.specs.Integers as integers;
ghost use Rattle.c_lit.specs.Literals as characters;
ghost use Rattle.c_lit.specs.declared.fault.LitFault.TheVariants as lit;
ghost use Rattle.c_typed.specs.Lawful.{HasBytes};
ghost use Rattle.type_operands.specs.Terms.{expression_of};
ghost use Rattle.typing_env.specs.Env.{line_in};
ghost use Rattle.type_scope.specs.declared.fault.TypeFault.TheVariants as told;
ghost use Rattle.type_declarators.specs.Finds.{Finds};
ghost use Rattle.type_scope.specs.Numbered.{HasLiterals};
ghost use Rattle.type_scope.specs.Numbered.{literal_bytes as state_literals};
ghost use Rattle.type_declarators.specs.Literals.{literal_in, character_in, bytes_from, string_literal, strings_as};

use c_lit::{LitFault, char_value, int_value, string_bytes};
use c_typed::Node;
use c_types::{IntKind, Qual, Shared, Ty};
use std::alloc::Global;
use type_operands::{Operand, integer, leaf, place, value};
use type_reasons::Reason;
use type_scope::{Source, State, TypeFault};
use ub_base::{Bytes, NoMemory};

// The fault of a constant or literal that has no value: for this reason, where it isn't too wide.
fn literal_fault(source: &Source<'_>, at: u32, fault: LitFault, reason: Reason) -> TypeFault
    ensures { fault ≡ lit.NoMemory → result ≡ told.NoMemory }
{
    match fault {
        LitFault::NoMemory => TypeFault::NoMemory,
        LitFault::TooWide => source.fault(at, Reason::ConstantTooWide),
        LitFault::BadEscape | LitFault::BadSuffix => source.fault(at, reason),
    }
}

/// An integer constant (6.4.4.1).
pub fn number(alloc: Global, source: &Source<'_>, at: u32) -> Result<Operand, TypeFault>
    ensures { Finds expression_of (literal_in (line_in source.now.list (line_at source.now at)) (integers.int_value (text_at source.now at))) result }
{
    match int_value(source.spelling(at)) {
        Ok(lit) => {
            let number = i128::from(lit.value);
            Ok(value(integer(alloc, number, lit.kind, source.line(at))))
        }
        Err(fault) => Err(literal_fault(source, at, fault, Reason::ConstantTooWide)),
    }
}

/// A character constant, of type `int` (6.4.4.4).
pub fn character(alloc: Global, source: &Source<'_>, at: u32) -> Result<Operand, TypeFault>
    ensures { Finds expression_of (character_in (line_in source.now.list (line_at source.now at)) (characters.char_value (text_at source.now at))) result }
{
    match char_value(source.spelling(at)) {
        Ok(number) => {
            let number = i128::from(number);
            Ok(value(integer(alloc, number, IntKind::Int, source.line(at))))
        }
        Err(fault) => Err(literal_fault(source, at, fault, Reason::CharacterConstant)),
    }
}

/// The bytes of adjacent string literals with the closing zero (6.4.5p6).
pub fn literal_bytes(
    alloc: Global,
    source: &Source<'_>,
    first: u32,
    count: u32,
) -> Result<Bytes, TypeFault>
    ensures some { IfOk result HasBytes }
    ensures value { first + count < 2 ^ 32 → Finds (λ b. b) (bytes_from source.now count first) result }
{
    let mut bytes = Bytes::from_slice(alloc, &[])?;
    for k in 0..count {
        let at = first.saturating_add(k);
        match string_bytes(&mut bytes, source.spelling(at)) {
            Ok(()) => {}
            Err(fault) => {
                return Err(literal_fault(source, at, fault, Reason::StringLiteral));
            }
        }
    }
    bytes.push(0)?;
    Ok(bytes)
}

// The literal of this number as an operand: an array of `char` with so many elements (6.4.5p6).
fn literal_operand(alloc: Global, number: u32, count: u64, line: u32) -> Result<Operand, NoMemory>
    ensures { IfOk result (λ o. expression_of o ≡ string_literal number count line) }
{
    let element = Qual {
        ty: Ty::Int(IntKind::Char),
        constant: false,
    };
    let array = Qual {
        ty: Ty::Array(Shared::new(alloc, element)?, Some(count)),
        constant: false,
    };
    let ty = Ty::Pointer(Shared::new(alloc, array)?);
    Ok(place(leaf(alloc, Node::Str(number), ty, line), false))
}

/// String literals as an expression: an array of `char` with static storage (6.4.5p6).
pub fn strings(
    source: &Source<'_>,
    state: &mut State,
    first: u32,
    count: u32,
) -> Result<Operand, TypeFault>
    ensures reads { first + count < 2 ^ 32 → Finds expression_of (strings_as (length (state_literals state.old))
        (line_in source.now.list (line_at source.now first)) (bytes_from source.now count first)) result }
    ensures named { first + count < 2 ^ 32 → OnOk result ((bytes_at : ℕ → Option (List ℕ)) (names : List ℕ) (name : ℕ) →
        bytes_at name ≡ bytes_from source.now count first → HasLiterals bytes_at names state.old → HasLiterals bytes_at (names ++ name ∷ []) state.new) }
    ensures rest { state.new ≡ record state.old { literals = state.new.literals } }
{
    let bytes = literal_bytes(state.alloc, source, first, count)?;
    let length = bytes.len() as u64;
    let number = state.add_literal(bytes)?;
    Ok(literal_operand(state.alloc, number, length, source.line(first))?)
}
