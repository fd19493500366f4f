//! The rules that need each other: expressions, declarators and specifiers.

ghost use Rattle.parse_cursor.specs.Places.{mode_of, allowed_in};
ghost use Rattle.parse_cursor.specs.Reads.{Reads};
ghost use Rattle.parse_spec.specs.Nested as nested;

use c_ast::{Declarator, Expr, Specs};
use parse_cursor::{Cursor, Mode, Place, Refusal};
use parse_declarators::Declarators;
use parse_expressions::Expressions;
use std::alloc::Global;

/// An expression of this level or a tighter one.
#[cycle(knot)]
pub fn expr(
    alloc: Global,
    tokens: &mut Cursor<'_>,
    depth: usize,
    least: u8,
) -> Result<Expr, Refusal>
    ensures { Reads (nested.expr depth least tokens.old) result tokens.new }
{
    if depth == 0 {
        return Err(tokens.refuse());
    }
    Expressions {
        alloc,
        depth: depth - 1,
        expr,
        declarator,
        specs,
    }
    .level(tokens, least)
}

/// A declarator.
#[cycle(knot)]
pub fn declarator(
    alloc: Global,
    tokens: &mut Cursor<'_>,
    depth: usize,
    mode: Mode,
) -> Result<Declarator, Refusal>
    ensures { Reads (nested.declarator depth (mode_of mode) tokens.old) result tokens.new }
{
    if depth == 0 {
        return Err(tokens.refuse());
    }
    Declarators {
        alloc,
        depth: depth - 1,
        expr,
        declarator,
        specs,
    }
    .one_declarator(tokens, mode)
}

/// Specifiers.
#[cycle(knot)]
pub fn specs(
    alloc: Global,
    tokens: &mut Cursor<'_>,
    depth: usize,
    place: Place,
) -> Result<Specs, Refusal>
    ensures { Reads (nested.specs depth (allowed_in place) tokens.old) result tokens.new }
{
    if depth == 0 {
        return Err(tokens.refuse());
    }
    Declarators {
        alloc,
        depth: depth - 1,
        expr,
        declarator,
        specs,
    }
    .specifiers(tokens, place)
}
