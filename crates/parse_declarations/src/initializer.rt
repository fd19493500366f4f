//! Initializers (6.7.9).

ghost use Rattle.std.specs.Prelude.{◌≡◌, []};
ghost use Rattle.parse_cursor.specs.Reads.{Reads};
ghost use Rattle.parse_declarations.specs.Parts.{one_init_entry};
ghost use Rattle.parse_spec.specs.Initializers as spec;
ghost use Rattle.parse_spec.specs.Places.{opens_designator};
ghost use Rattle.parse_spec.specs.Steps.{turns};

use crate::knot::expr;
use c_ast::{Designator, Init, InitEntry};
use c_lex::{Mark, TokenKind};
use parse_cursor::operators::{ASSIGNMENT, CONDITIONAL};
use parse_cursor::tokens::identifier;
use parse_cursor::{Cursor, Refusal};
use parse_nodes::behind::{before, kept, pushed, with};
use std::alloc::Global;
use ub_base::Items;

#[tactic(auto, unfolding(parse_spec::specs::Initializers::one_designator))]
fn designator(alloc: Global, tokens: &mut Cursor<'_>) -> Result<Designator, Refusal>
    ensures { Reads (spec.one_designator tokens.old) result tokens.new }
{
    if tokens.eat(Mark::Dot) {
        return Ok(Designator::Member(identifier(tokens)?));
    }
    tokens.expect(Mark::OpenBracket)?;
    let turns = tokens.turns();
    let index = expr(alloc, tokens, turns, CONDITIONAL);
    Ok(Designator::Element(before(tokens, index, Mark::CloseBracket)?))
}

/// Whether a token of this kind begins a designator.
fn is_designator(kind: Option<TokenKind>) -> bool
    ensures { result ≡ opens_designator kind }
{
    match kind {
        Some(TokenKind::Punct(Mark::Dot | Mark::OpenBracket)) => true,
        _ => false,
    }
}

/// At least one designator, and the `=` behind them.
fn designator_list(alloc: Global, tokens: &mut Cursor<'_>) -> Result<Items<Designator>, Refusal>
    ensures { Reads (spec.designators_from (turns tokens.old) [] tokens.old) result tokens.new }
{
    let mut found = Items::new(alloc);
    for _turn in 0..tokens.turns() {
        found = pushed(found, designator(alloc, tokens))?;
        if !is_designator(tokens.peek()) {
            return kept(found, tokens.expect(Mark::Equal));
        }
    }
    kept(found, Err(tokens.refuse()))
}

/// The designation before an initializer, if there is one.
#[tactic(auto, unfolding(parse_spec::specs::Initializers::designation))]
fn designation(alloc: Global, tokens: &mut Cursor<'_>) -> Result<Items<Designator>, Refusal>
    ensures { Reads (spec.designation tokens.old) result tokens.new }
{
    if is_designator(tokens.peek()) {
        designator_list(alloc, tokens)
    } else {
        Ok(Items::new(alloc))
    }
}

#[cycle(init)]
#[tactic(auto, unfolding(crate::specs::Parts::one_init_entry))]
fn init_entry(alloc: Global, tokens: &mut Cursor<'_>, depth: usize) -> Result<InitEntry, Refusal>
    ensures { Reads (one_init_entry (spec.initializer depth) tokens.old) result tokens.new }
{
    let designators = designation(alloc, tokens)?;
    let (designators, init) = with(designators, initializer(alloc, tokens, depth))?;
    Ok(InitEntry { designators, init })
}

/// After the opening brace: at least one entry, and the closing brace.
#[cycle(init)]
fn init_entries(
    alloc: Global,
    tokens: &mut Cursor<'_>,
    depth: usize,
) -> Result<Items<InitEntry>, Refusal>
    ensures { Reads (spec.entries_from (spec.initializer depth) (turns tokens.old) [] tokens.old) result tokens.new }
{
    let mut found = Items::new(alloc);
    for _turn in 0..tokens.turns() {
        found = pushed(found, init_entry(alloc, tokens, depth))?;
        if !tokens.eat(Mark::Comma) {
            return kept(found, tokens.expect(Mark::CloseBrace));
        }
        if tokens.eat(Mark::CloseBrace) {
            return Ok(found);
        }
    }
    kept(found, Err(tokens.refuse()))
}

/// An initializer, in which others nest no deeper than `depth`.
#[cycle(init)]
pub fn initializer(alloc: Global, tokens: &mut Cursor<'_>, depth: usize) -> Result<Init, Refusal>
    ensures { Reads (spec.initializer depth tokens.old) result tokens.new }
{
    if depth == 0 {
        return Err(tokens.refuse());
    }
    let at = tokens.at();
    if tokens.eat(Mark::OpenBrace) {
        let entries = init_entries(alloc, tokens, depth - 1)?;
        return Ok(Init::Braced { at, entries });
    }
    let turns = tokens.turns();
    Ok(Init::Single(expr(alloc, tokens, turns, ASSIGNMENT)?))
}
