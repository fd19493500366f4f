//! Translation units (6.9).

ghost use Rattle.std.specs.Prelude.{◌≡◌, ◌≢◌, ◌<◌, ◌⊎◌, ℕ, Some, None, Err, IfOk, IfErr};
ghost use Rattle.c_ast.specs.Names.{Names};
ghost use Rattle.c_ast.specs.Nest.{nest_of};
ghost use Rattle.c_ast.specs.declared.statement.Unit.{Unit as SyntaxTree};
ghost use Rattle.c_grammar.specs.Grammar.{SpellsUnit};
ghost use Rattle.parse_cursor.specs.Reads.{Reads};
ghost use Rattle.parse_spec.specs.Declarations as declarations;
ghost use Rattle.parse_spec.specs.Steps.{and_then, pure};
ghost use Rattle.parse_spec.specs.Units as spec;

use crate::error::ParseFault;
use c_ast::{Declaration, Declarator, Entry, Specs, Unit, UnitEntry, nest};
use c_lex::{Mark, Tokens, Word};
use c_spelling::spelled_by;
use parse_cursor::tokens::declares_typedef;
use parse_cursor::{Cursor, Refusal};
use parse_declarations::{assertion, declaration_specs, more_parts, named_declarator};
use parse_nodes::behind::{kept, pushed, with};
use parse_statements::body;
use std::alloc::Global;
use ub_base::Items;

/// How large `nest` may be.
pub const NEST_LIMIT: u32 = 2000;

/// A function's body, after the opening brace. What its parameters declare is in scope there (6.2.1p4).
fn function_body(alloc: Global, tokens: &mut Cursor<'_>) -> Result<Items<Entry>, Refusal>
    ensures { Reads (spec.function_body tokens.old) result tokens.new }
{
    let outer = tokens.open();
    tokens.open_prototype()?;
    let found = body(alloc, tokens);
    tokens.close(outer);
    found
}

/// After the declarator of a function definition and the opening brace.
fn definition(
    alloc: Global,
    tokens: &mut Cursor<'_>,
    specs: Specs,
    declarator: Declarator,
) -> Result<UnitEntry, Refusal>
    ensures { Reads (and_then (spec.function_body tokens.old) (λ body. pure (UnitEntry.Function specs declarator body))) result tokens.new }
{
    let held = (specs, declarator);
    let ((specs, declarator), body) = with(held, function_body(alloc, tokens))?;
    Ok(UnitEntry::Function {
        specs,
        declarator,
        body,
    })
}

/// The rest of a declaration behind its first declarator.
fn declaration_behind(
    alloc: Global,
    tokens: &mut Cursor<'_>,
    specs: Specs,
    typedef: bool,
    first: Declarator,
) -> Result<UnitEntry, Refusal>
    ensures { Reads (and_then (declarations.more_parts typedef first tokens.old)
        (λ parts. pure (UnitEntry.Declaration (record { specs = specs; parts = parts })))) result tokens.new }
{
    let (specs, parts) = with(specs, more_parts(alloc, tokens, typedef, first))?;
    Ok(UnitEntry::Declaration(Declaration { specs, parts }))
}

/// The rest of a declaration or a function definition behind its specifiers.
#[tactic(auto, unfolding(parse_spec::specs::Units::declared_as))]
fn declared_as(alloc: Global, tokens: &mut Cursor<'_>, specs: Specs) -> Result<UnitEntry, Refusal>
    ensures { Reads (spec.declared_as specs tokens.old) result tokens.new }
{
    tokens.set_prototype(Vec::new(alloc));
    let typedef = declares_typedef(&specs);
    let (specs, first) = with(specs, named_declarator(alloc, tokens, typedef))?;
    if tokens.eat(Mark::OpenBrace) {
        definition(alloc, tokens, specs, first)
    } else {
        declaration_behind(alloc, tokens, specs, typedef, first)
    }
}

/// A declaration or a function definition.
#[tactic(auto, unfolding(parse_spec::specs::Units::declared))]
fn declared(alloc: Global, tokens: &mut Cursor<'_>) -> Result<UnitEntry, Refusal>
    ensures { Reads (spec.declared tokens.old) result tokens.new }
{
    let specs = declaration_specs(alloc, tokens)?;
    if tokens.eat(Mark::Semicolon) {
        let parts = Items::new(alloc);
        Ok(UnitEntry::Declaration(Declaration { specs, parts }))
    } else {
        declared_as(alloc, tokens, specs)
    }
}

fn assertion_entry(alloc: Global, tokens: &mut Cursor<'_>) -> Result<UnitEntry, Refusal>
    ensures { Reads (and_then (declarations.assertion tokens.old) (λ p. pure (UnitEntry.Assertion p.0 p.1))) result tokens.new }
{
    let (condition, message) = assertion(alloc, tokens)?;
    Ok(UnitEntry::Assertion(condition, message))
}

/// An external declaration (6.9).
#[tactic(auto, unfolding(parse_spec::specs::Units::unit_entry))]
fn unit_entry(alloc: Global, tokens: &mut Cursor<'_>) -> Result<UnitEntry, Refusal>
    ensures { Reads (spec.unit_entry tokens.old) result tokens.new }
{
    if tokens.eat(Mark::Semicolon) {
        Ok(UnitEntry::Empty)
    } else if tokens.sees_word(Word::StaticAssert) {
        assertion_entry(alloc, tokens)
    } else {
        declared(alloc, tokens)
    }
}

/// External declarations up to the last token.
fn unit(alloc: Global, tokens: &mut Cursor<'_>) -> Result<Unit, Refusal>
    ensures { Reads (spec.whole_unit tokens.old) result tokens.new }
{
    let mut found = Items::new(alloc);
    for _turn in 0..tokens.turns() {
        match tokens.peek() {
            Some(_) => found = pushed(found, unit_entry(alloc, tokens))?,
            None => return Ok(Unit { entries: found }),
        }
    }
    kept(Unit { entries: found }, Err(tokens.refuse()))
}

/// The syntax tree that the tokens spell, however deep the rules nest.
#[tactic(auto, unfolding(parse_spec::specs::Units::tree_of))]
fn tree(alloc: Global, tokens: &Tokens<'_>) -> Result<Unit, Refusal>
    ensures ok { IfOk result (λ u. spec.tree_of tokens.now ≡ Some u) }
    ensures err { IfErr result (λ e. e ≢ Refusal.NoMemory → spec.tree_of tokens.now ≡ None) }
{
    let spelled = spelled_by(alloc, tokens)?;
    let mut cursor = Cursor::new(alloc, tokens, spelled)?;
    unit(alloc, &mut cursor)
}

/// The syntax tree that the tokens spell, by Annex A without what the profile leaves out.
///
/// # Errors
///
/// `TooDeep` where `nest` passes the limit, before all else; `Syntax` with the first token with which no sentence goes on;
/// `NoMemory`.
pub fn parse(alloc: Global, tokens: &Tokens<'_>) -> Result<Unit, ParseFault>
    // Where the rules nest too deep, this is said before all else, and nowhere else.
    ensures deep { NEST_LIMIT < nest_of tokens.now.list → (result ≡ Err (ParseFault.TooDeep (nest_of tokens.now.list))) ⊎ (result ≡ Err ParseFault.NoMemory) }
    ensures only { (count : ℕ) → result ≡ Err (ParseFault.TooDeep count) → (NEST_LIMIT < count) × (count ≡ nest_of tokens.now.list) }
    // The tokens spell the tree, by the productions of Annex A, and no other one.
    ensures spells { IfOk result (λ u. SpellsUnit u tokens.now) }
    ensures unique { IfOk result (λ u. (other : SyntaxTree) → SpellsUnit other tokens.now → other ≡ u) }
    // Each number in it that stands for a name, a literal or a keyword is that of such a token.
    ensures names { IfOk result (λ u. Names tokens.now u) }
    // The syntax is refused only where the tokens spell none.
    ensures refused { (at : ℕ) → result ≡ Err (ParseFault.Syntax at) → (u : SyntaxTree) → SpellsUnit u tokens.now → ⊥ }
{
    let nest = nest(alloc, tokens)?;
    if nest > NEST_LIMIT {
        return Err(ParseFault::TooDeep(nest));
    }
    Ok(tree(alloc, tokens)?)
}
