//! What single tokens begin, and the rules that take tokens alone.

ghost use Rattle.std.specs.Prelude.{◌≡◌, ◌≢◌, ◌<◌, false, IfOk, IfErr};
ghost use Rattle.c_lex.specs.declared.token.TokenKind.TheVariants as token;
ghost use Rattle.c_ast.specs.Input.{kind, next, is_typedef};
ghost use Rattle.c_grammar.specs.Rules as rules;
ghost use Rattle.parse_spec.specs.Places as places;
ghost use Rattle.parse_spec.specs.Steps as steps;
ghost use Rattle.parse_cursor.specs.Places.{mode_of, allowed_in};
ghost use Rattle.parse_cursor.specs.Reads.{Reads};
ghost use Rattle.parse_cursor.specs.Runs.{AreStringsTo};

use crate::cursor::Cursor;
use crate::place::{Mode, Place};
use crate::refusal::Refusal;
use c_ast::Specs;
use c_lex::{Mark, TokenKind, Word};
use std::alloc::Global;
use ub_base::Items;

/// A type qualifier (6.7.3).
pub fn is_qualifier(word: Word) -> bool
    ensures { result ≡ rules.is_qualifier word }
{
    match word {
        Word::Const | Word::Restrict => true,
        _ => false,
    }
}

/// A keyword that is a type specifier by itself (6.7.2).
pub fn is_type_word(word: Word) -> bool
    ensures { result ≡ rules.is_type_word word }
{
    match word {
        Word::Void
        | Word::Char
        | Word::Short
        | Word::Int
        | Word::Long
        | Word::Signed
        | Word::Unsigned
        | Word::Boolean => true,
        _ => false,
    }
}

/// A storage class (6.7.1) or a function specifier (6.7.4).
pub fn is_storage_word(word: Word) -> bool
    ensures { result ≡ rules.is_storage_word word }
{
    match word {
        Word::Typedef
        | Word::Extern
        | Word::Static
        | Word::Auto
        | Word::Register
        | Word::Inline
        | Word::Noreturn => true,
        _ => false,
    }
}

/// A keyword that begins a specifier of a structure, a union or an enumeration.
pub fn is_tag_word(word: Word) -> bool
    ensures { result ≡ places.is_tag_word word }
{
    match word {
        Word::Struct | Word::Union | Word::Enum => true,
        _ => false,
    }
}

/// A keyword that is a specifier by itself in this place.
pub fn is_specifier_word(word: Word, place: Place) -> bool
    ensures { result ≡ allowed_in place word }
{
    match place {
        Place::Declaration => is_type_word(word) || is_qualifier(word) || is_storage_word(word),
        Place::Qualified => is_type_word(word) || is_qualifier(word),
    }
}

/// Whether a token of this kind begins specifiers, where a name would be a typedef name or not.
fn begins(kind: Option<TokenKind>, typedef: bool, place: Place) -> bool
    ensures { result ≡ places.begins_by (allowed_in place) typedef kind }
{
    match kind {
        Some(TokenKind::Keyword(word)) => is_specifier_word(word, place) || is_tag_word(word),
        Some(TokenKind::Name) => typedef,
        _ => false,
    }
}

/// Whether the next token begins the specifiers of a declaration.
pub fn begins_declaration(tokens: &Cursor<'_>) -> bool
    ensures { result ≡ places.begins_declaration tokens.now }
{
    begins(tokens.peek(), tokens.is_typedef(), Place::Declaration)
}

/// Whether the token after the next begins a type name.
pub fn begins_type_after(tokens: &Cursor<'_>) -> bool
    ensures { result ≡ places.begins_type_after tokens.now }
{
    begins(
        tokens.peek_after(),
        tokens.is_typedef_after(),
        Place::Qualified,
    )
}

/// Whether the token after the next closes parentheses or begins the specifiers of a declaration.
fn parameters_after(tokens: &Cursor<'_>) -> bool
    ensures { result ≡ places.opens_by (is_typedef (next tokens.now)) (kind (next tokens.now)) }
{
    match tokens.peek_after() {
        Some(TokenKind::Punct(Mark::CloseParen)) => true,
        kind => begins(kind, tokens.is_typedef_after(), Place::Declaration),
    }
}

/// Whether the parenthesis that comes next opens parameters, where a declarator may have no name (6.7.6.3p11).
pub fn opens_parameters(mode: Mode, tokens: &Cursor<'_>) -> bool
    ensures { result ≡ places.opens_parameters (mode_of mode) tokens.now }
{
    match mode {
        Mode::Named => false,
        Mode::Abstract | Mode::Either => parameters_after(tokens),
    }
}

/// The number of an identifier, whatever it is declared as.
#[tactic(auto, unfolding(parse_spec::specs::Steps::identifier))]
pub fn identifier(tokens: &mut Cursor<'_>) -> Result<u32, Refusal>
    ensures reads { Reads (steps.identifier tokens.old) result tokens.new }
    ensures ok { IfOk result (λ at. rules.Identifier at tokens.old tokens.new) }
    ensures err { IfErr result (λ e. (kind tokens.old ≢ Some token.Name) × (e ≡ Refusal.Syntax tokens.old.at) × (tokens.new ≡ tokens.old)) }
{
    match tokens.peek() {
        Some(TokenKind::Name) => {
            let at = tokens.at();
            tokens.take();
            Ok(at)
        }
        _ => Err(tokens.refuse()),
    }
}

/// The number of an identifier, if one comes next.
#[tactic(auto, unfolding(parse_spec::specs::Steps::maybe_identifier))]
pub fn maybe_identifier(tokens: &mut Cursor<'_>) -> Option<u32>
    ensures reads { steps.maybe_identifier tokens.old ≡ Some (result, tokens.new) }
    ensures found { rules.MaybeIdentifier result tokens.old tokens.new }
    ensures none { result ≡ None → kind tokens.old ≢ Some token.Name }
{
    match tokens.peek() {
        Some(TokenKind::Name) => {
            let at = tokens.at();
            tokens.take();
            Some(at)
        }
        _ => None,
    }
}

fn is_literal(kind: Option<TokenKind>) -> bool
    ensures { result ≡ steps.is_string kind }
{
    match kind {
        Some(TokenKind::StringLit) => true,
        _ => false,
    }
}

/// How many string literals come next, maybe none.
fn literals(tokens: &mut Cursor<'_>) -> u32
    ensures reads { steps.strings_from (steps.turns tokens.old) 0 tokens.old ≡ Some (result, tokens.new) }
    ensures run { AreStringsTo result tokens.old tokens.new }
    ensures none { result ≡ 0 → kind tokens.old ≢ Some token.StringLit }
{
    let first = tokens.at();
    for _turn in 0..tokens.turns() {
        if !is_literal(tokens.peek()) {
            return tokens.at().saturating_sub(first);
        }
        tokens.take();
    }
    tokens.at().saturating_sub(first)
}

/// How many string literals come next; at least one (6.4.5p5).
#[tactic(auto, unfolding(parse_spec::specs::Steps::strings))]
pub fn strings(tokens: &mut Cursor<'_>) -> Result<u32, Refusal>
    ensures reads { Reads (steps.strings tokens.old) result tokens.new }
    ensures ok { IfOk result (λ count. (0 < count) × AreStringsTo count tokens.old tokens.new) }
    ensures err { IfErr result (λ e. (kind tokens.old ≢ Some token.StringLit) × (e ≡ Refusal.Syntax tokens.old.at) × (tokens.new ≡ tokens.old)) }
{
    let count = literals(tokens);
    if count == 0 {
        return Err(tokens.refuse());
    }
    Ok(count)
}

/// The keywords that are specifiers by themselves in this place.
pub fn specifier_words(
    alloc: Global,
    tokens: &mut Cursor<'_>,
    place: Place,
) -> Result<Items<Word>, Refusal>
    ensures reads { Reads (steps.words (allowed_in place) tokens.old) result tokens.new }
    ensures ok { IfOk result (λ words. rules.Words (allowed_in place) words tokens.old tokens.new
        × (steps.allows (allowed_in place) (kind tokens.new) ≡ false)) }
{
    let mut found = Items::new(alloc);
    for _turn in 0..tokens.turns() {
        match tokens.word() {
            Some(word) => {
                if !is_specifier_word(word, place) {
                    return Ok(found);
                }
                found.push(word)?;
                tokens.take();
            }
            None => return Ok(found),
        }
    }
    Err(tokens.refuse())
}

/// The qualifiers behind a star (6.7.6).
pub fn qualifiers(alloc: Global, tokens: &mut Cursor<'_>) -> Result<Items<Word>, Refusal>
    ensures reads { Reads (steps.words rules.is_qualifier tokens.old) result tokens.new }
    ensures ok { IfOk result (λ words. rules.Words rules.is_qualifier words tokens.old tokens.new
        × (steps.allows rules.is_qualifier (kind tokens.new) ≡ false)) }
{
    let mut found = Items::new(alloc);
    for _turn in 0..tokens.turns() {
        match tokens.word() {
            Some(word) => {
                if !is_qualifier(word) {
                    return Ok(found);
                }
                found.push(word)?;
                tokens.take();
            }
            None => return Ok(found),
        }
    }
    Err(tokens.refuse())
}

/// Whether a type specifier stands among these keywords.
pub fn has_type_word(words: &[Word]) -> bool
    ensures { result ≡ rules.has_type_word words.now }
{
    for word in words {
        if is_type_word(*word) {
            return true;
        }
    }
    false
}

/// Whether what these specifiers declare are typedef names.
pub fn declares_typedef(specs: &Specs) -> bool
    ensures { result ≡ rules.declares_typedef specs.now.words }
{
    for word in specs.words.as_slice() {
        match word {
            Word::Typedef => return true,
            _ => {}
        }
    }
    false
}
