//! Specifiers, and the structures, unions and enumerations among them (6.7.2).

ghost use Rattle.std.specs.Prelude.{[]};
ghost use Rattle.parse_spec.specs.Nested as nested;
ghost use Rattle.parse_spec.specs.Specifiers as spec;
ghost use Rattle.parse_spec.specs.Steps.{turns};
ghost use Rattle.parse_cursor.specs.Places.{allowed_in};
ghost use Rattle.parse_cursor.specs.Reads.{Reads};
ghost use Rattle.parse_nodes.specs.Nests.{NestsExpr, NestsDeclarator, NestsSpecs};
ghost use Rattle.parse_declarators.specs.Parts as parts;

use crate::nested::Declarators;
use c_ast::{Base, Declarator, Enumerator, Expr, MemberEntry, Specs};
use c_lex::{Mark, TokenKind, Word};
use parse_cursor::operators::CONDITIONAL;
use parse_cursor::tokens::{has_type_word, identifier, maybe_identifier, specifier_words, strings};
use parse_cursor::{Cursor, Mode, Place, Refusal};
use parse_nodes::behind::{before, kept, pushed, with};
use std::alloc::Global;
use ub_base::Items;

/// The message of a static assertion, the parenthesis and the semicolon.
#[tactic(auto, unfolding(parse_spec::specs::Specifiers::message))]
fn message(tokens: &mut Cursor<'_>) -> Result<u32, Refusal>
    ensures { Reads (spec.message tokens.old) result tokens.new }
{
    let message = tokens.at();
    strings(tokens)?;
    tokens.expect(Mark::CloseParen)?;
    tokens.expect(Mark::Semicolon)?;
    Ok(message)
}

/// These keywords and those that follow.
fn words_behind(
    alloc: Global,
    tokens: &mut Cursor<'_>,
    place: Place,
    words: Items<Word>,
) -> Result<Items<Word>, Refusal>
    ensures { Reads (parts.words_behind (allowed_in place) words tokens.old) result tokens.new }
{
    let (mut words, more) = with(words, specifier_words(alloc, tokens, place))?;
    words.append(more)?;
    Ok(words)
}

/// The keywords that follow, behind what was read.
fn specs_behind(
    alloc: Global,
    tokens: &mut Cursor<'_>,
    place: Place,
    words: Items<Word>,
    base: Base,
) -> Result<Specs, Refusal>
    ensures { Reads (parts.specs_behind (allowed_in place) words base tokens.old) result tokens.new }
{
    let (base, words) = with(base, words_behind(alloc, tokens, place, words))?;
    Ok(Specs { words, base })
}

/// At least one token was taken since this one.
fn taken(tokens: &Cursor<'_>, first: u32) -> Result<(), Refusal>
    ensures { Reads (parts.taken first tokens.now) result tokens.now }
{
    if tokens.at() == first {
        Err(tokens.refuse())
    } else {
        Ok(())
    }
}

impl<
    F: Fn(Global, &mut Cursor<'_>, usize, u8) -> Result<Expr, Refusal>,
    G: Fn(Global, &mut Cursor<'_>, usize, Mode) -> Result<Declarator, Refusal>,
    H: Fn(Global, &mut Cursor<'_>, usize, Place) -> Result<Specs, Refusal>,
> Declarators<F, G, H> {
    /// The condition of a static assertion, up to the comma.
    fn condition(&self, tokens: &mut Cursor<'_>) -> Result<Expr, Refusal>
        requires { NestsExpr self.now.depth (F.pre self.now.expr) (F.post self.now.expr) }
        ensures { Reads (parts.condition (nested.expr self.now.depth) tokens.old) result tokens.new }
    {
        tokens.expect_word(Word::StaticAssert)?;
        tokens.expect(Mark::OpenParen)?;
        let condition = self.expr(tokens, CONDITIONAL);
        before(tokens, condition, Mark::Comma)
    }

    /// A static assertion (6.7.10): its condition, and the first string literal of its message.
    #[tactic(auto, unfolding(parse_spec::specs::Specifiers::assertion))]
    pub fn assertion(&self, tokens: &mut Cursor<'_>) -> Result<(Expr, u32), Refusal>
        requires { NestsExpr self.now.depth (F.pre self.now.expr) (F.post self.now.expr) }
        ensures { Reads (spec.assertion (nested.expr self.now.depth) (nested.declarator self.now.depth)
            (nested.specs self.now.depth) tokens.old) result tokens.new }
    {
        let condition = self.condition(tokens)?;
        with(condition, message(tokens))
    }

    fn member_assertion(&self, tokens: &mut Cursor<'_>) -> Result<MemberEntry, Refusal>
        requires { NestsExpr self.now.depth (F.pre self.now.expr) (F.post self.now.expr) }
        ensures { Reads (parts.member_assertion (spec.assertion (nested.expr self.now.depth) (nested.declarator self.now.depth)
            (nested.specs self.now.depth)) tokens.old) result tokens.new }
    {
        let (condition, message) = self.assertion(tokens)?;
        Ok(MemberEntry::Assertion(condition, message))
    }

    fn member_names(&self, tokens: &mut Cursor<'_>) -> Result<Items<Declarator>, Refusal>
        requires { NestsDeclarator self.now.depth (G.pre self.now.declarator) (G.post self.now.declarator) }
        ensures { Reads (spec.names_from (nested.expr self.now.depth) (nested.declarator self.now.depth) (nested.specs self.now.depth)
            (turns tokens.old) [] tokens.old) result tokens.new }
    {
        let mut found = Items::new(self.alloc);
        for _turn in 0..tokens.turns() {
            found = pushed(found, self.declarator(tokens, Mode::Named))?;
            if !tokens.eat(Mark::Comma) {
                return Ok(found);
            }
        }
        kept(found, Err(tokens.refuse()))
    }

    /// The declarators of members, or none, and the semicolon.
    #[tactic(auto, unfolding(parse_spec::specs::Specifiers::member_names))]
    fn maybe_names(&self, tokens: &mut Cursor<'_>) -> Result<Items<Declarator>, Refusal>
        requires { NestsDeclarator self.now.depth (G.pre self.now.declarator) (G.post self.now.declarator) }
        ensures { Reads (spec.member_names (nested.expr self.now.depth) (nested.declarator self.now.depth)
            (nested.specs self.now.depth) tokens.old) result tokens.new }
    {
        if tokens.eat(Mark::Semicolon) {
            return Ok(Items::new(self.alloc));
        }
        let names = self.member_names(tokens);
        before(tokens, names, Mark::Semicolon)
    }

    fn fields(&self, tokens: &mut Cursor<'_>) -> Result<MemberEntry, Refusal>
        requires declarator { NestsDeclarator self.now.depth (G.pre self.now.declarator) (G.post self.now.declarator) }
        requires specs { NestsSpecs self.now.depth (H.pre self.now.specs) (H.post self.now.specs) }
        ensures { Reads (parts.fields (nested.specs self.now.depth) (spec.member_names (nested.expr self.now.depth) (nested.declarator self.now.depth)
            (nested.specs self.now.depth)) tokens.old) result tokens.new }
    {
        let specs = self.specs(tokens, Place::Qualified)?;
        let (specs, names) = with(specs, self.maybe_names(tokens))?;
        Ok(MemberEntry::Fields(specs, names))
    }

    #[tactic(auto, unfolding(parse_spec::specs::Specifiers::one_member))]
    fn member(&self, tokens: &mut Cursor<'_>) -> Result<MemberEntry, Refusal>
        requires expr { NestsExpr self.now.depth (F.pre self.now.expr) (F.post self.now.expr) }
        requires declarator { NestsDeclarator self.now.depth (G.pre self.now.declarator) (G.post self.now.declarator) }
        requires specs { NestsSpecs self.now.depth (H.pre self.now.specs) (H.post self.now.specs) }
        ensures { Reads (spec.one_member (nested.expr self.now.depth) (nested.declarator self.now.depth)
            (nested.specs self.now.depth) tokens.old) result tokens.new }
    {
        if tokens.sees_word(Word::StaticAssert) {
            self.member_assertion(tokens)
        } else {
            self.fields(tokens)
        }
    }

    /// After the opening brace: at least one, and the closing brace.
    fn members(&self, tokens: &mut Cursor<'_>) -> Result<Items<MemberEntry>, Refusal>
        requires expr { NestsExpr self.now.depth (F.pre self.now.expr) (F.post self.now.expr) }
        requires declarator { NestsDeclarator self.now.depth (G.pre self.now.declarator) (G.post self.now.declarator) }
        requires specs { NestsSpecs self.now.depth (H.pre self.now.specs) (H.post self.now.specs) }
        ensures { Reads (spec.members_from (nested.expr self.now.depth) (nested.declarator self.now.depth) (nested.specs self.now.depth)
            (turns tokens.old) [] tokens.old) result tokens.new }
    {
        let mut found = Items::new(self.alloc);
        for _turn in 0..tokens.turns() {
            found = pushed(found, self.member(tokens))?;
            if tokens.eat(Mark::CloseBrace) {
                return Ok(found);
            }
        }
        kept(found, Err(tokens.refuse()))
    }

    /// After `struct` or `union`.
    #[tactic(auto, unfolding(parse_spec::specs::Specifiers::tagged))]
    fn tagged(&self, tokens: &mut Cursor<'_>, union: bool) -> Result<Base, Refusal>
        requires expr { NestsExpr self.now.depth (F.pre self.now.expr) (F.post self.now.expr) }
        requires declarator { NestsDeclarator self.now.depth (G.pre self.now.declarator) (G.post self.now.declarator) }
        requires specs { NestsSpecs self.now.depth (H.pre self.now.specs) (H.post self.now.specs) }
        ensures { Reads (spec.tagged (nested.expr self.now.depth) (nested.declarator self.now.depth)
            (nested.specs self.now.depth) union tokens.old) result tokens.new }
    {
        let tag = maybe_identifier(tokens);
        if tokens.eat(Mark::OpenBrace) {
            let members = Some(self.members(tokens)?);
            return Ok(Base::Tagged {
                union,
                tag,
                members,
            });
        }
        match tag {
            Some(_) => {
                let members = None;
                Ok(Base::Tagged {
                    union,
                    tag,
                    members,
                })
            }
            None => Err(tokens.refuse()),
        }
    }

    #[tactic(auto, unfolding(parse_spec::specs::Specifiers::enumerator_value))]
    fn enumerator_value(&self, tokens: &mut Cursor<'_>) -> Result<Option<Expr>, Refusal>
        requires { NestsExpr self.now.depth (F.pre self.now.expr) (F.post self.now.expr) }
        ensures { Reads (spec.enumerator_value (nested.expr self.now.depth) (nested.declarator self.now.depth)
            (nested.specs self.now.depth) tokens.old) result tokens.new }
    {
        if tokens.eat(Mark::Equal) {
            Ok(Some(self.expr(tokens, CONDITIONAL)?))
        } else {
            Ok(None)
        }
    }

    /// An enumeration constant is in scope behind its enumerator (6.2.1p7).
    #[tactic(auto, unfolding(parse_spec::specs::Specifiers::one_enumerator))]
    fn enumerator(&self, tokens: &mut Cursor<'_>) -> Result<Enumerator, Refusal>
        requires { NestsExpr self.now.depth (F.pre self.now.expr) (F.post self.now.expr) }
        ensures { Reads (spec.one_enumerator (nested.expr self.now.depth) (nested.declarator self.now.depth)
            (nested.specs self.now.depth) tokens.old) result tokens.new }
    {
        let name = identifier(tokens)?;
        let value = self.enumerator_value(tokens)?;
        let value = kept(value, tokens.declare(name, false))?;
        Ok(Enumerator { name, value })
    }

    /// After the opening brace: at least one, and the closing brace.
    fn enumerators(&self, tokens: &mut Cursor<'_>) -> Result<Items<Enumerator>, Refusal>
        requires { NestsExpr self.now.depth (F.pre self.now.expr) (F.post self.now.expr) }
        ensures { Reads (spec.enumerators_from (nested.expr self.now.depth) (nested.declarator self.now.depth) (nested.specs self.now.depth)
            (turns tokens.old) [] tokens.old) result tokens.new }
    {
        let mut found = Items::new(self.alloc);
        for _turn in 0..tokens.turns() {
            found = pushed(found, self.enumerator(tokens))?;
            if !tokens.eat(Mark::Comma) {
                return kept(found, tokens.expect(Mark::CloseBrace));
            }
            if tokens.eat(Mark::CloseBrace) {
                return Ok(found);
            }
        }
        kept(found, Err(tokens.refuse()))
    }

    /// After `enum`.
    #[tactic(auto, unfolding(parse_spec::specs::Specifiers::enumerated))]
    fn enumerated(&self, tokens: &mut Cursor<'_>) -> Result<Base, Refusal>
        requires { NestsExpr self.now.depth (F.pre self.now.expr) (F.post self.now.expr) }
        ensures { Reads (spec.enumerated (nested.expr self.now.depth) (nested.declarator self.now.depth)
            (nested.specs self.now.depth) tokens.old) result tokens.new }
    {
        let tag = maybe_identifier(tokens);
        if tokens.eat(Mark::OpenBrace) {
            let enumerators = Some(self.enumerators(tokens)?);
            return Ok(Base::Enumerated { tag, enumerators });
        }
        match tag {
            Some(_) => {
                let enumerators = None;
                Ok(Base::Enumerated { tag, enumerators })
            }
            None => Err(tokens.refuse()),
        }
    }

    /// The specifier that is no keyword, if one comes next. Behind a type specifier no name is a typedef name (6.7.8p3).
    #[tactic(auto, unfolding(parse_spec::specs::Specifiers::specifier_base))]
    fn specifier_base(&self, tokens: &mut Cursor<'_>, typed: bool) -> Result<Base, Refusal>
        requires expr { NestsExpr self.now.depth (F.pre self.now.expr) (F.post self.now.expr) }
        requires declarator { NestsDeclarator self.now.depth (G.pre self.now.declarator) (G.post self.now.declarator) }
        requires specs { NestsSpecs self.now.depth (H.pre self.now.specs) (H.post self.now.specs) }
        ensures { Reads (spec.specifier_base (nested.expr self.now.depth) (nested.declarator self.now.depth)
            (nested.specs self.now.depth) typed tokens.old) result tokens.new }
    {
        match tokens.peek() {
            Some(TokenKind::Keyword(Word::Struct)) => {
                tokens.take();
                self.tagged(tokens, false)
            }
            Some(TokenKind::Keyword(Word::Union)) => {
                tokens.take();
                self.tagged(tokens, true)
            }
            Some(TokenKind::Keyword(Word::Enum)) => {
                tokens.take();
                self.enumerated(tokens)
            }
            Some(TokenKind::Name) => {
                if typed || !tokens.is_typedef() {
                    return Ok(Base::Plain);
                }
                let at = tokens.at();
                tokens.take();
                Ok(Base::Typedef(at))
            }
            _ => Ok(Base::Plain),
        }
    }

    /// At least one specifier.
    #[tactic(auto, unfolding(parse_spec::specs::Specifiers::specifiers))]
    pub fn specifiers(&self, tokens: &mut Cursor<'_>, place: Place) -> Result<Specs, Refusal>
        requires expr { NestsExpr self.now.depth (F.pre self.now.expr) (F.post self.now.expr) }
        requires declarator { NestsDeclarator self.now.depth (G.pre self.now.declarator) (G.post self.now.declarator) }
        requires specs { NestsSpecs self.now.depth (H.pre self.now.specs) (H.post self.now.specs) }
        ensures { Reads (spec.specifiers (nested.expr self.now.depth) (nested.declarator self.now.depth) (nested.specs self.now.depth)
            (allowed_in place) tokens.old) result tokens.new }
    {
        let first = tokens.at();
        let words = specifier_words(self.alloc, tokens, place)?;
        let typed = has_type_word(words.as_slice());
        let found = with(words, self.specifier_base(tokens, typed))?;
        let (words, base) = kept(found, taken(tokens, first))?;
        specs_behind(self.alloc, tokens, place, words, base)
    }
}
