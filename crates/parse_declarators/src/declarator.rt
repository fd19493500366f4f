//! Declarators (6.7.6) and abstract declarators (6.7.7).

ghost use Rattle.std.specs.Prelude.{◌≡◌, [], OnOk, IfErr};
ghost use Rattle.c_grammar.specs.Grammar as grammar;
ghost use Rattle.parse_spec.specs.Declarators as spec;
ghost use Rattle.parse_spec.specs.Nested as nested;
ghost use Rattle.parse_spec.specs.Places.{opens_suffix};
ghost use Rattle.parse_spec.specs.Steps.{turns};
ghost use Rattle.parse_cursor.specs.Places.{mode_of};
ghost use Rattle.parse_cursor.specs.Reads.{Reads};
ghost use Rattle.parse_nodes.specs.Nests.{NestsExpr, NestsDeclarator, NestsSpecs};
ghost use Rattle.parse_declarators.specs.Naming.{named_at};
ghost use Rattle.parse_declarators.specs.Parts as parts;

use crate::nested::Declarators;
use c_ast::{Declarator, Expr, Param, Specs};
use c_lex::{Mark, TokenKind};
use parse_cursor::operators::ASSIGNMENT;
use parse_cursor::tokens::{opens_parameters, qualifiers};
use parse_cursor::{Cursor, Mode, Place, Refusal};
use parse_nodes::behind::{before, kept, pushed, with};
use parse_nodes::make;
use std::alloc::Global;
use ub_base::Items;

/// The name that a declarator declares.
pub fn name_of(declarator: &Declarator) -> Option<u32>
    ensures { result ≡ grammar.name_of declarator.now }
{
    match declarator {
        Declarator::Ident(name) => *name,
        Declarator::Pointer(_, inner) => name_of(inner.get()),
        Declarator::Array(inner, _) => name_of(inner.get()),
        Declarator::Function(inner, _, _) => name_of(inner.get()),
    }
}

/// Brings the name of a declarator into scope, if it has one.
pub fn declare_named(
    tokens: &mut Cursor<'_>,
    declarator: &Declarator,
    typedef: bool,
) -> Result<(), Refusal>
    ensures ok { OnOk result (tokens.new ≡ named_at typedef (grammar.name_of declarator.now) tokens.old) }
    ensures err { IfErr result (λ e. e ≡ Refusal.NoMemory) }
{
    match name_of(declarator) {
        Some(at) => tokens.declare(at, typedef),
        None => Ok(()),
    }
}

fn is_suffix(kind: Option<TokenKind>) -> bool
    ensures { result ≡ opens_suffix kind }
{
    match kind {
        Some(TokenKind::Punct(Mark::OpenBracket | Mark::OpenParen)) => true,
        _ => false,
    }
}

/// Whether the parameters that follow are those of the function that the declarator names.
fn is_own_name(declarator: &Declarator) -> bool
    ensures { result ≡ spec.is_own_name declarator.now }
{
    match declarator {
        Declarator::Ident(Some(_)) => true,
        _ => false,
    }
}

fn no_name(mode: Mode, tokens: &Cursor<'_>) -> Result<Declarator, Refusal>
    ensures { Reads (spec.nameless (mode_of mode) tokens.now) result tokens.now }
{
    match mode {
        Mode::Named => Err(tokens.refuse()),
        _ => Ok(Declarator::Ident(None)),
    }
}

fn name(mode: Mode, tokens: &mut Cursor<'_>) -> Result<Declarator, Refusal>
    ensures { Reads (spec.named (mode_of mode) tokens.old) result tokens.new }
{
    match mode {
        Mode::Abstract => Ok(Declarator::Ident(None)),
        _ => {
            let at = tokens.at();
            tokens.take();
            Ok(Declarator::Ident(Some(at)))
        }
    }
}

impl<
    F: Fn(Global, &mut Cursor<'_>, usize, u8) -> Result<Expr, Refusal>,
    G: Fn(Global, &mut Cursor<'_>, usize, Mode) -> Result<Declarator, Refusal>,
    H: Fn(Global, &mut Cursor<'_>, usize, Place) -> Result<Specs, Refusal>,
> Declarators<F, G, H> {
    fn parameter_declarator(&self, tokens: &mut Cursor<'_>) -> Result<Declarator, Refusal>
        requires { NestsDeclarator self.now.depth (G.pre self.now.declarator) (G.post self.now.declarator) }
        ensures { Reads (parts.parameter_declarator (nested.declarator self.now.depth) tokens.old) result tokens.new }
    {
        let found = self.declarator(tokens, Mode::Either)?;
        let declared = declare_named(tokens, &found, false);
        kept(found, declared)
    }

    #[tactic(auto, unfolding(parse_spec::specs::Declarators::one_parameter))]
    fn parameter(&self, tokens: &mut Cursor<'_>) -> Result<Param, Refusal>
        requires declarator { NestsDeclarator self.now.depth (G.pre self.now.declarator) (G.post self.now.declarator) }
        requires specs { NestsSpecs self.now.depth (H.pre self.now.specs) (H.post self.now.specs) }
        ensures { Reads (spec.one_parameter (nested.expr self.now.depth) (nested.declarator self.now.depth)
            (nested.specs self.now.depth) tokens.old) result tokens.new }
    {
        let specs = self.specs(tokens, Place::Declaration)?;
        let (specs, declarator) = with(specs, self.parameter_declarator(tokens))?;
        Ok(Param { specs, declarator })
    }

    /// The parameters, and whether an ellipsis follows them.
    fn parameter_list(&self, tokens: &mut Cursor<'_>) -> Result<(Items<Param>, bool), Refusal>
        requires declarator { NestsDeclarator self.now.depth (G.pre self.now.declarator) (G.post self.now.declarator) }
        requires specs { NestsSpecs self.now.depth (H.pre self.now.specs) (H.post self.now.specs) }
        ensures { Reads (spec.parameters_from (nested.expr self.now.depth) (nested.declarator self.now.depth) (nested.specs self.now.depth)
            (turns tokens.old) [] tokens.old) result tokens.new }
    {
        let mut found = Items::new(self.alloc);
        for _turn in 0..tokens.turns() {
            found = pushed(found, self.parameter(tokens))?;
            if !tokens.eat(Mark::Comma) {
                return Ok((found, false));
            }
            if tokens.eat(Mark::Ellipsis) {
                return Ok((found, true));
            }
        }
        with(found, Err(tokens.refuse()))
    }

    #[tactic(auto, unfolding(parse_spec::specs::Declarators::parameters))]
    fn parameters(&self, tokens: &mut Cursor<'_>) -> Result<(Items<Param>, bool), Refusal>
        requires declarator { NestsDeclarator self.now.depth (G.pre self.now.declarator) (G.post self.now.declarator) }
        requires specs { NestsSpecs self.now.depth (H.pre self.now.specs) (H.post self.now.specs) }
        ensures { Reads (spec.parameters (nested.expr self.now.depth) (nested.declarator self.now.depth)
            (nested.specs self.now.depth) tokens.old) result tokens.new }
    {
        if tokens.sees(Mark::CloseParen) {
            Ok((Items::new(self.alloc), false))
        } else {
            self.parameter_list(tokens)
        }
    }

    fn array_size(&self, tokens: &mut Cursor<'_>) -> Result<Expr, Refusal>
        requires { NestsExpr self.now.depth (F.pre self.now.expr) (F.post self.now.expr) }
        ensures { Reads (parts.array_size (nested.expr self.now.depth) tokens.old) result tokens.new }
    {
        let prototype = tokens.take_prototype(self.alloc);
        let size = self.expr(tokens, ASSIGNMENT)?;
        tokens.set_prototype(prototype);
        before(tokens, Ok(size), Mark::CloseBracket)
    }

    fn sized(&self, tokens: &mut Cursor<'_>, inner: Declarator) -> Result<Declarator, Refusal>
        requires { NestsExpr self.now.depth (F.pre self.now.expr) (F.post self.now.expr) }
        ensures { Reads (parts.sized (nested.expr self.now.depth) inner tokens.old) result tokens.new }
    {
        let (inner, size) = with(inner, self.array_size(tokens))?;
        Ok(make::array_of(self.alloc, inner, size)?)
    }

    /// After the opening bracket.
    #[tactic(auto, unfolding(parse_spec::specs::Declarators::array_suffix))]
    fn array_suffix(
        &self,
        tokens: &mut Cursor<'_>,
        inner: Declarator,
    ) -> Result<Declarator, Refusal>
        requires { NestsExpr self.now.depth (F.pre self.now.expr) (F.post self.now.expr) }
        ensures { Reads (spec.array_suffix (nested.expr self.now.depth) (nested.declarator self.now.depth)
            (nested.specs self.now.depth) inner tokens.old) result tokens.new }
    {
        if tokens.eat(Mark::CloseBracket) {
            Ok(make::array(self.alloc, inner)?)
        } else {
            self.sized(tokens, inner)
        }
    }

    /// The parameters and the closing parenthesis. What the parameters declare ends with them (6.2.1p4).
    fn prototype(&self, tokens: &mut Cursor<'_>, own: bool) -> Result<(Items<Param>, bool), Refusal>
        requires declarator { NestsDeclarator self.now.depth (G.pre self.now.declarator) (G.post self.now.declarator) }
        requires specs { NestsSpecs self.now.depth (H.pre self.now.specs) (H.post self.now.specs) }
        ensures { Reads (parts.closed_prototype own (spec.parameters (nested.expr self.now.depth) (nested.declarator self.now.depth)
            (nested.specs self.now.depth)) tokens.old) result tokens.new }
    {
        let outer = tokens.open();
        let saved = tokens.take_prototype(self.alloc);
        let found = self.parameters(tokens)?;
        let left = tokens.leave_prototype(self.alloc, outer, own, saved);
        before(tokens, kept(found, left), Mark::CloseParen)
    }

    /// After the opening parenthesis.
    #[tactic(auto, unfolding(parse_spec::specs::Declarators::function_suffix))]
    fn function_suffix(
        &self,
        tokens: &mut Cursor<'_>,
        inner: Declarator,
    ) -> Result<Declarator, Refusal>
        requires declarator { NestsDeclarator self.now.depth (G.pre self.now.declarator) (G.post self.now.declarator) }
        requires specs { NestsSpecs self.now.depth (H.pre self.now.specs) (H.post self.now.specs) }
        ensures { Reads (spec.function_suffix (nested.expr self.now.depth) (nested.declarator self.now.depth)
            (nested.specs self.now.depth) inner tokens.old) result tokens.new }
    {
        let own = is_own_name(&inner);
        let (inner, (params, ellipsis)) = with(inner, self.prototype(tokens, own))?;
        Ok(make::function(self.alloc, inner, params, ellipsis)?)
    }

    #[tactic(auto, unfolding(parse_spec::specs::Declarators::one_suffix))]
    fn suffix(&self, tokens: &mut Cursor<'_>, inner: Declarator) -> Result<Declarator, Refusal>
        requires expr { NestsExpr self.now.depth (F.pre self.now.expr) (F.post self.now.expr) }
        requires declarator { NestsDeclarator self.now.depth (G.pre self.now.declarator) (G.post self.now.declarator) }
        requires specs { NestsSpecs self.now.depth (H.pre self.now.specs) (H.post self.now.specs) }
        ensures { Reads (spec.one_suffix (nested.expr self.now.depth) (nested.declarator self.now.depth)
            (nested.specs self.now.depth) inner tokens.old) result tokens.new }
    {
        if tokens.eat(Mark::OpenBracket) {
            self.array_suffix(tokens, inner)
        } else {
            tokens.take();
            self.function_suffix(tokens, inner)
        }
    }

    fn suffixes(
        &self,
        tokens: &mut Cursor<'_>,
        mut inner: Declarator,
    ) -> Result<Declarator, Refusal>
        requires expr { NestsExpr self.now.depth (F.pre self.now.expr) (F.post self.now.expr) }
        requires declarator { NestsDeclarator self.now.depth (G.pre self.now.declarator) (G.post self.now.declarator) }
        requires specs { NestsSpecs self.now.depth (H.pre self.now.specs) (H.post self.now.specs) }
        ensures { Reads (spec.suffixes (nested.expr self.now.depth) (nested.declarator self.now.depth)
            (nested.specs self.now.depth) inner tokens.old) result tokens.new }
    {
        for _turn in 0..tokens.turns() {
            if !is_suffix(tokens.peek()) {
                return Ok(inner);
            }
            inner = self.suffix(tokens, inner)?;
        }
        kept(inner, Err(tokens.refuse()))
    }

    /// After the opening parenthesis.
    #[tactic(auto, unfolding(parse_spec::specs::Declarators::nested))]
    fn nested(&self, tokens: &mut Cursor<'_>, mode: Mode) -> Result<Declarator, Refusal>
        requires { NestsDeclarator self.now.depth (G.pre self.now.declarator) (G.post self.now.declarator) }
        ensures { Reads (spec.nested (nested.expr self.now.depth) (nested.declarator self.now.depth) (nested.specs self.now.depth)
            (mode_of mode) tokens.old) result tokens.new }
    {
        let inner = self.declarator(tokens, mode);
        before(tokens, inner, Mark::CloseParen)
    }

    #[tactic(auto, unfolding(parse_spec::specs::Declarators::innermost))]
    fn base(&self, tokens: &mut Cursor<'_>, mode: Mode) -> Result<Declarator, Refusal>
        requires { NestsDeclarator self.now.depth (G.pre self.now.declarator) (G.post self.now.declarator) }
        ensures { Reads (spec.innermost (nested.expr self.now.depth) (nested.declarator self.now.depth) (nested.specs self.now.depth)
            (mode_of mode) tokens.old) result tokens.new }
    {
        match tokens.peek() {
            Some(TokenKind::Name) => name(mode, tokens),
            Some(TokenKind::Punct(Mark::OpenParen)) => {
                if opens_parameters(mode, tokens) {
                    return no_name(mode, tokens);
                }
                tokens.take();
                self.nested(tokens, mode)
            }
            _ => no_name(mode, tokens),
        }
    }

    /// After the star.
    #[tactic(auto, unfolding(parse_spec::specs::Declarators::pointed))]
    fn pointed(&self, tokens: &mut Cursor<'_>, mode: Mode) -> Result<Declarator, Refusal>
        requires { NestsDeclarator self.now.depth (G.pre self.now.declarator) (G.post self.now.declarator) }
        ensures { Reads (spec.pointed (nested.expr self.now.depth) (nested.declarator self.now.depth) (nested.specs self.now.depth)
            (mode_of mode) tokens.old) result tokens.new }
    {
        let words = qualifiers(self.alloc, tokens)?;
        let (words, inner) = with(words, self.declarator(tokens, mode))?;
        Ok(make::pointer(self.alloc, words, inner)?)
    }

    #[tactic(auto, unfolding(parse_spec::specs::Declarators::one_declarator))]
    pub fn one_declarator(&self, tokens: &mut Cursor<'_>, mode: Mode) -> Result<Declarator, Refusal>
        requires expr { NestsExpr self.now.depth (F.pre self.now.expr) (F.post self.now.expr) }
        requires declarator { NestsDeclarator self.now.depth (G.pre self.now.declarator) (G.post self.now.declarator) }
        requires specs { NestsSpecs self.now.depth (H.pre self.now.specs) (H.post self.now.specs) }
        ensures { Reads (spec.one_declarator (nested.expr self.now.depth) (nested.declarator self.now.depth) (nested.specs self.now.depth)
            (mode_of mode) tokens.old) result tokens.new }
    {
        if tokens.eat(Mark::Star) {
            self.pointed(tokens, mode)
        } else {
            let inner = self.base(tokens, mode)?;
            self.suffixes(tokens, inner)
        }
    }
}
