//! The parsers that the rules nest in one another.

ghost use Rattle.std.specs.Prelude.{◌≡◌, Some, None};
ghost use Rattle.parse_cursor.specs.Places.{mode_of, allowed_in};
ghost use Rattle.parse_cursor.specs.Reads.{Reads};
ghost use Rattle.parse_nodes.specs.Nests.{NestsExpr, NestsDeclarator, NestsSpecs};
ghost use Rattle.parse_spec.specs.Nested as nested;

use c_ast::{Declarator, Expr, Specs};
use parse_cursor::{Cursor, Mode, Place, Refusal};
use std::alloc::Global;

/// The rules take the parsers that lead back to them as parameters, so that each is proved by itself.
#[derive(Clone, Copy)]
pub struct Declarators<F, G, H> {
    pub alloc: Global,
    /// How deep what is read may still nest.
    pub depth: usize,
    pub expr: F,
    pub declarator: G,
    pub specs: H,
}

impl<
    F: Fn(Global, &mut Cursor<'_>, usize, u8) -> Result<Expr, Refusal>,
    G: Fn(Global, &mut Cursor<'_>, usize, Mode) -> Result<Declarator, Refusal>,
    H: Fn(Global, &mut Cursor<'_>, usize, Place) -> Result<Specs, Refusal>,
> Declarators<F, G, H> {
    pub(crate) fn expr(&self, tokens: &mut Cursor<'_>, least: u8) -> Result<Expr, Refusal>
        requires { NestsExpr self.now.depth (F.pre self.now.expr) (F.post self.now.expr) }
        ensures { Reads (nested.expr self.now.depth least tokens.old) result tokens.new }
    {
        (self.expr)(self.alloc, tokens, self.depth, least)
    }

    pub(crate) fn declarator(
        &self,
        tokens: &mut Cursor<'_>,
        mode: Mode,
    ) -> Result<Declarator, Refusal>
        requires { NestsDeclarator self.now.depth (G.pre self.now.declarator) (G.post self.now.declarator) }
        ensures { Reads (nested.declarator self.now.depth (mode_of mode) tokens.old) result tokens.new }
    {
        (self.declarator)(self.alloc, tokens, self.depth, mode)
    }

    pub(crate) fn specs(&self, tokens: &mut Cursor<'_>, place: Place) -> Result<Specs, Refusal>
        requires { NestsSpecs self.now.depth (H.pre self.now.specs) (H.post self.now.specs) }
        ensures { Reads (nested.specs self.now.depth (allowed_in place) tokens.old) result tokens.new }
    {
        (self.specs)(self.alloc, tokens, self.depth, place)
    }
}
