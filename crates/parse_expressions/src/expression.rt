//! Expressions (6.5).

ghost use Rattle.std.specs.Prelude.{◌≡◌, Some, true, IfOk, IfErr};
ghost use Rattle.c_lex.specs.declared.token.TokenKind.TheVariants as token;
ghost use Rattle.c_ast.specs.Input.{kind, next};
ghost use Rattle.parse_cursor.specs.Reads.{Reads};
ghost use Rattle.parse_nodes.specs.Nests.{NestsExpr, NestsDeclarator, NestsSpecs};
ghost use Rattle.parse_spec.specs.Expressions as spec;
ghost use Rattle.parse_spec.specs.Expressions.{made};
ghost use Rattle.parse_spec.specs.Nested as nested;
ghost use Rattle.parse_spec.specs.Steps.{mark_of};
ghost use Rattle.parse_expressions.specs.Branches as conditional;

use crate::nested::Expressions;
use c_ast::{AssignOp, BinaryOp, Declarator, Expr, ExprNode, PostOp, Specs, TypeName, UnaryOp};
use c_lex::{Mark, TokenKind, Word};
use parse_cursor::operators::{
    ASSIGNMENT, CAST, COMMA, CONDITIONAL, POSTFIX, UNARY, assign_op, binary_op, operand_level,
    right_level_of, unary_op,
};
use parse_cursor::tokens::{begins_type_after, identifier, strings};
use parse_cursor::{Cursor, Mode, Place, Refusal};
use parse_nodes::behind::{before, kept, pushed, with};
use parse_nodes::make;
use std::alloc::Global;
use ub_base::Items;

/// The assignment operator that comes next, where one may stand.
fn assignment_sign(tokens: &Cursor<'_>, lone: bool) -> Option<AssignOp>
    ensures { result ≡ spec.assignment_sign lone (mark_of (kind tokens.now)) }
{
    match tokens.mark() {
        Some(mark) => { if lone { assign_op(mark) } else { None } }
        None => None,
    }
}

/// The binary operator that comes next.
fn binary_sign(tokens: &Cursor<'_>) -> Option<BinaryOp>
    ensures { result ≡ spec.binary_sign (mark_of (kind tokens.now)) }
{
    match tokens.mark() {
        Some(mark) => binary_op(mark),
        None => None,
    }
}

/// The expression that the next token is alone.
fn leaf(tokens: &mut Cursor<'_>, node: ExprNode) -> Expr
    ensures tree { result ≡ made tokens.old.at node }
    ensures left { tokens.new ≡ next tokens.old }
{
    let at = tokens.at();
    tokens.take();
    Expr { at, node }
}

#[tactic(auto, unfolding(parse_spec::specs::Expressions::name_expr))]
fn name_expr(tokens: &mut Cursor<'_>) -> Result<Expr, Refusal>
    requires { kind tokens.now ≡ Some token.Name }
    ensures { Reads (spec.name_expr tokens.old) result tokens.new }
{
    if tokens.is_typedef() {
        return Err(tokens.refuse());
    }
    let at = tokens.at();
    Ok(leaf(tokens, ExprNode::Name(at)))
}

#[tactic(auto, unfolding(parse_spec::specs::Expressions::string_expr))]
fn string_expr(tokens: &mut Cursor<'_>) -> Result<Expr, Refusal>
    ensures { Reads (spec.string_expr tokens.old) result tokens.new }
{
    let at = tokens.at();
    let node = ExprNode::Strings(at, strings(tokens)?);
    Ok(Expr { at, node })
}

/// Whether a cast comes next.
fn begins_cast(tokens: &Cursor<'_>) -> bool
    ensures { result ≡ spec.begins_cast tokens.now }
{
    tokens.sees(Mark::OpenParen) && begins_type_after(tokens)
}

impl<
    F: Fn(Global, &mut Cursor<'_>, usize, u8) -> Result<Expr, Refusal>,
    G: Fn(Global, &mut Cursor<'_>, usize, Mode) -> Result<Declarator, Refusal>,
    H: Fn(Global, &mut Cursor<'_>, usize, Place) -> Result<Specs, Refusal>,
> Expressions<F, G, H> {
    /// After the opening parenthesis.
    #[tactic(auto, unfolding(parse_spec::specs::Expressions::inside))]
    fn inside(&self, tokens: &mut Cursor<'_>) -> Result<Expr, Refusal>
        requires { NestsExpr self.now.depth (F.pre self.now.expr) (F.post self.now.expr) }
        ensures { Reads (spec.inside (nested.expr self.now.depth) (nested.declarator self.now.depth)
            (nested.specs self.now.depth) tokens.old) result tokens.new }
    {
        let inner = self.expr(tokens, COMMA);
        before(tokens, inner, Mark::CloseParen)
    }

    #[tactic(auto, unfolding(parse_spec::specs::Expressions::primary))]
    fn primary(&self, tokens: &mut Cursor<'_>) -> Result<Expr, Refusal>
        requires { NestsExpr self.now.depth (F.pre self.now.expr) (F.post self.now.expr) }
        ensures { Reads (spec.primary (nested.expr self.now.depth) (nested.declarator self.now.depth)
            (nested.specs self.now.depth) tokens.old) result tokens.new }
    {
        let at = tokens.at();
        match tokens.peek() {
            Some(TokenKind::Name) => name_expr(tokens),
            Some(TokenKind::Number) => Ok(leaf(tokens, ExprNode::Number(at))),
            Some(TokenKind::CharLit) => Ok(leaf(tokens, ExprNode::CharLit(at))),
            Some(TokenKind::StringLit) => string_expr(tokens),
            Some(TokenKind::Punct(Mark::OpenParen)) => {
                tokens.take();
                self.inside(tokens)
            }
            _ => Err(tokens.refuse()),
        }
    }

    fn argument_list(&self, tokens: &mut Cursor<'_>) -> Result<Items<Expr>, Refusal>
        requires { NestsExpr self.now.depth (F.pre self.now.expr) (F.post self.now.expr) }
        ensures { Reads (spec.argument_list (nested.expr self.now.depth) (nested.declarator self.now.depth)
            (nested.specs self.now.depth) tokens.old) result tokens.new }
    {
        let mut found = Items::new(self.alloc);
        for _turn in 0..tokens.turns() {
            found = pushed(found, self.expr(tokens, ASSIGNMENT))?;
            if !tokens.eat(Mark::Comma) {
                return Ok(found);
            }
        }
        kept(found, Err(tokens.refuse()))
    }

    #[tactic(auto, unfolding(parse_spec::specs::Expressions::arguments))]
    fn arguments(&self, tokens: &mut Cursor<'_>) -> Result<Items<Expr>, Refusal>
        requires { NestsExpr self.now.depth (F.pre self.now.expr) (F.post self.now.expr) }
        ensures { Reads (spec.arguments (nested.expr self.now.depth) (nested.declarator self.now.depth)
            (nested.specs self.now.depth) tokens.old) result tokens.new }
    {
        if tokens.eat(Mark::CloseParen) {
            return Ok(Items::new(self.alloc));
        }
        let found = self.argument_list(tokens);
        before(tokens, found, Mark::CloseParen)
    }

    /// After the opening parenthesis of a call.
    fn call_of(&self, tokens: &mut Cursor<'_>, at: u32, left: Expr) -> Result<Expr, Refusal>
        requires { NestsExpr self.now.depth (F.pre self.now.expr) (F.post self.now.expr) }
        ensures { Reads (spec.post_by (nested.expr self.now.depth) (nested.declarator self.now.depth) (nested.specs self.now.depth) at left
            (Some Mark.OpenParen) tokens.old) result tokens.new }
    {
        let (left, found) = with(left, self.arguments(tokens))?;
        Ok(make::call(self.alloc, at, left, found)?)
    }

    /// After the opening bracket of a subscript.
    #[tactic(auto, unfolding(parse_spec::specs::Expressions::subscript))]
    fn subscript(&self, tokens: &mut Cursor<'_>) -> Result<Expr, Refusal>
        requires { NestsExpr self.now.depth (F.pre self.now.expr) (F.post self.now.expr) }
        ensures { Reads (spec.subscript (nested.expr self.now.depth) (nested.declarator self.now.depth)
            (nested.specs self.now.depth) tokens.old) result tokens.new }
    {
        let inner = self.expr(tokens, COMMA);
        before(tokens, inner, Mark::CloseBracket)
    }

    fn index_of(&self, tokens: &mut Cursor<'_>, at: u32, left: Expr) -> Result<Expr, Refusal>
        requires { NestsExpr self.now.depth (F.pre self.now.expr) (F.post self.now.expr) }
        ensures { Reads (spec.post_by (nested.expr self.now.depth) (nested.declarator self.now.depth) (nested.specs self.now.depth) at left
            (Some Mark.OpenBracket) tokens.old) result tokens.new }
    {
        let (left, inner) = with(left, self.subscript(tokens))?;
        Ok(make::index(self.alloc, at, left, inner)?)
    }

    /// After the dot.
    fn dot_of(&self, tokens: &mut Cursor<'_>, at: u32, left: Expr) -> Result<Expr, Refusal>
        ensures { Reads (spec.post_by (nested.expr self.now.depth) (nested.declarator self.now.depth) (nested.specs self.now.depth) at left
            (Some Mark.Dot) tokens.old) result tokens.new }
    {
        let (left, member) = with(left, identifier(tokens))?;
        Ok(make::dot(self.alloc, at, left, member)?)
    }

    /// After the arrow.
    fn arrow_of(&self, tokens: &mut Cursor<'_>, at: u32, left: Expr) -> Result<Expr, Refusal>
        ensures { Reads (spec.post_by (nested.expr self.now.depth) (nested.declarator self.now.depth) (nested.specs self.now.depth) at left
            (Some Mark.Arrow) tokens.old) result tokens.new }
    {
        let (left, member) = with(left, identifier(tokens))?;
        Ok(make::arrow(self.alloc, at, left, member)?)
    }

    fn stepped(&self, at: u32, op: PostOp, left: Expr) -> Result<Expr, Refusal>
        ensures ok { IfOk result (λ e. e ≡ made at (ExprNode.Postfix op left)) }
        ensures memory { IfErr result (λ e. e ≡ Refusal.NoMemory) }
    {
        Ok(make::postfix(self.alloc, at, op, left)?)
    }

    /// One more postfix operator.
    #[tactic(auto, unfolding(parse_spec::specs::Expressions::post))]
    fn post(&self, tokens: &mut Cursor<'_>, at: u32, left: Expr) -> Result<Expr, Refusal>
        requires { NestsExpr self.now.depth (F.pre self.now.expr) (F.post self.now.expr) }
        ensures { Reads (spec.post (nested.expr self.now.depth) (nested.declarator self.now.depth)
            (nested.specs self.now.depth) at left tokens.old) result tokens.new }
    {
        let mark = tokens.mark();
        tokens.take();
        match mark {
            Some(Mark::OpenParen) => self.call_of(tokens, at, left),
            Some(Mark::OpenBracket) => self.index_of(tokens, at, left),
            Some(Mark::Dot) => self.dot_of(tokens, at, left),
            Some(Mark::Arrow) => self.arrow_of(tokens, at, left),
            Some(Mark::PlusPlus) => self.stepped(at, PostOp::Increment, left),
            _ => self.stepped(at, PostOp::Decrement, left),
        }
    }

    fn posts(&self, tokens: &mut Cursor<'_>, at: u32, mut left: Expr) -> Result<Expr, Refusal>
        requires { NestsExpr self.now.depth (F.pre self.now.expr) (F.post self.now.expr) }
        ensures { Reads (spec.posts (nested.expr self.now.depth) (nested.declarator self.now.depth)
            (nested.specs self.now.depth) at left tokens.old) result tokens.new }
    {
        for _turn in 0..tokens.turns() {
            if tokens.tight() <= POSTFIX {
                return Ok(left);
            }
            left = self.post(tokens, at, left)?;
        }
        kept(left, Err(tokens.refuse()))
    }

    /// A type name in parentheses.
    #[tactic(auto, unfolding(parse_spec::specs::Expressions::type_name))]
    fn type_name(&self, tokens: &mut Cursor<'_>) -> Result<TypeName, Refusal>
        requires declarator { NestsDeclarator self.now.depth (G.pre self.now.declarator) (G.post self.now.declarator) }
        requires specs { NestsSpecs self.now.depth (H.pre self.now.specs) (H.post self.now.specs) }
        ensures { Reads (spec.type_name (nested.expr self.now.depth) (nested.declarator self.now.depth)
            (nested.specs self.now.depth) tokens.old) result tokens.new }
    {
        tokens.expect(Mark::OpenParen)?;
        let specs = self.specs(tokens, Place::Qualified)?;
        let declarator = self.declarator(tokens, Mode::Abstract);
        let (specs, declarator) = with(specs, before(tokens, declarator, Mark::CloseParen))?;
        Ok(TypeName { specs, declarator })
    }

    #[tactic(auto, unfolding(parse_spec::specs::Expressions::casted))]
    fn casted(&self, tokens: &mut Cursor<'_>, at: u32) -> Result<Expr, Refusal>
        requires expr { NestsExpr self.now.depth (F.pre self.now.expr) (F.post self.now.expr) }
        requires declarator { NestsDeclarator self.now.depth (G.pre self.now.declarator) (G.post self.now.declarator) }
        requires specs { NestsSpecs self.now.depth (H.pre self.now.specs) (H.post self.now.specs) }
        ensures { Reads (spec.casted (nested.expr self.now.depth) (nested.declarator self.now.depth)
            (nested.specs self.now.depth) at tokens.old) result tokens.new }
    {
        let to = self.type_name(tokens)?;
        let (to, value) = with(to, self.expr(tokens, CAST))?;
        Ok(make::cast(self.alloc, at, to, value)?)
    }

    /// After `sizeof`.
    #[tactic(auto, unfolding(parse_spec::specs::Expressions::size))]
    fn size(&self, tokens: &mut Cursor<'_>, at: u32) -> Result<Expr, Refusal>
        requires expr { NestsExpr self.now.depth (F.pre self.now.expr) (F.post self.now.expr) }
        requires declarator { NestsDeclarator self.now.depth (G.pre self.now.declarator) (G.post self.now.declarator) }
        requires specs { NestsSpecs self.now.depth (H.pre self.now.specs) (H.post self.now.specs) }
        ensures { Reads (spec.size (nested.expr self.now.depth) (nested.declarator self.now.depth)
            (nested.specs self.now.depth) at tokens.old) result tokens.new }
    {
        if begins_cast(tokens) {
            let of = self.type_name(tokens)?;
            Ok(make::sizeof_type(self.alloc, at, of)?)
        } else {
            let of = self.expr(tokens, UNARY)?;
            Ok(make::sizeof_expr(self.alloc, at, of)?)
        }
    }

    #[tactic(auto, unfolding(parse_spec::specs::Expressions::chained))]
    fn chained(&self, tokens: &mut Cursor<'_>, at: u32) -> Result<Expr, Refusal>
        requires { NestsExpr self.now.depth (F.pre self.now.expr) (F.post self.now.expr) }
        ensures { Reads (spec.chained (nested.expr self.now.depth) (nested.declarator self.now.depth)
            (nested.specs self.now.depth) at tokens.old) result tokens.new }
    {
        let first = self.primary(tokens)?;
        self.posts(tokens, at, first)
    }

    /// After `_Alignof`.
    #[tactic(auto, unfolding(parse_spec::specs::Expressions::alignment))]
    fn alignment(&self, tokens: &mut Cursor<'_>, at: u32) -> Result<Expr, Refusal>
        requires declarator { NestsDeclarator self.now.depth (G.pre self.now.declarator) (G.post self.now.declarator) }
        requires specs { NestsSpecs self.now.depth (H.pre self.now.specs) (H.post self.now.specs) }
        ensures { Reads (spec.alignment (nested.expr self.now.depth) (nested.declarator self.now.depth)
            (nested.specs self.now.depth) at tokens.old) result tokens.new }
    {
        let of = self.type_name(tokens)?;
        Ok(make::alignof_type(self.alloc, at, of)?)
    }

    /// At an opening parenthesis. A cast is no unary expression.
    #[tactic(auto, unfolding(parse_spec::specs::Expressions::bracketed))]
    fn bracketed(&self, tokens: &mut Cursor<'_>, at: u32, least: u8) -> Result<Expr, Refusal>
        requires expr { NestsExpr self.now.depth (F.pre self.now.expr) (F.post self.now.expr) }
        requires declarator { NestsDeclarator self.now.depth (G.pre self.now.declarator) (G.post self.now.declarator) }
        requires specs { NestsSpecs self.now.depth (H.pre self.now.specs) (H.post self.now.specs) }
        ensures { Reads (spec.bracketed (nested.expr self.now.depth) (nested.declarator self.now.depth)
            (nested.specs self.now.depth) at least tokens.old) result tokens.new }
    {
        if !begins_type_after(tokens) {
            return self.chained(tokens, at);
        }
        if least > CAST {
            return Err(tokens.refuse_after());
        }
        self.casted(tokens, at)
    }

    /// At a unary operator.
    #[tactic(auto, unfolding(parse_spec::specs::Expressions::operated))]
    fn operated(&self, tokens: &mut Cursor<'_>, at: u32, op: UnaryOp) -> Result<Expr, Refusal>
        requires { NestsExpr self.now.depth (F.pre self.now.expr) (F.post self.now.expr) }
        ensures { Reads (spec.operated (nested.expr self.now.depth) (nested.declarator self.now.depth)
            (nested.specs self.now.depth) at op tokens.old) result tokens.new }
    {
        tokens.take();
        let operand = self.expr(tokens, operand_level(op))?;
        Ok(make::unary(self.alloc, at, op, operand)?)
    }

    /// At this punctuator.
    #[tactic(auto, using(crate::proofs::Unary::unary_op_found))]
    fn marked(
        &self,
        tokens: &mut Cursor<'_>,
        at: u32,
        least: u8,
        mark: Mark,
    ) -> Result<Expr, Refusal>
        requires expr { NestsExpr self.now.depth (F.pre self.now.expr) (F.post self.now.expr) }
        requires declarator { NestsDeclarator self.now.depth (G.pre self.now.declarator) (G.post self.now.declarator) }
        requires specs { NestsSpecs self.now.depth (H.pre self.now.specs) (H.post self.now.specs) }
        ensures { Reads (spec.prefix_by (nested.expr self.now.depth) (nested.declarator self.now.depth) (nested.specs self.now.depth) at least
            (Some (token.Punct mark)) tokens.old) result tokens.new }
    {
        match mark {
            Mark::OpenParen => self.bracketed(tokens, at, least),
            _ => match unary_op(mark) {
                Some(op) => self.operated(tokens, at, op),
                None => Err(tokens.refuse()),
            },
        }
    }

    /// A cast expression, and a unary expression where `least` asks for one.
    #[tactic(auto, unfolding(parse_spec::specs::Expressions::prefix))]
    fn prefix(&self, tokens: &mut Cursor<'_>, least: u8) -> Result<Expr, Refusal>
        requires expr { NestsExpr self.now.depth (F.pre self.now.expr) (F.post self.now.expr) }
        requires declarator { NestsDeclarator self.now.depth (G.pre self.now.declarator) (G.post self.now.declarator) }
        requires specs { NestsSpecs self.now.depth (H.pre self.now.specs) (H.post self.now.specs) }
        ensures { Reads (spec.prefix (nested.expr self.now.depth) (nested.declarator self.now.depth)
            (nested.specs self.now.depth) least tokens.old) result tokens.new }
    {
        let at = tokens.at();
        match tokens.peek() {
            Some(TokenKind::Keyword(Word::Sizeof)) => {
                tokens.take();
                self.size(tokens, at)
            }
            Some(TokenKind::Keyword(Word::Alignof)) => {
                tokens.take();
                self.alignment(tokens, at)
            }
            Some(TokenKind::Punct(mark)) => self.marked(tokens, at, least, mark),
            _ => self.chained(tokens, at),
        }
    }

    fn yes_branch(&self, tokens: &mut Cursor<'_>) -> Result<Expr, Refusal>
        requires { NestsExpr self.now.depth (F.pre self.now.expr) (F.post self.now.expr) }
        ensures { Reads (conditional.yes_branch (nested.expr self.now.depth) tokens.old) result tokens.new }
    {
        let yes = self.expr(tokens, COMMA);
        before(tokens, yes, Mark::Colon)
    }

    fn branches(&self, tokens: &mut Cursor<'_>) -> Result<(Expr, Expr), Refusal>
        requires { NestsExpr self.now.depth (F.pre self.now.expr) (F.post self.now.expr) }
        ensures { Reads (conditional.branches (nested.expr self.now.depth) tokens.old) result tokens.new }
    {
        let yes = self.yes_branch(tokens)?;
        with(yes, self.expr(tokens, CONDITIONAL))
    }

    /// After the `?`.
    #[tactic(auto, unfolding(parse_spec::specs::Expressions::choice))]
    fn choice(&self, tokens: &mut Cursor<'_>, at: u32, test: Expr) -> Result<Expr, Refusal>
        requires { NestsExpr self.now.depth (F.pre self.now.expr) (F.post self.now.expr) }
        ensures { Reads (spec.choice (nested.expr self.now.depth) (nested.declarator self.now.depth)
            (nested.specs self.now.depth) at test tokens.old) result tokens.new }
    {
        let (test, (yes, no)) = with(test, self.branches(tokens))?;
        Ok(make::cond(self.alloc, at, test, yes, no)?)
    }

    /// At an assignment operator, after a unary expression.
    fn assign_of(
        &self,
        tokens: &mut Cursor<'_>,
        at: u32,
        op: AssignOp,
        left: Expr,
    ) -> Result<Expr, Refusal>
        requires { NestsExpr self.now.depth (F.pre self.now.expr) (F.post self.now.expr) }
        ensures { Reads (spec.assigned_by (nested.expr self.now.depth) (nested.declarator self.now.depth) (nested.specs self.now.depth) at left
            (Some op) tokens.old) result tokens.new }
    {
        tokens.take();
        let (left, value) = with(left, self.expr(tokens, ASSIGNMENT))?;
        Ok(make::assign(self.alloc, at, op, left, value)?)
    }

    /// Only a unary expression stands before an assignment operator (6.5.16).
    #[tactic(auto, unfolding(parse_spec::specs::Expressions::assigned))]
    fn assigned(
        &self,
        tokens: &mut Cursor<'_>,
        at: u32,
        lone: bool,
        left: Expr,
    ) -> Result<Expr, Refusal>
        requires { NestsExpr self.now.depth (F.pre self.now.expr) (F.post self.now.expr) }
        ensures { Reads (spec.assigned (nested.expr self.now.depth) (nested.declarator self.now.depth)
            (nested.specs self.now.depth) at lone left tokens.old) result tokens.new }
    {
        match assignment_sign(tokens, lone) {
            Some(op) => self.assign_of(tokens, at, op, left),
            None => kept(left, Err(tokens.refuse())),
        }
    }

    /// At a binary operator, whatever stands before it.
    fn binary_of(
        &self,
        tokens: &mut Cursor<'_>,
        at: u32,
        op: BinaryOp,
        left: Expr,
    ) -> Result<Expr, Refusal>
        requires { NestsExpr self.now.depth (F.pre self.now.expr) (F.post self.now.expr) }
        ensures { Reads (spec.joined_by (nested.expr self.now.depth) (nested.declarator self.now.depth) (nested.specs self.now.depth) at true left
            (Some op) tokens.old) result tokens.new }
    {
        tokens.take();
        let (left, right) = with(left, self.expr(tokens, right_level_of(op)))?;
        Ok(make::binary(self.alloc, at, op, left, right)?)
    }

    /// A binary operator or an assignment, after what stands before it.
    #[tactic(auto, unfolding(parse_spec::specs::Expressions::joined))]
    fn joined(
        &self,
        tokens: &mut Cursor<'_>,
        at: u32,
        lone: bool,
        left: Expr,
    ) -> Result<Expr, Refusal>
        requires { NestsExpr self.now.depth (F.pre self.now.expr) (F.post self.now.expr) }
        ensures { Reads (spec.joined (nested.expr self.now.depth) (nested.declarator self.now.depth)
            (nested.specs self.now.depth) at lone left tokens.old) result tokens.new }
    {
        match binary_sign(tokens) {
            Some(op) => self.binary_of(tokens, at, op, left),
            None => self.assigned(tokens, at, lone, left),
        }
    }

    /// One more operator, after what stands before it; `lone` says that this is a unary expression.
    #[tactic(auto, unfolding(parse_spec::specs::Expressions::step))]
    fn step(
        &self,
        tokens: &mut Cursor<'_>,
        at: u32,
        lone: bool,
        left: Expr,
    ) -> Result<Expr, Refusal>
        requires { NestsExpr self.now.depth (F.pre self.now.expr) (F.post self.now.expr) }
        ensures { Reads (spec.step (nested.expr self.now.depth) (nested.declarator self.now.depth)
            (nested.specs self.now.depth) at lone left tokens.old) result tokens.new }
    {
        if tokens.eat(Mark::Question) {
            self.choice(tokens, at, left)
        } else {
            self.joined(tokens, at, lone, left)
        }
    }

    fn climb(
        &self,
        tokens: &mut Cursor<'_>,
        least: u8,
        at: u32,
        mut lone: bool,
        mut left: Expr,
    ) -> Result<Expr, Refusal>
        requires { NestsExpr self.now.depth (F.pre self.now.expr) (F.post self.now.expr) }
        ensures { Reads (spec.climbed (nested.expr self.now.depth) (nested.declarator self.now.depth)
            (nested.specs self.now.depth) least at lone left tokens.old) result tokens.new }
    {
        for _turn in 0..tokens.turns() {
            if tokens.tight() <= least {
                return Ok(left);
            }
            left = self.step(tokens, at, lone, left)?;
            lone = false;
        }
        kept(left, Err(tokens.refuse()))
    }

    #[tactic(auto, unfolding(parse_spec::specs::Expressions::operators))]
    fn operators(&self, tokens: &mut Cursor<'_>, least: u8) -> Result<Expr, Refusal>
        requires expr { NestsExpr self.now.depth (F.pre self.now.expr) (F.post self.now.expr) }
        requires declarator { NestsDeclarator self.now.depth (G.pre self.now.declarator) (G.post self.now.declarator) }
        requires specs { NestsSpecs self.now.depth (H.pre self.now.specs) (H.post self.now.specs) }
        ensures { Reads (spec.operators (nested.expr self.now.depth) (nested.declarator self.now.depth)
            (nested.specs self.now.depth) least tokens.old) result tokens.new }
    {
        let at = tokens.at();
        let lone = !begins_cast(tokens);
        let first = self.prefix(tokens, least)?;
        self.climb(tokens, least, at, lone, first)
    }

    /// The operands that commas join, of which this is the first.
    fn commas(&self, tokens: &mut Cursor<'_>, at: u32, first: Expr) -> Result<Expr, Refusal>
        requires expr { NestsExpr self.now.depth (F.pre self.now.expr) (F.post self.now.expr) }
        requires declarator { NestsDeclarator self.now.depth (G.pre self.now.declarator) (G.post self.now.declarator) }
        requires specs { NestsSpecs self.now.depth (H.pre self.now.specs) (H.post self.now.specs) }
        ensures { Reads (spec.commas (nested.expr self.now.depth) (nested.declarator self.now.depth)
            (nested.specs self.now.depth) at first tokens.old) result tokens.new }
    {
        let mut found = pushed(Items::new(self.alloc), Ok(first))?;
        for _turn in 0..tokens.turns() {
            if !tokens.eat(Mark::Comma) {
                let node = ExprNode::Comma(found);
                return Ok(Expr { at, node });
            }
            found = pushed(found, self.operators(tokens, ASSIGNMENT))?;
        }
        let node = ExprNode::Comma(found);
        kept(Expr { at, node }, Err(tokens.refuse()))
    }

    #[tactic(auto, unfolding(parse_spec::specs::Expressions::whole))]
    fn whole(&self, tokens: &mut Cursor<'_>) -> Result<Expr, Refusal>
        requires expr { NestsExpr self.now.depth (F.pre self.now.expr) (F.post self.now.expr) }
        requires declarator { NestsDeclarator self.now.depth (G.pre self.now.declarator) (G.post self.now.declarator) }
        requires specs { NestsSpecs self.now.depth (H.pre self.now.specs) (H.post self.now.specs) }
        ensures { Reads (spec.whole (nested.expr self.now.depth) (nested.declarator self.now.depth)
            (nested.specs self.now.depth) tokens.old) result tokens.new }
    {
        let at = tokens.at();
        let first = self.operators(tokens, ASSIGNMENT)?;
        if tokens.sees(Mark::Comma) {
            self.commas(tokens, at, first)
        } else {
            Ok(first)
        }
    }

    /// An expression of this level or a tighter one.
    #[tactic(auto, unfolding(parse_spec::specs::Expressions::level))]
    pub fn level(&self, tokens: &mut Cursor<'_>, least: u8) -> Result<Expr, Refusal>
        requires expr { NestsExpr self.now.depth (F.pre self.now.expr) (F.post self.now.expr) }
        requires declarator { NestsDeclarator self.now.depth (G.pre self.now.declarator) (G.post self.now.declarator) }
        requires specs { NestsSpecs self.now.depth (H.pre self.now.specs) (H.post self.now.specs) }
        ensures { Reads (spec.level (nested.expr self.now.depth) (nested.declarator self.now.depth)
            (nested.specs self.now.depth) least tokens.old) result tokens.new }
    {
        if least == COMMA {
            self.whole(tokens)
        } else {
            self.operators(tokens, least)
        }
    }
}
