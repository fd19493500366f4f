//! Statements (6.8).

ghost use Rattle.std.specs.Prelude.{◌≡◌};
ghost use Rattle.c_ast.specs.Input.{kind, next};
ghost use Rattle.parse_cursor.specs.Reads.{Reads};
ghost use Rattle.parse_statements.specs.Parts.{held_by};
ghost use Rattle.parse_nodes.specs.Behind.{followed};
ghost use Rattle.parse_nodes.specs.Nests.{NestsStmt};
ghost use Rattle.parse_spec.specs.Declarations as declared;
ghost use Rattle.parse_spec.specs.Places as places;
ghost use Rattle.parse_spec.specs.Statements as spec;
ghost use Rattle.parse_spec.specs.Steps as steps;
ghost use Rattle.parse_spec.specs.Steps.{and_then, pure, scoped};

use c_ast::{Entry, Expr, ForInit, Stmt};
use c_lex::{Mark, TokenKind, Word};
use parse_cursor::operators::{COMMA, CONDITIONAL};
use parse_cursor::tokens::{begins_declaration, identifier};
use parse_cursor::{Cursor, Refusal};
use parse_declarations::{assertion, declaration, expr};
use parse_nodes::behind::{before, kept, pushed, with};
use std::alloc::Global;
use ub_base::{Boxed, Items};

fn whole_expr(alloc: Global, tokens: &mut Cursor<'_>) -> Result<Expr, Refusal>
    ensures { Reads (spec.whole_expr tokens.old) result tokens.new }
{
    let turns = tokens.turns();
    expr(alloc, tokens, turns, COMMA)
}

#[tactic(auto, unfolding(parse_spec::specs::Statements::in_parentheses))]
fn in_parentheses(alloc: Global, tokens: &mut Cursor<'_>) -> Result<Expr, Refusal>
    ensures { Reads (spec.in_parentheses tokens.old) result tokens.new }
{
    tokens.expect(Mark::OpenParen)?;
    let value = whole_expr(alloc, tokens);
    before(tokens, value, Mark::CloseParen)
}

/// An expression or none, and then this punctuator.
#[tactic(auto, unfolding(parse_spec::specs::Statements::maybe_expr))]
fn maybe_expr(alloc: Global, tokens: &mut Cursor<'_>, end: Mark) -> Result<Option<Expr>, Refusal>
    ensures { Reads (spec.maybe_expr end tokens.old) result tokens.new }
{
    if tokens.eat(end) {
        return Ok(None);
    }
    let value = whole_expr(alloc, tokens);
    Ok(Some(before(tokens, value, end)?))
}

/// The first part of `for`, and its semicolon.
#[tactic(auto, unfolding(parse_spec::specs::Statements::for_init))]
fn for_init(alloc: Global, tokens: &mut Cursor<'_>) -> Result<ForInit, Refusal>
    ensures { Reads (spec.for_init tokens.old) result tokens.new }
{
    if begins_declaration(tokens) {
        return Ok(ForInit::Declared(declaration(alloc, tokens)?));
    }
    match maybe_expr(alloc, tokens, Mark::Semicolon)? {
        Some(value) => Ok(ForInit::Value(value)),
        None => Ok(ForInit::Empty),
    }
}

fn boxed_init(alloc: Global, tokens: &mut Cursor<'_>) -> Result<Boxed<ForInit>, Refusal>
    ensures { Reads (spec.for_init tokens.old) result tokens.new }
{
    let init = for_init(alloc, tokens)?;
    Ok(Boxed::new(alloc, init)?)
}

/// After `goto`.
fn goto_stmt(tokens: &mut Cursor<'_>) -> Result<Stmt, Refusal>
    ensures { Reads (and_then (steps.identifier tokens.old) (λ label. followed Mark.Semicolon (Stmt.Goto label))) result tokens.new }
{
    let label = identifier(tokens)?;
    kept(Stmt::Goto(label), tokens.expect(Mark::Semicolon))
}

/// After `return`, which stands at `at`.
fn return_stmt(alloc: Global, tokens: &mut Cursor<'_>, at: u32) -> Result<Stmt, Refusal>
    ensures { Reads (and_then (spec.maybe_expr Mark.Semicolon tokens.old) (λ value. pure (Stmt.Return at value))) result tokens.new }
{
    let value = maybe_expr(alloc, tokens, Mark::Semicolon)?;
    Ok(Stmt::Return(at, value))
}

#[tactic(auto, unfolding(parse_spec::specs::Statements::simple_stmt))]
fn simple_stmt(alloc: Global, tokens: &mut Cursor<'_>) -> Result<Stmt, Refusal>
    ensures { Reads (spec.simple_stmt tokens.old) result tokens.new }
{
    let value = maybe_expr(alloc, tokens, Mark::Semicolon)?;
    Ok(Stmt::Simple(value))
}

/// A statement that holds no other.
#[tactic(auto, unfolding(parse_spec::specs::Statements::plain_stmt))]
fn plain_stmt(alloc: Global, tokens: &mut Cursor<'_>) -> Result<Stmt, Refusal>
    ensures { Reads (spec.plain_stmt tokens.old) result tokens.new }
{
    let at = tokens.at();
    match tokens.peek() {
        Some(TokenKind::Keyword(Word::Goto)) => {
            tokens.take();
            goto_stmt(tokens)
        }
        Some(TokenKind::Keyword(Word::Continue)) => {
            tokens.take();
            kept(Stmt::Continue(at), tokens.expect(Mark::Semicolon))
        }
        Some(TokenKind::Keyword(Word::Break)) => {
            tokens.take();
            kept(Stmt::Break(at), tokens.expect(Mark::Semicolon))
        }
        Some(TokenKind::Keyword(Word::Return)) => {
            tokens.take();
            return_stmt(alloc, tokens, at)
        }
        _ => simple_stmt(alloc, tokens),
    }
}

/// The value of a `case` and the colon.
#[tactic(auto, unfolding(parse_spec::specs::Statements::case_value))]
fn case_value(alloc: Global, tokens: &mut Cursor<'_>) -> Result<Expr, Refusal>
    ensures { Reads (spec.case_value tokens.old) result tokens.new }
{
    let turns = tokens.turns();
    let value = expr(alloc, tokens, turns, CONDITIONAL);
    before(tokens, value, Mark::Colon)
}

fn assertion_entry(alloc: Global, tokens: &mut Cursor<'_>) -> Result<Entry, Refusal>
    ensures { Reads (and_then (declared.assertion tokens.old) (λ p. pure (Entry.Assertion p.0 p.1))) result tokens.new }
{
    let (condition, message) = assertion(alloc, tokens)?;
    Ok(Entry::Assertion(condition, message))
}

fn declaration_entry(alloc: Global, tokens: &mut Cursor<'_>) -> Result<Entry, Refusal>
    ensures { Reads (and_then (declared.declaration tokens.old) (λ found. pure (Entry.Declaration found))) result tokens.new }
{
    let found = declaration(alloc, tokens)?;
    Ok(Entry::Declaration(found))
}

/// Whether a name and a colon come next.
fn is_label(tokens: &Cursor<'_>) -> bool
    ensures { result ≡ places.is_label tokens.now }
{
    match (tokens.peek(), tokens.peek_after()) {
        (Some(TokenKind::Name), Some(TokenKind::Punct(Mark::Colon))) => true,
        _ => false,
    }
}

/// The rules of statements take the parser of statements as a parameter, so that each is proved by itself.
#[derive(Clone, Copy)]
pub struct Statements<S> {
    pub alloc: Global,
    /// How deep statements may still nest.
    pub depth: usize,
    pub stmt: S,
}

impl<S: Fn(Global, &mut Cursor<'_>, usize) -> Result<Stmt, Refusal>> Statements<S> {
    fn stmt(&self, tokens: &mut Cursor<'_>) -> Result<Stmt, Refusal>
        requires { NestsStmt self.now.depth (S.pre self.now.stmt) (S.post self.now.stmt) }
        ensures { Reads (spec.statement self.now.depth tokens.old) result tokens.new }
    {
        (self.stmt)(self.alloc, tokens, self.depth)
    }

    /// A statement that is a block of its own: what is declared in it ends with it (6.8.4p3, 6.8.5p5).
    fn sub_stmt(&self, tokens: &mut Cursor<'_>) -> Result<Stmt, Refusal>
        requires { NestsStmt self.now.depth (S.pre self.now.stmt) (S.post self.now.stmt) }
        ensures { Reads (scoped (spec.statement self.now.depth) tokens.old) result tokens.new }
    {
        let outer = tokens.open();
        let found = self.stmt(tokens);
        tokens.close(outer);
        found
    }

    fn boxed_sub(&self, tokens: &mut Cursor<'_>) -> Result<Boxed<Stmt>, Refusal>
        requires { NestsStmt self.now.depth (S.pre self.now.stmt) (S.post self.now.stmt) }
        ensures { Reads (scoped (spec.statement self.now.depth) tokens.old) result tokens.new }
    {
        let body = self.sub_stmt(tokens)?;
        Ok(Boxed::new(self.alloc, body)?)
    }

    fn boxed_stmt(&self, tokens: &mut Cursor<'_>) -> Result<Boxed<Stmt>, Refusal>
        requires { NestsStmt self.now.depth (S.pre self.now.stmt) (S.post self.now.stmt) }
        ensures { Reads (spec.statement self.now.depth tokens.old) result tokens.new }
    {
        let body = self.stmt(tokens)?;
        Ok(Boxed::new(self.alloc, body)?)
    }

    /// An `else` goes with the nearest `if` (6.8.4.1p3).
    #[tactic(auto, unfolding(parse_spec::specs::Statements::else_part))]
    fn else_part(&self, tokens: &mut Cursor<'_>) -> Result<Option<Boxed<Stmt>>, Refusal>
        requires { NestsStmt self.now.depth (S.pre self.now.stmt) (S.post self.now.stmt) }
        ensures { Reads (spec.else_part (spec.statement self.now.depth) tokens.old) result tokens.new }
    {
        if tokens.eat_word(Word::Else) {
            Ok(Some(self.boxed_sub(tokens)?))
        } else {
            Ok(None)
        }
    }

    /// After `if`.
    #[tactic(auto, unfolding(parse_spec::specs::Statements::if_stmt))]
    fn if_stmt(&self, tokens: &mut Cursor<'_>) -> Result<Stmt, Refusal>
        requires { NestsStmt self.now.depth (S.pre self.now.stmt) (S.post self.now.stmt) }
        ensures { Reads (spec.if_stmt (spec.statement self.now.depth) tokens.old) result tokens.new }
    {
        let test = in_parentheses(self.alloc, tokens)?;
        let held = with(test, self.boxed_sub(tokens))?;
        let ((test, yes), no) = with(held, self.else_part(tokens))?;
        Ok(Stmt::If(test, yes, no))
    }

    /// After `switch`.
    #[tactic(auto, unfolding(parse_spec::specs::Statements::switch_stmt))]
    fn switch_stmt(&self, tokens: &mut Cursor<'_>) -> Result<Stmt, Refusal>
        requires { NestsStmt self.now.depth (S.pre self.now.stmt) (S.post self.now.stmt) }
        ensures { Reads (spec.switch_stmt (spec.statement self.now.depth) tokens.old) result tokens.new }
    {
        let test = in_parentheses(self.alloc, tokens)?;
        let (test, body) = with(test, self.boxed_sub(tokens))?;
        Ok(Stmt::Switch(test, body))
    }

    /// After `while`.
    #[tactic(auto, unfolding(parse_spec::specs::Statements::while_stmt))]
    fn while_stmt(&self, tokens: &mut Cursor<'_>) -> Result<Stmt, Refusal>
        requires { NestsStmt self.now.depth (S.pre self.now.stmt) (S.post self.now.stmt) }
        ensures { Reads (spec.while_stmt (spec.statement self.now.depth) tokens.old) result tokens.new }
    {
        let test = in_parentheses(self.alloc, tokens)?;
        let (test, body) = with(test, self.boxed_sub(tokens))?;
        Ok(Stmt::While(test, body))
    }

    /// After `do`.
    #[tactic(auto, unfolding(parse_spec::specs::Statements::do_stmt))]
    fn do_stmt(&self, tokens: &mut Cursor<'_>) -> Result<Stmt, Refusal>
        requires { NestsStmt self.now.depth (S.pre self.now.stmt) (S.post self.now.stmt) }
        ensures { Reads (spec.do_stmt (spec.statement self.now.depth) tokens.old) result tokens.new }
    {
        let body = self.boxed_sub(tokens)?;
        let body = kept(body, tokens.expect_word(Word::While))?;
        let held = with(body, in_parentheses(self.alloc, tokens))?;
        let (body, test) = kept(held, tokens.expect(Mark::Semicolon))?;
        Ok(Stmt::Do(body, test))
    }

    /// After `for`.
    #[tactic(auto, unfolding(parse_spec::specs::Statements::for_stmt))]
    fn for_stmt(&self, tokens: &mut Cursor<'_>) -> Result<Stmt, Refusal>
        requires { NestsStmt self.now.depth (S.pre self.now.stmt) (S.post self.now.stmt) }
        ensures { Reads (spec.for_stmt (spec.statement self.now.depth) tokens.old) result tokens.new }
    {
        tokens.expect(Mark::OpenParen)?;
        let init = boxed_init(self.alloc, tokens)?;
        let held = with(init, maybe_expr(self.alloc, tokens, Mark::Semicolon))?;
        let held = with(held, maybe_expr(self.alloc, tokens, Mark::CloseParen))?;
        let (((init, test), step), body) = with(held, self.boxed_sub(tokens))?;
        Ok(Stmt::For(init, test, step, body))
    }

    /// A selection or an iteration statement (6.8.4, 6.8.5).
    fn held_stmt(&self, tokens: &mut Cursor<'_>) -> Result<Stmt, Refusal>
        requires { NestsStmt self.now.depth (S.pre self.now.stmt) (S.post self.now.stmt) }
        ensures { Reads (held_by (spec.statement self.now.depth) (kind tokens.old) (next tokens.old)) result tokens.new }
    {
        let kind = tokens.peek();
        tokens.take();
        match kind {
            Some(TokenKind::Keyword(Word::If)) => self.if_stmt(tokens),
            Some(TokenKind::Keyword(Word::Switch)) => self.switch_stmt(tokens),
            Some(TokenKind::Keyword(Word::Do)) => self.do_stmt(tokens),
            Some(TokenKind::Keyword(Word::For)) => self.for_stmt(tokens),
            _ => self.while_stmt(tokens),
        }
    }

    /// After the name of a label.
    #[tactic(auto, unfolding(parse_spec::specs::Statements::label_stmt))]
    fn label_stmt(&self, tokens: &mut Cursor<'_>, label: u32) -> Result<Stmt, Refusal>
        requires { NestsStmt self.now.depth (S.pre self.now.stmt) (S.post self.now.stmt) }
        ensures { Reads (spec.label_stmt (spec.statement self.now.depth) label tokens.old) result tokens.new }
    {
        tokens.expect(Mark::Colon)?;
        let body = self.boxed_stmt(tokens)?;
        Ok(Stmt::Label(label, body))
    }

    /// After `case`, which stands at `at`.
    #[tactic(auto, unfolding(parse_spec::specs::Statements::case_stmt))]
    fn case_stmt(&self, tokens: &mut Cursor<'_>, at: u32) -> Result<Stmt, Refusal>
        requires { NestsStmt self.now.depth (S.pre self.now.stmt) (S.post self.now.stmt) }
        ensures { Reads (spec.case_stmt (spec.statement self.now.depth) at tokens.old) result tokens.new }
    {
        let value = case_value(self.alloc, tokens)?;
        let (value, body) = with(value, self.boxed_stmt(tokens))?;
        Ok(Stmt::Case(at, value, body))
    }

    /// After `default`, which stands at `at`.
    #[tactic(auto, unfolding(parse_spec::specs::Statements::default_stmt))]
    fn default_stmt(&self, tokens: &mut Cursor<'_>, at: u32) -> Result<Stmt, Refusal>
        requires { NestsStmt self.now.depth (S.pre self.now.stmt) (S.post self.now.stmt) }
        ensures { Reads (spec.default_stmt (spec.statement self.now.depth) at tokens.old) result tokens.new }
    {
        tokens.expect(Mark::Colon)?;
        let body = self.boxed_stmt(tokens)?;
        Ok(Stmt::Default(at, body))
    }

    fn statement_entry(&self, tokens: &mut Cursor<'_>) -> Result<Entry, Refusal>
        requires { NestsStmt self.now.depth (S.pre self.now.stmt) (S.post self.now.stmt) }
        ensures { Reads (and_then (spec.statement self.now.depth tokens.old) (λ found. pure (Entry.Statement found))) result tokens.new }
    {
        let found = self.stmt(tokens)?;
        Ok(Entry::Statement(found))
    }

    /// A block item (6.8.2). A name and a colon are a label, whatever the name is declared as.
    #[tactic(auto, unfolding(parse_spec::specs::Statements::one_entry))]
    fn entry(&self, tokens: &mut Cursor<'_>) -> Result<Entry, Refusal>
        requires { NestsStmt self.now.depth (S.pre self.now.stmt) (S.post self.now.stmt) }
        ensures { Reads (spec.one_entry (spec.statement self.now.depth) tokens.old) result tokens.new }
    {
        if tokens.sees_word(Word::StaticAssert) {
            assertion_entry(self.alloc, tokens)
        } else if begins_declaration(tokens) && !is_label(tokens) {
            declaration_entry(self.alloc, tokens)
        } else {
            self.statement_entry(tokens)
        }
    }

    /// After the opening brace: the block items and the closing brace (6.8.2).
    pub fn entries(&self, tokens: &mut Cursor<'_>) -> Result<Items<Entry>, Refusal>
        requires { NestsStmt self.now.depth (S.pre self.now.stmt) (S.post self.now.stmt) }
        ensures { Reads (spec.entries (spec.statement self.now.depth) tokens.old) result tokens.new }
    {
        let mut found = Items::new(self.alloc);
        for _turn in 0..tokens.turns() {
            if tokens.eat(Mark::CloseBrace) {
                return Ok(found);
            }
            found = pushed(found, self.entry(tokens))?;
        }
        kept(found, Err(tokens.refuse()))
    }

    /// After the opening brace. What is declared in a block ends with it (6.2.1p4).
    #[tactic(auto, unfolding(parse_spec::specs::Statements::block))]
    fn block(&self, tokens: &mut Cursor<'_>) -> Result<Stmt, Refusal>
        requires { NestsStmt self.now.depth (S.pre self.now.stmt) (S.post self.now.stmt) }
        ensures { Reads (spec.block (spec.statement self.now.depth) tokens.old) result tokens.new }
    {
        let outer = tokens.open();
        let found = self.entries(tokens)?;
        tokens.close(outer);
        Ok(Stmt::Block(found))
    }

    /// A selection or an iteration statement. What is declared in it ends with it (6.8.4p3, 6.8.5p5).
    fn scoped_stmt(&self, tokens: &mut Cursor<'_>) -> Result<Stmt, Refusal>
        requires { NestsStmt self.now.depth (S.pre self.now.stmt) (S.post self.now.stmt) }
        ensures { Reads (scoped (λ i. held_by (spec.statement self.now.depth) (kind i) (next i)) tokens.old) result tokens.new }
    {
        let outer = tokens.open();
        let found = self.held_stmt(tokens);
        tokens.close(outer);
        found
    }

    /// A statement whose first token is no name that is a label.
    fn unlabelled(&self, tokens: &mut Cursor<'_>) -> Result<Stmt, Refusal>
        requires { NestsStmt self.now.depth (S.pre self.now.stmt) (S.post self.now.stmt) }
        ensures { Reads (spec.unlabelled_by (spec.statement self.now.depth) tokens.old.at (kind tokens.old) tokens.old) result tokens.new }
    {
        let at = tokens.at();
        match tokens.peek() {
            Some(TokenKind::Punct(Mark::OpenBrace)) => {
                tokens.take();
                self.block(tokens)
            }
            Some(TokenKind::Keyword(Word::Case)) => {
                tokens.take();
                self.case_stmt(tokens, at)
            }
            Some(TokenKind::Keyword(Word::Default)) => {
                tokens.take();
                self.default_stmt(tokens, at)
            }
            Some(
                TokenKind::Keyword(Word::If | Word::Switch | Word::While | Word::Do | Word::For),
            ) => self.scoped_stmt(tokens),
            _ => plain_stmt(self.alloc, tokens),
        }
    }

    #[tactic(auto, unfolding(parse_spec::specs::Statements::one_stmt))]
    pub fn one_stmt(&self, tokens: &mut Cursor<'_>) -> Result<Stmt, Refusal>
        requires { NestsStmt self.now.depth (S.pre self.now.stmt) (S.post self.now.stmt) }
        ensures { Reads (spec.one_stmt (spec.statement self.now.depth) tokens.old) result tokens.new }
    {
        if is_label(tokens) {
            let label = identifier(tokens)?;
            self.label_stmt(tokens, label)
        } else {
            self.unlabelled(tokens)
        }
    }
}

/// A statement, in which others nest no deeper than `depth`.
pub fn stmt(alloc: Global, tokens: &mut Cursor<'_>, depth: usize) -> Result<Stmt, Refusal>
    ensures { Reads (spec.statement depth tokens.old) result tokens.new }
{
    if depth == 0 {
        return Err(tokens.refuse());
    }
    Statements {
        alloc,
        depth: depth - 1,
        stmt,
    }
    .one_stmt(tokens)
}

/// After the opening brace of a function's body: the block items and the closing brace.
#[tactic(auto, unfolding(parse_spec::specs::Statements::body))]
pub fn body(alloc: Global, tokens: &mut Cursor<'_>) -> Result<Items<Entry>, Refusal>
    ensures { Reads (spec.body tokens.old) result tokens.new }
{
    let depth = tokens.turns();
    Statements { alloc, depth, stmt }.entries(tokens)
}
