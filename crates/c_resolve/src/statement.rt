// Statements (6.8).
use c_ast::{Entry as SyntaxEntry, Expr, ForInit, Stmt};
use c_typed::{Block, Body, Entry, ForStart, Typed};
use type_bodies::{
    case_value, close_loop, close_switch, condition, default_label, define_label, ended_block,
    open_loop, open_switch, returned, selector, to_break, to_continue, to_label, unused,
    unused_part,
};
use type_declarations::{local_declaration, loop_declaration};
use type_declarators::declarator::assertion;
use type_expressions::expression::constant;
use type_reasons::Reason;
use type_scope::{Source, State, TypeFault};
use ub_base::{Boxed, Items};

// The first part of a `for`, before its end; a declaration has begun a block.
#[derive(Drop)]
enum LoopStart {
    Empty,
    Value(Typed),
    Declared(Items<Entry>),
}

// The first part of a `for`; a declaration begins a block (6.8.5.3).
fn loop_start(
    source: &Source<'_>,
    state: &mut State,
    init: &ForInit,
) -> Result<LoopStart, TypeFault> {
    match init {
        ForInit::Empty => Ok(LoopStart::Empty),
        ForInit::Value(e) => Ok(LoopStart::Value(unused(source, state, e)?)),
        ForInit::Declared(d) => {
            let _number = state.task.enter(state.alloc)?;
            let mut entries = Items::new(state.alloc);
            loop_declaration(source, state, d, &mut entries)?;
            Ok(LoopStart::Declared(entries))
        }
    }
}

// The first part at the end of the `for`.
fn ended_start(state: &mut State, start: LoopStart) -> ForStart {
    match start {
        LoopStart::Empty => ForStart::Empty,
        LoopStart::Value(tree) => ForStart::Value(tree),
        LoopStart::Declared(entries) => ForStart::Declared(ended_block(state, entries)),
    }
}

/// A statement (6.8). Each form that holds another one is read by a function of its own that isn't inlined, so that a level of
/// nesting costs the host's stack the parts of one form alone.
#[cycle(statement)]
pub fn statement(source: &Source<'_>, state: &mut State, s: &Stmt) -> Result<Body, TypeFault> {
    match s {
        Stmt::Simple(e) => Ok(Body::Simple(unused_part(source, state, e)?)),
        Stmt::Block(entries) => compound(source, state, entries.as_slice()),
        Stmt::If(e, yes, None) => selection(source, state, yes.get(), e),
        Stmt::If(e, yes, Some(no)) => {
            state.enter_scope()?;
            let (test, yes) = tested(source, state, yes.get(), e)?;
            alternative(source, state, no.get(), test, yes)
        }
        Stmt::Switch(e, s) => switch(source, state, s.get(), e),
        Stmt::While(e, s) => while_loop(source, state, s.get(), e),
        Stmt::Do(s, e) => do_loop(source, state, s.get(), e),
        Stmt::For(init, test, step, s) => for_loop(source, state, s.get(), init.get(), test, step),
        Stmt::Goto(at) => to_label(source, state, *at),
        Stmt::Continue(at) => to_continue(source, state, *at),
        Stmt::Break(at) => to_break(source, state, *at),
        Stmt::Return(at, e) => returned(source, state, *at, e),
        Stmt::Label(at, s) => labelled(source, state, s.get(), *at),
        Stmt::Case(at, e, s) => case(source, state, s.get(), *at, e),
        Stmt::Default(at, s) => default(source, state, s.get(), *at),
    }
}

// A controlling expression and the statement behind it.
#[cycle(statement)]
#[inline(never)]
fn tested(
    source: &Source<'_>,
    state: &mut State,
    s: &Stmt,
    e: &Expr,
) -> Result<(Typed, Boxed<Body>), TypeFault> {
    let test = condition(source, state, e, Reason::SelectionTest)?;
    let body = inner(source, state, s)?;
    Ok((test, body))
}

// An `if` without `else` (6.8.4.1).
#[cycle(statement)]
#[inline(never)]
fn selection(
    source: &Source<'_>,
    state: &mut State,
    yes: &Stmt,
    e: &Expr,
) -> Result<Body, TypeFault> {
    state.enter_scope()?;
    let test = condition(source, state, e, Reason::SelectionTest)?;
    let yes = inner(source, state, yes)?;
    state.leave_scope();
    Ok(Body::If(test, yes, None))
}

// The `else` of an `if` whose first part is known, in its scope, which ends (6.8.4.1).
#[cycle(statement)]
#[inline(never)]
fn alternative(
    source: &Source<'_>,
    state: &mut State,
    no: &Stmt,
    test: Typed,
    yes: Boxed<Body>,
) -> Result<Body, TypeFault> {
    let no = inner(source, state, no)?;
    state.leave_scope();
    Ok(Body::If(test, yes, Some(no)))
}

// A `switch` (6.8.4.2).
#[cycle(statement)]
#[inline(never)]
fn switch(source: &Source<'_>, state: &mut State, s: &Stmt, e: &Expr) -> Result<Body, TypeFault> {
    state.enter_scope()?;
    let (test, kind) = selector(source, state, e)?;
    open_switch(state, kind)?;
    let body = inner(source, state, s)?;
    close_switch(state);
    state.leave_scope();
    Ok(Body::Switch(test, body))
}

// A `while` loop (6.8.5.1).
#[cycle(statement)]
#[inline(never)]
fn while_loop(
    source: &Source<'_>,
    state: &mut State,
    s: &Stmt,
    e: &Expr,
) -> Result<Body, TypeFault> {
    state.enter_scope()?;
    let test = condition(source, state, e, Reason::LoopTest)?;
    let body = repeated(source, state, s)?;
    state.leave_scope();
    Ok(Body::While(test, body))
}

// A `do` loop (6.8.5.2).
#[cycle(statement)]
#[inline(never)]
fn do_loop(source: &Source<'_>, state: &mut State, s: &Stmt, e: &Expr) -> Result<Body, TypeFault> {
    state.enter_scope()?;
    let body = repeated(source, state, s)?;
    let test = condition(source, state, e, Reason::LoopTest)?;
    state.leave_scope();
    Ok(Body::Do(body, test))
}

// A `for` loop (6.8.5.3).
#[cycle(statement)]
#[inline(never)]
fn for_loop(
    source: &Source<'_>,
    state: &mut State,
    s: &Stmt,
    init: &ForInit,
    test: &Option<Expr>,
    step: &Option<Expr>,
) -> Result<Body, TypeFault> {
    state.enter_scope()?;
    let start = loop_start(source, state, init)?;
    let test = match test {
        None => None,
        Some(e) => Some(condition(source, state, e, Reason::LoopTest)?),
    };
    let step = unused_part(source, state, step)?;
    let body = repeated(source, state, s)?;
    let start = ended_start(state, start);
    state.leave_scope();
    Ok(Body::For {
        start,
        test,
        step,
        body,
    })
}

// A labelled statement (6.8.1).
#[cycle(statement)]
#[inline(never)]
fn labelled(source: &Source<'_>, state: &mut State, s: &Stmt, at: u32) -> Result<Body, TypeFault> {
    let number = define_label(source, state, at)?;
    let body = statement(source, state, s)?;
    Ok(Body::Label(number, Boxed::new(state.alloc, body)?))
}

// A statement behind `case` (6.8.1).
#[cycle(statement)]
#[inline(never)]
fn case(
    source: &Source<'_>,
    state: &mut State,
    s: &Stmt,
    at: u32,
    e: &Expr,
) -> Result<Body, TypeFault> {
    let number = case_value(source, state, at, e)?;
    let body = statement(source, state, s)?;
    Ok(Body::Case(number, Boxed::new(state.alloc, body)?))
}

// A statement behind `default` (6.8.1).
#[cycle(statement)]
#[inline(never)]
fn default(source: &Source<'_>, state: &mut State, s: &Stmt, at: u32) -> Result<Body, TypeFault> {
    default_label(source, state, at)?;
    let body = statement(source, state, s)?;
    Ok(Body::Default(Boxed::new(state.alloc, body)?))
}

// A statement inside another one, a scope of its own (6.8.4p3, 6.8.5p5).
#[cycle(statement)]
fn inner(source: &Source<'_>, state: &mut State, s: &Stmt) -> Result<Boxed<Body>, TypeFault> {
    state.enter_scope()?;
    let body = statement(source, state, s)?;
    state.leave_scope();
    Ok(Boxed::new(state.alloc, body)?)
}

// The body of a loop.
#[cycle(statement)]
fn repeated(source: &Source<'_>, state: &mut State, s: &Stmt) -> Result<Boxed<Body>, TypeFault> {
    open_loop(state);
    let body = inner(source, state, s)?;
    close_loop(state);
    Ok(body)
}

// A compound statement: a scope and a block (6.8.2).
#[cycle(statement)]
fn compound(
    source: &Source<'_>,
    state: &mut State,
    entries: &[SyntaxEntry],
) -> Result<Body, TypeFault> {
    state.enter_scope()?;
    let _number = state.task.enter(state.alloc)?;
    let entries = block_items(source, state, entries)?;
    let block = ended_block(state, entries);
    state.leave_scope();
    Ok(Body::Block(block))
}

/// The items of a block (6.8.2).
#[cycle(statement)]
pub fn block_items(
    source: &Source<'_>,
    state: &mut State,
    items: &[SyntaxEntry],
) -> Result<Items<Entry>, TypeFault> {
    let mut entries = Items::new(state.alloc);
    for item in items {
        block_item(source, state, item, &mut entries)?;
    }
    Ok(entries)
}

#[cycle(statement)]
fn block_item(
    source: &Source<'_>,
    state: &mut State,
    item: &SyntaxEntry,
    entries: &mut Items<Entry>,
) -> Result<(), TypeFault> {
    match item {
        SyntaxEntry::Declaration(d) => local_declaration(source, state, d, entries),
        SyntaxEntry::Assertion(e, message) => {
            let number = constant(source, state, e, Reason::AssertionConstant)?;
            assertion(source, state.alloc, number, e.at, *message)
        }
        SyntaxEntry::Statement(s) => {
            let body = statement(source, state, s)?;
            entries.push(Entry::Statement(body))?;
            Ok(())
        }
    }
}
