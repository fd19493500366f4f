// The statements of functions with the numbers of their full expressions.
ghost use Rattle.std.specs.Prelude.{◌≡◌, [], ◌∷◌, ◌++◌, map, IfOk, OnOk, None, Some};
ghost use Rattle.elaborate.specs.Expressions.{full_trees, option_trees, body_trees, block_trees, entry_trees};
ghost use Rattle.run_control.specs.declared.statement.Statement.TheVariants as statement;
ghost use Rattle.run_statements.specs.Bodies.{Grows, IsStatement, IsSimple, IsReturned, IsSelection, IsRound, IsBlock, AreEntries, IsEntry};

use crate::Numbers;
use crate::numbers::{full, optional, switch_number};
use c_typed::{Block as TypedBlock, Body, Entry, ForStart, Typed};
use run_control::{Again, Block, Round, Statement, Switch};
use std::alloc::Global;
use ub_base::{Boxed, Items, NoMemory};

#[cycle(statement)]
fn statement<'p>(
    alloc: Global,
    body: &'p Body,
    numbers: &mut Numbers<'p>,
) -> Result<Statement, NoMemory>
    ensures grows { OnOk result (Grows numbers.old numbers.new) }
    ensures order { OnOk result (map (λ t. t.now) numbers.new.roots.items ≡ map (λ t. t.now) numbers.old.roots.items ++ body_trees body.now) }
    ensures statement { IfOk result (λ s. IsStatement numbers.new body.now s) }
{
    match body {
        Body::Simple(root) => simple(root, numbers),
        Body::Block(inner) => Ok(Statement::Block(block(alloc, inner, numbers)?)),
        Body::If(test, yes, no) => {
            let test = full(test, numbers)?;
            let yes = boxed(alloc, yes.get(), numbers)?;
            match no {
                None => Ok(Statement::IfOnly(test, yes)),
                Some(no) => Ok(Statement::If(test, yes, boxed(alloc, no.get(), numbers)?)),
            }
        }
        Body::Switch(test, inner) => {
            let test = full(test, numbers)?;
            Ok(Statement::Switch(selection(alloc, test, inner.get(), numbers)?))
        }
        Body::While(test, inner) => {
            Ok(Statement::For(None, tested(alloc, inner.get(), test, numbers)?))
        }
        Body::Do(inner, test) => {
            let body = boxed(alloc, inner.get(), numbers)?;
            let test = full(test, numbers)?;
            Ok(Statement::Do(Again { test, body }))
        }
        Body::For {
            start,
            test,
            step,
            body,
        } => match start {
            ForStart::Empty => {
                let round = round(alloc, test, step, body.get(), numbers)?;
                Ok(Statement::For(None, round))
            }
            ForStart::Value(root) => {
                let first = full(root, numbers)?;
                let round = round(alloc, test, step, body.get(), numbers)?;
                Ok(Statement::For(Some(first), round))
            }
            ForStart::Declared(block) => {
                let statements = entries(alloc, block, numbers)?;
                let round = round(alloc, test, step, body.get(), numbers)?;
                Ok(Statement::Block(declaring(block.number, statements, round)?))
            }
        },
        Body::Goto(label) => Ok(Statement::Goto(*label)),
        Body::Continue => Ok(Statement::Continue),
        Body::Break => Ok(Statement::Break),
        Body::Return(root) => returned(root, numbers),
        Body::Label(label, inner) => Ok(Statement::Label(
            *label,
            boxed(alloc, inner.get(), numbers)?,
        )),
        Body::Case(value, inner) => Ok(case(value, boxed(alloc, inner.get(), numbers)?)),
        Body::Default(inner) => Ok(Statement::Default(boxed(alloc, inner.get(), numbers)?)),
    }
}

#[cycle(statement)]
fn boxed<'p>(
    alloc: Global,
    body: &'p Body,
    numbers: &mut Numbers<'p>,
) -> Result<Boxed<Statement>, NoMemory>
    ensures grows { OnOk result (Grows numbers.old numbers.new) }
    ensures order { OnOk result (map (λ t. t.now) numbers.new.roots.items ≡ map (λ t. t.now) numbers.old.roots.items ++ body_trees body.now) }
    ensures statement { IfOk result (λ s. IsStatement numbers.new body.now s) }
{
    Ok(Boxed::new(alloc, statement(alloc, body, numbers)?)?)
}

fn case(value: &i128, inner: Boxed<Statement>) -> Statement
    ensures { result ≡ statement.Case value.now inner }
{
    let value = *value;
    Statement::Case(value, inner)
}

// An expression statement, which may be empty.
fn simple<'p>(root: &'p Option<Typed>, numbers: &mut Numbers<'p>) -> Result<Statement, NoMemory>
    ensures grows { OnOk result (Grows numbers.old numbers.new) }
    ensures order { OnOk result (map (λ t. t.now) numbers.new.roots.items ≡ map (λ t. t.now) numbers.old.roots.items ++ option_trees root.now) }
    ensures statement { IfOk result (λ s. IsSimple numbers.new root.now s) }
{
    match root {
        None => Ok(Statement::Empty),
        Some(root) => Ok(Statement::Value(full(root, numbers)?)),
    }
}

fn returned<'p>(root: &'p Option<Typed>, numbers: &mut Numbers<'p>) -> Result<Statement, NoMemory>
    ensures grows { OnOk result (Grows numbers.old numbers.new) }
    ensures order { OnOk result (map (λ t. t.now) numbers.new.roots.items ≡ map (λ t. t.now) numbers.old.roots.items ++ option_trees root.now) }
    ensures statement { IfOk result (λ s. IsReturned numbers.new root.now s) }
{
    match root {
        None => Ok(Statement::ReturnNone),
        Some(root) => Ok(Statement::Return(full(root, numbers)?)),
    }
}

// A `switch`, whose number comes before those in its body.
#[cycle(statement)]
fn selection<'p>(
    alloc: Global,
    test: u32,
    body: &'p Body,
    numbers: &mut Numbers<'p>,
) -> Result<Switch, NoMemory>
    ensures grows { OnOk result (Grows numbers.old numbers.new) }
    ensures order { OnOk result (map (λ t. t.now) numbers.new.roots.items ≡ map (λ t. t.now) numbers.old.roots.items ++ body_trees body.now) }
    ensures selection { IfOk result (λ s. IsSelection numbers.new test body.now s) }
{
    let number = switch_number(body, numbers)?;
    Ok(Switch {
        number,
        test,
        body: boxed(alloc, body, numbers)?,
    })
}

// A `while` loop.
#[cycle(statement)]
fn tested<'p>(
    alloc: Global,
    body: &'p Body,
    test: &'p Typed,
    numbers: &mut Numbers<'p>,
) -> Result<Round, NoMemory>
    ensures grows { OnOk result (Grows numbers.old numbers.new) }
    ensures order { OnOk result (map (λ t. t.now) numbers.new.roots.items ≡ map (λ t. t.now) numbers.old.roots.items ++
        (full_trees test.now ++ body_trees body.now)) }
    ensures round { IfOk result (λ r. IsRound numbers.new (Some test.now) None body.now r) }
{
    let test = full(test, numbers)?;
    Ok(Round {
        test: Some(test),
        step: None,
        body: boxed(alloc, body, numbers)?,
    })
}

// What comes behind the start of a `for`.
#[cycle(statement)]
fn round<'p>(
    alloc: Global,
    test: &'p Option<Typed>,
    step: &'p Option<Typed>,
    body: &'p Body,
    numbers: &mut Numbers<'p>,
) -> Result<Round, NoMemory>
    ensures grows { OnOk result (Grows numbers.old numbers.new) }
    ensures order { OnOk result (map (λ t. t.now) numbers.new.roots.items ≡ map (λ t. t.now) numbers.old.roots.items ++
        (option_trees test.now ++ (option_trees step.now ++ body_trees body.now))) }
    ensures round { IfOk result (λ r. IsRound numbers.new test.now step.now body.now r) }
{
    let test = optional(test, numbers)?;
    let step = optional(step, numbers)?;
    Ok(Round {
        test,
        step,
        body: boxed(alloc, body, numbers)?,
    })
}

// The block of a `for` that declares: the declarations and then the loop (6.8.5p5).
fn declaring(number: u32, statements: Items<Statement>, round: Round) -> Result<Block, NoMemory>
    ensures number { IfOk result (λ b. b.number ≡ number) }
    ensures statements { IfOk result (λ b. b.statements ≡ statements ++ statement.For None round ∷ []) }
{
    let mut statements = statements;
    statements.push(Statement::For(None, round))?;
    Ok(Block { number, statements })
}

/// A block of a function with its numbers.
#[cycle(statement)]
pub fn block<'p>(
    alloc: Global,
    block: &'p TypedBlock,
    numbers: &mut Numbers<'p>,
) -> Result<Block, NoMemory>
    ensures grows { OnOk result (Grows numbers.old numbers.new) }
    ensures order { OnOk result (map (λ t. t.now) numbers.new.roots.items ≡ map (λ t. t.now) numbers.old.roots.items ++ block_trees block.now) }
    ensures block { IfOk result (λ b. IsBlock numbers.new block.now b) }
{
    Ok(Block {
        number: block.number,
        statements: entries(alloc, block, numbers)?,
    })
}

// The entries of a block.
#[cycle(statement)]
fn entries<'p>(
    alloc: Global,
    block: &'p TypedBlock,
    numbers: &mut Numbers<'p>,
) -> Result<Items<Statement>, NoMemory>
    ensures grows { OnOk result (Grows numbers.old numbers.new) }
    ensures order { OnOk result (map (λ t. t.now) numbers.new.roots.items ≡ map (λ t. t.now) numbers.old.roots.items ++ block_trees block.now) }
    ensures statements { IfOk result (λ ss. AreEntries numbers.new block.now ss) }
{
    let mut statements = Items::new(alloc);
    for item in block.entries.as_slice() {
        statements.push(entry(alloc, item, numbers)?)?;
    }
    Ok(statements)
}

#[cycle(statement)]
fn entry<'p>(
    alloc: Global,
    entry: &'p Entry,
    numbers: &mut Numbers<'p>,
) -> Result<Statement, NoMemory>
    ensures grows { OnOk result (Grows numbers.old numbers.new) }
    ensures order { OnOk result (map (λ t. t.now) numbers.new.roots.items ≡ map (λ t. t.now) numbers.old.roots.items ++ entry_trees entry.now) }
    ensures statement { IfOk result (λ s. IsEntry numbers.new entry.now s) }
{
    match entry {
        Entry::Statement(body) => statement(alloc, body, numbers),
        Entry::Initializer(root) => Ok(Statement::Value(full(root, numbers)?)),
        Entry::Declare(object) => Ok(Statement::Declare(*object)),
    }
}
