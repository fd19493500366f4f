// The full expressions of a function and of a program, in the order of the text.
ghost use Rattle.std.specs.Prelude.{◌≡◌, ◌++◌, map, IfOk, OnOk};
ghost use Rattle.elaborate.specs.Expressions.{own_trees, full_trees, option_trees, body_trees, block_trees, function_trees, program_trees};
ghost use Rattle.elaborate.specs.Roots.{trees_at};

use c_typed::{Block, Body, Entry, ForStart, Function, Node, Program, Typed};
use std::alloc::Global;
use ub_base::NoMemory;

/// The roots of a program's full expressions, in the order of their terms.
pub fn roots_of<'p>(alloc: Global, p: &'p Program) -> Result<Vec<&'p Typed>, NoMemory>
    ensures { IfOk result (λ roots. trees_at roots.items ≡ program_trees p.now) }
{
    let mut roots = Vec::new(alloc);
    for function in p.functions.as_slice() {
        defined(function, &mut roots)?;
    }
    Ok(roots)
}

/// The full expressions of a function, in the order of the text; the own tree of a listed initializer follows the expression
/// that holds it.
pub fn expressions_of<'p>(alloc: Global, function: &'p Function) -> Result<Vec<&'p Typed>, NoMemory>
    ensures { IfOk result (λ roots. map (λ tree. tree.now) roots.items ≡ function_trees function.now) }
{
    let mut roots = Vec::new(alloc);
    defined(function, &mut roots)?;
    Ok(roots)
}

fn defined<'p>(function: &'p Function, roots: &mut Vec<&'p Typed>) -> Result<(), NoMemory>
    ensures { OnOk result (map (λ tree. tree.now) roots.new.items ≡ map (λ tree. tree.now) roots.old.items ++ function_trees function.now) }
{
    match &function.body {
        Some(body) => statement(body, roots),
        None => Ok(()),
    }
}

// A full expression, and then the trees of the isolated initializers in it.
fn full<'p>(root: &'p Typed, roots: &mut Vec<&'p Typed>) -> Result<(), NoMemory>
    ensures { OnOk result (map (λ tree. tree.now) roots.new.items ≡ map (λ tree. tree.now) roots.old.items ++ full_trees root.now) }
{
    roots.push(root)?;
    isolated(root, roots)
}

fn isolated<'p>(root: &'p Typed, roots: &mut Vec<&'p Typed>) -> Result<(), NoMemory>
    ensures { OnOk result (map (λ tree. tree.now) roots.new.items ≡ map (λ tree. tree.now) roots.old.items ++ own_trees root.now) }
{
    if let Node::Isolated(tree) = &root.node {
        let tree = tree.get();
        roots.push(tree)?;
        isolated(tree, roots)?;
    }
    for operand in root.children.as_slice() {
        isolated(operand, roots)?;
    }
    Ok(())
}

fn optional<'p>(root: &'p Option<Typed>, roots: &mut Vec<&'p Typed>) -> Result<(), NoMemory>
    ensures { OnOk result (map (λ tree. tree.now) roots.new.items ≡ map (λ tree. tree.now) roots.old.items ++ option_trees root.now) }
{
    match root {
        Some(root) => full(root, roots),
        None => Ok(()),
    }
}

#[cycle(statement)]
fn statement<'p>(body: &'p Body, roots: &mut Vec<&'p Typed>) -> Result<(), NoMemory>
    ensures { OnOk result (map (λ tree. tree.now) roots.new.items ≡ map (λ tree. tree.now) roots.old.items ++ body_trees body.now) }
{
    match body {
        Body::Simple(root) | Body::Return(root) => optional(root, roots),
        Body::Block(inner) => block(inner, roots),
        Body::If(test, yes, no) => {
            full(test, roots)?;
            statement(yes.get(), roots)?;
            match no {
                Some(no) => statement(no.get(), roots),
                None => Ok(()),
            }
        }
        Body::Switch(test, inner) | Body::While(test, inner) => {
            full(test, roots)?;
            statement(inner.get(), roots)
        }
        Body::Do(inner, test) => {
            statement(inner.get(), roots)?;
            full(test, roots)
        }
        Body::For {
            start,
            test,
            step,
            body,
        } => {
            match start {
                ForStart::Empty => {}
                ForStart::Value(root) => full(root, roots)?,
                ForStart::Declared(inner) => block(inner, roots)?,
            }
            optional(test, roots)?;
            optional(step, roots)?;
            statement(body.get(), roots)
        }
        Body::Goto(_) | Body::Continue | Body::Break => Ok(()),
        Body::Label(_, inner) | Body::Case(_, inner) | Body::Default(inner) => {
            statement(inner.get(), roots)
        }
    }
}

#[cycle(statement)]
fn block<'p>(block: &'p Block, roots: &mut Vec<&'p Typed>) -> Result<(), NoMemory>
    ensures { OnOk result (map (λ tree. tree.now) roots.new.items ≡ map (λ tree. tree.now) roots.old.items ++ block_trees block.now) }
{
    for entry in block.entries.as_slice() {
        match entry {
            Entry::Statement(inner) => statement(inner, roots)?,
            Entry::Initializer(root) => full(root, roots)?,
            Entry::Declare(_) => {}
        }
    }
    Ok(())
}
