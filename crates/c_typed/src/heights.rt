//! How high typed trees and statements stand.

ghost use Rattle.std.specs.Prelude.{◌≡◌, ◌-◌, ◌^◌, min};
ghost use Rattle.c_typed.specs.Height.{tree_height, option_height, body_height, start_height, block_height, entry_height, function_height, program_height};
ghost use Rattle.c_typed.specs.Height.{height_at};

use crate::{Block, Body, Entry, ForStart, Function, Node, Program, Typed};

/// The nodes on the longest way down a tree; the greatest number of the type stands for more.
pub fn tree_height(tree: &Typed) -> u32
    ensures { result ≡ min (tree_height tree.now) (2 ^ 32 - 1) }
{
    let mut most = match &tree.node {
        Node::Isolated(inner) => tree_height(inner.get()),
        _ => 0,
    };
    for child in tree.children.as_slice() {
        most = most.max(tree_height(child));
    }
    most.saturating_add(1)
}

/// The height of a tree that may be left out.
fn option_height(tree: &Option<Typed>) -> u32
    ensures { result ≡ min (option_height tree.now) (2 ^ 32 - 1) }
{
    match tree {
        Some(tree) => tree_height(tree),
        None => 0,
    }
}

/// The nodes on the longest way from the statement down, statements counted; the greatest number of the type stands for
/// more.
#[cycle(body_height)]
pub fn body_height(body: &Body) -> u32
    ensures { result ≡ min (body_height body.now) (2 ^ 32 - 1) }
{
    match body {
        Body::Simple(tree) => option_height(tree).saturating_add(1),
        Body::Block(block) => block_height(block).saturating_add(1),
        Body::If(test, yes, None) => {
            tree_height(test)
                .max(body_height(yes.get()))
                .saturating_add(1)
        }
        Body::If(test, yes, Some(no)) => tree_height(test)
            .max(body_height(yes.get()).max(body_height(no.get())))
            .saturating_add(1),
        Body::Switch(test, body) => {
            tree_height(test)
                .max(body_height(body.get()))
                .saturating_add(1)
        }
        Body::While(test, body) => {
            tree_height(test)
                .max(body_height(body.get()))
                .saturating_add(1)
        }
        Body::Do(body, test) => tree_height(test)
            .max(body_height(body.get()))
            .saturating_add(1),
        Body::For {
            start,
            test,
            step,
            body,
        } => start_height(start)
            .max(option_height(test).max(option_height(step).max(body_height(body.get()))))
            .saturating_add(1),
        Body::Goto(_) | Body::Continue | Body::Break => 1,
        Body::Return(tree) => option_height(tree).saturating_add(1),
        Body::Label(_, body) => body_height(body.get()).saturating_add(1),
        Body::Case(_, body) => body_height(body.get()).saturating_add(1),
        Body::Default(body) => body_height(body.get()).saturating_add(1),
    }
}

#[cycle(body_height)]
fn start_height(start: &ForStart) -> u32
    ensures { result ≡ min (start_height start.now) (2 ^ 32 - 1) }
{
    match start {
        ForStart::Empty => 0,
        ForStart::Value(tree) => tree_height(tree),
        ForStart::Declared(block) => block_height(block),
    }
}

#[cycle(body_height)]
fn block_height(block: &Block) -> u32
    ensures { result ≡ min (block_height block.now) (2 ^ 32 - 1) }
{
    let mut most = 0;
    for entry in block.entries.as_slice() {
        most = most.max(entry_height(entry));
    }
    most
}

#[cycle(body_height)]
fn entry_height(entry: &Entry) -> u32
    ensures { result ≡ min (entry_height entry.now) (2 ^ 32 - 1) }
{
    match entry {
        Entry::Statement(body) => body_height(body),
        Entry::Initializer(tree) => tree_height(tree),
        Entry::Declare(_) => 0,
    }
}

/// The height of a function's body, 0 where it has none.
fn function_height(function: &Function) -> u32
    ensures { result ≡ min (function_height function.now) (2 ^ 32 - 1) }
{
    match &function.body {
        Some(body) => body_height(body),
        None => 0,
    }
}

/// The greatest height of a body, 0 where there is none.
pub fn height(p: &Program) -> u32
    ensures { result ≡ min (program_height p.now) (2 ^ 32 - 1) }
{
    let mut most = 0;
    for function in p.functions.as_slice() {
        most = most.max(function_height(function));
    }
    most
}

/// The height of the function of this number, 0 where it has no body.
pub fn height_of(p: &Program, function: u32) -> u32
    ensures { result ≡ min (height_at p.now function) (2 ^ 32 - 1) }
{
    match p.functions.get(function as usize) {
        Some(function) => function_height(function),
        None => 0,
    }
}
