// What numbers stand for.
ghost use Rattle.std.specs.Prelude.{◌≡◌, [], ◌++◌, length, map, IfOk, OnOk};
ghost use Rattle.elaborate.specs.Expressions.{own_trees, full_trees, option_trees};
ghost use Rattle.run_statements.specs.Bodies.{Grows, IsRoot, IsRootIf, IsSwitch};

use c_typed::{Body, Node, Typed};
use std::alloc::Global;
use ub_base::NoMemory;

/// What the numbers of a program stand for: its full expressions, each followed by the own trees of the isolated initializers
/// in it, and the bodies of its `switch` statements.
#[derive(Drop)]
pub struct Numbers<'p> {
    pub roots: Vec<&'p Typed>,
    pub switches: Vec<&'p Body>,
}

impl<'p> Numbers<'p> {
    /// No number is given.
    pub fn new(alloc: Global) -> Numbers<'p>
        ensures roots { result.roots.items ≡ [] }
        ensures switches { result.switches.items ≡ [] }
    {
        Numbers {
            roots: Vec::new(alloc),
            switches: Vec::new(alloc),
        }
    }
}

// The number of what comes next in a table.
fn next_number<T>(items: &Vec<T>) -> Result<u32, NoMemory>
    ensures { IfOk result (λ n. n ≡ length items.now.items) }
{
    match u32::try_from(items.len()) {
        Ok(number) => Ok(number),
        Err(_) => Err(NoMemory),
    }
}

// The number of a full expression; behind it come the own trees of the isolated initializers in it.
pub fn full<'p>(root: &'p Typed, numbers: &mut Numbers<'p>) -> Result<u32, NoMemory>
    ensures grows { OnOk result (Grows numbers.old numbers.new) }
    ensures order { OnOk result (map (λ t. t.now) numbers.new.roots.items ≡ map (λ t. t.now) numbers.old.roots.items ++ full_trees root.now) }
    ensures number { IfOk result (λ n. IsRoot numbers.new root.now n) }
{
    let number = next_number(&numbers.roots)?;
    numbers.roots.push(root)?;
    isolated(root, numbers)?;
    Ok(number)
}

fn isolated<'p>(root: &'p Typed, numbers: &mut Numbers<'p>) -> Result<(), NoMemory>
    ensures grows { OnOk result (Grows numbers.old numbers.new) }
    ensures order { OnOk result (map (λ t. t.now) numbers.new.roots.items ≡ map (λ t. t.now) numbers.old.roots.items ++ own_trees root.now) }
{
    if let Node::Isolated(tree) = &root.node {
        let tree = tree.get();
        numbers.roots.push(tree)?;
        isolated(tree, numbers)?;
    }
    for operand in root.children.as_slice() {
        isolated(operand, numbers)?;
    }
    Ok(())
}

pub fn optional<'p>(
    root: &'p Option<Typed>,
    numbers: &mut Numbers<'p>,
) -> Result<Option<u32>, NoMemory>
    ensures grows { OnOk result (Grows numbers.old numbers.new) }
    ensures order { OnOk result (map (λ t. t.now) numbers.new.roots.items ≡ map (λ t. t.now) numbers.old.roots.items ++ option_trees root.now) }
    ensures number { IfOk result (λ n. IsRootIf numbers.new root.now n) }
{
    match root {
        Some(root) => Ok(Some(full(root, numbers)?)),
        None => Ok(None),
    }
}

// The number of the `switch` with this body.
pub fn switch_number<'p>(body: &'p Body, numbers: &mut Numbers<'p>) -> Result<u32, NoMemory>
    ensures grows { OnOk result (Grows numbers.old numbers.new) }
    ensures roots { OnOk result (numbers.new.roots.items ≡ numbers.old.roots.items) }
    ensures number { IfOk result (λ n. IsSwitch numbers.new body.now n) }
{
    let number = next_number(&numbers.switches)?;
    numbers.switches.push(body)?;
    Ok(number)
}
