// The verdicts on all full expressions of a program.
ghost use Rattle.std.specs.Prelude.{◌≡◌, ◌++◌, IfOk, OnOk};
ghost use Rattle.std.specs.List.{All};
ghost use Rattle.static_places.specs.Preorder.{trees_at};
ghost use Rattle.static_seq.specs.Choices.{Lists};
ghost use Rattle.static_seq.specs.Parted.{first_beside, first_pair, unparted};
ghost use Rattle.static_seq.specs.Verdicts.{Counts, ProgramCounts, FunctionCounts, verdict_of, verdicts_from, verdicts};
ghost use Rattle.elaborate.specs.Expressions.{function_trees};

use crate::accesses::{accesses_of, some_writes};
use crate::parting::parted;
use crate::{Accessed, MemoryAccess, Verdict, Verdicts};
use c_typed::{Function, Program, Typed};
use elaborate::expressions_of;
use static_places::nodes_of;
use std::alloc::Global;
use ub_base::NoMemory;

/// A verdict on each full expression of the program, by function and number: its least pair of accesses, by node and then
/// `val`, `eff`, of which nothing shows that they never race. Of an expression without writes it costs the number of its
/// nodes; otherwise that of its pairs of accesses, each pair with a write whose places tell nothing at a walk over the tree.
pub fn examine(alloc: Global, p: &Program) -> Result<Verdicts, NoMemory>
    ensures { ProgramCounts p.now → IfOk result (λ said. said ≡ verdicts p.now) }
{
    let mut said = Verdicts::new(alloc);
    let mut number = 0u32;
    for function in p.functions.as_slice() {
        add_function(alloc, p, number, function, &mut said)?;
        number = number.saturating_add(1);
    }
    Ok(said)
}

/// Adds the verdicts on the full expressions of one function.
fn add_function(
    alloc: Global,
    p: &Program,
    number: u32,
    function: &Function,
    said: &mut Verdicts,
) -> Result<(), NoMemory>
    ensures { FunctionCounts function.now → OnOk result (said.new ≡ said.old ++ verdicts_from p.now number 0 (function_trees function.now)) }
{
    let roots = expressions_of(alloc, function)?;
    add_verdicts(alloc, p, number, &roots, said)
}

fn add_verdicts(
    alloc: Global,
    p: &Program,
    function: u32,
    roots: &[&Typed],
    said: &mut Verdicts,
) -> Result<(), NoMemory>
    ensures { All Counts (trees_at roots.now) → OnOk result (said.new ≡ said.old ++ verdicts_from p.now function 0 (trees_at roots.now)) }
{
    let mut expression = 0u32;
    for root in roots {
        let verdict = verdict_of(alloc, p, function, expression, root)?;
        said.push(verdict)?;
        expression = expression.saturating_add(1);
    }
    Ok(())
}

fn verdict_of(
    alloc: Global,
    p: &Program,
    function: u32,
    expression: u32,
    root: &Typed,
) -> Result<Verdict, NoMemory>
    ensures { Counts root.now → IfOk result (λ verdict. verdict ≡ verdict_of p.now function expression root.now) }
{
    let unparted = unparted(alloc, p, function, root)?;
    Ok(Verdict {
        function,
        expression,
        line: root.line,
        unparted,
    })
}

/// The least pair of accesses of a full expression that isn't parted.
fn unparted(
    alloc: Global,
    p: &Program,
    function: u32,
    root: &Typed,
) -> Result<Option<(Accessed, Accessed)>, NoMemory>
    ensures { Counts root.now → IfOk result (λ pair. pair ≡ unparted p.now function root.now) }
{
    let nodes = nodes_of(alloc, root)?;
    let accesses = accesses_of(alloc, p, function, &nodes)?;
    if !some_writes(&accesses) {
        return Ok(None);
    }
    first_pair(alloc, p, function, root, &nodes, &accesses)
}

/// The least pair of these accesses that isn't parted.
fn first_pair(
    alloc: Global,
    p: &Program,
    function: u32,
    root: &Typed,
    nodes: &[&Typed],
    accesses: &[MemoryAccess],
) -> Result<Option<(Accessed, Accessed)>, NoMemory>
    ensures { Lists nodes.now root.now → IfOk result (λ pair. pair ≡ first_pair p.now function root.now accesses.now) }
{
    for (i, a) in accesses.iter().enumerate() {
        let rest = &accesses[i + 1..];
        if let Some(b) = first_beside(alloc, p, function, root, nodes, a, rest)? {
            return Ok(Some((a.at, b)));
        }
    }
    Ok(None)
}

/// The first of these accesses that isn't parted from the access.
fn first_beside(
    alloc: Global,
    p: &Program,
    function: u32,
    root: &Typed,
    nodes: &[&Typed],
    a: &MemoryAccess,
    rest: &[MemoryAccess],
) -> Result<Option<Accessed>, NoMemory>
    ensures { Lists nodes.now root.now → IfOk result (λ first. first ≡ first_beside p.now function root.now a.now rest.now) }
{
    for b in rest {
        if !parted(alloc, p, function, root, nodes, a, b)? {
            return Ok(Some(b.at));
        }
    }
    Ok(None)
}
