//! The targets of jumps in a statement.

ghost use Rattle.std.specs.Prelude.{◌≡◌, ◌≤◌, [], ◌∷◌, ◌++◌, drop, length, map, List, IfOk, OnOk};
ghost use Rattle.run_control.specs.declared.links.Link.{Link};
ghost use Rattle.run_control.specs.View.{Meaning, stmt_of, block_of};
ghost use Rattle.run_control.specs.Links.{work_at};
ghost use Rattle.run_control.specs.Search.{Finds, Older, is_target, looked};
ghost use Rattle.run_control.specs.Targets.{Adds, targets, all_targets, bodies, block_pairs, added, seen, target_of, InRange};

use crate::{Block, Link, Place, Statement, Work};
use std::alloc::Global;
use ub_base::NoMemory;

/// What a jump looks for.
#[derive(Clone, Copy)]
pub enum Target {
    Label(u32),
    Case(i128),
    Default,
}

/// A target, and where it stands.
#[derive(Clone, Copy)]
pub struct Found<'p> {
    pub target: Target,
    pub place: Place<'p>,
}

/// The targets in a body: its labels, or the cases of the `switch` that it is the body of. The links are shared.
pub fn targets_of<'p>(
    alloc: Global,
    links: &mut Vec<Link<'p>>,
    body: &'p Statement,
    labels: bool,
) -> Result<Vec<Found<'p>>, NoMemory>
    ensures finds { IfOk result (λ found. Finds links.new.items found.items body.now labels) }
    ensures range { IfOk result (λ found. InRange (length links.new.items) found.items) }
    ensures older { OnOk result (Older links.old.items links.new.items) }
    ensures longer { OnOk result (length links.old.items ≤ length links.new.items) }
{
    let mut found = Vec::new(alloc);
    visit(links, &mut found, body, 0, labels)?;
    Ok(found)
}

/// Where the target stands, if it is there.
pub fn find<'p>(found: &[Found<'p>], target: Target) -> Option<Place<'p>>
    ensures { (m : Meaning) (links : List Link) → work_at m links result ≡ looked (target_of target) (map (seen m links) found.now) }
{
    for one in found {
        if is_same(target, one.target) {
            return Some(one.place);
        }
    }
    None
}

fn is_same(a: Target, b: Target) -> bool
    ensures { result ≡ is_target (target_of a) (target_of b) }
{
    match (a, b) {
        (Target::Label(k), Target::Label(l)) => k == l,
        (Target::Case(y), Target::Case(z)) => y == z,
        (Target::Default, Target::Default) => true,
        _ => false,
    }
}

// One more link; gives its number.
fn link<'p>(links: &mut Vec<Link<'p>>, work: Work<'p>, outer: usize) -> Result<usize, NoMemory>
    ensures links { OnOk result (links.new.items ≡ links.old.items ++ record { work = work.entry; outer = outer } ∷ []) }
    ensures number { IfOk result (λ n. n ≡ length links.new.items) }
{
    links.push(Link { work, outer })?;
    Ok(links.len())
}

// Adds the targets in a statement, in the order of the text, with the link round it: the labels, those in a `switch` too,
// or the cases of the `switch` that it is the body of.
#[cycle(visit)]
fn visit<'p>(
    links: &mut Vec<Link<'p>>,
    found: &mut Vec<Found<'p>>,
    statement: &'p Statement,
    round: usize,
    labels: bool,
) -> Result<(), NoMemory>
    ensures { OnOk result (Adds links.old.items found.old.items links.new.items found.new.items round (λ m. targets labels (stmt_of m statement.now))
        (λ m. bodies m statement.now)) }
{
    match statement {
        Statement::Label(label, inner) => {
            add(found, labels, Target::Label(*label), inner.get(), round)?;
            visit(links, found, inner.get(), round, labels)
        }
        Statement::Case(value, inner) => {
            add_case(found, !labels, value, inner.get(), round)?;
            visit(links, found, inner.get(), round, labels)
        }
        Statement::Default(inner) => {
            add(found, !labels, Target::Default, inner.get(), round)?;
            visit(links, found, inner.get(), round, labels)
        }
        Statement::Block(block) => {
            let inner = link(links, Work::Leave(block), round)?;
            visit_all(links, found, block, inner, labels)
        }
        Statement::If(_, yes, no) => {
            visit(links, found, yes.get(), round, labels)?;
            visit(links, found, no.get(), round, labels)
        }
        Statement::IfOnly(_, yes) => visit(links, found, yes.get(), round, labels),
        Statement::Switch(switch) => {
            if labels {
                let inner = link(links, Work::BreakHere, round)?;
                visit(links, found, switch.body.get(), inner, labels)
            } else {
                Ok(())
            }
        }
        Statement::Do(again) => {
            let inner = link(links, Work::Again(again), round)?;
            visit(links, found, again.body.get(), inner, labels)
        }
        Statement::For(_, around) => {
            let inner = link(links, Work::Round(around), round)?;
            visit(links, found, around.body.get(), inner, labels)
        }
        Statement::Value(_)
        | Statement::Empty
        | Statement::Declare(_)
        | Statement::Goto(_)
        | Statement::Continue
        | Statement::Break
        | Statement::Return(_)
        | Statement::ReturnNone => Ok(()),
    }
}

// And of the statements of a block.
#[cycle(visit)]
fn visit_all<'p>(
    links: &mut Vec<Link<'p>>,
    found: &mut Vec<Found<'p>>,
    block: &'p Block,
    round: usize,
    labels: bool,
) -> Result<(), NoMemory>
    ensures { OnOk result (Adds links.old.items found.old.items links.new.items found.new.items round (λ m. all_targets labels (block_of m
        block.now).statements) (λ m. block_pairs m block.now)) }
{
    let mut rest = block.statements.as_slice();
    for statement in block.statements.as_slice() {
        rest = tail(rest);
        let inner = link(links, Work::Rest(rest), round)?;
        visit(links, found, statement, inner, labels)?;
    }
    Ok(())
}

fn tail(statements: &[Statement]) -> &[Statement]
    ensures { result.now ≡ drop 1 statements.now }
{
    match statements {
        [_, rest @ ..] => rest,
        [] => statements,
    }
}

// A target, if it is wanted.
fn add<'p>(
    found: &mut Vec<Found<'p>>,
    wanted: bool,
    target: Target,
    statement: &'p Statement,
    round: usize,
) -> Result<(), NoMemory>
    ensures { OnOk result (found.new.items ≡ added wanted found.old.items record {
      target = target;
      place = record {
        statement = statement.entry;
        round = round;
      };
    }) }
{
    if wanted {
        found.push(Found {
            target,
            place: Place { statement, round },
        })?;
    }
    Ok(())
}

fn add_case<'p>(
    found: &mut Vec<Found<'p>>,
    wanted: bool,
    value: &i128,
    statement: &'p Statement,
    round: usize,
) -> Result<(), NoMemory>
    ensures { OnOk result (found.new.items ≡ added wanted found.old.items record {
      target = Target.Case value.now;
      place = record {
        statement =
            statement.entry;
        round = round;
      };
    }) }
{
    let value = *value;
    add(found, wanted, Target::Case(value), statement, round)
}
