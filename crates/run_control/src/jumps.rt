//! `goto`, and the move of a `switch` to its case.

ghost use Rattle.std.specs.Prelude.{◌≡◌, [], ◌++◌, map, reverse, OnOk, Some};
ghost use Rattle.c_model.specs.Control.{unshared, gone_to, moved_in};
ghost use Rattle.run_control.specs.declared.work.Work.TheVariants as work;
ghost use Rattle.run_control.specs.View.{Meaning, todo_of};
ghost use Rattle.run_control.specs.Links.{blocks_in, outwards_in, work_from};

use crate::links::gather;
use crate::moves::put_back;
use crate::{Block, Link, Place, Stack, Work};
use std::alloc::Global;
use ub_base::NoMemory;

/// Room for what jumps gather, which is kept from one to the next.
#[derive(Drop)]
pub struct Room<'p> {
    found: Vec<Work<'p>>,
    left: Vec<&'p Block>,
    entered: Vec<&'p Block>,
}

impl<'p> Room<'p> {
    pub fn new(alloc: Global) -> Room<'p> {
        Room {
            found: Vec::new(alloc),
            left: Vec::new(alloc),
            entered: Vec::new(alloc),
        }
    }
}

// Takes all off; gives the blocks that were to be left, innermost first.
fn empty<'p>(stack: &mut Stack<'p>, blocks: &mut Vec<&'p Block>) -> Result<(), NoMemory>
    ensures below { OnOk result (stack.new.below ≡ stack.old.below) }
    ensures now { OnOk result (stack.new.now ≡ []) }
    ensures blocks { OnOk result (blocks.new.items ≡ blocks_in stack.old.now) }
{
    blocks.clear();
    while let Some(work) = stack.pop() {
        if let Work::Leave(block) = work {
            blocks.push(block)?;
        }
    }
    Ok(())
}

// The blocks that are left in this work, innermost first.
fn blocks_of<'p>(works: &[Work<'p>], blocks: &mut Vec<&'p Block>) -> Result<(), NoMemory>
    ensures { OnOk result (blocks.new.items ≡ blocks_in works.now) }
{
    blocks.clear();
    for work in works {
        if let Work::Leave(block) = work {
            blocks.push(*block)?;
        }
    }
    Ok(())
}

// Blocks round both places, from the outermost on, are taken off.
fn unshare<'p>(left: &mut Vec<&'p Block>, entered: &mut Vec<&'p Block>) -> Result<(), NoMemory>
    ensures left { OnOk result ((m : Meaning) → outwards_in m left.new.items ≡ unshared (outwards_in m left.old.items) (outwards_in m entered.old.items)) }
    ensures entered { OnOk result ((m : Meaning) → outwards_in m entered.new.items
        ≡ unshared (outwards_in m entered.old.items) (outwards_in m left.old.items)) }
{
    while let Some(a) = left.pop() {
        match entered.pop() {
            None => {
                left.push(a)?;
                return Ok(());
            }
            Some(b) => {
                if a.number != b.number {
                    left.push(a)?;
                    entered.push(b)?;
                    return Ok(());
                }
            }
        }
    }
    Ok(())
}

// The blocks, innermost first, are to be entered from the outermost on.
fn enter_all<'p>(stack: &mut Stack<'p>, blocks: &[&'p Block]) -> Result<(), NoMemory>
    ensures below { OnOk result (stack.new.below ≡ stack.old.below) }
    ensures now { OnOk result (stack.new.now ≡ map work.Enter (reverse blocks.now) ++ stack.old.now) }
{
    for block in blocks {
        stack.push(Work::Enter(*block))?;
    }
    Ok(())
}

// And these to be left from the innermost on.
fn leave_all<'p>(stack: &mut Stack<'p>, blocks: &mut Vec<&'p Block>) -> Result<(), NoMemory>
    ensures below { OnOk result (stack.new.below ≡ stack.old.below) }
    ensures now { OnOk result (stack.new.now ≡ map work.Leave blocks.old.items ++ stack.old.now) }
{
    while let Some(block) = blocks.pop() {
        stack.push(Work::Leave(block))?;
    }
    Ok(())
}

/// Goes to a label.
pub fn go_to<'p>(
    stack: &mut Stack<'p>,
    room: &mut Room<'p>,
    links: &[Link<'p>],
    target: Place<'p>,
) -> Result<(), NoMemory>
    ensures below { OnOk result (stack.new.below ≡ stack.old.below) }
    ensures now { OnOk result ((m : Meaning) → todo_of m stack.new.now ≡ gone_to (todo_of m stack.old.now) (Some (todo_of m (work_from links.now
        target.entry)))) }
{
    empty(stack, &mut room.left)?;
    gather(links, target, &mut room.found)?;
    blocks_of(&room.found, &mut room.entered)?;
    unshare(&mut room.left, &mut room.entered)?;
    put_back(stack, &mut room.found)?;
    enter_all(stack, &room.entered)?;
    leave_all(stack, &mut room.left)
}

/// Goes into a statement, to a target in it, before the work round the statement.
pub fn go_in<'p>(
    stack: &mut Stack<'p>,
    room: &mut Room<'p>,
    links: &[Link<'p>],
    target: Place<'p>,
) -> Result<(), NoMemory>
    ensures below { OnOk result (stack.new.below ≡ stack.old.below) }
    ensures now { OnOk result ((m : Meaning) → todo_of m stack.new.now ≡ moved_in (Some (todo_of m (work_from links.now target.entry))) (todo_of m
        stack.old.now)) }
{
    gather(links, target, &mut room.found)?;
    blocks_of(&room.found, &mut room.entered)?;
    put_back(stack, &mut room.found)?;
    enter_all(stack, &room.entered)
}
