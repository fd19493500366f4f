// The full expressions of a function, each with the blocks round it (6.8p4).
ghost use Rattle.std.specs.Prelude.{◌≡◌, OnOk, take, length, map};
ghost use Rattle.c_types.specs.Types.{signature_of, qualified_of};
ghost use Rattle.c_typed.specs.declared.statement.Block.{out-Block};
ghost use Rattle.c_typed.specs.Sites.{one, perhaps, inside};
ghost use Rattle.lawful_trees.specs.Places.{use_of};
ghost use Rattle.lawful_bodies.specs.Full.{in_body, in_start, in_block, in_entry, blocks_at, Passes, Opens};

use crate::stop::{Stop, must};
use c_typed::{Block, Body, Entry, ForStart, Program, Typed};
use c_types::FuncTy;
use lawful_trees::{Around, Purpose, is_lawful_expression};
use std::alloc::Global;

/// The blocks round a place, the innermost last, and how many full expressions stand before it.
#[derive(Drop)]
pub(crate) struct Place<'a> {
    pub alloc: Global,
    pub around: Vec<Around<'a>>,
    pub count: u32,
}

fn full(
    program: &Program,
    owner: &FuncTy,
    place: &mut Place<'_>,
    tree: &Typed,
    purpose: Purpose,
) -> Result<(), Stop>
    ensures { OnOk result (Passes program.now (signature_of owner.now) place.old (one (use_of purpose) tree.now) place.new) }
{
    must(place.count < u32::MAX)?;
    let around = place.around.as_slice();
    must(is_lawful_expression(place.alloc, program, owner, around, tree, purpose)?)?;
    place.count += 1;
    Ok(())
}

fn perhaps_full(
    program: &Program,
    owner: &FuncTy,
    place: &mut Place<'_>,
    tree: &Option<Typed>,
    purpose: Purpose,
) -> Result<(), Stop>
    ensures { OnOk result (Passes program.now (signature_of owner.now) place.old (perhaps (use_of purpose) tree.now) place.new) }
{
    match tree {
        None => Ok(()),
        Some(tree) => full(program, owner, place, tree, purpose),
    }
}

fn open_block<'a>(place: &mut Place<'a>, block: &'a Block) -> Result<(), Stop>
    ensures kept { OnOk result (take (length place.old.around.items) place.new.around.items ≡ place.old.around.items) }
    ensures blocks { OnOk result (blocks_at place.new ≡ inside block.now.number (map qualified_of block.now.objects) (blocks_at place.old)) }
    ensures count { OnOk result (place.new.count ≡ place.old.count) }
{
    let number = block.number;
    let objects = block.objects.as_slice();
    match place.around.push(Around { number, objects }) {
        Ok(()) => Ok(()),
        Err(_) => Err(Stop::NoMemory),
    }
}

/// Leaves the blocks but for the outermost ones, so many.
fn close_blocks(place: &mut Place<'_>, outer: usize)
    ensures around { place.new.around.items ≡ take outer place.old.around.items }
    ensures count { place.new.count ≡ place.old.count }
{
    place.around.truncate(outer);
}

/// Goes on only where the full expressions of the statement are lawful.
#[cycle(body_trees)]
pub(crate) fn body_trees<'a>(
    body: &'a Body,
    place: &mut Place<'a>,
    program: &Program,
    owner: &FuncTy,
) -> Result<(), Stop>
    ensures { OnOk result (Passes program.now (signature_of owner.now) place.old (in_body body.now) place.new) }
{
    match body {
        Body::Simple(tree) => perhaps_full(program, owner, place, tree, Purpose::Unused),
        Body::Block(block) => {
            let outer = place.around.len();
            enter_block(block, place, program, owner)?;
            close_blocks(place, outer);
            Ok(())
        }
        Body::If(test, yes, no) => {
            full(program, owner, place, test, Purpose::Tested)?;
            body_trees(yes.get(), place, program, owner)?;
            match no {
                None => Ok(()),
                Some(no) => body_trees(no.get(), place, program, owner),
            }
        }
        Body::Switch(test, body) => {
            full(program, owner, place, test, Purpose::Selects)?;
            body_trees(body.get(), place, program, owner)
        }
        Body::While(test, body) => {
            full(program, owner, place, test, Purpose::Tested)?;
            body_trees(body.get(), place, program, owner)
        }
        Body::Do(body, test) => {
            body_trees(body.get(), place, program, owner)?;
            full(program, owner, place, test, Purpose::Tested)
        }
        Body::For {
            start,
            test,
            step,
            body,
        } => {
            let outer = place.around.len();
            start_trees(start, place, program, owner)?;
            perhaps_full(program, owner, place, test, Purpose::Tested)?;
            perhaps_full(program, owner, place, step, Purpose::Unused)?;
            body_trees(body.get(), place, program, owner)?;
            close_blocks(place, outer);
            Ok(())
        }
        Body::Return(tree) => perhaps_full(program, owner, place, tree, Purpose::Returned),
        Body::Label(_, body) | Body::Case(_, body) | Body::Default(body) => {
            body_trees(body.get(), place, program, owner)
        }
        Body::Goto(_) | Body::Continue | Body::Break => Ok(()),
    }
}

/// The first part of a `for`; a block that it declares stays open.
#[cycle(body_trees)]
fn start_trees<'a>(
    start: &'a ForStart,
    place: &mut Place<'a>,
    program: &Program,
    owner: &FuncTy,
) -> Result<(), Stop>
    ensures { OnOk result (Opens program.now (signature_of owner.now) place.old (in_start start.now) place.new) }
{
    match start {
        ForStart::Empty => Ok(()),
        ForStart::Value(tree) => full(program, owner, place, tree, Purpose::Unused),
        ForStart::Declared(block) => enter_block(block, place, program, owner),
    }
}

/// The entries of a block, which stays open.
#[cycle(body_trees)]
fn enter_block<'a>(
    block: &'a Block,
    place: &mut Place<'a>,
    program: &Program,
    owner: &FuncTy,
) -> Result<(), Stop>
    ensures { OnOk result (Opens program.now (signature_of owner.now) place.old (in_block block.now) place.new) }
{
    open_block(place, block)?;
    for entry in block.entries.as_slice() {
        entry_trees(entry, place, program, owner)?;
    }
    Ok(())
}

#[cycle(body_trees)]
fn entry_trees<'a>(
    entry: &'a Entry,
    place: &mut Place<'a>,
    program: &Program,
    owner: &FuncTy,
) -> Result<(), Stop>
    ensures { OnOk result (Passes program.now (signature_of owner.now) place.old (in_entry entry.now) place.new) }
{
    match entry {
        Entry::Statement(body) => body_trees(body, place, program, owner),
        Entry::Initializer(tree) => full(program, owner, place, tree, Purpose::Initializes),
        Entry::Declare(_) => Ok(()),
    }
}
