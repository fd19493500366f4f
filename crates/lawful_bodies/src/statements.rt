// The statements of a function (6.8.1 to 6.8.6).
ghost use Rattle.std.specs.Prelude.{◌<◌, OnOk};
ghost use Rattle.std.specs.List.{All};
ghost use Rattle.c_typed.specs.Sites.{summary, switched};
ghost use Rattle.lawful_bodies.specs.Statements.{block_found, start_found, entry_found, Follows};

use crate::found::{
    Found, Inside, add_case, add_default, add_jump, add_label, begin_block, begin_switch,
    end_switch,
};
use crate::stop::{Stop, must};
use c_typed::{Block, Body, Entry, ForStart};
use c_types::Tags;

const IN_LOOP: Inside = Inside {
    breaks: true,
    continues: true,
};

/// Goes on only where what the statement holds is lawful behind what was found.
#[cycle(statement)]
pub(crate) fn statement(
    tags: &Tags,
    found: &mut Found,
    body: &Body,
    inside: Inside,
) -> Result<(), Stop>
    ensures { OnOk result (Follows tags.now inside found.old (summary body.now) found.new) }
{
    match body {
        Body::Simple(_) | Body::Return(_) => Ok(()),
        Body::Block(block) => block_items(tags, found, block, inside),
        Body::If(_, yes, no) => {
            statement(tags, found, yes.get(), inside)?;
            match no {
                None => Ok(()),
                Some(no) => statement(tags, found, no.get(), inside),
            }
        }
        Body::Switch(_, body) => switch(tags, found, body.get(), inside),
        Body::While(_, body) | Body::Do(body, _) => statement(tags, found, body.get(), IN_LOOP),
        Body::For { start, body, .. } => {
            loop_start(tags, found, start, inside)?;
            statement(tags, found, body.get(), IN_LOOP)
        }
        Body::Goto(label) => add_jump(found, *label),
        Body::Continue => must(inside.continues),
        Body::Break => must(inside.breaks),
        Body::Label(label, body) => {
            add_label(found, *label)?;
            statement(tags, found, body.get(), inside)
        }
        Body::Case(value, body) => {
            add_case(found, value)?;
            statement(tags, found, body.get(), inside)
        }
        Body::Default(body) => {
            add_default(found)?;
            statement(tags, found, body.get(), inside)
        }
    }
}

#[cycle(statement)]
fn switch(tags: &Tags, found: &mut Found, body: &Body, inside: Inside) -> Result<(), Stop>
    ensures { OnOk result (Follows tags.now inside found.old (switched (summary body.now)) found.new) }
{
    let outer = begin_switch(found);
    let within = Inside {
        breaks: true,
        continues: inside.continues,
    };
    statement(tags, found, body, within)?;
    end_switch(found, outer)
}

#[cycle(statement)]
fn loop_start(tags: &Tags, found: &mut Found, start: &ForStart, inside: Inside) -> Result<(), Stop>
    ensures { OnOk result (Follows tags.now inside found.old (start_found start.now) found.new) }
{
    match start {
        ForStart::Empty | ForStart::Value(_) => Ok(()),
        ForStart::Declared(block) => block_items(tags, found, block, inside),
    }
}

#[cycle(statement)]
fn block_items(tags: &Tags, found: &mut Found, block: &Block, inside: Inside) -> Result<(), Stop>
    ensures { OnOk result (Follows tags.now inside found.old (block_found block.now) found.new) }
{
    begin_block(found, tags, block.number, block.objects.as_slice())?;
    let objects = block.objects.len();
    for entry in block.entries.as_slice() {
        block_item(tags, found, entry, objects, inside)?;
    }
    Ok(())
}

/// An entry of a block with so many objects.
#[cycle(statement)]
fn block_item(
    tags: &Tags,
    found: &mut Found,
    entry: &Entry,
    objects: usize,
    inside: Inside,
) -> Result<(), Stop>
    ensures found { OnOk result (Follows tags.now inside found.old (entry_found entry.now).0 found.new) }
    ensures declared { OnOk result (All (λ decl. decl < objects) (entry_found entry.now).1) }
{
    match entry {
        Entry::Statement(body) => statement(tags, found, body, inside),
        Entry::Initializer(_) => Ok(()),
        Entry::Declare(decl) => must((*decl as usize) < objects),
    }
}
