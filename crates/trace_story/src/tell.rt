// The entries of one pick.
ghost use Rattle.std.specs.Prelude.{◌≡◌, ◌<◌, ◌-◌, ◌^◌, map, IfOk};
ghost use Rattle.core_run.specs.Calls.{picked};
ghost use Rattle.trace_story.specs.Stories.{mark_of, mark_at, marks_in};

use crate::entry::Entry;
use crate::line::line_at;
use crate::told::{Sought, told_in};
use core_run::View;
use std::alloc::Global;
use ub_base::{Event, Frames, Item, NoMemory};

/// An entry for each of these items of one pick.
fn entries_of(
    alloc: Global,
    pick: u64,
    event: Option<Event>,
    line: u32,
    told: &[Item],
) -> Result<Vec<Entry>, NoMemory>
    ensures { IfOk result (λ v. map mark_of v.items ≡ map (mark_at pick event) told.now) }
{
    let mut entries = Vec::new(alloc);
    for item in told {
        entries.push(Entry {
            pick,
            event,
            line,
            item: *item,
        })?;
    }
    Ok(entries)
}

/// What a pick with these items, before which so many were told, tells of the object, where there is one.
pub fn entries_at(
    alloc: Global,
    frames: &Frames,
    sought: Option<Sought>,
    picks: u64,
    v: &View,
    event: Option<Event>,
    items: &[Item],
) -> Result<Vec<Entry>, NoMemory>
    requires { picks < 2 ^ 64 - 1 }
    ensures { IfOk result (λ es. map mark_of es.items ≡ marks_in frames.now sought picks (picked event items.now)) }
{
    let Some(sought) = sought else {
        return Ok(Vec::new(alloc));
    };
    let told = told_in(alloc, frames, &sought, items)?;
    let line = if told.len() > 0 { line_at(v, event) } else { 0 };
    entries_of(alloc, picks + 1, event, line, told.as_slice())
}
