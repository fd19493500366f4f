//! The work round the targets of jumps.

ghost use Rattle.std.specs.Prelude.{◌≡◌, ◌++◌, reverse, OnOk};
ghost use Rattle.run_control.specs.Links.{path, work_from};

use crate::{Statement, Work};
use ub_base::NoMemory;

/// A piece of work round targets, and the number of the one round it. Links are numbered from 1; 0 is none.
#[derive(Clone, Copy)]
pub struct Link<'p> {
    pub work: Work<'p>,
    pub outer: usize,
}

/// A target: the statement that is labelled, and the number of the link round it.
#[derive(Clone, Copy)]
pub struct Place<'p> {
    pub statement: &'p Statement,
    pub round: usize,
}

/// The work from a target on, what comes first first.
pub fn gather<'p>(
    links: &[Link<'p>],
    target: Place<'p>,
    found: &mut Vec<Work<'p>>,
) -> Result<(), NoMemory>
    ensures { OnOk result (found.new.items ≡ work_from links.now target.entry) }
{
    found.clear();
    found.push(Work::ToDo(target.statement))?;
    outwards(links, target.round, found)
}

// The work of a link and of those round it, behind what was found.
fn outwards<'p>(links: &[Link<'p>], round: usize, found: &mut Vec<Work<'p>>) -> Result<(), NoMemory>
    ensures { OnOk result (found.new.items ≡ found.old.items ++ path (reverse links.now) round) }
{
    let mut at = round;
    while at > 0 {
        let Some(link) = links.get(at - 1) else {
            return Ok(());
        };
        found.push(link.work)?;
        if link.outer >= at {
            return Ok(());
        }
        at = link.outer;
    }
    Ok(())
}
