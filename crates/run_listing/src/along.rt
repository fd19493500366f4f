// What a listing has from one place on.
ghost use Rattle.std.specs.Prelude.{◌≡◌, ◌≢◌, ◌+◌, ◌<◌, min, length, IfOk, IfSome, IfNone, if◌then◌else◌};
ghost use Rattle.c_typed.specs.declared.tree.Place.{Place as PlaceOf};
ghost use Rattle.c_typed.specs.Order.{has, is_number};
ghost use Rattle.seq_order.specs.Marked.{taken_in, done_in};
ghost use Rattle.run_layout.specs.declared.steps.Due.{Due as DueOf};
ghost use Rattle.run_listing.specs.Along.{part_of, events_of, Next, IsListed};

use c_typed::Place;
use run_layout::{Due, Listed};
use seq_order::{Done, Taken};
use std::alloc::Global;
use ub_base::NoMemory;

/// The entries of a listing from one place on up to another; beyond its end there are none.
pub fn part<'c, 'p>(listing: &'c [Listed<'p>], from: usize, to: usize) -> &'c [Listed<'p>]
    ensures { result.now ≡ part_of listing.now from to }
{
    if from >= to || from >= listing.len() {
        return &listing[..0];
    }
    if to >= listing.len() {
        return &listing[from..];
    }
    &listing[from..to]
}

// How many entries behind that of an operand are passed over: none where the node chose it.
fn skipped(taken: &Taken, node: u32, operand: u32, count: usize) -> usize
    ensures { result ≡ (if is_number (taken_in taken.now node) operand then 0 else count) }
{
    match taken.chosen(node) {
        Some(chosen) if chosen == operand => 0,
        _ => count,
    }
}

/// The first event of these entries by the operands that are chosen, and how many entries stand before it. It costs a look at
/// each operand before it: what isn't chosen is passed over at once.
#[inline(always)]
pub fn next<'c, 'p>(entries: &'c [Listed<'p>], taken: &Taken) -> Option<(usize, &'c Due<'p>)>
    ensures { Next (taken_in taken.now) entries.now result }
{
    let mut at: usize = 0;
    while let Some(entry) = entries.get(at) {
        match entry {
            Listed::Event(due) => return Some((at, due)),
            Listed::Operand {
                node,
                operand,
                count,
            } => at = behind_operand(entries, at, skipped(taken, *node, *operand, *count)),
        }
    }
    None
}

// Where the entries go on behind that of an operand and so many more.
fn behind_operand(entries: &[Listed], at: usize, skip: usize) -> usize
    requires within { at < length entries.now }
    ensures { result ≡ min (at + 1 + skip) (length entries.now) }
{
    (at + 1).saturating_add(skip).min(entries.len())
}

/// All events of these entries by the operands that are chosen.
pub fn passed(alloc: Global, entries: &[Listed], taken: &Taken) -> Result<Done, NoMemory>
    ensures { IfOk result (λ done. (p : PlaceOf) → done_in done p ≡ has (events_of (taken_in taken.now) entries.now) p) }
{
    let mut done = Done::new(alloc);
    let mut rest = entries;
    while let Some((at, due)) = next(rest, taken) {
        done.add(due.place)?;
        rest = behind(rest, at);
    }
    Ok(done)
}

// The entries behind this one.
pub fn behind<'c, 'p>(entries: &'c [Listed<'p>], at: usize) -> &'c [Listed<'p>]
    requires within { at < length entries.now }
    ensures { result.now ≡ part_of entries.now (at + 1) (length entries.now) }
{
    part(entries, at + 1, entries.len())
}

/// The entry of this event. It costs a look at each entry.
pub fn due_of<'c, 'p>(entries: &'c [Listed<'p>], place: Place) -> Option<&'c Due<'p>>
    ensures place { IfSome result (λ due. due.now.place ≡ place) }
    ensures listed { IfSome result (λ due. IsListed entries.now due.now) }
    ensures none { IfNone result ((due : DueOf) → IsListed entries.now due → due.place ≢ place) }
{
    for entry in entries {
        if let Listed::Event(due) = entry {
            if due.place == place {
                return Some(due);
            }
        }
    }
    None
}
