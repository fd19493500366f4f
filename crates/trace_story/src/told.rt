// The items of a pick that speak of an object, in order.
ghost use Rattle.std.specs.Prelude.{◌≡◌, ◌≤◌, ◌++◌, ◌∷◌, List, IfOk, if◌then◌else◌};
ghost use Rattle.ub_base.specs.declared.names.Item.{Item};
ghost use Rattle.trace_story.specs.Told.{end_of, by_range, hull, item_rank, range_of, address_of, event_of, meeting, joined, placed, left, is_told, is_at};
ghost use Rattle.trace_story.specs.Told.{told_in};

use addr_map::Row;
use c_names::cmp_events;
use std::alloc::Global;
use std::cmp::Ordering;
use ub_base::{Event, Frame, Frames, Item, Kind, NoMemory, ObjName};

/// The object of a story, and its place, where it has one.
#[derive(Clone, Copy)]
pub struct Sought {
    pub object: ObjName,
    pub row: Option<Row>,
}

/// So many bytes from one on.
type Range = (u64, u64);

/// The byte behind the last of a range.
fn end_of(range: Range) -> u64
    ensures value { result ≡ end_of range.0 range.1 }
    ensures behind { range.0 ≤ result }
{
    range.0.saturating_add(range.1)
}

/// A range before another with a gap, behind it with a gap, or touching it.
fn by_range(a: Range, b: Range) -> Ordering
    ensures { result ≡ by_range a.0 a.1 b.0 b.1 }
{
    if end_of(a) < b.0 {
        Ordering::Less
    } else if end_of(b) < a.0 {
        Ordering::Greater
    } else {
        Ordering::Equal
    }
}

/// The least range that has both.
fn hull(a: Range, b: Range) -> Range
    ensures { result ≡ hull a.0 a.1 b.0 b.1 }
{
    let from = a.0.min(b.0);
    let end = end_of(a).max(end_of(b));
    (from, end - from)
}

fn item_rank(item: &Item) -> u8
    ensures { result ≡ item_rank item.now }
{
    match item {
        Item::Read { .. } => 0,
        Item::Write { .. } => 1,
        Item::Born(_) => 2,
        Item::Dies(_) => 3,
        Item::Alive(_) => 4,
        Item::Expose(_) => 5,
        Item::Lookup(_) => 6,
        Item::Narrow { .. } => 7,
        Item::Input => 8,
        Item::Output => 9,
        Item::Ending => 10,
        Item::Any => 11,
    }
}

/// The bytes of an item; of one that accesses none the range is empty.
fn range_of(item: &Item) -> Range
    ensures { result ≡ range_of item.now }
{
    match *item {
        Item::Read { from, len, .. } => (from, len),
        Item::Write { from, len, .. } => (from, len),
        _ => (0, 0),
    }
}

/// The address that an item looks up, or 0.
fn address_of(item: &Item) -> u64
    ensures { result ≡ address_of item.now }
{
    match *item {
        Item::Lookup(address) => address,
        _ => 0,
    }
}

/// What stands for the event of an item that has none.
const NO_EVENT: Event = Event {
    frame: Frame(0),
    turn: 0,
    node: 0,
    kind: Kind::Val,
};

/// The event whose look-up an item settles.
fn event_of(item: &Item) -> Event
    ensures { result ≡ event_of item.now }
{
    match *item {
        Item::Narrow { id, .. } => id,
        _ => NO_EVENT,
    }
}

/// How an item of the object stands to another: before it, behind it, or so that the two are told as one.
fn meeting(frames: &Frames, a: &Item, b: &Item) -> Ordering
    ensures { result ≡ meeting frames.now a.now b.now }
{
    let events = cmp_events(frames, &event_of(a), &event_of(b));
    let addresses = address_of(a).cmp(&address_of(b)).then(events);
    let ranges = by_range(range_of(a), range_of(b)).then(addresses);
    item_rank(a).cmp(&item_rank(b)).then(ranges)
}

/// The one item that two make: of ranges the least one that has both.
fn joined(a: &Item, b: &Item) -> Item
    ensures { result ≡ joined a.now b.now }
{
    let (from, len) = hull(range_of(a), range_of(b));
    match *a {
        Item::Read { object, .. } => Item::Read { object, from, len },
        Item::Write { object, .. } => Item::Write { object, from, len },
        other => other,
    }
}

/// Passes one more of the items that stand in order, and gives the item that is still to be placed.
fn pass(
    frames: &Frames,
    out: &mut Vec<Item>,
    waiting: Option<Item>,
    next: Item,
) -> Result<Option<Item>, NoMemory>
    ensures { IfOk result (λ o. (rest : List Item) → out.new.items ++ left frames.now o rest ≡ out.old.items ++ left frames.now waiting (next ∷ rest)) }
{
    let Some(item) = waiting else {
        out.push(next)?;
        return Ok(None);
    };
    match meeting(frames, &item, &next) {
        Ordering::Less => {
            out.push(item)?;
            out.push(next)?;
            Ok(None)
        }
        Ordering::Greater => {
            out.push(next)?;
            Ok(Some(item))
        }
        Ordering::Equal => Ok(Some(joined(&item, &next))),
    }
}

/// Items that stand in order, with one more.
fn placed(alloc: Global, frames: &Frames, item: Item, told: &[Item]) -> Result<Vec<Item>, NoMemory>
    ensures { IfOk result (λ v. v.items ≡ placed frames.now item told.now) }
{
    let mut out = Vec::new(alloc);
    let mut waiting = Some(item);
    for next in told {
        waiting = pass(frames, &mut out, waiting, *next)?;
    }
    match waiting {
        Some(item) => {
            out.push(item)?;
            Ok(out)
        }
        None => Ok(out),
    }
}

/// The object contains the address, or has it one past.
fn is_at(row: &Option<Row>, address: u64) -> bool
    ensures { result ≡ is_at row.now address }
{
    match row {
        Some(row) => row.base <= address && address - row.base <= row.size,
        None => false,
    }
}

/// Whether an item speaks of the object.
fn is_told(sought: &Sought, item: &Item) -> bool
    ensures { result ≡ is_told sought.now item.now }
{
    match *item {
        Item::Read { object, len, .. } => object == sought.object && len > 0,
        Item::Write { object, len, .. } => object == sought.object && len > 0,
        Item::Born(object) => object == sought.object,
        Item::Dies(object) => object == sought.object,
        Item::Alive(object) => object == sought.object,
        Item::Expose(object) => object == sought.object,
        Item::Lookup(address) => is_at(&sought.row, address),
        Item::Narrow { keep, .. } => keep == sought.object,
        _ => false,
    }
}

/// The items told so far, with one more where it speaks of the object.
fn told_with(
    alloc: Global,
    frames: &Frames,
    sought: &Sought,
    told: Vec<Item>,
    item: Item,
) -> Result<Vec<Item>, NoMemory>
    ensures { IfOk result (λ v. v.items ≡ (if is_told sought.now item then placed frames.now item told.items else told.items)) }
{
    if is_told(sought, &item) {
        placed(alloc, frames, item, told.as_slice())
    } else {
        Ok(told)
    }
}

/// What a pick with these items does to the object.
pub fn told_in(
    alloc: Global,
    frames: &Frames,
    sought: &Sought,
    items: &[Item],
) -> Result<Vec<Item>, NoMemory>
    ensures { IfOk result (λ v. v.items ≡ told_in frames.now sought.now items.now) }
{
    let mut told = Vec::new(alloc);
    for item in items {
        told = told_with(alloc, frames, sought, told, *item)?;
    }
    Ok(told)
}
