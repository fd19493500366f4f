// The order of items and of pairs of items.
ghost use Rattle.std.specs.Prelude.{◌≡◌};
ghost use Rattle.footprint.specs.Candidates.{least_of_three, when};
ghost use Rattle.footprint.specs.Least.{item_rank, item_event, item_object, item_number, item_cmp, pair_cmp, lesser};

use c_names::{cmp_events, cmp_objects};
use std::cmp::Ordering;
use ub_base::{Event, Frame, Frames, Item, Kind, ObjName};

/// What stands for the event of an item that has none.
const NO_EVENT: Event = Event {
    frame: Frame(0),
    turn: 0,
    node: 0,
    kind: Kind::Val,
};

/// The lesser of two pairs, by the first item and then the second; the first pair where they tie.
pub fn lesser(
    frames: &Frames,
    best: Option<(Item, Item)>,
    other: Option<(Item, Item)>,
) -> Option<(Item, Item)>
    ensures { result ≡ lesser frames.now best other }
{
    match (best, other) {
        (None, pair) => pair,
        (pair, None) => pair,
        (Some(old), Some(new)) => {
            if cmp_pairs(frames, &new, &old) == Ordering::Less {
                Some(new)
            } else {
                Some(old)
            }
        }
    }
}

/// The least of three pairs.
pub fn least_of_three(
    frames: &Frames,
    first: Option<(Item, Item)>,
    second: Option<(Item, Item)>,
    third: Option<(Item, Item)>,
) -> Option<(Item, Item)>
    ensures { result ≡ least_of_three frames.now first second third }
{
    lesser(frames, lesser(frames, first, second), third)
}

/// The pair, where it is one.
pub fn when(holds: bool, first: Item, second: Item) -> Option<(Item, Item)>
    ensures { result ≡ when holds first second }
{
    if holds { Some((first, second)) } else { None }
}

fn cmp_pairs(frames: &Frames, a: &(Item, Item), b: &(Item, Item)) -> Ordering
    ensures { result ≡ pair_cmp frames.now a.now b.now }
{
    cmp_items(frames, &a.0, &b.0).then(cmp_items(frames, &a.1, &b.1))
}

/// Items by kind, in the order of `Item`, and then by their parts.
fn cmp_items(frames: &Frames, a: &Item, b: &Item) -> Ordering
    ensures { result ≡ item_cmp frames.now a.now b.now }
{
    rank(a)
        .cmp(&rank(b))
        .then(cmp_events(frames, &event_of(a), &event_of(b)))
        .then(cmp_objects(frames, &object_of(a), &object_of(b)))
        .then(number_of(a).cmp(&number_of(b)))
}

fn rank(item: &Item) -> u8
    ensures { result ≡ item_rank item.now }
{
    match item {
        Item::Read { .. } => 0,
        Item::Write { .. } => 1,
        Item::Born(_) => 2,
        Item::Dies(_) => 3,
        Item::Alive(_) => 4,
        Item::Expose(_) => 5,
        Item::Lookup(_) => 6,
        Item::Narrow { .. } => 7,
        Item::Input => 8,
        Item::Output => 9,
        Item::Ending => 10,
        Item::Any => 11,
    }
}

/// The event that names an ambiguity.
fn event_of(item: &Item) -> Event
    ensures { result ≡ item_event item.now }
{
    match item {
        Item::Narrow { id, .. } => *id,
        _ => NO_EVENT,
    }
}

/// The object, or `argv` where the item has none.
fn object_of(item: &Item) -> ObjName
    ensures { result ≡ item_object item.now }
{
    match item {
        Item::Read { object, .. } | Item::Write { object, .. } => *object,
        Item::Born(object) | Item::Dies(object) | Item::Alive(object) | Item::Expose(object) =>
            *object,
        Item::Narrow { keep, .. } => *keep,
        Item::Lookup(_) | Item::Input | Item::Output | Item::Ending | Item::Any => ObjName::Argv,
    }
}

/// The first byte or the address, or 0 where the item has none.
fn number_of(item: &Item) -> u64
    ensures { result ≡ item_number item.now }
{
    match item {
        Item::Read { from, .. } | Item::Write { from, .. } => *from,
        Item::Lookup(addr) => *addr,
        _ => 0,
    }
}
