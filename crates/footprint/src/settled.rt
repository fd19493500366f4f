// Conflicts of ambiguities that were settled.
ghost use Rattle.std.specs.Prelude.{◌≡◌, ◌&&◌, ◌↔◌, IsTrue, not};
ghost use Rattle.ub_base.specs.Names.{same_event, same_object};
ghost use Rattle.footprint.specs.Found.{NarrowIn, SettledIn};
ghost use Rattle.footprint.specs.Least.{IsLeast};
ghost use Rattle.footprint.specs.Meets.{settled_otherwise, SettledBelow, SettledAbove};

use crate::Foot;
use crate::order::{lesser, when};
use std::collections::BTreeSet;
use std::ops::Bound;
use ub_base::{Event, Frames, Item, ObjName};

/// The least pair of one ambiguity settled to different objects.
pub fn narrow_pair(frames: &Frames, a: &Foot, b: &Foot) -> Option<(Item, Item)>
    ensures { IsLeast frames.now (NarrowIn a.now b.now) result }
{
    let mut best = None;
    for narrow in a.narrows.iter() {
        let pair = settled_otherwise(frames, narrow.0, narrow.1, b);
        best = lesser(frames, best, pair);
    }
    best
}

// The least pair of this ambiguity, settled to this object, and the same settled to another one.
fn settled_otherwise(frames: &Frames, id: Event, keep: ObjName, b: &Foot) -> Option<(Item, Item)>
    ensures { IsLeast frames.now (SettledIn b.now id keep) result }
{
    let mut best = None;
    for other in b.narrows.iter() {
        let pair = when(
            settles_otherwise(id, keep, other),
            Item::Narrow { id, keep },
            Item::Narrow {
                id: other.0,
                keep: other.1,
            },
        );
        best = lesser(frames, best, pair);
    }
    best
}

fn settles_otherwise(id: Event, keep: ObjName, other: &(Event, ObjName)) -> bool
    ensures { result ≡ (same_event id other.now.0 && not (same_object keep other.now.1)) }
{
    id == other.0 && keep != other.1
}

/// Whether this ambiguity is settled to another object there: next to the given one in the order, if at all.
pub fn is_settled_otherwise(narrows: &BTreeSet<(Event, ObjName)>, id: Event, keep: ObjName) -> bool
    ensures { result ≡ settled_otherwise narrows.now id keep }
{
    is_settled_below(narrows, id, keep) | is_settled_above(narrows, id, keep)
}

// Whether it is settled to an object that comes before this one in the order.
fn is_settled_below(narrows: &BTreeSet<(Event, ObjName)>, id: Event, keep: ObjName) -> bool
    ensures { IsTrue result ↔ SettledBelow narrows.now id keep }
{
    match narrows.range(..(id, keep)).next_back() {
        Some(other) => other.0 == id,
        None => false,
    }
}

// Whether it is settled to an object that comes after this one in the order.
fn is_settled_above(narrows: &BTreeSet<(Event, ObjName)>, id: Event, keep: ObjName) -> bool
    ensures { IsTrue result ↔ SettledAbove narrows.now id keep }
{
    let behind = (Bound::Excluded((id, keep)), Bound::Unbounded);
    match narrows.range(behind).next() {
        Some(other) => other.0 == id,
        None => false,
    }
}
