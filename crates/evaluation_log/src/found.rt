// A conflict of two evaluations.
ghost use Rattle.std.specs.Prelude.{◌≡◌, IfSome, None};
ghost use Rattle.footprint.specs.Conflicts.{MayConflict};
ghost use Rattle.evaluation_log.specs.FoundItems.{AreOfOne, ItemsConflict, counts_before, first_found};

use c_names::cmp_events;
use ub_base::{Event, Frames, Item};

/// Two evaluations of one full expression, the smaller one first, that conflict, and their least conflicting items: a race
/// (6.5p2) where the two are unsequenced accesses of one byte, and otherwise a dependence on the order.
#[derive(Clone, Copy, PartialEq, Eq)]
pub struct Found {
    pub race: bool,
    pub event: Event,
    pub against: Event,
    pub items: (Item, Item),
}

/// The one that counts: a race before another conflict, and then the lesser pair of evaluations.
pub fn first_of(frames: &Frames, a: Option<Found>, b: Option<Found>) -> Option<Found>
    ensures first { result ≡ first_found frames.now a b }
    ensures items { ItemsConflict a → ItemsConflict b → ItemsConflict result }
{
    match (a, b) {
        (None, b) => b,
        (a, None) => a,
        (Some(a), Some(b)) => {
            if is_before(frames, &b, &a) {
                Some(b)
            } else {
                Some(a)
            }
        }
    }
}

fn is_before(frames: &Frames, a: &Found, b: &Found) -> bool
    ensures { result ≡ counts_before frames.now a.now b.now }
{
    if a.race && !b.race {
        return true;
    }
    if b.race && !a.race {
        return false;
    }
    cmp_events(frames, &a.event, &b.event)
        .then(cmp_events(frames, &a.against, &b.against))
        .is_lt()
}

/// A dependence on the order of these two evaluations, where items of theirs conflict.
pub fn dependence(event: Event, against: Event, items: Option<(Item, Item)>) -> Option<Found>
    requires one { AreOfOne event against }
    requires may { IfSome items (λ p. MayConflict p.0 p.1) }
    ensures conflict { ItemsConflict result }
    ensures none { result ≡ None → items ≡ None }
{
    let items = items?;
    Some(Found {
        race: false,
        event,
        against,
        items,
    })
}
