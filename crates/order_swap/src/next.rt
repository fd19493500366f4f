// The event that comes next in the turn of two events.
ghost use Rattle.std.specs.Prelude.{◌≡◌, ◌<◌, ◌^◌, IfOk};
ghost use Rattle.c_typed.specs.Tree.{tree_of, size as nodes_of};
ghost use Rattle.c_typed.specs.Decide.{is_permitted, first_place};
ghost use Rattle.seq_order.specs.Marked.{taken_in, done_in};
ghost use Rattle.order_swap.specs.Sets.{waits, next_of};
ghost use Rattle.order_swap.specs.Turns.{pair_in};

use crate::set::{in_order, post_order, put_wanted};
use c_typed::{Place, Typed};
use seq_order::{Done, Taken, canonical_next, due, is_permitted};
use std::alloc::Global;
use ub_base::NoMemory;

/// Whether the event is evaluated and not done.
fn waits(root: &Typed, second: Place, taken: &Taken, done: &Done) -> bool
    ensures { nodes_of (tree_of root.now) < 2 ^ 32 → result ≡ waits (taken_in taken.now) (done_in done.now) (tree_of root.now) second }
{
    due(root, second, taken) && !done.has(second)
}

/// The first of these events that is permitted.
fn first_permitted(root: &Typed, taken: &Taken, done: &Done, wanted: &[Place]) -> Option<Place>
    ensures { nodes_of (tree_of root.now) < 2 ^ 32
        → result ≡ first_place (is_permitted (tree_of root.now) (taken_in taken.now) (done_in done.now)) wanted.now }
{
    for place in wanted {
        if is_permitted(root, *place, taken, done) {
            return Some(*place);
        }
    }
    None
}

/// The event that comes next in a full expression where the later of these two events comes first. Where that one is evaluated and
/// not done, one of those that are wanted is always permitted.
pub fn next_in(
    alloc: Global,
    root: &Typed,
    event: Place,
    against: Place,
    taken: &Taken,
    done: &Done,
) -> Result<Option<Place>, NoMemory>
    ensures { nodes_of (tree_of root.now) < 2 ^ 32
        → IfOk result (λ next. next ≡ next_of (taken_in taken.now) (done_in done.now) (tree_of root.now) (pair_in (tree_of root.now) event against)) }
{
    let places = post_order(alloc, root)?;
    let pair = in_order(places.as_slice(), event, against);
    if !waits(root, pair.second, taken, done) {
        return Ok(canonical_next(root, taken, done));
    }
    let mut wanted = Vec::new(alloc);
    put_wanted(root, pair, taken, places.as_slice(), &mut wanted)?;
    match first_permitted(root, taken, done, wanted.as_slice()) {
        Some(place) => Ok(Some(place)),
        None => Err(NoMemory),
    }
}
