// The canonical next event of a listing, where done events are noted one by one.
ghost use Rattle.std.specs.Prelude.{◌≡◌, ◌<◌, ◌^◌, IfSome};
ghost use Rattle.c_typed.specs.Tree.{tree_of, size};
ghost use Rattle.c_typed.specs.Order.{events};
ghost use Rattle.c_typed.specs.Decide.{first_place, canonical, is_permitted as permitted_in};
ghost use Rattle.seq_order.specs.Marked.{taken_in, done_in};
ghost use Rattle.seq_order.specs.Walks.{is_left};
ghost use Rattle.run_listing.specs.Along.{events_of, place_of, IsListed};

use crate::along::{behind, next};
use c_typed::Typed;
use run_layout::{Due, Listed};
use seq_order::{Done, Taken, is_permitted};
use ub_base::Kind;

/// The canonical next event of these entries, which are the listing of this tree: the first one by the operands that are chosen that may come
/// next by what is done. It costs a look at each entry before it; where a body is the first one that isn't done, a test of each.
pub fn next_left<'c, 'p>(
    entries: &'c [Listed<'p>],
    root: &Typed,
    taken: &Taken,
    done: &Done,
) -> Option<&'c Due<'p>>
    ensures next { size (tree_of root.now) < 2 ^ 32 → events_of (taken_in taken.now) entries.now ≡ events (taken_in taken.now) 0 (tree_of root.now)
        → place_of result ≡ canonical (tree_of root.now) (taken_in taken.now) (done_in done.now) }
    ensures listed { IfSome result (λ due. IsListed entries.now due.now) }
{
    let Some(first) = first_left(entries, taken, done) else {
        return None;
    };
    match first.place.kind {
        Kind::Body => first_permitted(entries, root, taken, done),
        _ => Some(first),
    }
}

// The first one that isn't done.
fn first_left<'c, 'p>(entries: &'c [Listed<'p>], taken: &Taken, done: &Done) -> Option<&'c Due<'p>>
    ensures first { place_of result ≡ first_place (is_left (done_in done.now)) (events_of (taken_in taken.now) entries.now) }
    ensures listed { IfSome result (λ due. IsListed entries.now due.now) }
{
    let mut rest = entries;
    while let Some((at, due)) = next(rest, taken) {
        if !done.has(due.place) {
            return Some(due);
        }
        rest = behind(rest, at);
    }
    None
}

// The first one that is permitted.
fn first_permitted<'c, 'p>(
    entries: &'c [Listed<'p>],
    root: &Typed,
    taken: &Taken,
    done: &Done,
) -> Option<&'c Due<'p>>
    ensures first { size (tree_of root.now) < 2 ^ 32
        → place_of result ≡ first_place (permitted_in (tree_of root.now) (taken_in taken.now) (done_in done.now)) (events_of (taken_in taken.now) entries.now) }
    ensures listed { IfSome result (λ due. IsListed entries.now due.now) }
{
    let mut rest = entries;
    while let Some((at, due)) = next(rest, taken) {
        if is_permitted(root, due.place, taken, done) {
            return Some(due);
        }
        rest = behind(rest, at);
    }
    None
}
