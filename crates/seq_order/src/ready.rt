// Which events are ready.
ghost use Rattle.std.specs.Prelude.{◌≡◌, ◌+◌, ◌<◌, ◌^◌};
ghost use Rattle.c_typed.specs.Tree.{tree_of, size as nodes_of};
ghost use Rattle.c_typed.specs.Decide.{due_in, first_place, is_ready, is_permitted};
ghost use Rattle.seq_order.specs.Marked.{taken_in, done_in};
ghost use Rattle.seq_order.specs.Walks.{walked, events_if, hinders, is_free};

use crate::next::update_is_open;
use crate::own::own_hindrance;
use crate::rules::{goes, has_kind, is_body};
use crate::spot::locate;
use crate::{Done, Taken};
use c_typed::{Place, Typed, class_of, size};

/// Whether the event may be picked next: it is ready, and no body that would come between the halves of an update, which
/// is one evaluation with respect to a call (6.5.2.4p2, 6.5.16.2p3). It costs what `is_ready` does.
pub fn is_permitted(root: &Typed, p: Place, taken: &Taken, done: &Done) -> bool
    ensures { nodes_of (tree_of root.now) < 2 ^ 32 → result ≡ is_permitted (tree_of root.now) (taken_in taken.now) (done_in done.now) p }
{
    is_ready(root, p, taken, done)
        && !(is_body(p.kind) && update_is_open(root, 0, true, taken, done))
}

/// Whether the event is ready: due, not done, and all that is sequenced before it done. It costs a walk over the whole
/// tree, with a look at the order for each event that isn't done.
pub fn is_ready(root: &Typed, p: Place, taken: &Taken, done: &Done) -> bool
    ensures { nodes_of (tree_of root.now) < 2 ^ 32 → result ≡ is_ready (tree_of root.now) (taken_in taken.now) (done_in done.now) p }
{
    is_due(root, 0, p, taken) && is_free(root, p, taken, done)
}

/// Whether the event is one of those that are evaluated where these operands are chosen.
pub fn due(root: &Typed, p: Place, taken: &Taken) -> bool
    ensures { nodes_of (tree_of root.now) < 2 ^ 32 → result ≡ due_in (taken_in taken.now) 0 (tree_of root.now) p }
{
    is_due(root, 0, p, taken)
}

/// The event isn't done, and every due event that comes before it is.
pub fn is_free(root: &Typed, p: Place, taken: &Taken, done: &Done) -> bool
    ensures { nodes_of (tree_of root.now) < 2 ^ 32 → result ≡ is_free (tree_of root.now) (taken_in taken.now) (done_in done.now) p }
{
    !done.has(p) && first_hindrance(root, root, 0, true, p, taken, done).is_ok()
}

/// The number after the tree, or its first due event that isn't done and comes before p. A tree that isn't evaluated
/// has no due events.
fn first_hindrance(
    root: &Typed,
    tree: &Typed,
    k: u32,
    evaluated: bool,
    p: Place,
    taken: &Taken,
    done: &Done,
) -> Result<u32, Place>
    ensures { nodes_of (tree_of root.now) < 2 ^ 32 → k + nodes_of (tree_of tree.now) < 2 ^ 32
        → result ≡ walked (k + nodes_of (tree_of tree.now))
        (first_place (hinders (tree_of root.now) (taken_in taken.now) (done_in done.now) p) (events_if evaluated (taken_in taken.now) k (tree_of tree.now))) }
{
    if !evaluated {
        return Ok(k.saturating_add(size(tree)));
    }
    let class = class_of(tree);
    let choice = taken.chosen(k);
    let mut number = k.saturating_add(1);
    for (i, operand) in tree.children.as_slice().iter().enumerate() {
        number = match first_hindrance(
            root,
            operand,
            number,
            goes(class, choice, i),
            p,
            taken,
            done,
        ) {
            Ok(next) => next,
            Err(event) => return Err(event),
        };
    }
    match own_hindrance(root, class, k, p, taken, done) {
        Some(event) => Err(event),
        None => Ok(number),
    }
}

/// The event is one of those that are evaluated.
fn is_due(tree: &Typed, k: u32, p: Place, taken: &Taken) -> bool
    ensures { k + nodes_of (tree_of tree.now) < 2 ^ 32 → result ≡ due_in (taken_in taken.now) k (tree_of tree.now) p }
{
    if p.node == k {
        return has_kind(class_of(tree), p.kind);
    }
    let Some(a) = locate(tree, k, p.node) else {
        return false;
    };
    goes(class_of(tree), taken.chosen(k), a.index)
        && is_due(&tree.children.as_slice()[a.index], a.number, p, taken)
}
