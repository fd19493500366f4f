// The canonical next event.
ghost use Rattle.std.specs.Prelude.{◌≡◌, ◌+◌, ◌<◌, ◌^◌, ◌&&◌, not};
ghost use Rattle.ub_base.specs.declared.clause.Kind.TheVariants.{Val, Eff};
ghost use Rattle.c_typed.specs.Tree.{tree_of, size as nodes_of};
ghost use Rattle.c_typed.specs.Order.{place, own_rule, own_events, update_is_open};
ghost use Rattle.c_typed.specs.Decide.{first_place, canonical};
ghost use Rattle.seq_order.specs.Marked.{taken_in, done_in};
ghost use Rattle.seq_order.specs.Walks.{walked, listed, events_if, is_left, is_free_beside};

use crate::own::{own_events, own_left};
use crate::ready::is_free;
use crate::rules::{goes, is_body, own_rule};
use crate::{Done, Taken};
use c_typed::{Class, Place, Typed, class_of, size};
use ub_base::Kind;

/// The first permitted event of the listing in post-order. A body doesn't start between the halves of an update. It
/// costs a walk over the nodes before that event. Where a body is next and an update open, it costs a walk over the
/// whole tree for each event that isn't done.
pub fn canonical_next(root: &Typed, taken: &Taken, done: &Done) -> Option<Place>
    ensures { nodes_of (tree_of root.now) < 2 ^ 32 → result ≡ canonical (tree_of root.now) (taken_in taken.now) (done_in done.now) }
{
    let first = match first_left(root, 0, true, taken, done) {
        Ok(_) => return None,
        Err(event) => event,
    };
    if !is_body(first.kind) {
        return Some(first);
    }
    if !update_is_open(root, 0, true, taken, done) {
        return Some(first);
    }
    first_beside_bodies(root, root, 0, true, taken, done).err()
}

/// The number after the tree, or its first due event that isn't done.
fn first_left(
    tree: &Typed,
    k: u32,
    evaluated: bool,
    taken: &Taken,
    done: &Done,
) -> Result<u32, Place>
    ensures { k + nodes_of (tree_of tree.now) < 2 ^ 32
        → result ≡ walked (k + nodes_of (tree_of tree.now))
        (first_place (is_left (done_in done.now)) (events_if evaluated (taken_in taken.now) k (tree_of tree.now))) }
{
    if !evaluated {
        return Ok(k.saturating_add(size(tree)));
    }
    let class = class_of(tree);
    let choice = taken.chosen(k);
    let mut number = k.saturating_add(1);
    for (i, operand) in tree.children.as_slice().iter().enumerate() {
        number = match first_left(operand, number, goes(class, choice, i), taken, done) {
            Ok(next) => next,
            Err(event) => return Err(event),
        };
    }
    match own_left(class, k, done) {
        Some(event) => Err(event),
        None => Ok(number),
    }
}

/// Some update stands between its value and its effect.
pub fn update_is_open(tree: &Typed, k: u32, evaluated: bool, taken: &Taken, done: &Done) -> bool
    ensures { k + nodes_of (tree_of tree.now) < 2 ^ 32 → result ≡ (evaluated && update_is_open (taken_in taken.now) (done_in done.now) k (tree_of tree.now)) }
{
    if !evaluated {
        return false;
    }
    let class = class_of(tree);
    if is_open(class, k, done) {
        return true;
    }
    let choice = taken.chosen(k);
    let mut number = k.saturating_add(1);
    for (i, operand) in tree.children.as_slice().iter().enumerate() {
        if update_is_open(operand, number, goes(class, choice, i), taken, done) {
            return true;
        }
        number = number.saturating_add(size(operand));
    }
    false
}

/// The node is an update between its value and its effect.
fn is_open(class: Class, node: u32, done: &Done) -> bool
    ensures { result ≡ (own_rule class Val Eff && (done_in done.now (place node Val) && not (done_in done.now (place node Eff)))) }
{
    let value = Place {
        node,
        kind: Kind::Val,
    };
    let effect = Place {
        node,
        kind: Kind::Eff,
    };
    own_rule(class, Kind::Val, Kind::Eff) && done.has(value) && !done.has(effect)
}

/// The number after the tree, or its first due event that is ready and no body.
fn first_beside_bodies(
    root: &Typed,
    tree: &Typed,
    k: u32,
    evaluated: bool,
    taken: &Taken,
    done: &Done,
) -> Result<u32, Place>
    ensures { nodes_of (tree_of root.now) < 2 ^ 32 → k + nodes_of (tree_of tree.now) < 2 ^ 32
        → result ≡ walked (k + nodes_of (tree_of tree.now))
        (first_place (is_free_beside (tree_of root.now) (taken_in taken.now) (done_in done.now))
        (events_if evaluated (taken_in taken.now) k (tree_of tree.now))) }
{
    if !evaluated {
        return Ok(k.saturating_add(size(tree)));
    }
    let class = class_of(tree);
    let choice = taken.chosen(k);
    let mut number = k.saturating_add(1);
    for (i, operand) in tree.children.as_slice().iter().enumerate() {
        let evaluated = goes(class, choice, i);
        number = match first_beside_bodies(root, operand, number, evaluated, taken, done) {
            Ok(next) => next,
            Err(event) => return Err(event),
        };
    }
    match own_beside(root, class, k, taken, done) {
        Some(event) => Err(event),
        None => Ok(number),
    }
}

/// The event, where it is ready and no body.
fn beside(root: &Typed, event: Option<Place>, taken: &Taken, done: &Done) -> Option<Place>
    ensures { nodes_of (tree_of root.now) < 2 ^ 32 → result ≡ first_place (is_free_beside (tree_of root.now) (taken_in taken.now) (done_in done.now))
        (listed event) }
{
    let event = event?;
    if !is_body(event.kind) && is_free(root, event, taken, done) {
        Some(event)
    } else {
        None
    }
}

/// The first event of the node that is ready and no body.
fn own_beside(root: &Typed, class: Class, node: u32, taken: &Taken, done: &Done) -> Option<Place>
    ensures { nodes_of (tree_of root.now) < 2 ^ 32 → result ≡ first_place (is_free_beside (tree_of root.now) (taken_in taken.now) (done_in done.now))
        (own_events node class) }
{
    let (first, second) = own_events(class, node);
    match beside(root, first, taken, done) {
        Some(event) => Some(event),
        None => beside(root, second, taken, done),
    }
}
