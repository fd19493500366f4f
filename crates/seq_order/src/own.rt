// The events of a node.
ghost use Rattle.std.specs.Prelude.{◌≡◌, ◌++◌, ◌<◌, ◌^◌};
ghost use Rattle.c_typed.specs.Tree.{tree_of, size};
ghost use Rattle.c_typed.specs.Order.{own_events};
ghost use Rattle.c_typed.specs.Decide.{first_place};
ghost use Rattle.seq_order.specs.Marked.{taken_in, done_in};
ghost use Rattle.seq_order.specs.Walks.{listed, is_left, hinders};

use crate::sequence::before;
use crate::{Done, Taken};
use c_typed::{Class, Place, Typed};
use ub_base::Kind;

/// The events of the node of this number, in their canonical order (own).
pub fn own_events(class: Class, node: u32) -> (Option<Place>, Option<Place>)
    ensures { own_events node class ≡ (listed result.0 ++ listed result.1) }
{
    let value = Place {
        node,
        kind: Kind::Val,
    };
    let effect = Place {
        node,
        kind: Kind::Eff,
    };
    let body = Place {
        node,
        kind: Kind::Body,
    };
    match class {
        Class::Object | Class::Constant => (None, None),
        Class::Plain | Class::Choice | Class::Comma => (Some(value), None),
        Class::Store | Class::Update => (Some(value), Some(effect)),
        Class::Call | Class::Isolated => (Some(body), Some(value)),
    }
}

/// The event, where it isn't done.
fn left(event: Option<Place>, done: &Done) -> Option<Place>
    ensures { result ≡ first_place (is_left (done_in done.now)) (listed event) }
{
    let event = event?;
    if done.has(event) { None } else { Some(event) }
}

/// The first event of the node that isn't done.
pub fn own_left(class: Class, node: u32, done: &Done) -> Option<Place>
    ensures { result ≡ first_place (is_left (done_in done.now)) (own_events node class) }
{
    let (first, second) = own_events(class, node);
    match left(first, done) {
        Some(event) => Some(event),
        None => left(second, done),
    }
}

/// The event, where it isn't done and comes before p.
fn hindrance(
    root: &Typed,
    event: Option<Place>,
    p: Place,
    taken: &Taken,
    done: &Done,
) -> Option<Place>
    ensures { size (tree_of root.now) < 2 ^ 32 → result ≡ first_place (hinders (tree_of root.now) (taken_in taken.now) (done_in done.now) p) (listed event) }
{
    let event = event?;
    if !done.has(event) && before(root, event, p, taken) {
        Some(event)
    } else {
        None
    }
}

/// The first event of the node that isn't done and comes before p.
pub fn own_hindrance(
    root: &Typed,
    class: Class,
    node: u32,
    p: Place,
    taken: &Taken,
    done: &Done,
) -> Option<Place>
    ensures { size (tree_of root.now) < 2 ^ 32 → result ≡ first_place (hinders (tree_of root.now) (taken_in taken.now) (done_in done.now) p)
        (own_events node class) }
{
    let (first, second) = own_events(class, node);
    match hindrance(root, first, p, taken, done) {
        Some(event) => Some(event),
        None => hindrance(root, second, p, taken, done),
    }
}
