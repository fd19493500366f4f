// The events that are taken so that one event comes before another.
ghost use Rattle.std.specs.Prelude.{◌≡◌, ◌<◌, ◌+◌, ◌^◌, ◌++◌, ◌∷◌, [], IfOk, OnOk, if◌then◌else◌};
ghost use Rattle.c_typed.specs.Tree.{tree_of, size as nodes_of};
ghost use Rattle.c_typed.specs.Order.{same_place};
ghost use Rattle.seq_order.specs.Marked.{taken_in};
ghost use Rattle.ub_base.specs.Names.{same_kind};
ghost use Rattle.order_swap.specs.Sets.{node_places, places as places_of, in_order, needs, stores_needed, is_kept, is_put, put_of, kept_of, wanted_of};

use c_typed::{Place, Typed};
use seq_order::{Taken, before, due};
use std::alloc::Global;
use ub_base::{Kind, NoMemory};

/// The places of a full expression that an event may have, in post-order; of one node the body comes first, then the val, then the
/// eff. A node needn't have each of the three.
pub fn post_order(alloc: Global, root: &Typed) -> Result<Vec<Place>, NoMemory>
    ensures { nodes_of (tree_of root.now) < 2 ^ 32 → IfOk result (λ v. v.items ≡ places_of 0 (tree_of root.now)) }
{
    let mut places = Vec::new(alloc);
    put_tree(root, 0, &mut places)?;
    Ok(places)
}

// The places of a tree whose root has this number, and the number behind its nodes.
fn put_tree(tree: &Typed, number: u32, places: &mut Vec<Place>) -> Result<u32, NoMemory>
    ensures { number + nodes_of (tree_of tree.now) < 2 ^ 32
        → IfOk result (λ next. (next ≡ number + nodes_of (tree_of tree.now)) × (places.new.items ≡ places.old.items ++ places_of number (tree_of tree.now))) }
{
    let mut next = number.saturating_add(1);
    for operand in tree.children.as_slice() {
        next = put_tree(operand, next, places)?;
    }
    put_node(number, places)?;
    Ok(next)
}

fn put_node(node: u32, places: &mut Vec<Place>) -> Result<(), NoMemory>
    ensures { OnOk result (places.new.items ≡ places.old.items ++ node_places node) }
{
    places.push(Place {
        node,
        kind: Kind::Body,
    })?;
    places.push(Place {
        node,
        kind: Kind::Val,
    })?;
    places.push(Place {
        node,
        kind: Kind::Eff,
    })?;
    Ok(())
}

fn same_kind(kind: Kind, other: Kind) -> bool
    ensures { result ≡ same_kind kind other }
{
    match kind {
        Kind::Val => match other {
            Kind::Val => true,
            Kind::Eff => false,
            Kind::Body => false,
        },
        Kind::Eff => match other {
            Kind::Val => false,
            Kind::Eff => true,
            Kind::Body => false,
        },
        Kind::Body => match other {
            Kind::Val => false,
            Kind::Eff => false,
            Kind::Body => true,
        },
    }
}

/// Whether two events of a full expression are one.
pub fn same_place(place: Place, other: Place) -> bool
    ensures { result ≡ same_place place other }
{
    place.node == other.node && same_kind(place.kind, other.kind)
}

/// Whether the event has to be done before `second` can be: it is that event, or it is sequenced before it.
fn needs(root: &Typed, place: Place, second: Place, taken: &Taken) -> bool
    ensures { nodes_of (tree_of root.now) < 2 ^ 32 → result ≡ needs (taken_in taken.now) (tree_of root.now) place second }
{
    due(root, place, taken) && (same_place(place, second) || before(root, place, second, taken))
}

/// The value of the event's node.
fn value_of(place: Place) -> Place
    ensures { result ≡ record { node = place.node; kind = Kind.Val } }
{
    Place {
        node: place.node,
        kind: Kind::Val,
    }
}

/// Whether the event is the store of an update (6.5.2.4p2, 6.5.16.2p3) whose value has to be done before `second` can be.
fn stores_needed(root: &Typed, place: Place, second: Place, taken: &Taken) -> bool
    ensures { nodes_of (tree_of root.now) < 2 ^ 32 → result ≡ stores_needed (taken_in taken.now) (tree_of root.now) place second }
{
    let value = value_of(place);
    same_kind(place.kind, Kind::Eff)
        && (before(root, value, place, taken) && needs(root, value, second, taken))
}

/// Two events of a full expression, the earlier one in post-order first.
#[derive(Clone, Copy)]
pub struct Pair {
    pub first: Place,
    pub second: Place,
}

/// Whether the event is taken so that `second` comes soon, and isn't the one that is kept back until nothing else is left: the value
/// of an update whose store is `first`.
fn is_put(root: &Typed, pair: Pair, taken: &Taken, place: Place) -> bool
    ensures { nodes_of (tree_of root.now) < 2 ^ 32 → result ≡ is_put (taken_in taken.now) (tree_of root.now) pair place }
{
    !same_place(place, pair.first)
        && (!is_kept(root, pair, taken, place)
            && (needs(root, place, pair.second, taken)
                || stores_needed(root, place, pair.second, taken)))
}

fn is_kept(root: &Typed, pair: Pair, taken: &Taken, place: Place) -> bool
    ensures { nodes_of (tree_of root.now) < 2 ^ 32 → result ≡ is_kept (taken_in taken.now) (tree_of root.now) pair place }
{
    same_place(place, value_of(pair.first))
        && (stores_needed(root, pair.first, pair.second, taken) && !same_place(place, pair.first))
}

/// Adds the events that are taken so that `second` comes soon, in this order, and the one that is kept back behind them.
pub fn put_wanted(
    root: &Typed,
    pair: Pair,
    taken: &Taken,
    places: &[Place],
    wanted: &mut Vec<Place>,
) -> Result<(), NoMemory>
    ensures { nodes_of (tree_of root.now) < 2 ^ 32
        → OnOk result (wanted.new.items ≡ wanted.old.items ++ wanted_of (taken_in taken.now) (tree_of root.now) pair places.now) }
{
    put_first(root, pair, taken, places, wanted)?;
    put_kept(root, pair, taken, wanted)?;
    Ok(())
}

fn put_kept(
    root: &Typed,
    pair: Pair,
    taken: &Taken,
    wanted: &mut Vec<Place>,
) -> Result<(), NoMemory>
    ensures { nodes_of (tree_of root.now) < 2 ^ 32
        → OnOk result (wanted.new.items ≡ wanted.old.items ++ kept_of (taken_in taken.now) (tree_of root.now) pair) }
{
    let kept = value_of(pair.first);
    if is_kept(root, pair, taken, kept) {
        wanted.push(kept)?;
    }
    Ok(())
}

fn put_first(
    root: &Typed,
    pair: Pair,
    taken: &Taken,
    places: &[Place],
    wanted: &mut Vec<Place>,
) -> Result<(), NoMemory>
    ensures { nodes_of (tree_of root.now) < 2 ^ 32
        → OnOk result (wanted.new.items ≡ wanted.old.items ++ put_of (taken_in taken.now) (tree_of root.now) pair places.now) }
{
    for place in places {
        put_one(root, pair, taken, *place, wanted)?;
    }
    Ok(())
}

fn put_one(
    root: &Typed,
    pair: Pair,
    taken: &Taken,
    place: Place,
    wanted: &mut Vec<Place>,
) -> Result<(), NoMemory>
    ensures { nodes_of (tree_of root.now) < 2 ^ 32
        → OnOk result (wanted.new.items ≡ wanted.old.items ++ (if is_put (taken_in taken.now) (tree_of root.now) pair place then place ∷ [] else [])) }
{
    if is_put(root, pair, taken, place) {
        wanted.push(place)?;
    }
    Ok(())
}

/// The two events, the one that stands earlier in this list first.
pub fn in_order(places: &[Place], event: Place, against: Place) -> Pair
    ensures { result ≡ in_order places.now event against }
{
    for place in places {
        if same_place(*place, event) {
            return Pair {
                first: event,
                second: against,
            };
        }
        if same_place(*place, against) {
            return Pair {
                first: against,
                second: event,
            };
        }
    }
    Pair {
        first: event,
        second: against,
    }
}
