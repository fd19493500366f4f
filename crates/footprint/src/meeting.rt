// Whether two footprints conflict.
ghost use Rattle.std.specs.Prelude.{◌≡◌, ◌↔◌, IsTrue};
ghost use Rattle.std.specs.List.{list_any};
ghost use Rattle.std.specs.BTreeMap.{IsOrdered};
ghost use Rattle.ub_base.specs.NameOrders.{object_cmp};
ghost use Rattle.ub_base.specs.declared.names.Item.{Item};
ghost use Rattle.addr_map.specs.Conflict.{conflicts_one, items_conflict, stands_at, overlap};
ghost use Rattle.footprint.specs.Conflicts.{meets_access};
ghost use Rattle.footprint.specs.Found.{SomeConflict, SomeRace};
ghost use Rattle.footprint.specs.Meets.{states_conflict, SomeStates, is_hit, is_met, settled_otherwise, SomeNarrow, streams_meet};
ghost use Rattle.footprint.specs.States.{state_in};

use crate::Foot;
use crate::sets::state_of;
use crate::settled::is_settled_otherwise;
use crate::state::State;
use addr_map::AddrMap;
use std::collections::{BTreeMap, BTreeSet};
use ub_base::{Event, Item, ObjName};

/// Whether an item of one set conflicts with one of the other: it looks at the entries of the smaller one, and at the
/// lookups of both.
pub fn conflicts(a: &Foot, b: &Foot, map: &AddrMap) -> bool
    ensures { IsTrue result ↔ SomeConflict a.now b.now map.now }
{
    let races = races(a, b);
    let states = states_conflict(&a.states, &b.states);
    let first = lookups_conflict(a, b, map);
    let second = lookups_conflict(b, a, map);
    let narrows = narrows_conflict(&a.narrows, &b.narrows);
    let streams = streams_meet(a, b);
    (races | states) | ((first | second) | (narrows | streams))
}

fn streams_meet(a: &Foot, b: &Foot) -> bool
    ensures { result ≡ streams_meet a.now b.now }
{
    ((a.input && b.input) || (a.output && b.output)) || ((a.ending && b.any) || (a.any && b.ending))
}

/// Whether both have a byte that one of them writes.
pub fn races(a: &Foot, b: &Foot) -> bool
    ensures { IsTrue result ↔ SomeRace a.now b.now }
{
    a.writes.meets(&b.writes) || (a.writes.meets(&b.reads) || a.reads.meets(&b.writes))
}

fn states_conflict(a: &BTreeMap<ObjName, State>, b: &BTreeMap<ObjName, State>) -> bool
    ensures { IsTrue result ↔ SomeStates a.now b.now }
{
    if a.len() <= b.len() {
        some_state_conflicts(a, b)
    } else {
        some_state_conflicts(b, a)
    }
}

fn some_state_conflicts(few: &BTreeMap<ObjName, State>, many: &BTreeMap<ObjName, State>) -> bool
    ensures some { result ≡ list_any (λ e. states_conflict e.1 (state_in many.now e.0)) few.now.entries }
    ensures ordered { IsOrdered object_cmp few.now }
{
    few.iter()
        .any(|(object, state)| state.conflicts(state_of(many, *object)))
}

fn lookups_conflict(a: &Foot, b: &Foot, map: &AddrMap) -> bool
    ensures { result ≡ list_any (is_met b.now map.now) a.now.lookups.keys }
{
    a.lookups.iter().any(|addr| is_met(b, map, *addr))
}

// Whether an object that contains the address or has it one past died or was exposed.
fn is_met(b: &Foot, map: &AddrMap, addr: u64) -> bool
    ensures { result ≡ is_met b.now map.now addr }
{
    let (inside, past) = map.covering(addr);
    is_hit(b, inside) || is_hit(b, past)
}

fn is_hit(b: &Foot, object: Option<ObjName>) -> bool
    ensures { result ≡ is_hit b.now object }
{
    match object {
        Some(object) => {
            let state = b.state(object);
            state.dies || state.expose
        }
        None => false,
    }
}

fn narrows_conflict(a: &BTreeSet<(Event, ObjName)>, b: &BTreeSet<(Event, ObjName)>) -> bool
    ensures { IsTrue result ↔ SomeNarrow a.now b.now }
{
    if a.len() <= b.len() {
        some_narrow_conflicts(a, b)
    } else {
        some_narrow_conflicts(b, a)
    }
}

fn some_narrow_conflicts(
    few: &BTreeSet<(Event, ObjName)>,
    many: &BTreeSet<(Event, ObjName)>,
) -> bool
    ensures { result ≡ list_any (λ m. settled_otherwise many.now m.0 m.1) few.now.keys }
{
    few.iter()
        .any(|narrow| is_settled_otherwise(many, narrow.0, narrow.1))
}

/// Whether two items conflict, of ranges a byte of each.
pub fn items_conflict(a: &Item, b: &Item, map: &AddrMap) -> bool
    ensures { result ≡ items_conflict (stands_at map.now) a.now b.now }
{
    one_conflicts(a, b, map) || one_conflicts(b, a, map)
}

fn one_conflicts(a: &Item, b: &Item, map: &AddrMap) -> bool
    ensures { result ≡ conflicts_one (stands_at map.now) a.now b.now }
{
    match *a {
        Item::Write { object, from, len } => meets_access(object, from, len, b),
        Item::Born(x) => match *b {
            Item::Alive(y) => x == y,
            Item::Expose(y) => x == y,
            _ => false,
        },
        Item::Dies(x) => match *b {
            Item::Alive(y) => x == y,
            Item::Born(y) => x == y,
            Item::Dies(y) => x == y,
            _ => false,
        },
        Item::Lookup(addr) => match *b {
            Item::Expose(object) => is_at(map, object, addr),
            Item::Dies(object) => is_at(map, object, addr),
            _ => false,
        },
        Item::Narrow { id, keep } => match *b {
            Item::Narrow {
                id: other_id,
                keep: other_keep,
            } => id == other_id && keep != other_keep,
            _ => false,
        },
        Item::Input => *b == Item::Input,
        Item::Output => *b == Item::Output,
        Item::Ending => *b == Item::Any,
        _ => false,
    }
}

fn meets_access(object: ObjName, from: u64, len: u64, b: &Item) -> bool
    ensures { result ≡ meets_access object from len b.now }
{
    match *b {
        Item::Read {
            object: other,
            from: start,
            len: size,
        } => object == other && overlap(from, len, start, size),
        Item::Write {
            object: other,
            from: start,
            len: size,
        } => object == other && overlap(from, len, start, size),
        _ => false,
    }
}

/// Whether the bytes that begin at `a` share one with those that begin at `b`.
fn overlap(a: u64, a_len: u64, b: u64, b_len: u64) -> bool
    ensures { result ≡ overlap a a_len b b_len }
{
    if a <= b {
        b_len > 0 && b - a < a_len
    } else {
        a_len > 0 && a - b < b_len
    }
}

// Whether the object contains the address or has it one past.
pub fn is_at(map: &AddrMap, object: ObjName, addr: u64) -> bool
    ensures { result ≡ stands_at map.now object addr }
{
    let (inside, past) = map.covering(addr);
    inside == Some(object) || past == Some(object)
}
