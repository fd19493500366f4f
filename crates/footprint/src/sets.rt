// Sets of addresses and of settled ambiguities, and what was done to objects as wholes.
ghost use Rattle.std.specs.Prelude.{◌≡◌, ◌||◌, ℕ, OnOk, OnErr, if◌then◌else◌};
ghost use Rattle.std.specs.Ordering.{nat_cmp};
ghost use Rattle.std.specs.BTreeMap.{IsUnchanged};
ghost use Rattle.std.specs.BTreeSet.{contains};
ghost use Rattle.ub_base.specs.declared.names.ObjName.{ObjName};
ghost use Rattle.ub_base.specs.declared.names.Event.{Event};
ghost use Rattle.ub_base.specs.Names.{same_object};
ghost use Rattle.footprint.specs.Between.{IsBetween, AreBetween};
ghost use Rattle.footprint.specs.States.{state_in, either, only_at, not_alive};
ghost use Rattle.footprint.specs.Holds.{narrow_cmp};

use crate::state::State;
use std::collections::{BTreeMap, BTreeSet};
use ub_base::{Event, NoMemory, ObjName};

/// What was done to an object as a whole.
pub fn state_of(states: &BTreeMap<ObjName, State>, object: ObjName) -> State
    ensures { result ≡ state_in states.now object }
{
    match states.get(&object) {
        Some(state) => *state,
        None => State::NONE,
    }
}

/// Adds something that was done to an object.
pub fn mark(
    states: &mut BTreeMap<ObjName, State>,
    object: ObjName,
    state: State,
) -> Result<(), NoMemory>
    ensures marked { OnOk result ((x : ObjName)
        → state_in states.new x ≡ either (state_in states.old x) (only_at object state x)) }
    ensures err { OnErr result (IsUnchanged states.old states.new) }
{
    let old = state_of(states, object);
    let new = old.or(state);
    if new == old {
        return Ok(());
    }
    states.insert(object, new)?;
    Ok(())
}

/// Takes back that an object had to be alive.
pub fn forget_alive(states: &mut BTreeMap<ObjName, State>, object: ObjName)
    ensures { (x : ObjName)
        → state_in states.new x
        ≡ (if same_object object x then not_alive (state_in states.old x) else state_in states.old x) }
{
    if let Some(kept) = states.get_mut(&object) {
        *kept = kept.without_alive();
    }
}

pub fn merge_states(
    states: &mut BTreeMap<ObjName, State>,
    more: &BTreeMap<ObjName, State>,
) -> Result<(), NoMemory>
    ensures ok { OnOk result ((x : ObjName)
        → state_in states.new x ≡ either (state_in states.old x) (state_in more.now x)) }
    ensures err { OnErr result ((x : ObjName)
        → AreBetween (state_in states.old x) (state_in more.now x) (state_in states.new x)) }
{
    for (object, state) in more.iter() {
        mark(states, *object, *state)?;
    }
    Ok(())
}

pub fn merge_lookups(lookups: &mut BTreeSet<u64>, more: &BTreeSet<u64>) -> Result<(), NoMemory>
    ensures ok { OnOk result ((a : ℕ)
        → contains nat_cmp lookups.new a ≡ (contains nat_cmp lookups.old a || contains nat_cmp more.now a)) }
    ensures err { OnErr result ((a : ℕ)
        → IsBetween (contains nat_cmp lookups.old a) (contains nat_cmp more.now a) (contains nat_cmp lookups.new a)) }
{
    for addr in more.iter() {
        lookups.insert(*addr)?;
    }
    Ok(())
}

pub fn merge_narrows(
    narrows: &mut BTreeSet<(Event, ObjName)>,
    more: &BTreeSet<(Event, ObjName)>,
) -> Result<(), NoMemory>
    ensures ok { OnOk result ((d : Event) (x : ObjName)
        → contains narrow_cmp narrows.new (d, x)
        ≡ (contains narrow_cmp narrows.old (d, x) || contains narrow_cmp more.now (d, x))) }
    ensures err { OnErr result ((d : Event) (x : ObjName)
        → IsBetween (contains narrow_cmp narrows.old (d, x)) (contains narrow_cmp more.now (d, x)) (contains narrow_cmp narrows.new (d, x))) }
{
    for narrow in more.iter() {
        narrows.insert(*narrow)?;
    }
    Ok(())
}
