// Conflicts of what was done to objects as wholes, and of addresses that were looked up.
ghost use Rattle.std.specs.Prelude.{◌≡◌};
ghost use Rattle.footprint.specs.Candidates.{beside, whole_pair};
ghost use Rattle.footprint.specs.Conflicts.{is_lookup, is_state};
ghost use Rattle.footprint.specs.Found.{AtAddress, AtObject, ConflictOf};
ghost use Rattle.footprint.specs.Least.{IsLeast};

use crate::Foot;
use crate::meeting::is_at;
use crate::order::{least_of_three, lesser, when};
use crate::state::State;
use addr_map::AddrMap;
use ub_base::{Frames, Item, ObjName};

/// The least pair that begins with what was done to an object as a whole.
pub fn state_pair(frames: &Frames, a: &Foot, b: &Foot, map: &AddrMap) -> Option<(Item, Item)>
    ensures { IsLeast frames.now (ConflictOf is_state a.now b.now map.now) result }
{
    let mut best = None;
    for (object, state) in a.states.iter() {
        let pair = object_pair(frames, *object, *state, b, map);
        best = lesser(frames, best, pair);
    }
    best
}

// The least pair that begins with what was done to this object as a whole.
fn object_pair(
    frames: &Frames,
    object: ObjName,
    state: State,
    b: &Foot,
    map: &AddrMap,
) -> Option<(Item, Item)>
    ensures { IsLeast frames.now (AtObject b.now map.now object state) result }
{
    let whole = whole_pair(frames, object, state, b.state(object));
    let address = address_pair(frames, object, state, b, map);
    lesser(frames, whole, address)
}

fn whole_pair(frames: &Frames, x: ObjName, s: State, t: State) -> Option<(Item, Item)>
    ensures { result ≡ whole_pair frames.now x s t }
{
    least_of_three(
        frames,
        least_of_three(
            frames,
            when(s.born && t.dies, Item::Born(x), Item::Dies(x)),
            when(s.born && t.alive, Item::Born(x), Item::Alive(x)),
            when(s.born && t.expose, Item::Born(x), Item::Expose(x)),
        ),
        least_of_three(
            frames,
            when(s.dies && t.born, Item::Dies(x), Item::Born(x)),
            when(s.dies && t.dies, Item::Dies(x), Item::Dies(x)),
            when(s.dies && t.alive, Item::Dies(x), Item::Alive(x)),
        ),
        least_of_three(
            frames,
            when(s.alive && t.born, Item::Alive(x), Item::Born(x)),
            when(s.alive && t.dies, Item::Alive(x), Item::Dies(x)),
            when(s.expose && t.born, Item::Expose(x), Item::Born(x)),
        ),
    )
}

// The least pair of this object's death or exposure and a lookup of an address where it stands.
fn address_pair(
    frames: &Frames,
    object: ObjName,
    state: State,
    b: &Foot,
    map: &AddrMap,
) -> Option<(Item, Item)>
    ensures { IsLeast frames.now (AtAddress b.now map.now object state) result }
{
    let mut best = None;
    for addr in b.lookups.iter() {
        let at = is_at(map, object, *addr);
        let dies = when(state.dies & at, Item::Dies(object), Item::Lookup(*addr));
        let expose = when(state.expose & at, Item::Expose(object), Item::Lookup(*addr));
        let pair = lesser(frames, dies, expose);
        best = lesser(frames, best, pair);
    }
    best
}

/// The least pair that begins with a lookup.
pub fn lookup_pair(frames: &Frames, a: &Foot, b: &Foot, map: &AddrMap) -> Option<(Item, Item)>
    ensures { IsLeast frames.now (ConflictOf is_lookup a.now b.now map.now) result }
{
    let mut best = None;
    for addr in a.lookups.iter() {
        let (inside, past) = map.covering(*addr);
        let within = beside(frames, *addr, inside, b);
        let behind = beside(frames, *addr, past, b);
        let pair = lesser(frames, within, behind);
        best = lesser(frames, best, pair);
    }
    best
}

// The least pair of this lookup and the death or the exposure of that object.
fn beside(frames: &Frames, addr: u64, object: Option<ObjName>, b: &Foot) -> Option<(Item, Item)>
    ensures { result ≡ beside frames.now addr b.now object }
{
    let object = object?;
    let state = b.state(object);
    lesser(
        frames,
        when(state.dies, Item::Lookup(addr), Item::Dies(object)),
        when(state.expose, Item::Lookup(addr), Item::Expose(object)),
    )
}
