// Which conflicts are sought, and between two sets of items the least one.
ghost use Rattle.std.specs.Prelude.{◌≡◌, ◌≢◌, ◌↔◌, IfSome, IsTrue, true, false};
ghost use Rattle.ub_base.specs.declared.clause.Kind.TheVariants.{Body};
ghost use Rattle.addr_map.specs.Conflict.{is_access};
ghost use Rattle.footprint.specs.Conflicts.{MayConflict};
ghost use Rattle.footprint.specs.Holds.{holds};
ghost use Rattle.footprint.specs.Least.{IsLeast};
ghost use Rattle.evaluation_log.specs.declared.sought.Sought.TheVariants.{Any, Races};
ghost use Rattle.evaluation_log.specs.Clashes.{Clash, SomeClash, NoClash};

use addr_map::AddrMap;
use footprint::{Foot, access_pair, conflict, conflicts, races};
use ub_base::{Frames, Item, Kind};

/// What conflicts are sought under: the order of frames, and where objects stand.
#[derive(Clone, Copy)]
pub struct Under<'u> {
    pub frames: &'u Frames,
    pub map: &'u AddrMap,
}

/// Which conflicts are sought: races, which no body has a part in, or any.
#[derive(Clone, Copy, PartialEq, Eq)]
pub enum Sought {
    Races,
    Any,
}

/// Whether two sets have items that conflict.
pub fn meets(under: Under<'_>, sought: Sought, a: &Foot, b: &Foot) -> bool
    ensures { IsTrue result ↔ SomeClash sought under.entry.map.now (holds a.now) (holds b.now) }
{
    match sought {
        Sought::Races => races(a, b),
        Sought::Any => conflicts(a, b, under.map),
    }
}

/// Whether two sets conflict.
pub fn clash(a: &Foot, b: &Foot, map: &AddrMap) -> bool
    ensures { result ≡ false → NoClash Any map.now (holds a.now) (holds b.now) }
{
    conflicts(a, b, map)
}

/// The least pair of items, if two sets conflict.
pub fn least_items(under: Under<'_>, sought: Sought, a: &Foot, b: &Foot) -> Option<(Item, Item)>
    ensures may { IfSome result (λ p. MayConflict p.0 p.1) }
    ensures races { sought ≡ Races → IfSome result (λ p. (is_access p.0 ≡ true) × (is_access p.1 ≡ true)) }
    ensures least { IsLeast under.entry.frames.now (Clash sought under.entry.map.now (holds a.now) (holds b.now)) result }
{
    match sought {
        Sought::Races => access_pair(under.frames, a, b),
        Sought::Any => conflict(under.frames, a, b, under.map),
    }
}

/// Whether conflicting accesses are a race: a body is sequenced before or after what it isn't sequenced with.
pub fn is_race(sought: Sought, a: Kind, b: Kind) -> bool
    ensures yes { result ≡ true → (sought ≡ Races) × (a ≢ Body) × (b ≢ Body) }
    ensures no { result ≡ false → (sought ≡ Races) → (a ≢ Body) → (b ≢ Body) → ⊥ }
{
    match sought {
        Sought::Races => a != Kind::Body && b != Kind::Body,
        Sought::Any => false,
    }
}
