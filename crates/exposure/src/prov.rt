// Provenance, in the manner of PNVI-ae-udi (own; ISO/IEC TS 6010).
ghost use Rattle.std.specs.Prelude.{◌≡◌};
ghost use Rattle.exposure.specs.Choice.{chosen};

use ub_base::{Event, ObjName};

/// What a pointer was made from: nothing, one object, or an address that one exposed object has one
/// past and another contains, named by the event that looked it up.
#[derive(Clone, Copy, Debug, PartialEq, Eq, PartialOrd, Ord)]
pub enum Prov {
    Empty,
    Whole(ObjName),
    Either {
        id: Event,
        past: ObjName,
        start: ObjName,
    },
}

/// The provenance of an address that the one object contains and the other has one past, as `id`
/// looked it up (own).
pub fn choose(inside: Option<ObjName>, past: Option<ObjName>, id: Event) -> Prov
    ensures { result ≡ chosen inside past id }
{
    match (inside, past) {
        (None, None) => Prov::Empty,
        (Some(object), None) | (None, Some(object)) => Prov::Whole(object),
        (Some(start), Some(past)) => Prov::Either { id, past, start },
    }
}
