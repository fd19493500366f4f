// The parts of a certificate.
ghost use Rattle.std.specs.Prelude.{◌≡◌};
ghost use Rattle.certificate.specs.Field.{field_text};

use addr_map::Row;
use std::alloc::AllocError;
use ub_base::{Bytes, Cause, Clause, Event, Frames, Items, Kind, NoMemory};

/// The rows of an address map, in the order in which their objects are created.
pub type Rows = Items<Row>;

/// An order of picks, a stretch at a time.
pub type Segments = Items<Segment>;

/// A stretch of an order: so many picks of the canonical order, at least one, or one event of the top frame.
#[derive(Clone, Copy, PartialEq, Eq)]
pub enum Segment {
    Canonical(u64),
    Pick { node: u32, kind: Kind },
}

/// What a certificate says of its order.
#[derive(Drop)]
pub enum Claim {
    /// The run ends, with this status and output, and without a finding.
    Clean {
        status: u8,
        output: Bytes,
    },
    /// The last pick breaks this clause, or the two events are a race.
    Undefined {
        clause: Clause,
        pair: Option<(Event, Event)>,
    },
    /// The two evaluations conflict, and neither is sequenced before the other.
    OrderDependent {
        event: Event,
        against: Event,
    },
    /// The run hasn't ended, and has no finding.
    OutOfSteps,
    /// The next pick would pass this limit, with this number.
    Outside {
        cause: Cause,
        number: u64,
    },
}

/// The version of a certificate.
#[derive(Clone, Copy, PartialEq, Eq)]
pub enum Version {
    One,
    Two,
}

/// What shows a verdict: the frames that it names, the address map, the order of picks, and the claim.
#[derive(Drop)]
pub struct Cert {
    pub frames: Frames,
    pub map: Rows,
    pub order: Segments,
    pub claim: Claim,
}

/// A member of a certificate's object, or the object itself.
#[derive(Clone, Copy, PartialEq, Eq)]
pub enum Field {
    Root,
    Version,
    Verdict,
    Frames,
    Map,
    Order,
    Output,
    Status,
    Clause,
    Pair,
    Cause,
    Number,
}

impl Field {
    /// As the report prints it.
    pub fn text(self) -> &'static str
        ensures { result.now ≡ field_text self }
    {
        match self {
            Field::Root => "root",
            Field::Version => "version",
            Field::Verdict => "verdict",
            Field::Frames => "frames",
            Field::Map => "map",
            Field::Order => "order",
            Field::Output => "output",
            Field::Status => "status",
            Field::Clause => "clause",
            Field::Pair => "pair",
            Field::Cause => "cause",
            Field::Number => "number",
        }
    }
}

/// Why a text is no certificate: it is no JSON, its first wrong field, or memory ran out.
#[derive(Clone, Copy, PartialEq, Eq)]
pub enum CertFault {
    NotJson,
    BadShape(Field),
    NoMemory,
}

impl From<NoMemory> for CertFault {
    ghost use Rattle.certificate.specs.declared.cert.CertFault.TheVariants.{NoMemory};

    ghost from_gives = { λ _ e. e ≡ NoMemory };

    fn from(_e: NoMemory) -> CertFault {
        CertFault::NoMemory
    }
}

impl From<AllocError> for CertFault {
    ghost use Rattle.certificate.specs.declared.cert.CertFault.TheVariants.{NoMemory};

    ghost from_gives = { λ _ e. e ≡ NoMemory };

    fn from(_e: AllocError) -> CertFault {
        CertFault::NoMemory
    }
}
