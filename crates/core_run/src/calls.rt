// The record of a watch's calls.
ghost use Rattle.std.specs.Prelude.{◌≡◌, ◌∷◌, []};
ghost use Rattle.core_run.specs.Calls.{picked, node_done, operands_done};

use crate::watch::Go;
use prov_memory::Touched;
use std::marker::Model;
use std::snapshot::Snapshot;
use ub_base::{Event, Frame};

/// The calls of the watch of a run with what it answered, for a watch that keeps them. Contracts see the list of them, the last
/// one first; the program keeps nothing of them.
#[cycle(calls)]
#[derive(Drop)]
pub struct Calls {
    last: Snapshot<Last>,
}

// The last call, its answer, and the calls before it.
#[cycle(calls)]
#[derive(Drop)]
enum Last {
    Nothing,
    Picked(Option<Event>, Snapshot<Touched>, Go, Snapshot<Calls>),
    NodeDone(Frame, u64, u32, Go, Snapshot<Calls>),
    OperandsDone(Frame, u64, u32, Go, Snapshot<Calls>),
}

impl Model for Calls {
    ghost use Rattle.std.specs.Prelude.{length};
    ghost use Rattle.core_run.specs.Calls.{Heard};

    ghost Value = { Heard };

    ghost use Rattle.core_run.specs.Record.{heard_in};

    ghost view = { λ c. heard_in c.last.value };

    ghost size = { length };

    ghost use Rattle.std.proofs.Common.{arith};

    ghost size_decreases = { λ a h. Prim.grind (arith) };
}

impl Calls {
    /// No calls.
    pub fn none() -> Calls
        ensures { result ≡ [] }
    {
        Calls {
            last: Snapshot::of(&Last::Nothing),
        }
    }

    /// One call more: of `pick`, with its answer.
    pub fn picked(&self, event: Option<Event>, items: &Touched, go: Go) -> Calls
        ensures { result ≡ (picked event items.now, go) ∷ self.now }
    {
        let last = Last::Picked(event, Snapshot::of(items), go, Snapshot::of(self));
        Calls {
            last: Snapshot::of(&last),
        }
    }

    /// One call more: of `node_done`, with its answer.
    pub fn node_done(&self, frame: Frame, turn: u64, node: u32, go: Go) -> Calls
        ensures { result ≡ (node_done frame turn node, go) ∷ self.now }
    {
        let last = Last::NodeDone(frame, turn, node, go, Snapshot::of(self));
        Calls {
            last: Snapshot::of(&last),
        }
    }

    /// One call more: of `operands_done`, with its answer.
    pub fn operands_done(&self, frame: Frame, turn: u64, node: u32, go: Go) -> Calls
        ensures { result ≡ (operands_done frame turn node, go) ∷ self.now }
    {
        let last = Last::OperandsDone(frame, turn, node, go, Snapshot::of(self));
        Calls {
            last: Snapshot::of(&last),
        }
    }
}
