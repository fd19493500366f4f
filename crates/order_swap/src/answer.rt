// What two orders come to.
ghost use Rattle.std.specs.Prelude.{◌≡◌, ◌∷◌, []};
ghost use Rattle.order_swap.specs.Record.{step_of};

use crate::end::End;
use c_typed::{Place, Typed};
use seq_order::Taken;
use std::marker::Model;
use std::snapshot::Snapshot;
use ub_base::Event;

/// Events in the order in which they were taken. Contracts see the list of them, the last one first; the program keeps only the
/// last one.
#[cycle(trail)]
#[derive(Drop)]
pub struct Trail {
    last: LastEvent,
}

// The last event, and those before it.
#[cycle(trail)]
#[derive(Drop)]
enum LastEvent {
    Nothing,
    Took(Event, Snapshot<Trail>),
}

impl Model for Trail {
    ghost use Rattle.std.specs.Prelude.{List, length};
    ghost use Rattle.ub_base.specs.declared.names.Event.{Event};

    ghost Value = { List Event };

    ghost use Rattle.order_swap.specs.Record.{trail_in};

    ghost view = { λ t. trail_in t.last };

    ghost size = { length };

    ghost use Rattle.std.proofs.Common.{arith};

    ghost size_decreases = { λ a h. Prim.grind (arith) };
}

impl Trail {
    /// No events.
    pub(crate) fn none() -> Trail
        ensures { result ≡ [] }
    {
        Trail {
            last: LastEvent::Nothing,
        }
    }

    pub(crate) fn with(&self, event: Event) -> Trail
        ensures { result ≡ event ∷ self.now }
    {
        Trail {
            last: LastEvent::Took(event, Snapshot::of(self)),
        }
    }
}

/// An event that is taken next in an open full expression, and, for contracts alone, that expression and its choices of operands
/// as they stand then.
#[derive(Drop)]
pub(crate) struct Choice {
    pub place: Place,
    pub root: Snapshot<Typed>,
    pub taken: Snapshot<Taken>,
}

/// The events that were taken in one turn, each with the full expression and the choices of operands as they stood before it.
/// Contracts see the list of them, the last one first; the program keeps only the last one.
#[cycle(steps)]
#[derive(Drop)]
pub struct Steps {
    last: LastStep,
}

// The last event, and those before it.
#[cycle(steps)]
#[derive(Drop)]
enum LastStep {
    Nothing,
    Took(Choice, Snapshot<Steps>),
}

impl Model for Steps {
    ghost use Rattle.std.specs.Prelude.{List, length};
    ghost use Rattle.order_swap.specs.Turns.{Step};

    ghost Value = { List Step };

    ghost use Rattle.std.specs.Coded.{codes};
    ghost use Rattle.c_typed.specs.contracts.tree.Typed as typed;

    ghost coded = { Prim.hlevel (codes, typed.the_row.coded) };

    ghost use Rattle.order_swap.specs.Record.{steps_in};

    ghost view = { λ s. steps_in s.last };

    ghost size = { length };

    ghost use Rattle.std.proofs.Common.{arith};

    ghost size_decreases = { λ a h. Prim.grind (arith) };
}

impl Steps {
    /// No events.
    pub(crate) fn none() -> Steps
        ensures { result ≡ [] }
    {
        Steps {
            last: LastStep::Nothing,
        }
    }

    pub(crate) fn with(&self, choice: Choice) -> Steps
        ensures { result ≡ step_of choice ∷ self.now }
    {
        Steps {
            last: LastStep::Took(choice, Snapshot::of(self)),
        }
    }
}

/// How the canonical order ends and how the one that swaps ends, each after how many picks; whether the ends differ; the events that
/// the one that swaps takes; and those of them that it takes in the turn of the two.
#[derive(Drop)]
pub struct Swapped {
    pub canonical: (End, u64),
    pub swapped: (End, u64),
    pub differs: bool,
    pub trail: Trail,
    pub turn: Steps,
}
