// The order that takes the second of two events first.
ghost use Rattle.std.specs.Prelude.{◌≡◌, ◌∷◌, [], Some, true, OnOk};
ghost use Rattle.std.specs.Option.{ForSome};
ghost use Rattle.c_typed.specs.declared.tree.Place.{Place as PlaceOf};
ghost use Rattle.c_typed.specs.Order.{same_place};
ghost use Rattle.seq_order.specs.Marked.{done_in};
ghost use Rattle.order_swap.specs.Record.{step_of};
ghost use Rattle.order_swap.specs.Trails.{noted};
ghost use Rattle.order_swap.specs.Turns.{place_of, done_by, AllSteps, IsChosen, MayBeTaken, IsFair, is_in_turn, IsTurnOf};

use crate::answer::{Choice, Steps, Trail};
use crate::guide::Guide;
use crate::next::next_in;
use crate::set::same_place;
use c_typed::{Place, Typed};
use run_machine::Begun;
use seq_order::{Done, Taken};
use std::alloc::Global;
use std::snapshot::Snapshot;
use ub_base::{Event, Frame, NoMemory};

fn place_of(event: Event) -> Place
    ensures { result ≡ place_of event }
{
    Place {
        node: event.node,
        kind: event.kind,
    }
}

fn is_in_turn(frame: Frame, turn: u64, event: Event) -> bool
    ensures { result ≡ is_in_turn frame turn event }
{
    event.frame.0 == frame.0 && event.turn == turn
}

/// Takes the later of two events of a turn before the earlier one, and elsewhere the canonical order; keeps what is taken.
#[derive(Drop)]
pub struct Swapper {
    alloc: Global,
    event: Event,
    against: Event,
    // the event that comes next in the turn
    next: Option<Choice>,
    // what is done in the turn
    done: Done,
    steps: Steps,
    trail: Trail,
    ghost pending: { ForSome next (λ choice. IsChosen (place_of event) (place_of against) (done_by steps) (step_of choice)) },
    ghost done_before: { (u : PlaceOf) → done_in done u ≡ done_by steps u },
    ghost chosen: { AllSteps (IsChosen (place_of event) (place_of against)) steps },
    ghost turn: { IsTurnOf event trail steps },
}

impl Swapper {
    pub fn new(alloc: Global, event: Event, against: Event) -> Swapper
        ensures event { result.event ≡ event }
        ensures against { result.against ≡ against }
        ensures trail { result.trail ≡ [] }
    {
        Swapper {
            alloc,
            event,
            against,
            next: None,
            done: Done::new(alloc),
            steps: Steps::none(),
            trail: Trail::none(),
        }
    }

    /// The events that were taken in the turn.
    pub fn into_steps(self) -> Steps
        ensures turn { IsTurnOf self.event self.trail result }
        ensures chosen { AllSteps (IsChosen (place_of self.event) (place_of self.against)) result }
        ensures permitted { AllSteps MayBeTaken result }
        ensures fair { AllSteps (IsFair (place_of self.event) (place_of self.against)) result }
    {
        self.steps
    }

    // The event that comes next in this full expression.
    fn find(&mut self, root: &Typed, taken: &Taken) -> Result<Option<Place>, NoMemory>
        ensures event { self.new.event ≡ self.old.event }
        ensures against { self.new.against ≡ self.old.against }
        ensures trail { self.new.trail ≡ self.old.trail }
    {
        let event = place_of(self.event);
        let against = place_of(self.against);
        let next = next_in(self.alloc, root, event, against, taken, &self.done)?;
        self.next = match next {
            Some(place) => Some(Choice {
                place,
                root: Snapshot::of(root),
                taken: Snapshot::of(taken),
            }),
            None => None,
        };
        Ok(next)
    }

    // The event that came next is taken.
    fn take(&mut self, choice: Choice, event: Event) -> Result<(), NoMemory>
        requires chosen { IsChosen (place_of self.old.event) (place_of self.old.against) (done_by self.old.steps) (step_of choice) }
        requires place { same_place choice.place (place_of event) ≡ true }
        requires turn { is_in_turn self.old.event.frame self.old.event.turn event ≡ true }
        ensures event { OnOk result (self.new.event ≡ self.old.event) }
        ensures against { OnOk result (self.new.against ≡ self.old.against) }
        ensures trail { OnOk result (self.new.trail ≡ event ∷ self.old.trail) }
    {
        self.next = None;
        self.done.add(choice.place)?;
        self.steps = self.steps.with(choice);
        self.trail = self.trail.with(event);
        Ok(())
    }
}

impl Guide for Swapper {
    ghost given = { λ s. s.event ∷ s.against ∷ [] };

    ghost heard = { λ s. Some s.trail };

    fn choose(&mut self, open: &Begun) -> Result<Option<Place>, NoMemory> {
        if open.frame.0 == self.event.frame.0 && open.turn == self.event.turn {
            self.find(open.root, &open.taken)
        } else {
            Ok(None)
        }
    }

    fn told(&mut self, event: Event) -> Result<(), NoMemory> {
        if !is_in_turn(self.event.frame, self.event.turn, event) {
            self.trail = self.trail.with(event);
            return Ok(());
        }
        let Some(choice) = self.next.take() else {
            return Err(NoMemory);
        };
        if same_place(choice.place, place_of(event)) {
            self.take(choice, event)
        } else {
            Err(NoMemory)
        }
    }
}
