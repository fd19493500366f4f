// Which events an order takes.
ghost use Rattle.std.specs.Prelude.{◌≡◌, List, [], Option, None, OnOk};
ghost use Rattle.ub_base.specs.declared.names.Event.{Event as EventOf};
ghost use Rattle.order_swap.specs.Trails.{noted};

use c_typed::Place;
use run_machine::Begun;
use ub_base::{Event, NoMemory};

/// Says which events of the open full expressions are taken where several are permitted.
pub trait Guide {
    /// The events that it was made with, which no call changes.
    ghost given: { Self → List EventOf } = { λ _. [] };

    /// The events that it was told, the last one first, where it keeps them.
    ghost heard: { Self → Option (List EventOf) } = { λ _. None };

    /// The event that is taken next in this full expression, which has to be permitted; none where the pick is the canonical one.
    fn choose(&mut self, open: &Begun) -> Result<Option<Place>, NoMemory>
        ensures given { OnOk result (given self.new ≡ given self.old) }
        ensures heard { OnOk result (heard self.new ≡ heard self.old) };

    /// This event was taken.
    fn told(&mut self, event: Event) -> Result<(), NoMemory>
        ensures given { OnOk result (given self.new ≡ given self.old) }
        ensures heard { OnOk result (heard self.new ≡ noted event (heard self.old)) };
}

/// Takes the canonical order.
#[derive(Drop)]
pub struct Canonical {}

impl Guide for Canonical {
    fn choose(&mut self, _open: &Begun) -> Result<Option<Place>, NoMemory> {
        Ok(None)
    }

    fn told(&mut self, _event: Event) -> Result<(), NoMemory> {
        Ok(())
    }
}
