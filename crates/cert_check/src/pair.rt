// What two named evaluations of a run touch, and how they stand to one another.

use addr_map::AddrMap;
use c_typed::Place;
use footprint::{Foot, conflicts, races};
use run_machine::{Begun, Machine, Pick};
use seq_order::{Relation, due, relation};
use std::alloc::Global;
use ub_base::{Event, Item, NoMemory};

// An evaluation and what it has touched so far.
#[derive(Drop)]
struct Side {
    event: Event,
    // How many frames are open below that which it started, while that is open.
    open: Option<usize>,
    foot: Foot,
}

impl Side {
    fn new(alloc: Global, event: Event) -> Side {
        Side {
            event,
            open: None,
            foot: Foot::new(alloc),
        }
    }

    // A body touches what its frame and the frames started from it touch; the pick that ends the frame is one of these.
    fn tell(&mut self, pick: Pick, height: usize, items: &[Item]) -> Result<(), NoMemory> {
        let own = match pick {
            Pick::Step(_) => false,
            Pick::Starts(event) | Pick::Event(event, _, _) => event == self.event,
        };
        if own || self.open.is_some() {
            add_all(&mut self.foot, items)?;
        }
        match (self.open, pick) {
            (Some(open), _) => {
                if height < open {
                    self.open = None;
                }
            }
            (None, Pick::Starts(_)) => {
                if own {
                    self.open = Some(height);
                }
            }
            _ => {}
        }
        Ok(())
    }

    fn place(&self) -> Place {
        Place {
            node: self.event.node,
            kind: self.event.kind,
        }
    }
}

fn add_all(foot: &mut Foot, items: &[Item]) -> Result<(), NoMemory> {
    for item in items {
        foot.add(*item)?;
    }
    Ok(())
}

// What the two evaluations are to be: unsequenced accesses of one byte, or otherwise conflicting in no order.
#[derive(Clone, Copy, PartialEq, Eq)]
pub enum Sought {
    Race,
    Quarrel,
}

#[derive(Drop)]
pub struct Pair {
    sought: Sought,
    first: Side,
    second: Side,
    // How many full expressions were open at the last pick.
    begun: usize,
    // Whether they are, once their full expression is settled.
    settled: Option<bool>,
}

impl Pair {
    pub fn new(alloc: Global, sought: Sought, events: (Event, Event)) -> Pair {
        Pair {
            sought,
            first: Side::new(alloc, events.0),
            second: Side::new(alloc, events.1),
            begun: 0,
            settled: None,
        }
    }

    pub fn tell(&mut self, machine: &Machine, pick: Pick) -> Result<(), NoMemory> {
        if self.settled.is_some() {
            return Ok(());
        }
        let items = machine.items.items();
        let height = machine.below.len();
        self.first.tell(pick, height, items)?;
        self.second.tell(pick, height, items)?;
        let begun = machine.shown().len();
        if begun < self.begun {
            if let Some(expression) = machine.settled() {
                if self.is_of(expression) {
                    self.settled = Some(self.holds_in(machine.memory.map(), expression));
                }
            }
        }
        self.begun = begun;
        Ok(())
    }

    // Whether the two evaluations are of this full expression.
    fn is_of(&self, begun: &Begun) -> bool {
        let (a, b) = (self.first.event, self.second.event);
        begun.frame == a.frame
            && begun.turn == a.turn
            && (begun.frame == b.frame && begun.turn == b.turn)
    }

    // Whether they are what is sought, at the end of the order.
    pub fn holds(&self, machine: &Machine) -> bool {
        if let Some(holds) = self.settled {
            return holds;
        }
        for begun in machine.shown() {
            if self.is_of(begun) {
                return self.holds_in(machine.memory.map(), begun);
            }
        }
        false
    }

    fn holds_in(&self, map: &AddrMap, begun: &Begun) -> bool {
        let (u, v) = (self.first.place(), self.second.place());
        let (root, taken) = (begun.root, &begun.taken);
        if u == v || (!due(root, u, taken) || !due(root, v, taken)) {
            return false;
        }
        let relation = relation(root, u, v, taken);
        let race = relation == Relation::Unsequenced && races(&self.first.foot, &self.second.foot);
        match self.sought {
            Sought::Race => race,
            Sought::Quarrel => !race && (relation != Relation::Sequenced && self.quarrel(map)),
        }
    }

    // They conflict, or one of them ends the run.
    fn quarrel(&self, map: &AddrMap) -> bool {
        let (a, b) = (&self.first.foot, &self.second.foot);
        conflicts(a, b, map) || (a.has_ending() || b.has_ending())
    }
}
