// Whether a canonical order has a finding, as the audit of a run finds it.

use c_typed::Typed;
use conflict_detector::{Detector, Seen};
use run_machine::{Completed, Pick, View};
use std::alloc::Global;
use ub_base::{Event, Item, NoMemory};

#[derive(Drop)]
pub struct Findings<'p> {
    // The program's full expressions.
    roots: &'p [&'p Typed],
    detector: Detector,
    seen: Option<Seen>,
}

impl<'p> Findings<'p> {
    pub fn new(alloc: Global, roots: &'p [&'p Typed]) -> Result<Self, NoMemory> {
        Ok(Findings {
            roots,
            detector: Detector::new(alloc)?,
            seen: None,
        })
    }

    pub fn found(&self) -> bool {
        self.seen.is_some()
    }

    // After the first finding nothing more is looked at.
    pub fn tell(&mut self, view: &View, pick: Pick, items: &[Item]) -> Result<(), NoMemory> {
        if self.found() {
            return Ok(());
        }
        match pick {
            Pick::Step(_) => self.detector.step(view, items)?,
            Pick::Starts(event) => self.event(view, event, items)?,
            Pick::Event(event, completed, _) => {
                self.event(view, event, items)?;
                if !self.found() {
                    self.completed(view, event, completed)?;
                }
            }
        }
        Ok(())
    }

    fn event(&mut self, view: &View, event: Event, items: &[Item]) -> Result<(), NoMemory> {
        self.seen = self.detector.event(self.roots, view, event, items)?;
        Ok(())
    }

    fn completed(
        &mut self,
        view: &View,
        event: Event,
        completed: Completed,
    ) -> Result<(), NoMemory> {
        match completed {
            Completed::Nothing => Ok(()),
            Completed::Node => self.node_done(view, event.node),
            Completed::Operands(above) => {
                self.node_done(view, event.node)?;
                if !self.found() {
                    self.seen = self.detector.operands_done(self.roots, view, above)?;
                }
                Ok(())
            }
        }
    }

    fn node_done(&mut self, view: &View, node: u32) -> Result<(), NoMemory> {
        self.seen = self.detector.node_done(self.roots, view, node)?;
        Ok(())
    }
}
