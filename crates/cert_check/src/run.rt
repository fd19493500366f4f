// The run along which a certificate leads.

use crate::claim::Witness;
use c_typed::Place;
use run_machine::{Halt, Machine, Pick, canonical, single};
use ub_base::{Clause, Event, Frame, Frames, NoMemory};

// How far an order has led: it can go on, its last pick ended the run or raised a clause, or it breaks a rule.
#[derive(Clone, Copy, PartialEq, Eq)]
pub enum Course {
    Going,
    Ended(u8),
    Raised(Clause),
    Broken,
}

// A run whose frames have the numbers that the certificate names, and the other frames those behind them, in the order of
// their start.
#[derive(Drop)]
pub struct Run<'p, 'c> {
    pub machine: Machine<'p, 'c>,
    pub frames: &'c Frames,
    pub last: u32,
}

impl<'p, 'c> Run<'p, 'c> {
    // So many canonical picks.
    pub fn stretch(
        &mut self,
        witness: &mut Witness,
        course: Course,
        count: u64,
    ) -> Result<Course, NoMemory> {
        let mut course = course;
        for _ in 0..count {
            if course != Course::Going {
                return Ok(Course::Broken);
            }
            let taken = canonical(&mut self.machine);
            course = self.course_of(witness, taken)?;
        }
        Ok(course)
    }

    // The pick of this event.
    pub fn single(
        &mut self,
        witness: &mut Witness,
        course: Course,
        place: Place,
    ) -> Result<Course, NoMemory> {
        if course != Course::Going {
            return Ok(Course::Broken);
        }
        match single(&mut self.machine, place) {
            Ok(None) => Ok(Course::Broken),
            Ok(Some(pick)) => self.course_of(witness, Ok(pick)),
            Err(halt) => self.course_of(witness, Err(halt)),
        }
    }

    // Where a pick leads.
    fn course_of(
        &mut self,
        witness: &mut Witness,
        taken: Result<Pick, Halt>,
    ) -> Result<Course, NoMemory> {
        match taken {
            Ok(pick) => {
                self.start_frame(pick);
                witness.tell(self, pick)?;
                Ok(match pick.status() {
                    Some(status) => Course::Ended(status),
                    None => Course::Going,
                })
            }
            Err(Halt::Raised { clause, .. }) => Ok(Course::Raised(clause)),
            Err(Halt::Over(_, _) | Halt::Unplaced) => Ok(Course::Broken),
            Err(Halt::NoMemory) => Err(NoMemory),
        }
    }

    fn start_frame(&mut self, pick: Pick) {
        if let Pick::Starts(event) = pick {
            let frame = self.number_of(event);
            self.machine.start(frame);
        }
    }

    fn number_of(&mut self, event: Event) -> Frame {
        match self.frames.find(event.frame, event.turn, event.node) {
            Some(frame) => frame,
            None => {
                self.last = self.last.saturating_add(1);
                Frame(self.last)
            }
        }
    }
}
