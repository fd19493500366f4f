// A run again, up to where it ended, or in another order.

use crate::moment::put_moment;
use crate::nulls::asked_next;
use crate::replay::{event_of, step, taken};
use crate::trail::Follower;
use addr_map::Mode;
use c_typed::Place;
use core_ir::CoreProgram;
use explain_facts::{Moment, Outcome, Sought, Trail};
use prov_memory::{Memory, Outputs, Streams};
use run_machine::{Code, Machine, Pick, code_of, prepare, single};
use std::alloc::Global;
use ub_base::{Bytes, Event, Frames, Kind, NoMemory};

/// What a run is given: its input, the words behind the program's name, and how its objects are placed.
#[derive(Clone, Copy)]
pub struct Course<'r> {
    pub input: &'r [u8],
    pub args: &'r [String],
    pub mode: Mode,
}

// The machine before the first pick.
fn started<'p, 'c>(
    alloc: Global,
    core: &CoreProgram<'p>,
    code: &'c Code<'p>,
    course: Course<'_>,
) -> Result<Machine<'p, 'c>, NoMemory> {
    let input = Bytes::from_slice(alloc, course.input)?;
    let memory = Memory::new(alloc, course.mode);
    match prepare(alloc, core.program, code, input, course.args, memory) {
        Ok(machine) => Ok(machine),
        Err(_) => Err(NoMemory),
    }
}

// What is done with a run from its first pick on.
trait Task {
    fn follow(&mut self, machine: &mut Machine, frames: &mut Frames) -> Result<(), NoMemory>;
}

// Does a task with the run of a machine that has started.
fn do_task<T: Task>(
    alloc: Global,
    started: Result<Machine, NoMemory>,
    task: &mut T,
) -> Result<(), NoMemory> {
    let mut machine = started?;
    let mut frames = Frames::new(alloc);
    task.follow(&mut machine, &mut frames)
}

// Makes the run again, and does a task with it.
fn make<T: Task>(
    alloc: Global,
    core: &CoreProgram<'_>,
    course: Course<'_>,
    task: &mut T,
) -> Result<(), NoMemory> {
    let code = code_of(alloc, core.program, core.terms.items.as_slice())?;
    do_task(alloc, started(alloc, core, &code, course), task)
}

// Takes the canonical pick. Whether the run goes on behind it.
fn goes_on(machine: &mut Machine, frames: &mut Frames) -> Result<bool, NoMemory> {
    Ok(match step(machine, frames)? {
        Some(pick) => pick.status().is_none(),
        None => false,
    })
}

fn follow(machine: &mut Machine, frames: &mut Frames, picks: u64) -> Result<(), NoMemory> {
    for _ in 0..picks {
        if !goes_on(machine, frames)? {
            return Ok(());
        }
    }
    Ok(())
}

const NEAR: u64 = 16;

// Goes on to where a full expression is open, where one is within a few picks.
fn follow_to_open(machine: &mut Machine, frames: &mut Frames) -> Result<(), NoMemory> {
    for _ in 0..NEAR {
        if machine.top.stage.is_some() || !goes_on(machine, frames)? {
            return Ok(());
        }
    }
    Ok(())
}

// Sees what stands before the pick of this number.
#[derive(Drop)]
struct MomentTask {
    pick: u64,
    event: Option<Event>,
    moment: Moment,
}

impl Task for MomentTask {
    fn follow(&mut self, machine: &mut Machine, frames: &mut Frames) -> Result<(), NoMemory> {
        follow(machine, frames, self.pick.saturating_sub(1))?;
        if self.event.is_none() {
            follow_to_open(machine, frames)?;
        }
        put_moment(&mut self.moment, machine, self.event)
    }
}

/// What stands before the pick of this number, from 1, that this event is; without an event, what stands where a full
/// expression is open there, or a few picks behind.
pub fn moment_before(
    alloc: Global,
    core: &CoreProgram<'_>,
    course: Course<'_>,
    pick: u64,
    event: Option<Event>,
) -> Result<Moment, NoMemory> {
    let mut task = MomentTask {
        pick,
        event,
        moment: Moment::new(alloc),
    };
    make(alloc, core, course, &mut task)?;
    let MomentTask { moment, .. } = task;
    Ok(moment)
}

fn follow_trail(
    machine: &mut Machine,
    frames: &mut Frames,
    picks: u64,
    follower: &mut Follower,
) -> Result<(), NoMemory> {
    for _ in 0..picks {
        let asked = asked_next(machine);
        let Some(pick) = step(machine, frames)? else {
            return Ok(());
        };
        follower.see(machine, event_of(pick), asked)?;
    }
    Ok(())
}

// Sees what so many picks do.
#[derive(Drop)]
struct TrailTask {
    picks: u64,
    follower: Follower,
}

impl Task for TrailTask {
    fn follow(&mut self, machine: &mut Machine, frames: &mut Frames) -> Result<(), NoMemory> {
        follow_trail(machine, frames, self.picks, &mut self.follower)
    }
}

/// What so many picks of the run do to the bytes that are sought, and what ends it.
pub fn trail_of(
    alloc: Global,
    core: &CoreProgram<'_>,
    course: Course<'_>,
    picks: u64,
    sought: Option<Sought>,
) -> Result<Trail, NoMemory> {
    let mut task = TrailTask {
        picks,
        follower: Follower::new(alloc, sought),
    };
    make(alloc, core, course, &mut task)?;
    let TrailTask { follower, .. } = task;
    Ok(follower.into_trail())
}

/// Nodes of a full expression whose events are taken as soon as they may be: from `first` up to but without `end`.
#[derive(Clone, Copy, PartialEq, Eq)]
pub struct Before {
    pub event: Event,
    pub first: u32,
    pub end: u32,
}

// Takes the first of these events that may be taken.
fn preferred(
    machine: &mut Machine,
    frames: &mut Frames,
    before: &Before,
) -> Result<Option<Pick>, NoMemory> {
    for node in before.first..before.end {
        for kind in [Kind::Val, Kind::Body, Kind::Eff] {
            if let Ok(Some(pick)) = single(machine, Place { node, kind }) {
                return taken(machine, frames, Ok(pick));
            }
        }
    }
    Ok(None)
}

fn is_open(machine: &Machine, before: &Before) -> bool {
    machine.top.stage.is_some()
        && machine.top.frame == before.event.frame
        && machine.top.turn == before.event.turn
}

fn next(
    machine: &mut Machine,
    frames: &mut Frames,
    before: &Before,
) -> Result<Option<Pick>, NoMemory> {
    if is_open(machine, before)
        && let Some(pick) = preferred(machine, frames, before)?
    {
        return Ok(Some(pick));
    }
    step(machine, frames)
}

// The status of a run that ends within so many picks.
fn status_of(
    machine: &mut Machine,
    frames: &mut Frames,
    picks: u64,
    before: &Before,
) -> Result<Option<u8>, NoMemory> {
    for _ in 0..picks {
        let Some(pick) = next(machine, frames, before)? else {
            return Ok(None);
        };
        if let Some(status) = pick.status() {
            return Ok(Some(status));
        }
    }
    Ok(None)
}

// What the run wrote to standard output, taken from the machine.
fn output_of(machine: &mut Machine) -> Bytes {
    let none = Streams::new(machine.alloc, Bytes::from_vec(Vec::new(machine.alloc)));
    let Outputs { standard, .. } = std::mem::replace(&mut machine.streams, none).into_output();
    standard
}

// Sees how a run of so many picks ends in another order.
#[derive(Drop)]
struct OutcomeTask {
    picks: u64,
    before: Before,
    outcome: Option<Outcome>,
}

impl Task for OutcomeTask {
    fn follow(&mut self, machine: &mut Machine, frames: &mut Frames) -> Result<(), NoMemory> {
        if let Some(status) = status_of(machine, frames, self.picks, &self.before)? {
            self.outcome = Some(Outcome {
                status,
                output: output_of(machine),
            });
        }
        Ok(())
    }
}

/// How the run ends where these events are taken before the others of their full expression; none where it doesn't end within
/// so many picks, or is undefined.
pub fn outcome_of(
    alloc: Global,
    core: &CoreProgram<'_>,
    course: Course<'_>,
    picks: u64,
    before: &Before,
) -> Result<Option<Outcome>, NoMemory> {
    let mut task = OutcomeTask {
        picks,
        before: *before,
        outcome: None,
    };
    make(alloc, core, course, &mut task)?;
    let OutcomeTask { outcome, .. } = task;
    Ok(outcome)
}
