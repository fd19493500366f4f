// A run made again, pick by pick.

use run_machine::{Halt, Machine, Pick, canonical};
use ub_base::{Event, Frames, NoMemory};

// Where a pick starts a frame, the frame gets its number.
fn start_frame(machine: &mut Machine, frames: &mut Frames, pick: Pick) -> Result<(), NoMemory> {
    let Pick::Starts(event) = pick else {
        return Ok(());
    };
    let count = frames.len();
    if count == u32::MAX || event.frame.0 > count {
        return Err(NoMemory);
    }
    let frame = match frames.find(event.frame, event.turn, event.node) {
        Some(frame) => frame,
        None => frames.call(event.frame, event.turn, event.node)?,
    };
    machine.start(frame);
    Ok(())
}

/// What a pick came to; none where it isn't taken, so that the run ends there.
pub fn taken(
    machine: &mut Machine,
    frames: &mut Frames,
    pick: Result<Pick, Halt>,
) -> Result<Option<Pick>, NoMemory> {
    match pick {
        Ok(pick) => {
            start_frame(machine, frames, pick)?;
            Ok(Some(pick))
        }
        Err(Halt::Raised { .. } | Halt::Over(_, _)) => Ok(None),
        Err(Halt::Unplaced | Halt::NoMemory) => Err(NoMemory),
    }
}

/// Takes the canonical pick.
pub fn step(machine: &mut Machine, frames: &mut Frames) -> Result<Option<Pick>, NoMemory> {
    let pick = canonical(machine);
    taken(machine, frames, pick)
}

/// The event of a pick.
pub fn event_of(pick: Pick) -> Option<Event> {
    match pick {
        Pick::Step(_) => None,
        Pick::Starts(event) | Pick::Event(event, _, _) => Some(event),
    }
}
