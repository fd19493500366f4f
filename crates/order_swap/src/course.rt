// A run along an order.
ghost use Rattle.std.specs.Prelude.{◌≡◌, ◌≤◌, ◌<◌, ◌^◌, ◌+◌, ◌∷◌, [], IfOk, OnOk};
ghost use Rattle.order_swap.specs.Ends.{IsOutOfSteps};
ghost use Rattle.order_swap.specs.Stops.{StopsAt, stops_budget};
ghost use Rattle.order_swap.specs.Trails.{all_noted, noted, Grows};

use crate::answer::Trail;
use crate::end::End;
use crate::guide::Guide;
use addr_map::{AddrMap, Mode};
use c_typed::Place;
use core_ir::CoreProgram;
use prov_memory::{Memory, Outputs};
use run_machine::{Halt, MOST_CREATED, Machine, Pick, canonical, code_of, prepare, single};
use run_standing::start_bytes;
use std::alloc::Global;
use ub_base::{Bytes, Cause, Clause, Event, Frame, Frames, NoMemory};

/// How an order ends, after how many picks, the rows of its objects behind those that were given, and the events that it took, that
/// with which it ended among them.
#[derive(Drop)]
pub struct Followed {
    pub end: End,
    pub picks: u64,
    pub map: AddrMap,
    pub trail: Trail,
}

/// Why an order isn't followed further.
#[derive(Clone, Copy)]
enum Stop {
    Ended(u8),
    Raised(Clause),
    Outside(Cause, u64),
    Unplaced,
    Budget,
}

/// Follows the order that a guide chooses, for at most `budget` picks. An object whose name has a row stands there, another is
/// placed in this mode. A frame that has a row keeps its number; another gets the next one. Needs a lawful program with the terms
/// of its full expressions.
pub fn follow<G: Guide>(
    alloc: Global,
    p: &CoreProgram,
    input: &[u8],
    args: &[String],
    map: AddrMap,
    frames: &mut Frames,
    mode: Mode,
    budget: u64,
    guide: &mut G,
) -> Result<Followed, NoMemory>
    requires { budget ≤ 100000000 }
    ensures within { IfOk result (λ f. f.picks ≤ budget) }
    ensures out_of_steps { IfOk result (λ f. IsOutOfSteps f.end → f.picks ≡ budget) }

    // The guide was told each event that was taken, and is what it was made as.
    ensures told { IfOk result (λ f. G.heard guide.new ≡ all_noted f.trail (G.heard guide.old)) }
    ensures given { OnOk result (G.given guide.new ≡ G.given guide.old) }
{
    let program = p.program;
    let reached = start_bytes(program, args);
    if reached > MOST_CREATED {
        return Ok(unstarted(reached, budget, map));
    }
    let code = code_of(alloc, program, p.terms.items.as_slice())?;
    let input = Bytes::from_slice(alloc, input)?;
    let memory = Memory::with_map(alloc, map, Some(mode));
    let Ok(mut machine) = prepare(alloc, program, &code, input, args, memory) else {
        return Err(NoMemory);
    };
    let Reached { stop, picks, trail } = led(&mut machine, frames, budget, guide)?;
    let (outputs, map) = machine.into_output_and_map();
    Ok(Followed {
        end: end_of(stop, outputs),
        picks,
        map,
        trail,
    })
}

// The start would pass the limit on created bytes.
fn unstarted(number: u64, budget: u64, map: AddrMap) -> Followed
    ensures picks { result.picks ≡ 0 }
    ensures out_of_steps { IsOutOfSteps result.end → budget ≡ 0 }
    ensures trail { result.trail ≡ [] }
{
    let end = if budget == 0 {
        End::OutOfSteps
    } else {
        End::Outside(Cause::Created, number)
    };
    Followed {
        end,
        picks: 0,
        map,
        trail: Trail::none(),
    }
}

fn end_of(stop: Stop, outputs: Outputs) -> End
    ensures { IsOutOfSteps result → stops_budget stop }
{
    let Outputs { standard, errors } = outputs;
    match stop {
        Stop::Ended(status) => End::Ended {
            status,
            output: standard,
            errors,
        },
        Stop::Raised(clause) => End::Raised(clause),
        Stop::Outside(cause, number) => End::Outside(cause, number),
        Stop::Unplaced => End::Unplaced,
        Stop::Budget => End::OutOfSteps,
    }
}

// How far the guide leads, and the events that are taken.
#[derive(Drop)]
struct Reached {
    stop: Stop,
    picks: u64,
    trail: Trail,
}

fn led<G: Guide>(
    machine: &mut Machine,
    frames: &mut Frames,
    budget: u64,
    guide: &mut G,
) -> Result<Reached, NoMemory>
    requires { budget ≤ 100000000 }
    ensures within { IfOk result (λ l. l.picks ≤ budget) }
    ensures budget { IfOk result (λ l. stops_budget l.stop → l.picks ≡ budget) }
    ensures told { IfOk result (λ l. G.heard guide.new ≡ all_noted l.trail (G.heard guide.old)) }
    ensures given { OnOk result (G.given guide.new ≡ G.given guide.old) }
{
    let mut trail = Trail::none();
    for picks in 0..budget {
        let pick = next_pick(machine, guide)?;
        if let Some((stop, picks)) = after(machine, frames, picks, guide, &mut trail, pick)? {
            return Ok(Reached { stop, picks, trail });
        }
    }
    Ok(Reached {
        stop: Stop::Budget,
        picks: budget,
        trail,
    })
}

// The event that the guide chooses, where it chooses one, or the canonical pick.
fn next_pick<G: Guide>(machine: &mut Machine, guide: &mut G) -> Result<Result<Pick, Halt>, NoMemory>
    ensures heard { OnOk result (G.heard guide.new ≡ G.heard guide.old) }
    ensures given { OnOk result (G.given guide.new ≡ G.given guide.old) }
{
    match chosen(machine, guide)? {
        Some(place) => chosen_pick(machine, place),
        None => Ok(canonical(machine)),
    }
}

// The event that the guide chooses in the open full expression of the top frame.
fn chosen<G: Guide>(machine: &Machine, guide: &mut G) -> Result<Option<Place>, NoMemory>
    ensures heard { OnOk result (G.heard guide.new ≡ G.heard guide.old) }
    ensures given { OnOk result (G.given guide.new ≡ G.given guide.old) }
{
    if machine.top.stage.is_none() {
        return Ok(None);
    }
    match machine.shown().last() {
        Some(open) => guide.choose(open),
        None => Ok(None),
    }
}

// A guide chooses only what is permitted.
fn chosen_pick(machine: &mut Machine, place: Place) -> Result<Result<Pick, Halt>, NoMemory> {
    match single(machine, place) {
        Ok(Some(pick)) => Ok(Ok(pick)),
        Ok(None) => Err(NoMemory),
        Err(halt) => Ok(Err(halt)),
    }
}

// What stops the order at this pick, with how many picks there are, it among them; none where it goes on.
fn after<G: Guide>(
    machine: &mut Machine,
    frames: &mut Frames,
    picks: u64,
    guide: &mut G,
    trail: &mut Trail,
    pick: Result<Pick, Halt>,
) -> Result<Option<(Stop, u64)>, NoMemory>
    requires { picks < 2 ^ 32 }
    ensures stops { IfOk result (StopsAt picks) }
    ensures told { OnOk result (Grows trail.old trail.new (G.heard guide.old) (G.heard guide.new)) }
    ensures given { OnOk result (G.given guide.new ≡ G.given guide.old) }
{
    match pick {
        Ok(pick) => {
            start_frame(machine, frames, pick)?;
            tell(guide, trail, event_of(pick))?;
            match pick.status() {
                Some(status) => Ok(Some((Stop::Ended(status), picks + 1))),
                None => Ok(None),
            }
        }
        Err(Halt::Raised { event, clause, .. }) => {
            tell(guide, trail, Some(event))?;
            Ok(Some((Stop::Raised(clause), picks + 1)))
        }
        Err(Halt::Over(cause, number)) => Ok(Some((Stop::Outside(cause, number), picks + 1))),
        Err(Halt::Unplaced) => Ok(Some((Stop::Unplaced, picks + 1))),
        Err(Halt::NoMemory) => Err(NoMemory),
    }
}

// A control step has no event.
fn event_of(pick: Pick) -> Option<Event> {
    match pick {
        Pick::Starts(event) | Pick::Event(event, _, _) => Some(event),
        Pick::Step(_) => None,
    }
}

// An event that is taken is told to the guide.
fn tell<G: Guide>(guide: &mut G, trail: &mut Trail, event: Option<Event>) -> Result<(), NoMemory>
    ensures told { OnOk result (Grows trail.old trail.new (G.heard guide.old) (G.heard guide.new)) }
    ensures given { OnOk result (G.given guide.new ≡ G.given guide.old) }
{
    let Some(event) = event else {
        return Ok(());
    };
    guide.told(event)?;
    *trail = trail.with(event);
    Ok(())
}

// Where a pick starts a frame, the frame gets its number.
fn start_frame(machine: &mut Machine, frames: &mut Frames, pick: Pick) -> Result<(), NoMemory> {
    let Pick::Starts(event) = pick else {
        return Ok(());
    };
    let frame = number_of(frames, event)?;
    machine.start(frame);
    Ok(())
}

fn number_of(frames: &mut Frames, event: Event) -> Result<Frame, NoMemory> {
    let count = frames.len();
    if count == u32::MAX || event.frame.0 > count {
        return Err(NoMemory);
    }
    match frames.find(event.frame, event.turn, event.node) {
        Some(frame) => Ok(frame),
        None => Ok(frames.call(event.frame, event.turn, event.node)?),
    }
}
