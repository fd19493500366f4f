// Both orders of two events.
ghost use Rattle.std.specs.Prelude.{◌≡◌, ◌≤◌, ◌↔◌, ◌≢◌, IfOk, IsTrue};
ghost use Rattle.order_swap.specs.Ends.{IsOutOfSteps};
ghost use Rattle.order_swap.specs.Turns.{place_of, AllSteps, IsChosen, MayBeTaken, IsFair, IsTurnOf};

use crate::answer::Swapped;
use crate::course::follow;
use crate::end::differ;
use crate::guide::Canonical;
use crate::numbers::copied;
use crate::swap::Swapper;
use addr_map::{AddrMap, Mode};
use core_ir::CoreProgram;
use std::alloc::Global;
use ub_base::{Event, Frames, NoMemory};

/// Follows the canonical order, and then one that takes the later of two events of one turn before the earlier one, each for at
/// most `budget` picks; `frames` number the frames of the events. Both orders have one map: the second adds rows to it. The two
/// events are those of a dependence on the order, as an audit finds it. Needs a lawful program with the terms of its full
/// expressions. In the second order, in the frame and turn of the events, while `second` is evaluated and isn't done, the next pick
/// is the first permitted event, in post-order, of these: `second`, what is sequenced before it, and the stores of updates whose
/// values are among these, without `first`; the value of an update whose store is `first` comes last of these. Every other pick is
/// the canonical one.
pub fn swap_run(
    alloc: Global,
    p: &CoreProgram,
    input: &[u8],
    args: &[String],
    mode: Mode,
    budget: u64,
    frames: &Frames,
    event: Event,
    against: Event,
) -> Result<Swapped, NoMemory>
    requires { budget ≤ 100000000 }

    // The events of the second order that stand in the turn, each the one that comes next where `second` comes first.
    ensures turn { IfOk result (λ s. IsTurnOf event s.trail s.turn) }
    ensures chosen { IfOk result (λ s. AllSteps (IsChosen (place_of event) (place_of against)) s.turn) }
    ensures permitted { IfOk result (λ s. AllSteps MayBeTaken s.turn) }

    // While `second` is evaluated and not done, `first` isn't taken.
    ensures second_first { IfOk result (λ s. AllSteps (IsFair (place_of event) (place_of against)) s.turn) }
    ensures differs { IfOk result (λ s. IsTrue s.differs ↔ (s.canonical.0 ≢ s.swapped.0)) }
    ensures canonical_within { IfOk result (λ s. s.canonical.1 ≤ budget) }
    ensures swapped_within { IfOk result (λ s. s.swapped.1 ≤ budget) }
    ensures canonical_out_of_steps { IfOk result (λ s. IsOutOfSteps s.canonical.0 → s.canonical.1 ≡ budget) }
    ensures swapped_out_of_steps { IfOk result (λ s. IsOutOfSteps s.swapped.0 → s.swapped.1 ≡ budget) }
{
    let mut numbers = copied(alloc, frames)?;
    let map = AddrMap::new(alloc);
    let canonical = follow(
        alloc,
        p,
        input,
        args,
        map,
        &mut numbers,
        mode,
        budget,
        &mut Canonical {},
    )?;
    let mut swapper = Swapper::new(alloc, event, against);
    let swapped = follow(
        alloc,
        p,
        input,
        args,
        canonical.map,
        &mut numbers,
        mode,
        budget,
        &mut swapper,
    )?;
    let differs = differ(&swapped.end, &canonical.end);
    Ok(Swapped {
        canonical: (canonical.end, canonical.picks),
        swapped: (swapped.end, swapped.picks),
        differs,
        trail: swapped.trail,
        turn: swapper.into_steps(),
    })
}
