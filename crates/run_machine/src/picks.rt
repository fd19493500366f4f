// Which pick is the canonical one, which are permitted, and what an event completes.
ghost use Rattle.std.specs.Prelude.{◌≡◌, ◌≢◌, ◌+◌, ◌-◌, ◌<◌, ◌^◌, ◌∷◌, ◌==◌, min, false, true, [], length, is_some, ℕ, List, Option, Some, slice_get, IfOk};
ghost use Rattle.std.specs.Prelude.{IfSome, IfNone, OnOk, if◌then◌else◌};
ghost use Rattle.c_typed.specs.declared.tree.Place.{Place as PlaceOf};
ghost use Rattle.c_typed.specs.Tree.{tree_of, size};
ghost use Rattle.c_typed.specs.Order.{has, Taken};
ghost use Rattle.c_typed.specs.Decide.{is_permitted as permitted_in};
ghost use Rattle.c_model.specs.Steps.{Ev, MayPick};
ghost use Rattle.c_model.specs.Runs.{State, canonical_pick};
ghost use Rattle.c_model.specs.World.{World};
ghost use Rattle.c_model.specs.Completions.{Operands_of, Own_node};
ghost use Rattle.seq_order.specs.declared.done.Marks.{Marks};
ghost use Rattle.seq_order.specs.Marked.{taken_in, done_in};
ghost use Rattle.run_control.specs.View.{Meaning};
ghost use Rattle.run_layout.specs.Named.{IsDueOf};
ghost use Rattle.run_listing.specs.Along.{events_of, IsListed};
ghost use Rattle.run_state.specs.Stands.{Stands};
ghost use Rattle.run_state.specs.declared.watch.Begun.{Begun as BegunOf};
ghost use Rattle.run_answers.specs.Answering.{AnswersCanonical, TakesControl};
ghost use Rattle.run_answers.specs.Completing.{CompletesNext, CompletesNoted, completed_seen};
ghost use Rattle.run_answers.specs.Keeping.{KeepsPick};
ghost use Rattle.run_answers.specs.Library.{AnswersNextLibrary};
ghost use Rattle.run_answers.specs.LibraryCompletes.{CompletesNextLibrary};
ghost use Rattle.run_answers.specs.Raising.{RaisesNext};
ghost use Rattle.run_answers.specs.Rows.{GrowsByControl, GrowsNext};
ghost use Rattle.run_answers.specs.Starting.{AnswersNextBody, AnswersNextCall};
ghost use Rattle.run_answers.specs.Straying.{Reaches, TakesSo};
ghost use Rattle.run_answers.specs.Taking.{AnswersNext};
ghost use Rattle.run_answers.specs.Picks.{top_of, ahead_part, passed_part, kept_of, at_cursor, ByOrder, ComesNext, Decides, Follows, IsPick, IsStep, Permits};
ghost use Rattle.run_answers.specs.Picks.{whole_part, Refuses, Strays, Takes};
ghost use Rattle.run_machine.specs.Strayed.{GoesOnStrayed, IsListedOff};
ghost use Rattle.run_machine.specs.Written.{KeepsStreams};

use crate::control::control_step;
use crate::events::take_event;
use c_typed::Place;
use run_answers::{Completed, Pick, law_picks, law_straying};
use run_layout::{Due, Listed};
use run_listing::{due_of, next, next_left, part, passed};
use run_state::{Begun, Halt, Machine, Stage};
use seq_order::{Done, is_permitted};
use std::alloc::Global;
use ub_base::NoMemory;

/// Takes the canonical pick: the control step, or the next event of the top frame's full expression.
#[inline(always)]
pub fn canonical(machine: &mut Machine) -> Result<Pick, Halt>
    ensures takes { (world : World) (meaning : Option ℕ → Meaning) (st : State) → Stands world meaning machine.old st
        → IfOk result (IsPick world st (canonical_pick world st.top st.top.begun)) }
    ensures steps { AnswersCanonical machine.old machine.new result }
    ensures events { AnswersNext machine.old machine.new result }
    ensures bodies { AnswersNextBody machine.old machine.new result }
    ensures completes { CompletesNext machine.old machine.new result }
    ensures calls { AnswersNextCall machine.old machine.new result }
    ensures keeps { KeepsPick machine.old machine.new result }
    ensures libraries { AnswersNextLibrary machine.old machine.new result }
    ensures completes_libraries { CompletesNextLibrary machine.old machine.new result }
    ensures raises { RaisesNext machine.old result }
    ensures rows { GrowsNext machine.old machine.new result }
    ensures strayed { GoesOnStrayed machine.old machine.new result }
    // Where it raises a clause or passes a limit, nothing was written.
    ensures streams { KeepsStreams machine.old machine.new result }
{
    law_picks();
    let next = follow(machine)?;
    machine.items.clear();
    match next {
        Some(due) => take_event(machine, due),
        None => take_control(machine),
    }
}

// The control step is taken.
#[inline(always)]
fn take_control(machine: &mut Machine) -> Result<Pick, Halt>
    ensures step { IfOk result IsStep }
    ensures answers { TakesControl machine.old machine.new result }
    ensures keeps { KeepsPick machine.old machine.new result }
    ensures rows { GrowsByControl machine.old machine.new result }
    ensures streams { KeepsStreams machine.old machine.new result }
{
    match control_step(machine) {
        Ok(status) => Ok(Pick::Step(status)),
        Err(halt) => Err(halt),
    }
}

/// Takes this event of the top frame's full expression. None where it isn't permitted, and then nothing was taken.
pub fn single(machine: &mut Machine, place: Place) -> Result<Option<Pick>, Halt>
    ensures refused { (world : World) (meaning : Option ℕ → Meaning) (st : State) → Stands world meaning machine.old st
        → Refuses (MayPick world st.top st.top.begun (Ev place)) result }
    ensures taken { (world : World) (meaning : Option ℕ → Meaning) (st : State) → Stands world meaning machine.old st
        → Takes (MayPick world st.top st.top.begun (Ev place)) result }
    ensures named { (world : World) (meaning : Option ℕ → Meaning) (st : State) → Stands world meaning machine.old st
        → IfOk result (λ pick. IfSome pick (IsPick world st (Ev place))) }
    ensures unchanged { IfOk result (λ pick. IfNone pick (machine.new ≡ record machine.old { items = [] })) }
    ensures does { TakesSo machine.old place machine.new result }
{
    law_straying();
    let due = permitted(machine, place)?;
    machine.items.clear();
    match due {
        Some(due) => Ok(Some(take_event(machine, due)?)),
        None => Ok(None),
    }
}

// The entry of this event where it is permitted: the machine is ready to take it then.
fn permitted<'p, 'c>(
    machine: &mut Machine<'p, 'c>,
    place: Place,
) -> Result<Option<&'c Due<'p>>, NoMemory>
    ensures permits { IfOk result (λ due. Permits machine.old place (is_some due)) }
    ensures place { IfOk result (λ due. IfSome due (λ d. d.now.place ≡ place)) }
    ensures named { IfOk result (λ due. IfSome due (λ d. IsDueOf machine.new.image.code.now.tables d.now)) }
    ensures frame { IfOk result (λ due. (machine.new.top.frame ≡ machine.old.top.frame) × (machine.new.top.turn ≡ machine.old.top.turn)) }
    ensures unchanged { IfOk result (λ due. IfNone due (machine.new ≡ machine.old)) }
    ensures reaches { IfOk result (λ due. IfSome due (λ d. Reaches machine.old d.now machine.new)) }
{
    law_picks();
    let Some(stage) = machine.top.stage else {
        return Ok(None);
    };
    if stage.straight {
        if let Some((count, due)) = listed_next(machine, stage)? {
            if due.place == place {
                move_on(machine, stage, count);
                return Ok(Some(due));
            }
        }
    }
    let code = machine.image.code;
    let Some(due) = due_of(part(&code.listing, stage.first, stage.end), place) else {
        return Ok(None);
    };
    if strays(machine, stage, place)? {
        Ok(Some(due))
    } else {
        Ok(None)
    }
}

// Whether this event is permitted. Where it is, the order isn't the canonical one any more.
fn strays(machine: &mut Machine, stage: Stage, place: Place) -> Result<bool, NoMemory>
    requires stage { machine.old.top.stage ≡ Some stage }
    ensures permitted { IfOk result (Decides machine.old stage place) }
    ensures state { IfOk result (Strays machine.old stage machine.new) }
{
    if !stage.straight {
        let done = strayed(machine)?;
        return is_permitted_after(machine, place, done);
    }
    let done = passed_events(machine, stage)?;
    if !is_permitted_after(machine, place, &done)? {
        return Ok(false);
    }
    keep_done(
        machine.alloc,
        &mut machine.strayed,
        machine.below.len(),
        done,
    )?;
    machine.top.stage = Some(Stage {
        straight: false,
        ..stage
    });
    Ok(true)
}

// Whether this event is permitted in the top frame's full expression where these are done.
fn is_permitted_after(machine: &Machine, place: Place, done: &Done) -> Result<bool, NoMemory>
    ensures { IfOk result (λ permitted. (b : BegunOf) × (top_of machine.now ≡ Some b) × (size (tree_of b.root.now) < 2 ^ 32
        → permitted ≡ permitted_in (tree_of b.root.now) (taken_in b.taken) (done_in done.now) place)) }
{
    let begun = opened(machine)?;
    Ok(is_permitted(begun.root, place, &begun.taken, done))
}

// The top frame's full expression.
fn opened<'m, 'p>(machine: &'m Machine<'p, '_>) -> Result<&'m Begun<'p>, NoMemory>
    ensures { IfOk result (λ b. top_of machine.now ≡ Some b.now) }
{
    match machine.begun.get(machine.below.len()) {
        Some(begun) => Ok(begun),
        None => Err(NoMemory),
    }
}

// What is done in it, where its order isn't the canonical one.
fn strayed<'m>(machine: &'m Machine) -> Result<&'m Done, NoMemory>
    ensures { IfOk result (λ done. slice_get machine.now.strayed.items (length machine.now.below.items) ≡ Some done.now) }
{
    match machine.strayed.get(machine.below.len()) {
        Some(done) => Ok(done),
        None => Err(NoMemory),
    }
}

// The events that the cursor has passed.
fn passed_events(machine: &Machine, stage: Stage) -> Result<Done, NoMemory>
    ensures { IfOk result (λ done. (b : BegunOf) × (top_of machine.now ≡ Some b)
        × ((p : PlaceOf) → done_in done p ≡ has (events_of (taken_in b.taken) (passed_part machine.now stage)) p)) }
{
    let code = machine.image.code;
    let begun = opened(machine)?;
    passed(
        machine.alloc,
        part(&code.listing, stage.first, stage.cursor),
        &begun.taken,
    )
}

// Goes on to the next event of the top frame's full expression in canonical order; None where none is left or none has begun.
#[inline(always)]
fn follow<'p, 'c>(machine: &mut Machine<'p, 'c>) -> Result<Option<&'c Due<'p>>, NoMemory>
    ensures follows { IfOk result (Follows machine.old machine.new) }
    ensures streams { machine.new.streams ≡ machine.old.streams }
    ensures named { IfOk result (λ due. IfSome due (λ d. IsDueOf machine.new.image.code.now.tables d.now)) }
    ensures listed { IfOk result (λ due. IfSome due (λ d. IsListedOff machine.old d.now)) }
    ensures frame { IfOk result (λ due. (machine.new.top.frame ≡ machine.old.top.frame) × (machine.new.top.turn ≡ machine.old.top.turn)) }
{
    let Some(stage) = &machine.top.stage else {
        return Ok(None);
    };
    if !stage.straight {
        return strayed_next(machine, *stage);
    }
    let stage = *stage;
    let Some((count, due)) = listed_next(machine, stage)? else {
        return Ok(None);
    };
    move_on(machine, stage, count);
    Ok(Some(due))
}

// The next event by what is done. Not inlined, since few orders leave the canonical one.
#[inline(never)]
fn strayed_next<'p, 'c>(
    machine: &Machine<'p, 'c>,
    stage: Stage,
) -> Result<Option<&'c Due<'p>>, NoMemory>
    ensures next { IfOk result (λ due. (b : BegunOf) × (top_of machine.now ≡ Some b) × ByOrder machine.now stage b due) }
    ensures named { IfOk result (λ due. IfSome due (λ d. IsDueOf machine.now.image.code.now.tables d.now)) }
    ensures listed { IfOk result (λ due. IfSome due (λ d. IsListed (whole_part machine.now stage) d.now)) }
{
    let code = machine.image.code;
    let begun = opened(machine)?;
    let done = strayed(machine)?;
    Ok(next_left(
        part(&code.listing, stage.first, stage.end),
        begun.root,
        &begun.taken,
        done,
    ))
}

// The next event of the listing from the cursor on, and how many entries behind the cursor it stands.
#[inline(always)]
fn listed_next<'p, 'c>(
    machine: &Machine<'p, 'c>,
    stage: Stage,
) -> Result<Option<(usize, &'c Due<'p>)>, NoMemory>
    ensures next { IfOk result (ComesNext machine.now stage) }
    ensures named { IfOk result (λ found. IfSome found (λ f. IsDueOf machine.now.image.code.now.tables f.1.now)) }
{
    let code = machine.image.code;
    let begun = opened(machine)?;
    Ok(next(part(&code.listing, stage.cursor, stage.end), &begun.taken))
}

// The cursor moves on by so many entries.
fn move_on(machine: &mut Machine, stage: Stage, count: usize)
    requires { machine.old.top.stage ≡ Some stage }
    ensures { machine.new ≡ at_cursor machine.old stage (min (stage.cursor + count) (2 ^ 64 - 1)) }
{
    if let Some(open) = &mut machine.top.stage {
        open.cursor = stage.cursor.saturating_add(count);
    }
}

// What the event completes: its node, and where the next event is the parent's own, all below the parent.
#[inline(always)]
pub fn completed(machine: &Machine, due: &Due) -> Result<Completed, NoMemory>
    ensures noted { IfOk result (CompletesNoted due.now machine.now) }
{
    let (Some(stage), true) = (machine.top.stage, due.completes) else {
        return Ok(Completed::Nothing);
    };
    let Some(parent) = due.parent else {
        return Ok(Completed::Node);
    };
    if let Some(place) = event_ahead(machine, stage) {
        return Ok(completed_before(parent, place.node));
    }
    match listed_next(machine, stage)? {
        Some((_, next)) if next.place.node == parent => Ok(Completed::Operands(parent)),
        _ => Ok(Completed::Node),
    }
}

// The event that stands right at the cursor: it comes next whatever is chosen. None where no entry is left, or where it is that of an operand.
#[inline(always)]
fn event_ahead(machine: &Machine, stage: Stage) -> Option<Place>
    ensures { IfSome result (λ u. (taken : Taken) → (us : List PlaceOf) × (events_of taken (ahead_part machine.now stage) ≡ u ∷ us)) }
{
    if stage.cursor >= stage.end {
        return None;
    }
    match machine.image.code.listing.get(stage.cursor) {
        Some(Listed::Event(due)) => Some(due.place),
        _ => None,
    }
}

// What the last event of a node of this parent completes, where the next event is of that node.
fn completed_before(parent: u32, node: u32) -> Completed
    ensures { completed_seen result ≡ (if node == parent then Operands_of parent else Own_node) }
{
    if node == parent {
        Completed::Operands(parent)
    } else {
        Completed::Node
    }
}

// What is done in the full expression at this height.
fn keep_done(
    alloc: Global,
    strayed: &mut Vec<Done>,
    height: usize,
    done: Done,
) -> Result<(), NoMemory>
    ensures kept { OnOk result (slice_get strayed.new.items height ≡ Some done) }
    ensures others { OnOk result ((j : ℕ) (other : List Marks) → j ≢ height → slice_get strayed.old.items j ≡ Some other
        → slice_get strayed.new.items j ≡ Some other) }
{
    while strayed.len() <= height {
        strayed.push(Done::new(alloc))?;
    }
    strayed[height] = done;
    Ok(())
}
