// An event of a full expression is taken.
ghost use Rattle.std.specs.Prelude.{◌≡◌, Some, IfOk, OnOk};
ghost use Rattle.run_layout.specs.Named.{IsDueOf};
ghost use Rattle.run_answers.specs.Completing.{CompletesEvent, CompletesPick};
ghost use Rattle.run_answers.specs.Ending.{Notes};
ghost use Rattle.run_answers.specs.Library.{AnswersLibrary};
ghost use Rattle.run_answers.specs.LibraryCompletes.{CompletesLibrary};
ghost use Rattle.run_answers.specs.Picks.{event_at, IsOfEvent};
ghost use Rattle.run_answers.specs.Raising.{RaisesAt};
ghost use Rattle.run_answers.specs.Rows.{GrowsAt, KeepsMemory};
ghost use Rattle.run_answers.specs.Starting.{AnswersBody, AnswersCall, FunctionStands, FunctionSteps};
ghost use Rattle.run_answers.specs.Taking.{past_event, AnswersEvent, DecidesBy, FollowsEvent};
ghost use Rattle.run_machine.specs.Written.{KeepsStreams};

use crate::picks::completed;
use c_typed::Place;
use library_laws::law_library;
use program_view::law_view;
use run_answers::{Outcome, Pick, law_bodies, law_events};
use run_events::{choose, perform};
use run_layout::{Code, Due};
use run_listing::law_cursor;
use run_state::{Halt, Machine};
use ub_base::{Event, NoMemory};

// The cursor passes the event that is taken.
fn pass_event(machine: &mut Machine)
    ensures { machine.new ≡ past_event machine.old }
{
    if let Some(stage) = &mut machine.top.stage {
        if stage.straight {
            stage.cursor = stage.cursor.saturating_add(1);
        }
    }
}

// Takes a permitted event of the top frame's full expression. Inlined up to the run, as all that each event goes through is, since each call that hands
// on a result copies it.
#[inline(always)]
pub fn take_event(machine: &mut Machine, due: &Due) -> Result<Pick, Halt>
    requires named { IsDueOf machine.old.image.code.now.tables due.now }
    ensures event { IfOk result (IsOfEvent (event_at machine.old due.now.place)) }
    ensures answers { AnswersEvent due.now machine.old machine.new result }
    ensures bodies { AnswersBody due.now machine.old machine.new result }
    ensures completes { CompletesEvent due.now machine.old machine.new result }
    ensures calls { AnswersCall due.now machine.old machine.new result }
    ensures libraries { AnswersLibrary due.now machine.old machine.new result }
    ensures completes_libraries { CompletesLibrary due.now machine.old machine.new result }
    ensures raised { RaisesAt machine.old due.now result }
    ensures rows { GrowsAt due.now machine.old machine.new result }
    ensures streams { KeepsStreams machine.old machine.new result }
{
    law_events();
    law_bodies();
    law_library();
    law_view();
    law_cursor();
    let code = machine.image.code;
    let event = Event {
        frame: machine.top.frame,
        turn: machine.top.turn,
        node: due.place.node,
        kind: due.place.kind,
    };
    pass_event(machine);
    match perform(machine, &due.act, event) {
        Ok(Outcome::Done) => finish_event(machine, code, due, event, None),
        Ok(Outcome::Started) => Ok(Pick::Starts(event)),
        Ok(Outcome::End(status)) => finish_event(machine, code, due, event, Some(status)),
        Err(fault) => Err(fault.of(event, due.line)),
    }
}

// The act of an event is done: it is noted, and its choice is made.
#[inline(always)]
fn finish_event(
    machine: &mut Machine,
    code: &Code,
    due: &Due,
    event: Event,
    status: Option<u8>,
) -> Result<Pick, Halt>
    requires named { IsDueOf code.now.tables due.now }
    ensures follows { FollowsEvent code.now event status due.now machine.old machine.new result }
    ensures completes { CompletesPick due.now machine.new result }
    ensures memory { KeepsMemory machine.old machine.new result }
{
    note(machine, due.place)?;
    choose_at(machine, code, due)?;
    Ok(Pick::Event(event, completed(machine, due)?, status))
}

// The choice of an event, where it has one.
#[inline(always)]
fn choose_at(machine: &mut Machine, code: &Code, due: &Due) -> Result<(), NoMemory>
    requires named { IsDueOf code.now.tables due.now }
    ensures decides { OnOk result (DecidesBy code.now due.now.choice machine.old machine.new) }
    ensures memory { OnOk result (machine.new.memory ≡ machine.old.memory) }
{
    match due.choice {
        Some(choice) => choose(machine, code, choice),
        None => Ok(()),
    }
}

// An event of the top frame's full expression is done. On the canonical way the cursor says so.
#[inline(always)]
pub fn note(machine: &mut Machine, place: Place) -> Result<(), NoMemory>
    ensures work { machine.new.work ≡ machine.old.work }
    ensures notes { OnOk result (Notes machine.old place machine.new) }
{
    let Some(stage) = machine.top.stage else {
        return Err(NoMemory);
    };
    if stage.straight {
        return Ok(());
    }
    match machine.strayed.get_mut(machine.below.len()) {
        Some(done) => done.add(place),
        None => Err(NoMemory),
    }
}
