//! What the picks of a run ask holds in the states of a run: laws that join those of code_view, run_events and run_machine.
//!
//! A law function takes nothing and answers nothing: its contract is a law about the definitions.
#![tactic(auto)]

ghost use Rattle.run_laws.specs.Asked.{RoomsAreAsked, CodeHasRooms, EventsAreAsked, LabelsAreAsked, ConstantsAreAsked};
ghost use Rattle.run_laws.specs.Given.{MovesAreNear, OpenTakesGiven, OpenCanBeTaken, OpenMayTake, OpenMayTakeNext};
ghost use Rattle.run_laws.specs.Initial.{OpenIsInitializer, OpenMayStart, OpenMayStartNext};
ghost use Rattle.run_laws.specs.Calls.{OpenIsCall, OpenIsCallCode, OpenMayCall, OpenMayCallNext};
ghost use Rattle.run_laws.specs.LibraryCalls.{OpenIsLibraryCall, OpenMayCallLibraryNext};
ghost use Rattle.run_laws.specs.Beginning.{BeginsOpen};
ghost use Rattle.run_laws.specs.Staying.{OpenStays};

use code_view::{law_constants, law_events, law_named, law_rooms};
use run_answers::{law_acts, law_events as law_taken_events, law_picks};
use run_layout::law_choices;
use run_state::law_operands;
use value_facts::law_small;

/// What code_view proves of the rooms, the events, the labels and the constants of a lawful program's code is what run_machine asks of them.
pub fn law_asked()
    ensures rooms { RoomsAreAsked }
    ensures code { CodeHasRooms }
    ensures events { EventsAreAsked }
    ensures labels { LabelsAreAsked }
    ensures constants { ConstantsAreAsked }
{
    law_rooms();
    law_constants();
}

/// A node of a lawful tree moves a pointer by fewer than 2^127 bytes, where the values that were given are small (6.5.6p8).
pub fn law_near()
    ensures { MovesAreNear }
{}

/// In a machine that stands for a state, over the code of a lawful program, with the blocks open that are round what its full expression names, what an event
/// takes that may come next, and isn't a body, is given; so its act is that of its node, and it can be taken.
pub fn law_given()
    ensures given { OpenTakesGiven }
    ensures can { OpenCanBeTaken }
    ensures may { OpenMayTake }
    ensures next { OpenMayTakeNext }
{
    law_acts();
    law_named();
    law_events();
    law_near();
    law_asked();
    law_picks();
}

/// So the body of an isolated initializer may start, that comes next in such a machine, where each isolated initializer has the number of the full
/// expression of its own tree (6.7.9p23).
pub fn law_initial()
    ensures is { OpenIsInitializer }
    ensures may { OpenMayStart }
    ensures next { OpenMayStartNext }
{
    law_asked();
}

/// So the body of a call may start its function's frame, that comes next in such a machine, where the function is none of the library (6.5.2.2p10). What the
/// code and the machine have of the call holds whatever function is called (`code`).
pub fn law_calls()
    ensures code { OpenIsCallCode }
    ensures is { OpenIsCall }
    ensures may { OpenMayCall }
    ensures next { OpenMayCallNext }
{
    law_acts();
    law_named();
    law_asked();
    law_picks();
}

/// So the body of a call of a library function may be done, that comes next in such a machine, where its numbers of bytes have 64 bits (7.21, 7.22, 7.24).
pub fn law_library_calls()
    ensures is { OpenIsLibraryCall }
    ensures next { OpenMayCallLibraryNext }
{
    law_acts();
    law_named();
    law_events();
    law_asked();
    law_picks();
}

/// The machine stands so as a full expression begins, where it has just the choices that are made at once, and rooms for its values (6.8p4); and behind each
/// event that isn't a body it stands so again.
pub fn law_open()
    ensures begins { BeginsOpen }
    ensures stays { OpenStays }
{
    law_choices();
    law_operands();
    law_acts();
    law_named();
    law_events();
    law_near();
    law_asked();
    law_small();
    law_picks();
    law_taken_events();
}
