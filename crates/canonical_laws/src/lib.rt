//! The canonical order of a run: each canonical pick of the machine of a run is the step of the definitions, from its start on.
//!
//! A law function takes nothing and answers nothing: its contract is a law about the definitions.
#![tactic(auto)]

ghost use Rattle.canonical_laws.specs.Asked.{EventIsAsked};
ghost use Rattle.canonical_laws.specs.Held.{StartHoldsNone, StepsHoldOneMore, CanonicalHoldsFew};
ghost use Rattle.canonical_laws.specs.Idle.{StepStaysIdle, EventLeavesNone, LibraryLeavesNone, InitializerLeavesNone, CallLeavesNone};
ghost use Rattle.canonical_laws.specs.Begins.{GoingIsAlong};
ghost use Rattle.canonical_laws.specs.Comes.{AlongComes};

use argument_laws::law_arguments;
use code_view::{law_blocks, law_constants, law_labels, law_named, law_trees, law_views};
use control_laws::{law_control, law_entered_arguments, law_open_frame};
use pick_laws::{law_next, law_pick};
use program_view::law_view;
use run_answers::{law_events, law_picks};
use run_laws::{law_asked, law_library_calls};
use value_facts::{law_placed_values, law_small_values, law_unresulted};

/// Frames start one by one: a pick adds at most one to those that are held.
pub fn law_held()
    ensures starts { StartHoldsNone }
    ensures keeps { StepsHoldOneMore }
    ensures canonical { CanonicalHoldsFew }
{}

/// The frame of an isolated initializer has no result in the machine, from its start on (6.7.9p23): a control step keeps it so (`steps`), and behind an event,
/// and as a frame starts, the top frame has none.
pub fn law_idle()
    ensures steps { StepStaysIdle }
    ensures events { EventLeavesNone }
    ensures libraries { LibraryLeavesNone }
    ensures initializers { InitializerLeavesNone }
    ensures calls { CallLeavesNone }
{
    law_events();
}

/// Where the canonical pick of a machine that is going is an event, the full expression of the top frame is open as picks ask it, and the event may be taken:
/// one that isn't a body, the body of an isolated initializer, or that of a call of a function, of the program or of the library.
pub fn law_event_asked()
    ensures { EventIsAsked }
{
    law_view();
    law_blocks();
    law_constants();
    law_labels();
    law_named();
    law_trees();
    law_views();
    law_asked();
    law_open_frame();
    law_next();
    law_library_calls();
    law_picks();
    law_small_values();
    law_unresulted();
}

/// What run_machine promises of a canonical pick comes, of each machine along a run, to the outcome of the definitions' step: the run goes on and the machine
/// is along it again, its newest entry told by the pick's event and items, and what that completes by what the pick says; or it ends with its status and what
/// was written, raises the clause, or passes the limit. So it is in each world whose rows have those of the machine before the pick and behind it. What is
/// asked of picks is there.
pub fn law_along()
    ensures { AlongComes }
{
    law_pick();
    law_event_asked();
    law_held();
    law_idle();
    law_control();
    law_entered_arguments();
    law_placed_values();
    law_unresulted();
    law_arguments();
}

/// A machine that is going at the start of a run is along it, where the world keeps values small, what `main` is called with is placed, and the input is bytes;
/// nothing was done, and its frame is listed.
pub fn law_begins()
    ensures { GoingIsAlong }
{
    law_placed_values();
    law_unresulted();
    law_arguments();
    law_held();
}
