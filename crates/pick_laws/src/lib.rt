//! Each canonical pick of the machine of a run is the step of the definitions, and the machine goes on behind it.
//!
//! A law function takes nothing and answers nothing: its contract is a law about the definitions.
#![tactic(auto)]

ghost use Rattle.pick_laws.specs.Going.{EventGoesOn, LibraryGoesOn, InitializerGoesOn, CallGoesOn, StepGoesOn};
ghost use Rattle.pick_laws.specs.Next.{EventIsNext, InitializerIsNext, CallIsNext};
ghost use Rattle.pick_laws.specs.Picks.{ControlComes, EventComes, LibraryComes, InitializerComes, CallComes};

use frame_laws::{law_ordered, law_reached, law_scoped};
use run_answers::law_picks;
use run_laws::{law_calls, law_given, law_initial, law_open};
use run_layout::law_choices;

/// Behind each canonical pick of a machine that is going, in a world in which its program's code and its rows keep the rules of a run, it is going again,
/// with one pick more: behind an event that isn't a body (`events`), the body of a call of a library function (`libraries`), one that starts the frame
/// of an isolated initializer (`initializers`) or of a function (`calls`), once the frame has its number, and a control step (`steps`), behind which the
/// frame goes on without an open full expression, or with one that has just begun, or has ended.
pub fn law_going()
    ensures events { EventGoesOn }
    ensures libraries { LibraryGoesOn }
    ensures initializers { InitializerGoesOn }
    ensures calls { CallGoesOn }
    ensures steps { StepGoesOn }
{
    law_scoped();
    law_ordered();
    law_reached();
    law_choices();
    law_open();
    law_picks();
}

/// What run_machine promises of a canonical pick, of a machine that is going and can take it, comes to the outcome of the definitions' step: the run goes on
/// and the machine is going again, or it ends with its status and what was written, raises the clause, passes the limit, or needs a row that isn't there. So
/// it is of control steps (`control`), of events that aren't bodies (`events`), of bodies of calls of the library (`libraries`), and of bodies that start
/// frames (`initializers`, `calls`).
pub fn law_pick()
    ensures control { ControlComes }
    ensures events { EventComes }
    ensures libraries { LibraryComes }
    ensures initializers { InitializerComes }
    ensures calls { CallComes }
{
    law_going();
}

/// The event that is the canonical pick of such a machine may be taken: one that isn't a body (`events`), that of an isolated initializer, which has the
/// number of the full expression of its own tree (`initializers`), and that of a call of a function that is none of the library (`calls`).
pub fn law_next()
    ensures events { EventIsNext }
    ensures initializers { InitializerIsNext }
    ensures calls { CallIsNext }
{
    law_given();
    law_initial();
    law_calls();
    law_picks();
}
