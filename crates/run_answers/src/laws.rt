// Laws of what acts and picks answer.
ghost use Rattle.run_answers.specs.Nodes.{ActsAreOfNodes};
ghost use Rattle.run_answers.specs.Takes.{CallTakesGiven, PermittedTakesGiven};
ghost use Rattle.run_answers.specs.Completing.{EventCompletes};
ghost use Rattle.run_answers.specs.Library.{LibraryStands, LibrarySteps};
ghost use Rattle.run_answers.specs.LibraryCompletes.{LibraryCompletes};
ghost use Rattle.run_answers.specs.Picks.{NoneIsPermitted, UnlistedIsRefused, NextIsPermitted, PermitsDecided, FollowsCanonical, BelowIsShown};
ghost use Rattle.run_answers.specs.Starting.{FunctionStands, FunctionSteps};
ghost use Rattle.run_answers.specs.Straying.{LeavesStanding};
ghost use Rattle.run_answers.specs.Taking.{EventComes, EventStands, EventSteps};

use c_model::law_update_halves;
use completion_laws::law_listed_completes;
use library_laws::law_library;
use program_view::law_view;
use run_layout::law_choices;
use run_listing::{law_cursor, law_listed_tree, law_strayed};
use run_state::law_operands;

/// The act of an event in the code is that of its node in the definitions of runs, where the operands that it evaluates give their values: it does the
/// same, from values that are given (6.5). And what is permitted to come next finds them given. Bodies aside; but the operands of a call are given, whose
/// body is permitted to come next (6.5.2.2p10).
pub fn law_acts()
    ensures nodes { ActsAreOfNodes }
    ensures takes { PermittedTakesGiven }
    ensures calls { CallTakesGiven }
{
    law_operands();
}

/// By each state of the definitions that a machine stands for: in the top frame no event may come next where no full expression has begun, nor one
/// that isn't listed; the next one along the canonical way may, and any other one where what is done permits it. The event that the machine goes
/// on to is the canonical pick, and the control step is where there is none. Of each frame
/// below the top one a full expression is shown.
pub fn law_picks()
    ensures closed { NoneIsPermitted }
    ensures unlisted { UnlistedIsRefused }
    ensures next { NextIsPermitted }
    ensures decided { PermitsDecided }
    ensures follows { FollowsCanonical }
    ensures shown { BelowIsShown }
{
    law_view();
    law_listed_tree();
    law_cursor();
    law_strayed();
}

/// A machine that leaves the canonical way stands for what it stood for: what is done is kept then as a list of its own.
pub fn law_straying()
    ensures { LeavesStanding }
{
    law_view();
    law_cursor();
}

/// Behind an event that isn't a body, and that may come next, a machine stands for the state of the definitions that has the event done: its value, what is
/// chosen by it, and what is done; the frames below stand as they stood (`stands`). Where the act is that of its node, this is the definitions' next
/// state, within the limits (`steps`), and what is taken so goes on as that state, with the items of the pick (`comes`). Along the canonical way it completes
/// what the definitions say (`completes`).
pub fn law_events()
    ensures stands { EventStands }
    ensures steps { EventSteps }
    ensures comes { EventComes }
    ensures completes { EventCompletes }
{
    law_view();
    law_listed_completes();
    law_choices();
    law_operands();
    law_cursor();
    law_update_halves();
}

/// Where a function's frame has started at a body, with the arguments in its first rooms, the machine stands for the state of the definitions in which it has
/// started, once the frame has its number (`stands`). This is the definitions' next state, within the limits, where the body is that of a call that may call
/// the function (`steps`).
pub fn law_calls()
    ensures stands { FunctionStands }
    ensures steps { FunctionSteps }
{
    law_view();
    law_cursor();
}

/// Behind the body of a call of a library function, which may come next, a machine stands for the state of the definitions that has the body done, with the
/// function's value; the frames below stand as they stood (`stands`). Where the call is that of the node, this is the definitions' next state, within the
/// limits (`steps`). Along the canonical way it completes what the definitions say (`completes`).
pub fn law_bodies()
    ensures stands { LibraryStands }
    ensures steps { LibrarySteps }
    ensures completes { LibraryCompletes }
{
    law_view();
    law_listed_completes();
    law_choices();
    law_operands();
    law_cursor();
    law_update_halves();
    law_library();
}
