//! What is found where a run ends, by the definitions, and what was told of it: laws without code.
#![tactic(auto)]

ghost use Rattle.ending_laws.specs.Ends.{BodiesEnd, EndIsFound};
ghost use Rattle.ending_laws.specs.First.{BudgetIsFirst, EndIsFirst, LimitIsFirst, RaiseIsFirst, ReturnIsClean};
ghost use Rattle.ending_laws.specs.Frames.{FirstOfAll, FirstOfFrames, OpenAreNested};
ghost use Rattle.ending_laws.specs.Main.{OnlyBodiesEnd, PicksStayOfMain, RunsEnd, StartsWithMain};
ghost use Rattle.ending_laws.specs.Told.{GivesEnding, TellsEnding};
ghost use Rattle.ending_laws.specs.Untouched.{PicksEndNone, PicksStayUntouched, StartsOnTheWay, StaysOnTheWay};

/// Along the canonical order the trace has no items of events that aren't done, and no entry has ended the run; so it is from the start of a run on, after
/// each pick behind which nothing is found.
pub fn law_on_the_way()
    ensures untouched { PicksStayUntouched }
    ensures endless { PicksEndNone }
    ensures starts { StartsOnTheWay }
    ensures stays { StaysOnTheWay }
{}

/// The outermost frame is that of `main`, and a run ends where it returns with no full expression open, or by the act of a body, and of no other event.
pub fn law_runs_end()
    ensures bodies { OnlyBodiesEnd }
    ensures starts { StartsWithMain }
    ensures stays { PicksStayOfMain }
    ensures ends { RunsEnd }
{}

/// What was told is what the definitions have where the run ends: of the body that ended it, and of the bodies that wait for the frames above.
pub fn law_recorded_at_end()
    ensures ends { BodiesEnd }
    ensures tells { TellsEnding }
    ensures gives { GivesEnding }
{}

/// What `ended` of run_evaluations gives is then what c_model finds first in a full expression where the run ends.
pub fn law_end_is_found()
    ensures { EndIsFound }
{}

/// The one that counts of these is what is found first of all full expressions that are open, as is the first one of all that was told.
pub fn law_first_of_frames()
    ensures nested { OpenAreNested }
    ensures each { FirstOfFrames }
    ensures all { FirstOfAll }
{}

/// So it is the first finding, as is a clause that is raised, a limit that is passed, or a budget that is used up, where nothing was found so far.
pub fn law_first_at_end()
    ensures raises { RaiseIsFirst }
    ensures limits { LimitIsFirst }
    ensures budget { BudgetIsFirst }
    ensures ends { EndIsFirst }
    ensures returns { ReturnIsClean }
{}
