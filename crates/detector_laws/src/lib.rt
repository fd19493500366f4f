//! The open frames of a run by the definitions, and what was told of them: nothing was found so far, and what is answered is what is found first. Laws
//! without code.
#![tactic(auto)]

ghost use Rattle.detector_laws.specs.Along.{GoesClear, StartsClear};
ghost use Rattle.detector_laws.specs.Bare.{PicksStayBare};
ghost use Rattle.detector_laws.specs.Frames.{BeginsFree, EndsFree, PicksComeTo, PicksLeaveFree};
ghost use Rattle.detector_laws.specs.Fresh.{PicksStayFresh};
ghost use Rattle.detector_laws.specs.Looked.{ConflictIsFirst, FreePicksPass, LastPickTells};
ghost use Rattle.detector_laws.specs.Records.{AnswersAreFound, BeginsRecorded, EndsRecorded, GathersRecorded};
ghost use Rattle.detector_laws.specs.Records.{StartsRecorded, StaysRecorded, TellsRecorded};
ghost use Rattle.detector_laws.specs.Shown.{ShownFits};

/// Where nothing is found behind any of so many picks of the canonical order, what is found first is what is found from there on; with one pick more it is
/// what shows at that pick, and a conflict that is found there is the first one.
pub fn law_first_on_way()
    ensures pass { FreePicksPass }
    ensures last { LastPickTells }
    ensures conflict { ConflictIsFirst }
{}

/// Each canonical pick takes the next event of a full expression, begins one, or leaves none open, in the top frame; it starts a frame, or ends one, with which
/// the body is done that started it. In the frames that are held nothing is found by it. So nothing was found in any frame where nothing is in the top one; as
/// a full expression begins nothing is, nor as a frame ends.
pub fn law_picks_free()
    ensures comes { PicksComeTo }
    ensures leaves { PicksLeaveFree }
    ensures begins { BeginsFree }
    ensures ends { EndsFree }
{}

/// Nor has the trace anything of frames that are still to start, and the values of assignments and lists have no items; so it is from the start of a run on,
/// after each pick of the canonical order behind which nothing is found.
pub fn law_clear_so_far()
    ensures fresh { PicksStayFresh }
    ensures bare { PicksStayBare }
    ensures starts { StartsClear }
    ensures goes { GoesClear }
{}

/// What was told of an open full expression stays what the definitions have of it: as it begins, as an event is told, as that starts a frame, while the frames
/// above go on, as one ends and gives what it touched, and as operands are complete.
pub fn law_recorded()
    ensures begins { BeginsRecorded }
    ensures tells { TellsRecorded }
    ensures starts { StartsRecorded }
    ensures stays { StaysRecorded }
    ensures ends { EndsRecorded }
    ensures gathers { GathersRecorded }
{}

/// So the first conflict of the pairs of which the calls tell behind an event is what c_model finds there, and where they have none nothing is found.
pub fn law_answers_found()
    ensures { AnswersAreFound }
{}

/// What was told of a full expression is what is shown of it, where what is shown is what is open.
pub fn law_shown_fits()
    ensures { ShownFits }
{}
