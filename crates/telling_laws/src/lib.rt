//! What a canonical run tells of its evaluations is what may be told, and which pairs of them newly show: laws without code.
#![tactic(auto)]

ghost use Rattle.telling_laws.specs.FirstFound.{BothLots, FirstIsFound};
ghost use Rattle.telling_laws.specs.Met.{HasLeast, HasLeastBesides, MeetsBesides, MeetsByItems, RacesBesides, RacesByItems};
ghost use Rattle.telling_laws.specs.Newly.{ShownAreDone, ShowsNewly};
ghost use Rattle.telling_laws.specs.OnlyNew.{NothingAtFirst, OnlyNewQuarrel, OnlyNewRace};
ghost use Rattle.telling_laws.specs.OwnEvents.{OnlyStoresConflict};
ghost use Rattle.telling_laws.specs.Samples.{BothAreTold, BothShow, SumIsTold, SumShows};
ghost use Rattle.telling_laws.specs.Standing.{BeginsStanding, ChoosesStanding, CompletesStanding, EndIsTold, GivesStanding, LastAreOwn, NextIsTold};
ghost use Rattle.telling_laws.specs.Standing.{OperandsAreTold, TellsStanding};

/// What is told of a full expression stands along its canonical order as it begins, and goes on standing so: as the next event chooses an operand, as it is
/// told, as it is told what it completes, and as a frame is left.
pub fn law_standing()
    ensures begins { BeginsStanding }
    ensures chooses { ChoosesStanding }
    ensures tells { TellsStanding }
    ensures completes { CompletesStanding }
    ensures gives { GivesStanding }
{}

/// So what is told is what may be told: the next event, the nodes of which it completes the operands, its own node, and an end of the run.
pub fn law_telling()
    ensures next { NextIsTold }
    ensures operands { OperandsAreTold }
    ensures own { LastAreOwn }
    ensures ends { EndIsTold }
{}

/// With an event of the canonical listing those pairs of due events show that had shown before, and those that newly show by what it completes: of its node
/// and what stands below, or of two operands of the node above. Events of a pair that shows are done.
pub fn law_showing()
    ensures newly { ShowsNewly }
    ensures done { ShownAreDone }
{}

/// Where no pair of due events raced, or quarrelled, that had shown before an event, the first one to do so behind it is the first of those that newly show,
/// and where none of these does none does. As a full expression begins none does.
pub fn law_only_new()
    ensures races { OnlyNewRace }
    ensures quarrels { OnlyNewQuarrel }
    ensures begins { NothingAtFirst }
{}

/// So the first conflict that is told of what an event completes is the race, or else the quarrel, that is found first behind it, and none is where none is, if
/// nothing was found before the event and two events of its node don't conflict. Of two lots of pairs the conflict that counts is the first one of both.
/// Two events of one node don't, but for the value and the effect of an assignment or a list, where the value has items.
pub fn law_first_found()
    ensures first { FirstIsFound }
    ensures lots { BothLots }
    ensures own { OnlyStoresConflict }
{}

/// What was told of two evaluations that have the items of two lists clashes, or races, exactly where these do, and there is a least pair of items then. It
/// clashes so too where they have forgotten accesses of objects of which they have the birth and the death.
pub fn law_items_met()
    ensures meets { MeetsByItems }
    ensures races { RacesByItems }
    ensures least { HasLeast }
    ensures meets_besides { MeetsBesides }
    ensures races_besides { RacesBesides }
    ensures least_besides { HasLeastBesides }
{}

/// The sum of two values, and `&&` of two, along their listings: what their events complete, which pairs show, and what stands together.
pub fn law_samples()
    ensures sum { SumShows }
    ensures sum_told { SumIsTold }
    ensures conjunction { BothShow }
    ensures conjunction_told { BothAreTold }
{}
