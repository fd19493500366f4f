//! All open frames of a run and what was told of them: what is recorded stays what the definitions have, pick by pick; what the calls of a detector ask
//! follows from it, and what they answer is what is found. Laws without code.
#![tactic(auto)]

ghost use Rattle.frame_records.specs.Answers.{AnswersAreFirst};
ghost use Rattle.frame_records.specs.Asked.{AboveMayBeTold, AreStartedSo, BehindMayBeTold, BodiesMayEnd, EventsMayBeTold, ReachesOpen, TopIsOpen};
ghost use Rattle.frame_records.specs.Audit.{AuditGoesFree, AuditSeesFirst, StartsBare};
ghost use Rattle.frame_records.specs.Ends.{AuditEnds, AuditPassesLimit, AuditRaises, AuditReturns, AuditUsesBudget};
ghost use Rattle.frame_records.specs.Kept.{EventsKeep, ReachesTop, StepsKeep};
ghost use Rattle.frame_records.specs.Picks.{PicksAreSo};

/// Which pick comes to what: control steps and events.
pub fn law_pick_kinds()
    ensures { PicksAreSo }
{}

/// What is recorded of all open frames stays what the definitions have of them: behind a control step, as frames above the top one are left, and behind an
/// event with what it completes.
pub fn law_records_kept()
    ensures steps { StepsKeep }
    ensures reaches { ReachesTop }
    ensures events { EventsKeep }
{}

/// What the calls ask follows from what is recorded: which frames are open, that an event may be told, and of which nodes it may be told straight behind it.
pub fn law_asked()
    ensures started { AreStartedSo }
    ensures open { TopIsOpen }
    ensures reaches { ReachesOpen }
    ensures events { EventsMayBeTold }
    ensures behind { BehindMayBeTold }
    ensures above { AboveMayBeTold }
    ensures ends { BodiesMayEnd }
{}

/// What the calls answer that tell what an event completes is the first conflict of all pairs of which they tell.
pub fn law_answers_first()
    ensures { AnswersAreFirst }
{}

/// As long as no call sees a conflict nothing was found, and all is recorded that is open; and a conflict that is seen is the first finding.
pub fn law_audit()
    ensures starts { StartsBare }
    ensures free { AuditGoesFree }
    ensures sees { AuditSeesFirst }
{}

/// So where the run ends the first conflict of all that was told, or none, is the first finding, as is a clause that is raised, a limit that is passed, or a
/// budget that is used up.
pub fn law_audit_ends()
    ensures ends { AuditEnds }
    ensures returns { AuditReturns }
    ensures raises { AuditRaises }
    ensures limits { AuditPassesLimit }
    ensures budget { AuditUsesBudget }
{}
