// What holds of full expressions of which a part is recorded.
ghost use Rattle.conflict_detector.specs.Complete.{BeginningsDone};
ghost use Rattle.conflict_detector.specs.Parts.{LeavesNone, PartsShow};

use quiet_trees::law_quiet_items;

/// An evaluation of a quiet full expression that isn't recorded clashes with no other one, unless one of them is sequenced before the other; so where none
/// of those that are recorded clash, none do.
pub fn law_parts()
    ensures none { LeavesNone }
    ensures show { PartsShow }
{
    law_quiet_items();
}

/// Where what is done is a beginning of the listing of the full expression's events, each evaluation is due, and done once.
pub fn law_beginnings()
    ensures { BeginningsDone }
{}
