// Laws of listings, and of the cursor in them.
ghost use Rattle.run_listing.specs.Straight.{ListsTree, HasEntries, PartsAtEvent, PartsAlike, PartsFurther};
ghost use Rattle.run_listing.specs.Cursor.{NextIsCanonical, PassedIsDone, PermitsPicks, StandsAtBegin, StandsBehind, StandsAtStart, StandsAtEnd, TakesByDone};
ghost use Rattle.run_listing.specs.Cursor.{PermitsByDone};

use elaborate::law_faithful;
use run_layout::law_listing;

/// What is laid out of the term of a tree lists the tree's events in canonical order, whatever operands are chosen, and each of them has an
/// entry; it parts behind an event that is listed.
pub fn law_listed_tree()
    ensures lists { ListsTree }
    ensures entries { HasEntries }
    ensures parts { PartsAtEvent }
    ensures alike { PartsAlike }
    ensures further { PartsFurther }
{
    law_listing();
    law_faithful();
}

/// Along a run the cursor stands where the canonical order of the definitions does: the next event that is listed is the canonical pick, and
/// the control step is where none is; what was passed is what is done, and an event may come next by it exactly where it may by the definitions.
/// So it stands as a full expression begins, behind the next event as that is done or its body starts, and where it stood as the body ends.
pub fn law_cursor()
    ensures next { NextIsCanonical }
    ensures permits { PermitsPicks }
    ensures done { PassedIsDone }
    ensures begins { StandsAtBegin }
    ensures behind { StandsBehind }
    ensures starts { StandsAtStart }
    ensures ends { StandsAtEnd }
{
    law_listing();
    law_faithful();
}

/// Off the straight way, where done events are noted one by one: by these, and the choices that are kept, the canonical order takes the
/// canonical pick, and what is permitted may come next by the definitions.
pub fn law_strayed()
    ensures takes { TakesByDone }
    ensures permits { PermitsByDone }
{}
