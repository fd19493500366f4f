//! What the events of quiet expressions touch, by the definitions of runs.
#![tactic(auto)]

ghost use Rattle.quiet_laws.specs.Programs.{LoadsAreKept, QuietIsKept};
ghost use Rattle.quiet_laws.specs.QuietEvents.{EventsSuit, QuietEvents};

use quiet_trees::law_quiet_items;

/// The items of each event but a body are those of its kind, and it doesn't end the run. So two events of a quiet full expression, of which
/// neither is sequenced before the other, have no two items that conflict, unless both are noted; and neither of them is a body.
pub fn law_quiet_events()
    ensures suit { EventsSuit }
    ensures quiet { QuietEvents }
{
    law_quiet_items();
}

/// A full expression of a typed program is quiet as the model sees it, where its tree is, as `is_quiet` of quiet_trees tells.
pub fn law_quiet_programs()
    ensures loads { LoadsAreKept }
    ensures quiet { QuietIsKept }
{}
