//! What holds of each frame along a run: which blocks are open, what is left to do, and that names are of open blocks.
//!
//! A law function takes nothing and answers nothing: its contract is a law about the definitions.
#![tactic(auto)]

ghost use Rattle.frame_laws.specs.Laws.{StartsOrdered, StepsOrdered, OrdersOrdered, CanonicalOrdered};
ghost use Rattle.frame_laws.specs.Facts.{BlocksAreLeft, DeclaresInside, LeavesInnermost, EntersWithObjects, HandsOn};
ghost use Rattle.frame_laws.specs.Facts.{BeginsInScope, StaysInScope, GoesOnBehind, HeldWait, StepsInFunction, FunctionIsDefined};
ghost use Rattle.frame_laws.specs.Named.{NamesAreSeen, NodesAreInScope, LawfulIsScoped, MainIsDefined, RunsAreOrdered};
ghost use Rattle.frame_laws.specs.Reached.{StartsReached, StepsReached, OrdersReached, CanonicalReached};

use listing_laws::law_permitted_decided;
use program_view::law_view;

/// Along a run of a program whose names are in scope, from its start on, the frames are ordered.
pub fn law_ordered()
    ensures starts { StartsOrdered }
    ensures keeps { StepsOrdered }
    ensures orders { OrdersOrdered }
    ensures canonical { CanonicalOrdered }
{}

/// What is so of each ordered frame: which blocks are open as one is entered or left, and at a declaration; that a full expression names automatic objects
/// of open blocks alone (6.2.1p4), and what is left to do behind it; and what a frame that is held waits for.
pub fn law_frames()
    ensures left { BlocksAreLeft }
    ensures declares { DeclaresInside }
    ensures leaves { LeavesInnermost }
    ensures enters { EntersWithObjects }
    ensures arguments { HandsOn }
    ensures begins { BeginsInScope }
    ensures stays { StaysInScope }
    ensures behind { GoesOnBehind }
    ensures held { HeldWait }
    ensures function { StepsInFunction }
    ensures defined { FunctionIsDefined }
{}

/// The model's expression of a typed tree names the objects that the nodes of the tree name; so where a full expression is in scope, each node is.
pub fn law_names()
    ensures seen { NamesAreSeen }
    ensures nodes { NodesAreInScope }
{}

/// Each function of a lawful program names automatic objects of blocks round the place alone (6.2.1p4); and where its `main` is a block (6.9.1p1), it is
/// defined in the definitions of runs.
pub fn law_scoped()
    ensures scoped { LawfulIsScoped }
    ensures main { MainIsDefined }
{
    law_view();
}

/// So along each order of picks in each run of a lawful program, whose `main` is a block, the frames are ordered.
pub fn law_runs()
    ensures { RunsAreOrdered }
{
    law_scoped();
}

/// Along permitted orders, and the canonical one, all that is done of a full expression that is open was reached, in the top frame and in those that are
/// held, and a body that waits may come next (5.1.2.3p3).
pub fn law_reached()
    ensures starts { StartsReached }
    ensures keeps { StepsReached }
    ensures orders { OrdersReached }
    ensures canonical { CanonicalReached }
{
    law_permitted_decided();
}
