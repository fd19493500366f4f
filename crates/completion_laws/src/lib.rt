//! What an event completes, where the canonical listing of a full expression was followed up to it: laws over the definitions and the code.
#![tactic(auto)]

ghost use Rattle.completion_laws.specs.Completed.{CompletesByNext};
ghost use Rattle.completion_laws.specs.Listing.{CompletesListed};

use run_listing::{law_cursor, law_listed_tree};

/// Along the canonical listing an event completes nothing where the next one is of its own node; else its node, and where the next one is of the node
/// above, all operands of that one.
pub fn law_completed()
    ensures { CompletesByNext }
{}

/// So the code of a full expression has it noted: whether an event is the last of its node, and which node is above.
pub fn law_listed_completes()
    ensures { CompletesListed }
{
    law_listed_tree();
    law_cursor();
}
