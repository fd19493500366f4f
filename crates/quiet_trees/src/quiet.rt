// Whether a full expression is quiet.
ghost use Rattle.std.specs.Prelude.{◌≡◌, true, not};
ghost use Rattle.c_typed.specs.Tree.{tree_of};
ghost use Rattle.quiet_trees.specs.Loads.{loads_of};
ghost use Rattle.quiet_trees.specs.Quiet.{IsQuiet};
ghost use Rattle.quiet_trees.specs.Summaries.{summary_of};

use crate::summary::summarize;
use c_typed::Typed;

/// Whether by their kinds alone no two evaluations of the tree can conflict of which neither is sequenced before the other (own; 6.5p2,
/// 6.5p3). It costs one walk over the tree.
pub fn is_quiet(root: &Typed) -> bool
    ensures quiet { result ≡ true → IsQuiet (tree_of root.now) (loads_of root.now) }

    // It says no only where the summary of the tree has two that may clash.
    ensures told { result ≡ not (summary_of (tree_of root.now) (loads_of root.now)).clash }
{
    !summarize(root).clash
}
