//! What a call of the library comes to in the definitions of runs: laws over the definitions alone.
#![tactic(auto)]

ghost use Rattle.library_laws.specs.Calls.{CallsMoreRows, LibraryCallSteps};

use mem_laws::law_more_calls;

/// A call of the library, with its limits, does the same under more rows, where it allocates an object only by a row that both have (own). And the body of a
/// call of a library function does in a run what that call does: the run goes on with its value, or ends, raises its clause, passes its limit, or finds no row.
pub fn law_library()
    ensures rows { CallsMoreRows }
    ensures steps { LibraryCallSteps }
{
    law_more_calls();
}
