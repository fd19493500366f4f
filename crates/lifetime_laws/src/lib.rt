//! What the traces of runs tell of the lives of objects: laws without code.
#![tactic(auto)]

ghost use Rattle.lifetime_laws.specs.Asked.{LibraryRunsAsk, OrdersAsk, PicksAsk, StartsAsk};

/// In the trace of any permitted order of a program each read and each write stands with the question whether its object lives, in the entry of the pick
/// that did it (6.2.4p2), if the library's scripts ask so, as those of libc_spec do.
pub fn law_accesses_ask()
    ensures starts { StartsAsk }
    ensures picks { PicksAsk }
    ensures orders { OrdersAsk }
    ensures library { LibraryRunsAsk }
{}
