//! Laws of every permitted order of any machine of frames, over the definitions of c_model.
#![tactic(auto)]

ghost use Rattle.machine_laws.specs.EveryOrder.{EveryOrderEndsAlike};
ghost use Rattle.machine_laws.specs.QuietOrders.{QuietOrdersRun};
ghost use Rattle.machine_laws.specs.Limits.{DepthKeepsLaws, EveryOrderStaysInDepth, EveryOrderStaysWithin};
ghost use Rattle.machine_laws.specs.ToldConflicts.{EveryOrderTells};
ghost use Rattle.machine_laws.specs.Small.{SmallKeeps, SmallRuns, SmallOther};

/// From a frame from which one run goes on without conflicts to its end, also where a pick inside it ends the run: at whatever state a
/// permitted order leads to no events conflict, every permitted pick can be done, one is permitted until the run is over, and the run
/// ends with the same result and store after as many picks.
pub fn law_every_order<F, P, V, N, S, I, Part, Seen, Fact>()
    ensures { EveryOrderEndsAlike F P V N S I Part Seen Fact }
{}

/// An order of picks in which no two events of a full expression conflict by its end, where neither is before the other, is such a run.
pub fn law_quiet_order<F, P, V, N, S, I, Part, Seen, Fact>()
    ensures { QuietOrdersRun F P V N S I Part Seen Fact }
{}

/// A limit on the depth of frames keeps the laws of a machine, so a run without conflicts within it stays so in every permitted order; and
/// where the store at the end is within limits that grow with each pick, so is every store on the way.
pub fn law_limits<F, P, V, N, S, I, Part, Seen, Fact>()
    ensures keep { DepthKeepsLaws F P V N S I Part Seen Fact }
    ensures depth { EveryOrderStaysInDepth F P V N S I Part Seen Fact }
    ensures within { EveryOrderStaysWithin F P V N S I Part Seen Fact }
{}

/// Where a machine's conflicts are stricter than those that are told, a run without told ones speaks for every permitted order, if its items
/// are backed and no object is born twice.
pub fn law_told_conflicts<F, P, V, N, S, I, Part, Seen, Fact, Name>()
    ensures { EveryOrderTells F P V N S I Part Seen Fact Name }
{}

/// A small machine keeps the laws and has such runs, one that a pick ends inside a body and one that goes on to the end; and what the law
/// says of the other order of its two writes.
pub fn law_small_machine()
    ensures keep { SmallKeeps }
    ensures runs { SmallRuns }
    ensures other { SmallOther }
{}
