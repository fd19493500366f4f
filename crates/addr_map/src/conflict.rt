// Conflicts of what two evaluations touch.
ghost use Rattle.addr_map.specs.Conflict.{SymmetricConflict, SymmetricConflicts};

/// Whether items conflict, and whether two lists of them do, doesn't depend on which comes first (own; 6.5p2 for accesses).
pub fn law_conflicts()
    ensures items { SymmetricConflict }
    ensures lists { SymmetricConflicts }
{}
