//! Sequences of the acts of memory with what each gives, worked out by hand; no code.
#![tactic(auto)]

ghost use Rattle.mem_spec.specs.Store.{Store};
ghost use Rattle.mem_samples.specs.Accesses.{Accesses};
ghost use Rattle.mem_samples.specs.Ambiguities.{Ambiguities};
ghost use Rattle.mem_samples.specs.Pieces.{Pieces};

/// Loads and stores.
pub fn law_accesses()
    ensures { (s : Store) → Accesses s }
{}

/// Addresses that are one past an object and in another.
pub fn law_ambiguities()
    ensures { (s : Store) → Ambiguities s }
{}

/// Bytes of pointers.
pub fn law_pieces()
    ensures { (s : Store) → Pieces s }
{}
