// Laws of values and memories.
ghost use Rattle.run_values.specs.Kept.{ValuesStay, FillingsStay};
ghost use Rattle.run_values.specs.Placed.{LawfulCanHold};

/// What a call of a memory keeps keeps its values: one that is of the memory before is of the memory after, and so are the bytes of fillings
/// (own).
pub fn law_values_stay()
    ensures values { ValuesStay }
    ensures fillings { FillingsStay }
{}

/// The constants of a lawful program can be held where its objects are placed (own).
pub fn law_can_hold()
    ensures { LawfulCanHold }
{}
