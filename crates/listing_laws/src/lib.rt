//! Laws of the canonical listing of a full expression, as a run goes along it.
#![tactic(auto)]

ghost use Rattle.listing_laws.specs.Along.{TakesFirst, SettlesAtEnd, BeginsAlong, GoesFurther, StartsAlong, EndsAlong};
ghost use Rattle.listing_laws.specs.Due.{ListsAlike, PermitsAlike, TakesAlike, DecidesPermitted};

/// Where what was passed of the canonical listing is what is done, the canonical pick is the first event ahead, and where none is ahead the
/// control step: the full expression is settled then.
pub fn law_next_listed()
    ensures first { TakesFirst }
    ensures settled { SettlesAtEnd }
{}

/// It is so as a full expression begins, and stays so as the first event ahead is taken, whatever operand is chosen by it; as a body starts,
/// and as it ends.
pub fn law_along()
    ensures begins { BeginsAlong }
    ensures further { GoesFurther }
    ensures starts { StartsAlong }
    ensures ends { EndsAlong }
{}

/// What nodes choose that aren't evaluated changes nothing: the same events are due in the same order, the same ones may come next, and the
/// canonical order takes the same.
pub fn law_unevaluated_choices()
    ensures lists { ListsAlike }
    ensures permits { PermitsAlike }
    ensures takes { TakesAlike }
{}

/// An event may come next (6.5.2.4p2, 6.5.16.2p3, 5.1.2.3p3) exactly where the recursive test says so.
pub fn law_permitted_decided()
    ensures { DecidesPermitted }
{}
