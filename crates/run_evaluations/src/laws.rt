// What holds of all evaluations, whatever is told.
ghost use Rattle.run_evaluations.specs.Fitting.{RulesFit};
ghost use Rattle.run_evaluations.specs.Follows.{ChoicesGrow};
ghost use Rattle.run_evaluations.specs.Listing.{ListingsTell};

/// What was told is followed as And, Or and Cond choose further operands.
pub fn law_choices_grow()
    ensures { ChoicesGrow }
{}

/// The rules that are made of a typed tree are those of its nodes, and its listed initializers have no operands, where its lists have such alone.
pub fn law_rules_fit()
    ensures { RulesFit }
{}

/// Where what is done is a beginning of the listing of a full expression's events, each evaluation is done once, the next one that is listed is due, and those
/// of the node of the last one are the last two at most.
pub fn law_listing_tells()
    ensures { ListingsTell }
{}
