// The law of what a watch hears.
ghost use Rattle.core_run.specs.ToldPicks.{ToldIsCanonical};

/// Where a watch has heard so many picks, the state behind the last of them is that of the canonical order: so it is behind each on the way.
pub fn law_told()
    ensures { ToldIsCanonical }
{}
