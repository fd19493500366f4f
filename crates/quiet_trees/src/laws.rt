// Laws of the definitions alone.
ghost use Rattle.quiet_trees.specs.Examples.{QuietExamples};
ghost use Rattle.quiet_trees.specs.Items.{QuietItems};

/// Two events that may not conflict by their kinds don't conflict in their items, where each has the items of its kind, unless both have
/// items that are noted.
pub fn law_quiet_items()
    ensures { QuietItems }
{}

/// Trees of whose summaries it is said that two events may clash, and others of which it isn't: see the texts at each.
pub fn law_quiet_examples()
    ensures { QuietExamples }
{}
