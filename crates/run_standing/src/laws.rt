// Laws of what stands before a run.
ghost use Rattle.run_standing.specs.Outcomes.{FindsRoom, StartIsDefined};
ghost use Rattle.run_standing.specs.Standing.{StandsSo};
ghost use Rattle.run_standing.specs.Viewed.{StandsAsViewed, StartCounts, ViewStands};

/// What stands before a run is created, object by object, and then filled, object by object (own).
pub fn law_stands()
    ensures { StandsSo }
{}

/// What stands before a run of a lawful program is created and filled without undefined behaviour, or one of its objects has no place:
/// no initialization leaves its object, under a map whose rows are addresses (5.1.2p1, 6.7.9).
pub fn law_start_is_defined()
    ensures { StartIsDefined }
{}

/// A new memory has room for all objects that stand before a run of a lawful program, as long as they count within 2^40 bytes together: their
/// names are new, and their alignments powers of two (own).
pub fn law_finds_room()
    ensures { FindsRoom }
{}

/// The objects that stand before a run are those of the model's program (program_view), and only those: the same names, sizes, forms and fillings
/// (5.1.2p1, 6.4.5p6, 5.1.2.2.1p2).
pub fn law_standing()
    ensures viewed { StandsAsViewed }
    ensures stand { ViewStands }
{}

/// Where they were created and filled, the created bytes are what they count together (own).
pub fn law_start_counts()
    ensures { StartCounts }
{}
