//! What holds of the values of a run: they are small, no limit is passed, and a frame has its result only at its end. Laws over the definitions of c_model.
//!
//! A law function takes nothing and answers nothing: its contract is a law about the definitions.
#![tactic(auto)]

ghost use Rattle.value_facts.specs.Small.{ActsGiveSmall};
ghost use Rattle.value_facts.specs.Held.{LibraryIsSmall, SmallHasLists, StartsSmall, StepsSmall, OrdersSmall, CanonicalSmall};
ghost use Rattle.value_facts.specs.Limits.{StartsWithin, StepsWithin, OrdersWithin, CanonicalWithin};
ghost use Rattle.value_facts.specs.Sources.{RowsAreApart, StartsPlaced, StepsPlaced, OrdersPlaced, CanonicalPlaced, ArgumentsFit};
ghost use Rattle.value_facts.specs.Trees.{LawfulTreesAreSmall, StandingIsSmall, LawfulProgramsAreSmall, LawfulWorldsKeepSmall, MainIsPlaced};
ghost use Rattle.value_facts.specs.Unresulted.{OpenHasNone, BusyHasNone, StartsUnresulted, StepsUnresulted, OrdersUnresulted, CanonicalUnresulted};

/// From integers and addresses below 2^64 in size, in a store whose bytes are below 256, an event that isn't a body gives such a value, and leaves such bytes.
pub fn law_small()
    ensures { ActsGiveSmall }
{}

/// So does a call of the library, where it stays within a limit on the output that is below 2^64.
pub fn law_library()
    ensures { LibraryIsSmall }
{}

/// In each state of a run of a program with small constants, whose rows end before the last address and whose input is bytes, all values are small: those
/// that events gave, arguments and results, and the bytes of the objects.
pub fn law_small_values()
    ensures lists { SmallHasLists }
    ensures starts { StartsSmall }
    ensures keeps { StepsSmall }
    ensures orders { OrdersSmall }
    ensures canonical { CanonicalSmall }
{}

/// In each state of a run no limit is passed.
pub fn law_within()
    ensures starts { StartsWithin }
    ensures keeps { StepsWithin }
    ensures orders { OrdersWithin }
    ensures canonical { CanonicalWithin }
{}

/// In each state of a run a frame of a function has a result only where just leaves of blocks are left to do: none while a full expression is open. The
/// frame of an isolated initializer gives nothing, from its start on.
pub fn law_unresulted()
    ensures while_open { OpenHasNone }
    ensures busy { BusyHasNone }
    ensures starts { StartsUnresulted }
    ensures keeps { StepsUnresulted }
    ensures orders { OrdersUnresulted }
    ensures canonical { CanonicalUnresulted }
{}

/// In each state of such a run the bytes of each structure or union that was loaded stand in the row of one object, from where it was loaded on. So an object
/// that is as large as one among the arguments overlaps its source exactly or not at all, and can take it (6.5.16.1p3).
pub fn law_placed_values()
    ensures rows { RowsAreApart }
    ensures starts { StartsPlaced }
    ensures keeps { StepsPlaced }
    ensures orders { OrdersPlaced }
    ensures canonical { CanonicalPlaced }
    ensures arguments { ArgumentsFit }
{}

/// The numbers of a lawful tree are below 2^64 in size (6.4.4.1p5), so a lawful program is seen as one with small constants, where its constants and literals
/// and the arguments of `main` have bytes (6.7.9, 6.4.5, 5.1.2.2.1); and its runs keep values small.
pub fn law_lawful_small()
    ensures trees { LawfulTreesAreSmall }
    ensures standing { StandingIsSmall }
    ensures programs { LawfulProgramsAreSmall }
    ensures worlds { LawfulWorldsKeepSmall }
    ensures main { MainIsPlaced }
{}
