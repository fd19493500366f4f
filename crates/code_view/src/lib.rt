//! What the code of a typed program is to the definitions of runs.
//!
//! A law function takes nothing and answers nothing: its contract is a law about the definitions.
#![tactic(auto)]

ghost use Rattle.code_view.specs.Laws.{RootsStand, BodiesStand, SwitchesStand, TreesFit, TreesAreFormed, ConstantsAreLawful, LawfulCodeStands};
ghost use Rattle.code_view.specs.Known.{CodeIsKnown, TreesAreLawful};
ghost use Rattle.code_view.specs.Events.{EventsAreOfClasses, EventsAreEvaluated, EffectsStore, EventsAreOfCode, EventsAreInCode};
ghost use Rattle.code_view.specs.Labels.{DefinedKeepLabels};
ghost use Rattle.code_view.specs.Rooms.{RoomsAreThere};
ghost use Rattle.code_view.specs.Blocks.{BlocksStandInCode, OpenBlocksAreThere, ExpressionsStandInCode};
ghost use Rattle.code_view.specs.Named.{OpenIsPlaced, OpenIsKnown, OpenIsNamed, OpenRootIsNamed};
ghost use Rattle.code_view.specs.Starting.{LawfulStartStands};

/// The number of a full expression in the code stands for the expression of its typed tree.
pub fn law_code_roots()
    ensures { RootsStand }
{}

/// The body of each function that has code is that of the function of the model's program, with the objects of its blocks; the number of each `switch` in
/// it stands for the body that is there.
pub fn law_code_bodies()
    ensures bodies { BodiesStand }
    ensures switches { SwitchesStand }
{}

/// Each node of the full expressions of a lawful program stores a pointer by its own type, and fills objects with lawful constants.
pub fn law_code_trees()
    ensures { TreesFit }
{}

/// The nodes of each full expression of a lawful program's code are lawful in the program, with some blocks round it.
pub fn law_trees()
    ensures { TreesAreLawful }
{}

/// The nodes of the full expressions of a lawful program have the operands that their operators take.
pub fn law_code_formed()
    ensures { TreesAreFormed }
{}

/// The constants that objects are filled with in the code of a lawful program are lawful (6.7.9).
pub fn law_constants()
    ensures { ConstantsAreLawful }
{}

/// The numbers in the code that run_code lays out of a lawful program stand for what is in the program: full expressions, the objects of blocks, `switch`
/// statements, the bodies of functions, stores and constants.
pub fn law_code()
    ensures { LawfulCodeStands }
{}

/// What the code takes to be known beforehand in a full expression of a lawful program is so by the definitions, and has their truth, wherever the objects
/// that the expression names stand (6.3.2.3p3, 6.6, 6.8.4.1p2).
pub fn law_views()
    ensures { CodeIsKnown }
{}

/// Where the blocks of the automatic objects are open that a full expression of a lawful program names, each object that it names stands (6.2.4), so
/// that what the code takes to be known beforehand is so; each of its nodes has the operands that its operator takes, with what is known beforehand of them
/// named; and so is the whole, where it is known beforehand.
pub fn law_named()
    ensures placed { OpenIsPlaced }
    ensures known { OpenIsKnown }
    ensures nodes { OpenIsNamed }
    ensures root { OpenRootIsNamed }
{}

/// Each event that is listed of a full expression is one that its node has, so of a node that isn't known beforehand, and each effect stores. In the code
/// of a lawful program it is what a run asks of it, wherever the objects that the expression names stand.
pub fn law_events()
    ensures classes { EventsAreOfClasses }
    ensures effects { EffectsStore }
    ensures evaluated { EventsAreEvaluated }
    ensures code { EventsAreOfCode }
    ensures laid { EventsAreInCode }
{}

/// What each update of a full expression is to store has its room in the code, in which no other node keeps anything (6.5.2.4p2, 6.5.16.2p3).
pub fn law_rooms()
    ensures { RoomsAreThere }
{}

/// Each block of a function that has code has the objects that the definitions create as they enter it: as many, with their sizes, alignments, forms and
/// qualifiers, and the bytes that they count (6.2.4p6). The numbers of blocks and of objects are below 2^32, and a block's objects stand behind those of
/// the blocks round it. The full expressions of the function are laid out by these numbers.
pub fn law_blocks()
    ensures stand { BlocksStandInCode }
    ensures there { OpenBlocksAreThere }
    ensures expressions { ExpressionsStandInCode }
{}

/// Of each function that has a body the labels of its body in the code are kept (6.8.6.1).
pub fn law_labels()
    ensures { DefinedKeepLabels }
{}

/// The machine that run_state prepares of a lawful program, over the code of the terms of its trees, stands for the state that the definitions of
/// runs start from (5.1.2.2.1).
pub fn law_start()
    ensures { LawfulStartStands }
{}
