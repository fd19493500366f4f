//! Laws of every permitted order of a program, over the definitions of c_model.
#![tactic(auto)]

ghost use Rattle.order_laws.specs.FrameEnds.{FramesEnd, ProgramOrdersEndAlike};
ghost use Rattle.order_laws.specs.StrictItems.{ToldIsEnough, InterferenceIsStricter};
ghost use Rattle.order_laws.specs.ProgramTells.{ActsKeepLaws, LibraryOrdersTell, ProgramOrdersTell};
ghost use Rattle.order_laws.specs.Asking.{ProgramActsAsk};
ghost use Rattle.order_laws.specs.PermittedPicks.{CanonicalIsPermitted, PicksAgree};
ghost use Rattle.order_laws.specs.EveryRun.{CleanRunQuiet, CleanRunSpeaks, LibraryRunSpeaks};
ghost use Rattle.order_laws.specs.CleanFinding.{CleanInEveryOrder, CleanIsQuiet, CleanIsRun};
ghost use Rattle.std.specs.Prelude.{[]};
ghost use Rattle.mem_spec.specs.Streams.{silent};
ghost use Rattle.c_model.specs.Claims.{EveryOrderAlike};
ghost use Rattle.c_model.specs.Examples.{world_of, local_rows, quit_alone};
ghost use Rattle.order_laws.specs.CleanPrograms.{call_beside};
ghost use Rattle.order_laws.specs.LibraryAsks.{LibraryAsks};
ghost use Rattle.order_laws.specs.Passes.{TwoFramesSwap, TwoStepsSwap, BodyPasses, UpdateIsWhole, UpdatePasses};

/// The frames of every program keep the laws of picks that end the run, whatever is looked at in the store; so where its acts keep those of
/// the store, a run without conflicts within the limit on depth speaks for every permitted order.
pub fn law_program_orders<Part, Seen, Fact>()
    ensures ends { FramesEnd Part Seen Fact }
    ensures orders { ProgramOrdersEndAlike Part Seen Fact }
{}

/// Of backed items the conflicts that findings tell are those that the laws of acts ask for.
pub fn law_items_tell()
    ensures enough { ToldIsEnough }
    ensures stricter { InterferenceIsStricter }
{}

/// The acts of every program keep the laws of the store, if the library's scripts ask for the life of what they access and create objects
/// as their rows say, as those of libc_spec do. So one run without conflicts as the findings tell them speaks for every permitted order.
pub fn law_program_tells()
    ensures store { ActsKeepLaws }
    ensures orders { ProgramOrdersTell }
    ensures library { LibraryOrdersTell }
{}

/// The acts of every program ask for the life of what they access and create what their births count, if the library's scripts do; and
/// those of libc_spec do.
pub fn law_acts_ask()
    ensures acts { ProgramActsAsk }
    ensures library { LibraryAsks }
{}

/// At the states of a run the picks that are permitted in the model are the machine's, and the next one of the canonical order is permitted.
pub fn law_permitted_picks()
    ensures picks { PicksAgree }
    ensures canonical { CanonicalIsPermitted }
{}

/// Where one run of a program goes from its start to its end without conflicts as findings tell them, and within the limits, every order
/// that C permits ends alike, without undefined behaviour, after at most as many picks, and no order's trace holds a race or a quarrel, or an
/// event that ends the run beside another one.
pub fn law_clean_run()
    ensures speaks { CleanRunSpeaks }
    ensures library { LibraryRunSpeaks }
    ensures quiet { CleanRunQuiet }
{}

/// Where the first finding along the canonical order is clean, that order is a run without conflicts, and every order that C permits ends with
/// its status and output, without undefined behaviour, after at most as many picks, and holds no race and no quarrel, and no event that ends
/// the run beside another one.
pub fn law_clean_in_every_order()
    ensures run { CleanIsRun }
    ensures alike { CleanInEveryOrder }
    ensures quiet { CleanIsQuiet }
{}

/// There are such programs: of one with a call beside an update, and of one that exits inside a call, by their first findings every order ends
/// alike.
pub fn law_clean_programs()
    ensures call_beside { EveryOrderAlike (world_of call_beside local_rows) [] [] 2 silent 17 }
    ensures quit_alone { EveryOrderAlike (world_of quit_alone local_rows) [] [] 3 silent 7 }
{}

/// Two steps that don't conflict do the same in either order, and leave one store: of two frames, or of one in which both are ready at once,
/// which they leave the same. It is so at any frames and store, whether or not the run goes on to an end.
pub fn law_two_steps()
    ensures frames { TwoFramesSwap }
    ensures steps { TwoStepsSwap }
{}

/// So it is of two evaluations of one frame, each a step or a whole body with the picks of all frames that it starts.
pub fn law_body_past()
    ensures { BodyPasses }
{}

/// An evaluation that comes before both halves of an update does the same behind them, and may start there if it might before. Between them no
/// body may start.
pub fn law_update_past()
    ensures past { UpdatePasses }
    ensures whole { UpdateIsWhole }
{}
