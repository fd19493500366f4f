//! The program that the definitions of runs are about, as a function of a typed program.
//!
//! A law function takes nothing and answers nothing: its contract is a law about the definitions.
#![tactic(auto)]

ghost use Rattle.program_view.specs.Laws.{TreesAreKept, FormsHaveScalars};
ghost use Rattle.program_view.specs.Text.{TextIsKept};
ghost use Rattle.program_view.specs.Samples.{LoopIsSeen, SwitchIsSeen, JumpIsSeen, StructureIsSeen, StaticsAreSeen, ArgumentsAreSeen};

/// What the view of a program keeps: the order of the events of each full expression (5.1.2.3p3), the scalars of each type, and in the order of the text
/// the blocks of each statement with their objects, its `switch` statements, labels and jumps (6.8).
pub fn law_view()
    ensures trees { TreesAreKept }
    ensures forms { FormsHaveScalars }
    ensures text { TextIsKept }
{}

/// Small typed programs are seen as the model's programs that a reader expects: a loop with `break` and `continue`; a `switch` that falls through
/// (6.8.4.2); `goto` into a block (6.8.6.1); a structure passed and returned; objects with static storage, with addresses and a string (6.7.9); the
/// arguments of `main` (5.1.2.2.1).
pub fn law_samples()
    ensures while_loop { LoopIsSeen }
    ensures fall_through { SwitchIsSeen }
    ensures jump { JumpIsSeen }
    ensures structure { StructureIsSeen }
    ensures statics { StaticsAreSeen }
    ensures arguments { ArgumentsAreSeen }
{}
