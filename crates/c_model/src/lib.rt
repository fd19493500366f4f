//! The definitions of runs and findings. They have no part in the run.
//!
//! A law function takes nothing and answers nothing: its contract is a law about the definitions.
#![tactic(auto)]

ghost use Rattle.std.specs.Prelude.{◌≡◌, [], ◌∷◌, Some};
ghost use Rattle.ub_base.specs.declared.clause.Kind.TheVariants.{Val, Eff, Body};
ghost use Rattle.ub_base.specs.declared.clause.Clause.TheVariants.{Conversion, DeadObject, DivideByZero, Exceptional, Free, Indeterminate, LeftShift};
ghost use Rattle.ub_base.specs.declared.clause.Clause.TheVariants.{MissingValue, StoreToConst, Unsequenced};
ghost use Rattle.ub_base.specs.declared.clause.Cause.TheVariants.{Created};
ghost use Rattle.ub_base.specs.declared.names.ObjName.TheVariants.{Static};
ghost use Rattle.ub_base.specs.declared.names.Item.TheVariants.{Read, Write, Input, Output, Ending, Any};
ghost use Rattle.c_typed.specs.Order.{place};
ghost use Rattle.mem_spec.specs.Streams.{on_output, silent};
ghost use Rattle.c_model.specs.World.{NumbersFrames};
ghost use Rattle.c_model.specs.Numbering.{frame_number};
ghost use Rattle.c_model.specs.Steps.{Control};
ghost use Rattle.c_model.specs.Runs.{Refused};
ghost use Rattle.c_model.specs.Findings.{Meets};
ghost use Rattle.c_model.specs.Claims.{ComesTo, EveryOrderAlike};
ghost use Rattle.c_model.specs.Certificates.{Next, Says_clean, IsValid};
ghost use Rattle.c_model.specs.FirstFinding.{Clean, Undefined, Raced, Order_dependent, Out_of_steps, Outside, Not_placed};
ghost use Rattle.c_model.specs.Laws.{IsIrreflexive, IsAsymmetric, IsTransitive};
ghost use Rattle.c_model.specs.ChoiceLaws.{ReachedStays, NothingNewBefore, EitherNext, EitherOrder, StaysClosed, MoreChoices, EffectComesNext, ValueThenEffect};
ghost use Rattle.c_model.specs.FindingLaws.{RaisesAreTrue, StepsAreTrue, LimitsAreTrue, PairsAreMet};
ghost use Rattle.c_model.specs.EventLaws.{SameAct, SameMove, SameFrame};
ghost use Rattle.c_model.specs.MachineLaws.{OrdersEndAlike};
ghost use Rattle.c_model.specs.ModelMachine.{FramesKeepLaws, FramesEndAlike};
ghost use Rattle.c_model.specs.OpenBlocks.{ReadyCloses, MovesClose, GotoCloses, FindsNoEnters, ReadyEnters};
ghost use Rattle.c_model.specs.ControlExamples.{return_before_block, loop_in_loop, into_blocks, out_of_blocks, case_in_block, no_case, continue_in_do};
ghost use Rattle.c_model.specs.ControlExamples.{continue_in_switch, nested_break};
ghost use Rattle.c_model.specs.Examples.{world_of, canonical_run, audit, audit_on, pair_of, picks_of, NeedsRows, HoldsRace, HoldsQuarrel, HoldsEndQuarrel};
ghost use Rattle.c_model.specs.Examples.{enter, leave, jump, begin, settle, event, main_local, local_rows, global_rows, both_rows, list_rows, return_zero};
ghost use Rattle.c_model.specs.Examples.{add_one, self_increment, divide_by_zero, print_both, list_both, pass_both, increment_and_call, comma_between};
ghost use Rattle.c_model.specs.Examples.{and_beside, loop_forever, quit_beside, past_the_greatest, shift_too_far, divide, unwritten_load, store_to_const};
ghost use Rattle.c_model.specs.Examples.{missing_value, value_unused, read_both, read_in_turn, quit_alone, jump_about, jump_in, inner_rows, large_block};
ghost use Rattle.c_model.specs.Examples.{large_static, print_low, text_row, print_as_int, number, long_number, allocate_once, release_twice, release_local};
ghost use Rattle.c_model.specs.Examples.{heap_rows, allocate_beside, wide_rows};

mod order;

pub use order::{law_canonical_order, law_later_choice, law_order_decided, law_order_examples};

/// There is a numbering in which frames have numbers of their own (specs/Numbering.antt).
pub fn law_numbering()
    ensures { NumbersFrames frame_number }
{}

/// The first finding of small programs, as the definitions give it, with the picks that lead to it.
pub fn law_example_findings()
    ensures return_zero { audit return_zero [] 4 ≡ Clean 0 silent 4 }
    ensures short_budget { audit return_zero [] 3 ≡ Out_of_steps 3 }
    ensures add_one { audit add_one local_rows 20 ≡ Clean 2 silent 15 }
    ensures self_increment { audit self_increment local_rows 20 ≡ Raced
        (pair_of 3 (place 0 Eff) (place 2 Eff) (Write main_local 0 1) (Write main_local 0 1)) 10 }
    ensures divide_by_zero { audit divide_by_zero [] 20 ≡ Undefined DivideByZero [] 2 (Some (place 0 Val)) 1 3 }
    ensures print_both { audit print_both [] 20 ≡ Order_dependent (pair_of 2 (place 1 Body) (place 4 Body) Output Output) 6 }
    ensures list_both { audit list_both list_rows 30 ≡ Order_dependent
        (pair_of 3 (place 1 Body) (place 2 Body) (Write main_local 0 1) (Read main_local 0 1)) 21 }
    ensures pass_both { audit pass_both global_rows 20 ≡ Raced (pair_of 2 (place 2 Eff) (place 4 Val) (Write (Static 0) 0 1) (Read (Static 0) 0 1)) 5 }
    ensures increment_and_call { audit increment_and_call global_rows 20 ≡ Order_dependent
        (pair_of 3 (place 1 Eff) (place 3 Body) (Write (Static 0) 0 1) (Read (Static 0) 0 1)) 15 }
    ensures comma_between { audit comma_between local_rows 20 ≡ Clean 3 silent 13 }
    ensures and_skips { audit (and_beside 0) both_rows 20 ≡ Raced (pair_of 4 (place 0 Eff) (place 3 Eff) (Write main_local 0 1) (Write main_local 0 1)) 15 }
    ensures loop_forever { audit loop_forever [] 20 ≡ Out_of_steps 20 }
    ensures quit_beside { audit quit_beside global_rows 20 ≡ Order_dependent (pair_of 2 (place 1 Val) (place 3 Body) Any Ending) 7 }
{}

/// And of further ones: operators, a load of what wasn't written, a store to a const object, a missing result, input, an end of the run
/// with nothing beside it, objects that are too large, and jumps.
pub fn law_further_findings()
    ensures past_the_greatest { audit past_the_greatest [] 20 ≡ Undefined Exceptional [] 2 (Some (place 0 Val)) 1 3 }
    ensures shift_too_far { audit shift_too_far [] 20 ≡ Undefined LeftShift [] 2 (Some (place 0 Val)) 1 3 }
    ensures divide { audit divide [] 20 ≡ Clean 3 silent 5 }
    ensures and_goes_on { audit (and_beside 1) both_rows 30 ≡ Clean 1 silent 21 }
    ensures unwritten_load { audit unwritten_load local_rows 20 ≡ Undefined Indeterminate [] 2 (Some (place 0 Val)) 1 4 }
    ensures store_to_const { audit store_to_const global_rows 20 ≡ Undefined StoreToConst [] 2 (Some (place 0 Eff)) 1 5 }
    ensures missing_value { audit missing_value [] 20 ≡ Undefined MissingValue [] 2 (Some (place 0 Val)) 1 6 }
    ensures value_unused { audit value_unused [] 20 ≡ Clean 0 silent 10 }
    ensures read_both { audit_on (97 ∷ 98 ∷ []) read_both [] 20 ≡ Order_dependent (pair_of 2 (place 1 Body) (place 3 Body) Input Input) 6 }
    ensures read_in_turn { audit_on (97 ∷ 98 ∷ []) read_in_turn both_rows 30 ≡ Clean 1 silent 19 }
    ensures quit_alone { audit quit_alone local_rows 20 ≡ Clean 3 silent 7 }
    ensures large_block { audit large_block [] 20 ≡ Outside Created 400000000 0 }
    ensures large_static { audit large_static [] 20 ≡ Outside Created 400000000 0 }
    ensures jump_about { audit jump_about local_rows 100 ≡ Clean 5 silent 75 }
    ensures jump_in { audit jump_in inner_rows 20 ≡ Clean 0 silent 7 }
{}

/// And of calls of the library, each of which does what libc_spec's scripts say: the byte that is printed of a number, a number printed
/// by its type and by another one, an object on the heap, a pointer to one that was freed (6.2.4p2), an object of a block that is
/// freed (7.22.3.3p2), and allocations beside an array of 67,108,848 bytes that alone has a row: one passes the limit on created bytes,
/// one stays within it and lacks a row, and one is too large to be given an object.
pub fn law_library_findings()
    ensures print_low { audit print_low [] 20 ≡ Clean 97 (on_output (97 ∷ [])) 6 }
    ensures print_int { audit (print_as_int (number 42)) (text_row ∷ []) 20 ≡ Clean 3 (on_output (52 ∷ 50 ∷ 10 ∷ [])) 6 }
    ensures print_long { audit (print_as_int (long_number 42)) (text_row ∷ []) 20 ≡ Undefined Conversion [] 2 (Some (place 0 Body)) 1 3 }
    ensures allocate_once { audit allocate_once heap_rows 40 ≡ Clean 7 silent 29 }
    ensures release_twice { audit release_twice heap_rows 40 ≡ Undefined DeadObject [] 4 (Some (place 3 Val)) 1 16 }
    ensures release_local { audit release_local local_rows 20 ≡ Undefined Free [] 2 (Some (place 0 Body)) 1 5 }
    ensures past_the_limit { audit (allocate_beside 32) wide_rows 20 ≡ Outside Created 67108880 3 }
    ensures no_row { audit (allocate_beside 16) wide_rows 20 ≡ Not_placed 3 }
    ensures null { audit (allocate_beside 1048577) wide_rows 20 ≡ Clean 0 silent 9 }
{}

/// The picks of small programs in canonical order.
pub fn law_example_picks()
    ensures return_zero { picks_of return_zero [] 10 ≡ enter ∷ begin ∷ settle ∷ leave ∷ [] }
    ensures add_one { picks_of add_one local_rows 20 ≡ enter
        ∷ begin ∷ event (place 0 Val) ∷ event (place 0 Eff) ∷ settle
        ∷ begin ∷ event (place 3 Val) ∷ event (place 2 Val) ∷ event (place 0 Val) ∷ event (place 0 Eff) ∷ settle
        ∷ begin ∷ event (place 0 Val) ∷ settle ∷ leave ∷ [] }
    ensures self_increment { picks_of self_increment local_rows 10 ≡ enter
        ∷ begin ∷ event (place 0 Val) ∷ event (place 0 Eff) ∷ settle
        ∷ begin ∷ event (place 2 Val) ∷ event (place 2 Eff) ∷ event (place 0 Val) ∷ event (place 0 Eff) ∷ [] }
    ensures list_both { picks_of list_both list_rows 21 ≡ enter
        ∷ begin ∷ event (place 0 Val) ∷ event (place 0 Eff) ∷ settle ∷ begin
        ∷ event (place 1 Body) ∷ begin ∷ event (place 3 Val) ∷ event (place 3 Eff) ∷ event (place 0 Val) ∷ event (place 0 Eff) ∷ settle ∷ event (place 1 Val)
        ∷ event (place 2 Body) ∷ begin ∷ event (place 3 Val) ∷ event (place 0 Val) ∷ event (place 0 Eff) ∷ settle ∷ event (place 2 Val) ∷ [] }
    ensures increment_and_call { picks_of increment_and_call global_rows 15 ≡ enter
        ∷ begin ∷ event (place 0 Val) ∷ event (place 0 Eff) ∷ settle
        ∷ begin ∷ event (place 1 Val) ∷ event (place 1 Eff) ∷ event (place 3 Body)
        ∷ enter ∷ begin ∷ event (place 0 Val) ∷ settle ∷ leave ∷ event (place 3 Val) ∷ [] }
{}

/// The picks of programs that jump: a block is left only where it was entered, and each control step is made ready by itself.
pub fn law_control_picks()
    ensures return_before_block { picks_of return_before_block [] 20 ≡ enter ∷ begin ∷ settle ∷ leave ∷ [] }
    ensures loop_in_loop { picks_of loop_in_loop [] 20 ≡ enter ∷ begin ∷ settle ∷ begin ∷ settle ∷ leave ∷ [] }
    ensures into_blocks { picks_of into_blocks [] 20 ≡ enter ∷ enter ∷ jump ∷ leave ∷ enter ∷ enter ∷ begin ∷ settle ∷ leave ∷ leave ∷ leave ∷ [] }
    ensures out_of_blocks { picks_of out_of_blocks [] 20 ≡ enter ∷ enter ∷ enter ∷ jump ∷ leave ∷ leave ∷ begin ∷ settle ∷ leave ∷ [] }
    ensures case_in_block { picks_of case_in_block [] 20 ≡ enter ∷ begin ∷ settle ∷ enter ∷ enter ∷ begin ∷ settle ∷ leave ∷ leave ∷ leave ∷ [] }
    ensures no_case { picks_of no_case [] 20 ≡ enter ∷ begin ∷ settle ∷ begin ∷ settle ∷ leave ∷ [] }
    ensures continue_in_do { picks_of continue_in_do [] 20 ≡ enter ∷ enter ∷ jump ∷ leave ∷ begin ∷ settle ∷ begin ∷ settle ∷ leave ∷ [] }
    ensures continue_in_switch { picks_of continue_in_switch [] 20
        ≡ enter ∷ enter ∷ begin ∷ settle ∷ enter ∷ jump ∷ leave ∷ leave ∷ begin ∷ settle ∷ begin ∷ settle ∷ leave ∷ [] }
    ensures nested_break { picks_of nested_break [] 20 ≡ enter ∷ enter ∷ enter ∷ jump ∷ leave ∷ enter ∷ leave ∷ jump ∷ leave ∷ begin ∷ settle ∷ leave ∷ [] }
{}

/// A todo list leaves just the blocks that are open: what makes a control step ready keeps this, and so do the moves.
pub fn law_open_blocks()
    ensures ready { ReadyCloses }
    ensures moves { MovesClose }
    ensures goto { GotoCloses }
    ensures found { FindsNoEnters }
    ensures behind { ReadyEnters }
{}

/// And their findings.
pub fn law_control_findings()
    ensures return_before_block { audit return_before_block [] 20 ≡ Clean 0 silent 4 }
    ensures loop_in_loop { audit loop_in_loop [] 20 ≡ Clean 0 silent 6 }
    ensures into_blocks { audit into_blocks [] 20 ≡ Clean 0 silent 11 }
    ensures out_of_blocks { audit out_of_blocks [] 20 ≡ Clean 0 silent 9 }
    ensures case_in_block { audit case_in_block [] 20 ≡ Clean 0 silent 10 }
    ensures no_case { audit no_case [] 20 ≡ Clean 0 silent 6 }
    ensures continue_in_do { audit continue_in_do [] 20 ≡ Clean 0 silent 9 }
    ensures continue_in_switch { audit continue_in_switch [] 20 ≡ Clean 0 silent 13 }
    ensures nested_break { audit nested_break [] 20 ≡ Clean 0 silent 12 }
{}

/// What the traces of these runs hold: the race of `i = i++`, whose trace meets 6.5p2; the quarrels of two calls that print, and of
/// `i++ + f()` where f reads i; and beside a call that exits, an operand that was evaluated before it.
pub fn law_example_traces()
    ensures self_increment { HoldsRace (world_of self_increment local_rows) (canonical_run self_increment local_rows 10) 3 (place 0 Eff) (place 2 Eff) }
    ensures meets { Meets (world_of self_increment local_rows) (canonical_run self_increment local_rows 10) Unsequenced }
    ensures print_both { HoldsQuarrel (world_of print_both []) (canonical_run print_both [] 6) 2 (place 4 Body) (place 1 Body) }
    ensures increment_and_call { HoldsQuarrel (world_of increment_and_call global_rows) (canonical_run increment_and_call global_rows 15) 3 (place 3 Body)
        (place 1 Eff) }
    ensures quit_beside { HoldsEndQuarrel (canonical_run quit_beside global_rows 7) 2 (place 3 Body) (place 1 Val) }
    ensures divide_by_zero { Meets (world_of divide_by_zero []) (canonical_run divide_by_zero [] 3) DivideByZero }
{}

/// After the four picks of `int main(void){return 0;}` a further one is refused.
pub fn law_past_the_end()
    ensures { ComesTo (world_of return_zero []) [] [] (Control ∷ Control ∷ Control ∷ Control ∷ Control ∷ []) Refused }
{}

/// Of the same program every order ends alike, and a certificate that says so is valid.
pub fn law_return_zero()
    ensures alike { EveryOrderAlike (world_of return_zero []) [] [] 0 silent 4 }
    ensures valid { IsValid (world_of return_zero []) [] [] [] (Next 4 ∷ []) (Says_clean 0 []) }
{}

/// The rows that these runs need, where objects are spaced.
pub fn law_example_rows()
    ensures add_one { NeedsRows add_one local_rows 15 }
    ensures list_both { NeedsRows list_both list_rows 21 }
    ensures increment_and_call { NeedsRows increment_and_call global_rows 15 }
    ensures print_int { NeedsRows (print_as_int (number 42)) (text_row ∷ []) 6 }
    ensures allocate_once { NeedsRows allocate_once heap_rows 29 }
{}

/// Sequenced before is a strict partial order on the events of a full expression, whatever was chosen (5.1.2.3p3).
pub fn law_sequenced_before()
    ensures irreflexive { IsIrreflexive }
    ensures asymmetric { IsAsymmetric }
    ensures transitive { IsTransitive }
{}

/// What a pick of a full expression keeps of its other events, whatever operand is chosen by it, by the recursive decision of
/// sequenced before: what was reached stays reached, nothing new comes before it, and two picks that may come next leave each other so
/// and may come in either order.
pub fn law_later_choices()
    ensures reached { ReachedStays }
    ensures before { NothingNewBefore }
    ensures either { EitherNext }
    ensures order { EitherOrder }
{}

/// By that decision the value of an update comes before its effect and whatever else does before the value (6.5.2.4p2, 6.5.16.2p3); so once
/// the value is taken the effect may come next, where all that is done was reached, which picks keep. More choices order more.
pub fn law_update_halves()
    ensures closed { StaysClosed }
    ensures choices { MoreChoices }
    ensures effect { EffectComesNext }
    ensures halves { ValueThenEffect }
{}

/// Of two events of one frame that may both come next, the second does what it does without the first, to the store and to the frames,
/// and the frame is the same after both in either order.
pub fn law_two_events()
    ensures act { SameAct }
    ensures moves { SameMove }
    ensures frame { SameFrame }
{}

/// What is found first is true: the canonical order is permitted from the start on, its last pick raises the clause at that event of that
/// line; or so many picks have no end; or the next one, or the start, would pass the limit with that number. Of a pair, that its picks are
/// permitted.
pub fn law_findings_true()
    ensures raises { RaisesAreTrue }
    ensures steps { StepsAreTrue }
    ensures limits { LimitsAreTrue }
    ensures pairs { PairsAreMet }
{}

/// Where the picks of a machine of frames keep these laws, every permitted order ends as one run without conflicts does.
pub fn law_orders_end_alike<F, P, V, S, I, Part, Seen, Fact>()
    ensures { OrdersEndAlike F P V S I Part Seen Fact }
{}

/// The frames of every program keep the laws of the frame, of the order and of updates, whatever is looked at in the store; so where its
/// acts keep those of the store, every permitted order ends as one run without conflicts does.
pub fn law_frames_keep<Part, Seen, Fact>()
    ensures keep { FramesKeepLaws Part Seen Fact }
    ensures ends { FramesEndAlike Part Seen Fact }
{}
