//! Small programs whose first finding the definitions of runs give, one law function a topic. The expected findings, statuses and picks are
//! worked out by hand from the standard and the profile; each stands with its program in specs/.
#![tactic(auto)]

ghost use Rattle.model_samples.specs.Operators as operators;
ghost use Rattle.model_samples.specs.Accesses as accesses;
ghost use Rattle.model_samples.specs.Pointers as pointers;
ghost use Rattle.model_samples.specs.Updates as updates;
ghost use Rattle.model_samples.specs.Statements as statements;
ghost use Rattle.model_samples.specs.Calls as calls;
ghost use Rattle.model_samples.specs.Initializers as initializers;
ghost use Rattle.model_samples.specs.Functions as functions;
ghost use Rattle.model_samples.specs.Limits as limits;
ghost use Rattle.model_samples.specs.Conflicts as conflicts;
ghost use Rattle.model_samples.specs.Pairs as pairs;
ghost use Rattle.model_samples.specs.Definitions as definitions;
ghost use Rattle.model_samples.specs.Completed as completed;
ghost use Rattle.model_samples.specs.Traces as traces;

/// Of operators and conversions.
pub fn law_operators()
    ensures plus { operators.plus }
    ensures less_than_nothing { operators.less_than_nothing }
    ensures times { operators.times }
    ensures quotient { operators.quotient }
    ensures remainder { operators.remainder }
    ensures shift_left { operators.shift_left }
    ensures shift_right { operators.shift_right }
    ensures bits_and { operators.bits_and }
    ensures bits_or { operators.bits_or }
    ensures bits_differ { operators.bits_differ }
    ensures sum_too_great { operators.sum_too_great }
    ensures difference_too_small { operators.difference_too_small }
    ensures product_too_great { operators.product_too_great }
    ensures quotient_by_zero { operators.quotient_by_zero }
    ensures remainder_by_zero { operators.remainder_by_zero }
    ensures quotient_too_great { operators.quotient_too_great }
    ensures remainder_of_too_great { operators.remainder_of_too_great }
    ensures count_too_great { operators.count_too_great }
    ensures count_below_zero { operators.count_below_zero }
    ensures shifts_below_zero { operators.shifts_below_zero }
    ensures shifts_too_far { operators.shifts_too_far }
    ensures wraps { operators.wraps }
    ensures wraps_down { operators.wraps_down }
    ensures negated { operators.negated }
    ensures least_negated { operators.least_negated }
    ensures complement { operators.complement }
    ensures not_zero { operators.not_zero }
    ensures not_five { operators.not_five }
    ensures is_less { operators.is_less }
    ensures is_greater { operators.is_greater }
    ensures at_most { operators.at_most }
    ensures at_least { operators.at_least }
    ensures are_equal { operators.are_equal }
    ensures are_different { operators.are_different }
    ensures and_stops { operators.and_stops }
    ensures and_both { operators.and_both }
    ensures and_goes_on { operators.and_goes_on }
    ensures or_stops { operators.or_stops }
    ensures or_neither { operators.or_neither }
    ensures or_goes_on { operators.or_goes_on }
    ensures takes_second { operators.takes_second }
    ensures takes_third { operators.takes_third }
    ensures takes_third_of { operators.takes_third_of }
    ensures comma { operators.comma }
    ensures to_bool { operators.to_bool }
    ensures to_unsigned_char { operators.to_unsigned_char }
    ensures to_signed_char { operators.to_signed_char }
    ensures to_short { operators.to_short }
    ensures to_long { operators.to_long }
    ensures of_object { operators.of_object }
{}

/// Of loads and stores, of pointer arithmetic, and of what makes them undefined.
pub fn law_accesses()
    ensures low_byte { accesses.low_byte }
    ensures as_unsigned { accesses.as_unsigned }
    ensures read_as_short { accesses.read_as_short }
    ensures stored_as_short { accesses.stored_as_short }
    ensures partly_written { accesses.partly_written }
    ensures load_of_null { accesses.load_of_null }
    ensures store_to_null { accesses.store_to_null }
    ensures element { accesses.element }
    ensures load_past_the_end { accesses.load_past_the_end }
    ensures further_past { accesses.further_past }
    ensures before_the_start { accesses.before_the_start }
    ensures element_of_pointer { accesses.element_of_pointer }
    ensures dead_block { accesses.dead_block }
    ensures store_to_literal { accesses.store_to_literal }
    ensures no_bool { accesses.no_bool }
    ensures whole_copied { accesses.whole_copied }
    ensures member_of_value { accesses.member_of_value }
    ensures part_of_pointer { accesses.part_of_pointer }
    ensures part_of_function { accesses.part_of_function }
    ensures part_of_part { accesses.part_of_part }
    ensures overlapping_copy { accesses.overlapping_copy }
    ensures exact_copy { accesses.exact_copy }
    ensures member_of_null { accesses.member_of_null }
    ensures member_by_pointer { accesses.member_by_pointer }
    ensures difference { accesses.difference }
    ensures difference_of_two { accesses.difference_of_two }
    ensures no_multiple { accesses.no_multiple }
    ensures less_within { accesses.less_within }
    ensures less_of_two { accesses.less_of_two }
    ensures equal_pointers { accesses.equal_pointers }
    ensures not_null { accesses.not_null }
    ensures null_function { accesses.null_function }
{}

/// Of conversions between pointers and integers, and of pointers that are ambiguous.
pub fn law_pointers()
    ensures address { pointers.address }
    ensures exposes { pointers.exposes }
    ensures as_bool { pointers.as_bool }
    ensures null_as_bool { pointers.null_as_bool }
    ensures through_an_integer { pointers.through_an_integer }
    ensures of_no_object { pointers.of_no_object }
    ensures not_exposed { pointers.not_exposed }
    ensures zero_is_null { pointers.zero_is_null }
    ensures misaligned { pointers.misaligned }
    ensures function_converted { pointers.function_converted }
    ensures ambiguous { pointers.ambiguous }
    ensures settled { pointers.settled }
    ensures settled_to_the_other { pointers.settled_to_the_other }
    ensures moved_once { pointers.moved_once }
    ensures stored_only { pointers.stored_only }
{}

/// Of increments, decrements and compound assignments.
pub fn law_updates()
    ensures postfix { updates.postfix }
    ensures postfix_stores { updates.postfix_stores }
    ensures postfix_down { updates.postfix_down }
    ensures prefix { updates.prefix }
    ensures adds { updates.adds }
    ensures multiplies { updates.multiplies }
    ensures divides { updates.divides }
    ensures shifts { updates.shifts }
    ensures masks { updates.masks }
    ensures past_the_greatest { updates.past_the_greatest }
    ensures divides_by_zero { updates.divides_by_zero }
    ensures shifts_too_far { updates.shifts_too_far }
    ensures narrow_wraps { updates.narrow_wraps }
    ensures pointer_moves { updates.pointer_moves }
    ensures pointer_gives { updates.pointer_gives }
    ensures pointer_leaves { updates.pointer_leaves }
    ensures unwritten { updates.unwritten }
{}

/// Of statements, with the picks that they take.
pub fn law_statements()
    ensures null_statement { statements.null_statement }
    ensures falls_off { statements.falls_off }
    ensures unused { statements.unused }
    ensures if_true { statements.if_true }
    ensures if_false { statements.if_false }
    ensures if_only_true { statements.if_only_true }
    ensures if_only_false { statements.if_only_false }
    ensures if_of_pointer { statements.if_of_pointer }
    ensures case { statements.case }
    ensures default { statements.default }
    ensures default_first { statements.default_first }
    ensures falls_through { statements.falls_through }
    ensures case_break { statements.case_break }
    ensures case_alone { statements.case_alone }
    ensures case_in_loop { statements.case_in_loop }
    ensures inner_case { statements.inner_case }
    ensures while_loop { statements.while_loop }
    ensures do_loop { statements.do_loop }
    ensures for_loop { statements.for_loop }
    ensures for_ever { statements.for_ever }
    ensures for_test { statements.for_test }
    ensures for_step { statements.for_step }
    ensures for_start { statements.for_start }
    ensures for_declared { statements.for_declared }
    ensures for_continue { statements.for_continue }
    ensures while_continue { statements.while_continue }
    ensures while_break { statements.while_break }
    ensures goto_forward { statements.goto_forward }
    ensures goto_back { statements.goto_back }
    ensures goto_into_loop { statements.goto_into_loop }
    ensures goto_into_branch { statements.goto_into_branch }
    ensures goto_into_switch { statements.goto_into_switch }
    ensures declared_again { statements.declared_again }
    ensures entered_again { statements.entered_again }
    ensures return_in_blocks { statements.return_in_blocks }
    ensures return_before_block { statements.return_before_block }
    ensures test_in_loop { statements.test_in_loop }
    ensures loop_in_loop { statements.loop_in_loop }
{}

/// Of calls, of what they pass and give, and of the arguments of `main`.
pub fn law_calls()
    ensures arguments { calls.arguments }
    ensures objects_then_arguments { calls.objects_then_arguments }
    ensures recursion { calls.recursion }
    ensures no_result { calls.no_result }
    ensures no_return { calls.no_return }
    ensures missing { calls.missing }
    ensures missing_unused { calls.missing_unused }
    ensures by_pointer { calls.by_pointer }
    ensures by_null { calls.by_null }
    ensures incompatible { calls.incompatible }
    ensures not_defined { calls.not_defined }
    ensures whole_passed { calls.whole_passed }
    ensures one_after_the_other { calls.one_after_the_other }
    ensures count_of_arguments { calls.count_of_arguments }
    ensures name_of_program { calls.name_of_program }
    ensures last_argument { calls.last_argument }
{}

/// Of initializers.
pub fn law_initializers()
    ensures listed { initializers.listed }
    ensures rest_is_zero { initializers.rest_is_zero }
    ensures expression_kept { initializers.expression_kept }
    ensures fills_rest { initializers.fills_rest }
    ensures string { initializers.string }
    ensures fills_only { initializers.fills_only }
    ensures address_constant { initializers.address_constant }
    ensures function_constant { initializers.function_constant }
    ensures zeroed { initializers.zeroed }
{}

/// Of functions of the library.
pub fn law_functions()
    ensures zeroed_object { functions.zeroed_object }
    ensures unwritten_object { functions.unwritten_object }
    ensures resized { functions.resized }
    ensures freed { functions.freed }
    ensures used_after_free { functions.used_after_free }
    ensures frees_null { functions.frees_null }
    ensures frees_local { functions.frees_local }
    ensures frees_inside { functions.frees_inside }
    ensures resizes_local { functions.resizes_local }
    ensures too_large { functions.too_large }
    ensures copied { functions.copied }
    ensures copied_onto_itself { functions.copied_onto_itself }
    ensures moved { functions.moved }
    ensures filled { functions.filled }
    ensures past_the_object { functions.past_the_object }
    ensures compared { functions.compared }
    ensures length_of_text { functions.length_of_text }
    ensures texts_compared { functions.texts_compared }
    ensures byte_found { functions.byte_found }
    ensures text_copied { functions.text_copied }
    ensures text_copied_onto_itself { functions.text_copied_onto_itself }
    ensures no_text { functions.no_text }
    ensures text_of_null { functions.text_of_null }
    ensures text_of_unwritten { functions.text_of_unwritten }
    ensures end_of_input { functions.end_of_input }
    ensures after_the_end { functions.after_the_end }
    ensures line_printed { functions.line_printed }
    ensures byte_printed { functions.byte_printed }
    ensures error_printed { functions.error_printed }
    ensures too_few { functions.too_few }
    ensures wrong_type { functions.wrong_type }
    ensures invalid_directive { functions.invalid_directive }
    ensures exits { functions.exits }
    ensures aborts { functions.aborts }
{}

/// Of limits: each one passed, and reached.
pub fn law_limits()
    ensures depth { limits.depth }
    ensures within_depth { limits.within_depth }
    ensures created_at_start { limits.created_at_start }
    ensures created_by_block { limits.created_by_block }
    ensures within_created { limits.within_created }
    ensures created_by_call { limits.created_by_call }
    ensures created_without_row { limits.created_without_row }
    ensures output { limits.output }
    ensures within_output { limits.within_output }
    ensures outputs_together { limits.outputs_together }
    ensures long_conversion { limits.long_conversion }
    ensures directive_left_out { limits.directive_left_out }
    ensures raise_before_limit { limits.raise_before_limit }
{}

/// Of races and quarrels, each kind of conflict that programs show, and of evaluations that are sequenced or conflict with nothing.
pub fn law_conflicts()
    ensures write_and_read { conflicts.write_and_read }
    ensures read_and_write { conflicts.read_and_write }
    ensures two_writes { conflicts.two_writes }
    ensures own_operand { conflicts.own_operand }
    ensures value_used { conflicts.value_used }
    ensures other_bytes { conflicts.other_bytes }
    ensures part_of_it { conflicts.part_of_it }
    ensures test_before { conflicts.test_before }
    ensures test_before_either { conflicts.test_before_either }
    ensures test_before_branch { conflicts.test_before_branch }
    ensures not_evaluated { conflicts.not_evaluated }
    ensures evaluated { conflicts.evaluated }
    ensures comma_before { conflicts.comma_before }
    ensures two_bodies { conflicts.two_bodies }
    ensures body_beside_write { conflicts.body_beside_write }
    ensures body_after_argument { conflicts.body_after_argument }
    ensures body_of_body { conflicts.body_of_body }
    ensures end_of_life_and_access { conflicts.end_of_life_and_access }
    ensures exposure_and_end_of_life { conflicts.exposure_and_end_of_life }
    ensures exposure_and_lookup { conflicts.exposure_and_lookup }
    ensures lookup_and_end_of_life { conflicts.lookup_and_end_of_life }
    ensures two_inputs { conflicts.two_inputs }
    ensures two_outputs { conflicts.two_outputs }
    ensures outputs_of_two_streams { conflicts.outputs_of_two_streams }
    ensures input_and_output { conflicts.input_and_output }
    ensures end_beside_done { conflicts.end_beside_done }
    ensures end_beside_pending { conflicts.end_beside_pending }
    ensures end_alone { conflicts.end_alone }
    ensures end_after { conflicts.end_after }
    ensures list_expressions { conflicts.list_expressions }
    ensures race_before_quarrel { conflicts.race_before_quarrel }
{}

/// Of two operands with one item each: which kinds conflict.
pub fn law_pairs()
    ensures birth_and_use { pairs.birth_and_use }
    ensures birth_and_exposure { pairs.birth_and_exposure }
    ensures birth_and_death { pairs.birth_and_death }
    ensures two_deaths { pairs.two_deaths }
    ensures death_and_exposure { pairs.death_and_exposure }
    ensures birth_of_another { pairs.birth_of_another }
    ensures deaths_of_two { pairs.deaths_of_two }
    ensures two_settlings { pairs.two_settlings }
    ensures settled_alike { pairs.settled_alike }
    ensures settled_apart { pairs.settled_apart }
    ensures end_and_any { pairs.end_and_any }
    ensures end_and_output { pairs.end_and_output }
    ensures end_and_read { pairs.end_and_read }
    ensures two_ends { pairs.two_ends }
    ensures two_streams { pairs.two_streams }
{}

/// Of the definitions where no program shows them: null pointers, what a value counts as, the input at its end, numbers of frames.
pub fn law_definitions()
    ensures null_function { definitions.null_function }
    ensures null_object { definitions.null_object }
    ensures truth_of_function { definitions.truth_of_function }
    ensures address_of_function { definitions.address_of_function }
    ensures function_as_number { definitions.function_as_number }
    ensures numbers_as_pointers { definitions.numbers_as_pointers }
    ensures pointers_as_numbers { definitions.pointers_as_numbers }
    ensures last_address { definitions.last_address }
    ensures source_moves { definitions.source_moves }
    ensures input_stands_still { definitions.input_stands_still }
    ensures other_numbers { definitions.other_numbers }
{}

/// An order meets only what its own last pick or its own trace shows.
pub fn law_meets()
    ensures nothing { definitions.nothing_met }
    ensures raised { definitions.raised_only }
{}

/// What picks complete.
pub fn law_completions()
    ensures of_nodes { completed.completions }
    ensures none_begun { completed.none_begun }
{}

/// Of the permitted picks that lead to a pair: what their trace holds.
pub fn law_traces()
    ensures race { traces.race_held }
    ensures quarrel { traces.quarrel_held }
{}
