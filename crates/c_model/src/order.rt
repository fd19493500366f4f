//! Laws of the order within a full expression.
ghost use Rattle.std.specs.Prelude.{◌≡◌, [], ◌∷◌};
ghost use Rattle.c_model.specs.OrderExamples.{Earlier, Unsequenced, Indeterminate, all_stands, nothing, at_root, own_increment, two_arguments, both_hold};
ghost use Rattle.c_model.specs.OrderExamples.{one_of_two, comma_and_one, two_calls, nested_calls, comma_argument};
ghost use Rattle.c_model.specs.OrderLaws.{IsDecided, ListsOnce, RespectsOrder, GoesAlong, EndsWithDue, AddsNothing};

/// Sequenced before, decided by going down the tree, is the transitive closure of its rules over due events (5.1.2.3p3).
pub fn law_order_decided()
    ensures { IsDecided }
{}

/// The canonical order takes each due event once, after all that is sequenced before it (own).
pub fn law_canonical_order()
    ensures once { ListsOnce }
    ensures respects { RespectsOrder }
    ensures along { GoesAlong }
    ensures ends { EndsWithDue }
{}

/// A later choice of an operand puts nothing new before an event that was reached, so whether two such events are sequenced
/// is settled (5.1.2.3p3).
pub fn law_later_choice()
    ensures { AddsNothing }
{}

/// How all pairs of events stand in the trees of some full expressions, worked out from 6.5 and 5.1.2.3 by hand, for each
/// event of the listing those that follow it: `i = i++`, `h(i++, i)`, `x++ && y` with and without its second operand,
/// `a++ ? b = 1 : (c = 2)` both ways, `(i++, i) + 1`, `f() + g()`, `f(g(i))`, `h((i++, i), i)`.
pub fn law_order_examples()
    ensures own_increment { all_stands own_increment nothing ≡ (Earlier ∷ Earlier ∷ Earlier ∷ []) ∷ (Unsequenced ∷ Unsequenced ∷ []) ∷
        (Unsequenced ∷ []) ∷ [] ∷ [] }
    ensures two_arguments { all_stands two_arguments nothing ≡ (Earlier ∷ Unsequenced ∷ Earlier ∷ Earlier ∷ []) ∷ (Unsequenced ∷ Earlier ∷ Earlier ∷ []) ∷
        (Earlier ∷ Earlier ∷ []) ∷ (Earlier ∷ []) ∷ [] ∷ [] }
    ensures both_hold { all_stands both_hold (at_root 1) ≡ (Earlier ∷ Earlier ∷ Earlier ∷ []) ∷ (Earlier ∷ Earlier ∷ []) ∷ (Earlier ∷ []) ∷ [] ∷ [] }
    ensures skipped { all_stands both_hold nothing ≡ (Earlier ∷ Earlier ∷ []) ∷ (Unsequenced ∷ []) ∷ [] ∷ [] }
    ensures second_of_three { all_stands one_of_two (at_root 1) ≡ (Earlier ∷ Earlier ∷ Earlier ∷ Earlier ∷ []) ∷ (Earlier ∷ Earlier ∷ Earlier ∷ []) ∷
        (Unsequenced ∷ Earlier ∷ []) ∷ (Unsequenced ∷ []) ∷ [] ∷ [] }
    ensures third_of_three { all_stands one_of_two (at_root 2) ≡ (Earlier ∷ Earlier ∷ Earlier ∷ Earlier ∷ []) ∷ (Earlier ∷ Earlier ∷ Earlier ∷ []) ∷
        (Unsequenced ∷ Earlier ∷ []) ∷ (Unsequenced ∷ []) ∷ [] ∷ [] }
    ensures comma_and_one { all_stands comma_and_one nothing ≡ (Earlier ∷ Earlier ∷ Earlier ∷ Earlier ∷ []) ∷ (Earlier ∷ Earlier ∷ Earlier ∷ []) ∷
        (Earlier ∷ Earlier ∷ []) ∷ (Earlier ∷ []) ∷ [] ∷ [] }
    ensures two_calls { all_stands two_calls nothing ≡ (Earlier ∷ Indeterminate ∷ Indeterminate ∷ Earlier ∷ []) ∷
        (Indeterminate ∷ Unsequenced ∷ Earlier ∷ []) ∷ (Earlier ∷ Earlier ∷ []) ∷ (Earlier ∷ []) ∷ [] ∷ [] }
    ensures nested_calls { all_stands nested_calls nothing ≡ (Earlier ∷ Earlier ∷ Earlier ∷ Earlier ∷ []) ∷ (Earlier ∷ Earlier ∷ Earlier ∷ []) ∷
        (Earlier ∷ Earlier ∷ []) ∷ (Earlier ∷ []) ∷ [] ∷ [] }
    ensures comma_argument { all_stands comma_argument nothing ≡ (Earlier ∷ Earlier ∷ Earlier ∷ Unsequenced ∷ Earlier ∷ Earlier ∷ []) ∷
        (Earlier ∷ Earlier ∷ Unsequenced ∷ Earlier ∷ Earlier ∷ []) ∷ (Earlier ∷ Unsequenced ∷ Earlier ∷ Earlier ∷ []) ∷
        (Unsequenced ∷ Earlier ∷ Earlier ∷ []) ∷ (Earlier ∷ Earlier ∷ []) ∷ (Earlier ∷ []) ∷ [] ∷ [] }
{}
