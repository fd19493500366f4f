// Whether the two evaluations of a conflict stand to one another as its kind asks.
ghost use Rattle.std.specs.Prelude.{◌≡◌, ◌<◌, ◌^◌, List, false, IsTrue, IfSome, None, Some, true};
ghost use Rattle.c_typed.specs.Decide.{due_in};
ghost use Rattle.c_typed.specs.Tree.{Tree, size, tree_of};
ghost use Rattle.elaborate.specs.Roots.{trees_at};
ghost use Rattle.evaluation_log.specs.FoundItems.{ItemsConflict};
ghost use Rattle.run_evaluations.specs.Told.{Opened};
ghost use Rattle.seq_order.specs.Marked.{taken_in};
ghost use Rattle.seq_order.specs.Relations.{relation_in};
ghost use Rattle.conflict_detector.specs.Apart.{AreApart, FoundApart, IsApart, SeenApart, Suits, place_of};
ghost use Rattle.conflict_detector.specs.Shown.{IsDuePair, IsLast, IsShown};

use crate::seen::Seen;
use c_typed::{Place, Typed};
use evaluation_log::{Found, line_of};
use run_state::{Begun, View};
use seq_order::{Relation, Taken, due, relation};
use ub_base::Event;

/// The full expression on top.
pub(crate) fn last_of<'v, 'p>(v: &View<'v, 'p>) -> Option<&'v Begun<'p>>
    ensures some { IfSome result (λ b. IsLast v.now.begun.now b.now) }
    ensures none { result ≡ None → (b : Begun) → IsLast v.now.begun.now b → ⊥ }
{
    v.begun.last()
}

/// A conflict of this full expression, if its two evaluations stand to one another there as its kind asks.
pub(crate) fn apart_in(roots: &[&Typed], begun: &Begun, found: Option<Found>) -> Option<Found>
    requires { ItemsConflict found }
    ensures conflict { ItemsConflict result }
    ensures apart { FoundApart (trees_at roots.now) result }
    ensures given { IfSome result (λ f. found ≡ Some f) }
    ensures passes_none_over { (t : Opened) (f : Found) → IsShown roots.now begun.now t → found ≡ Some f → IsDuePair t f → result ≡ Some f }
{
    let found = found?;
    if !are_apart_at(roots, begun.tree as usize, &begun.taken, &found) {
        return None;
    }
    Some(found)
}

// Whether they do so in the full expression of this number.
fn are_apart_at(roots: &[&Typed], number: usize, taken: &Taken, found: &Found) -> bool
    ensures apart { IsTrue result → AreApart (trees_at roots.now) found.now.race found.now.event found.now.against }
    ensures passes_none_over { (begun : Begun) (t : Opened) → number ≡ begun.tree → taken.now ≡ begun.taken → IsShown roots.now begun t →
        IsDuePair t found.now → result ≡ true }
{
    match roots.get(number) {
        Some(root) => are_apart_in(root, taken, found),
        None => false,
    }
}

// Both are evaluated; those of a race are unsequenced (6.5p2), and of those of another conflict neither is sequenced
// before the other.
fn are_apart_in(root: &Typed, taken: &Taken, found: &Found) -> bool
    ensures apart { IsTrue result → IsApart (taken_in taken.now) (tree_of root.now) found.now.race (place_of found.now.event) (place_of found.now.against) }
    ensures all { size (tree_of root.now) < 2 ^ 32 → due_in (taken_in taken.now) 0 (tree_of root.now) (place_of found.now.event) ≡ true →
        due_in (taken_in taken.now) 0 (tree_of root.now) (place_of found.now.against) ≡ true →
        Suits found.now.race (relation_in (taken_in taken.now) (tree_of root.now) (place_of found.now.event) (place_of found.now.against)) → result ≡ true }
{
    let event = place_of(&found.event);
    let against = place_of(&found.against);
    if !due(root, event, taken) || !due(root, against, taken) {
        return false;
    }
    suits(found.race, relation(root, event, against, taken))
}

fn suits(race: bool, relation: Relation) -> bool
    ensures yes { IsTrue result → Suits race relation }
    ensures no { Suits race relation → result ≡ true }
{
    match relation {
        Relation::Sequenced => false,
        Relation::Unsequenced => true,
        Relation::Indeterminate => !race,
    }
}

fn place_of(event: &Event) -> Place
    ensures { result ≡ place_of event.now }
{
    Place {
        node: event.node,
        kind: event.kind,
    }
}

/// A conflict with the lines of its two evaluations.
pub(crate) fn seen_of(v: &View, found: Option<Found>) -> Option<Seen>
    requires { ItemsConflict found }
    ensures some { IfSome result (λ s. found ≡ Some s.found) }
    ensures none { result ≡ None → found ≡ None }
    ensures apart { (trees : List Tree) → FoundApart trees found → SeenApart trees result }
{
    let found = found?;
    Some(Seen {
        found,
        line: event_line(v, &found.event),
        against_line: event_line(v, &found.against),
    })
}

// The line of an event of a full expression that is open.
fn event_line(v: &View, event: &Event) -> u32 {
    for begun in v.begun {
        if begun.frame == event.frame {
            return line_of(begun.root, event.node);
        }
    }
    0
}
