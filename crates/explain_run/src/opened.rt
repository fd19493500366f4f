// Full expressions that are open.

use explain_facts::Opened;
use run_machine::Begun;
use ub_base::Event;

pub fn opened_by(begun: &Begun<'_>) -> Opened {
    Opened {
        frame: begun.frame,
        turn: begun.turn,
        tree: begun.tree,
    }
}

// The full expression below the one of this number.
fn below(begun: &[Begun<'_>], at: usize) -> Option<Opened> {
    match begun.get(at.checked_sub(1)?) {
        Some(one) => Some(opened_by(one)),
        None => None,
    }
}

/// The full expression of an event, among those that are open, and the one below it. The innermost, which nearly all events are of,
/// are looked at first.
pub fn opened_of(begun: &[Begun<'_>], event: &Event) -> Option<(Opened, Option<Opened>)> {
    for (at, one) in begun.iter().enumerate().rev() {
        if one.frame == event.frame && one.turn == event.turn {
            return Some((opened_by(one), below(begun, at)));
        }
    }
    None
}
