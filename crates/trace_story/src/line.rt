// The line of an event.
ghost use Rattle.std.specs.Prelude.{◌≡◌, None};

use core_run::View;
use evaluation_log::line_of;
use ub_base::Event;

/// The line of the node of an event, whose full expression is open; 0 for a control step.
pub fn line_at(v: &View, event: Option<Event>) -> u32
    ensures { event ≡ None → result ≡ 0 }
{
    match event {
        Some(event) => event_line(v, event),
        None => 0,
    }
}

fn event_line(v: &View, event: Event) -> u32 {
    for begun in v.begun.iter().rev() {
        if begun.frame == event.frame && begun.turn == event.turn {
            return line_of(begun.root, event.node);
        }
    }
    0
}
