// A run that is made again, for what its explanation tells.

use crate::asked::Asked;
use crate::found::{events_of, picks_of};
use core_ir::CoreProgram;
use explain_case::{Act, sought_of};
use explain_facts::{Events, Moment, Outcome, Sought, Trail, apart};
use explain_run::{Before, Course, moment_before, outcome_of, trail_of};
use footprint_run::{Audit, Finding};
use std::alloc::Global;
use ub_base::{Clause, Event, Item, Kind, NoMemory, ObjName};

fn course_of<'a>(asked: &Asked<'a>) -> Course<'a> {
    Course {
        input: asked.input,
        args: asked.args,
        mode: asked.mode,
    }
}

// The event of the last pick, where it broke a clause by itself.
fn last_event(finding: &Finding) -> Option<Event> {
    match finding {
        Finding::Undefined {
            event,
            race: None,
            ..
        } => Some(*event),
        _ => None,
    }
}

// The number of the pick before which a case is looked at: the last one, or one more where the run could go on.
fn looked_at(finding: &Finding) -> u64 {
    match finding {
        Finding::Outside { picks, .. } => picks.saturating_add(1),
        _ => picks_of(finding),
    }
}

// The whole of the object.
fn whole(object: ObjName) -> Sought {
    Sought {
        object,
        from: 0,
        len: u64::MAX,
    }
}

fn is_call(act: &Act<'_>) -> bool {
    act.event.kind == Kind::Body
}

fn is_access(act: &Act<'_>) -> bool {
    matches!(act.item, Some(Item::Read { .. } | Item::Write { .. }))
}

// The events that come first in the other order of two calls.
fn turned(first: &Act<'_>, second: &Act<'_>) -> Option<Before> {
    if !is_call(first) || !is_call(second) || !is_access(first) {
        return None;
    }
    let (from, end) = apart(first.root, first.event.node, second.event.node)?;
    Some(Before {
        event: second.event,
        first: from,
        end,
    })
}

// No event comes before its turn.
fn in_turn(event: Event) -> Before {
    Before {
        event,
        first: 0,
        end: 0,
    }
}

/// Both outcomes of two calls.
#[derive(Drop)]
pub struct Both {
    pub one: Option<Outcome>,
    pub other: Option<Outcome>,
}

impl Both {
    fn see(
        &mut self,
        alloc: Global,
        asked: &Asked<'_>,
        core: &CoreProgram<'_>,
        before: &Before,
    ) -> Result<(), NoMemory> {
        let course = course_of(asked);
        self.one = outcome_of(alloc, core, course, asked.steps, &in_turn(before.event))?;
        self.other = outcome_of(alloc, core, course, asked.steps, before)?;
        Ok(())
    }
}

// The events that come first in the other order, where the finding is of two calls.
fn turned_by(
    finding: &Finding,
    first: &Option<Act<'_>>,
    second: &Option<Act<'_>>,
) -> Option<Before> {
    match (finding, first, second) {
        (Finding::OrderDependent { .. }, Some(first), Some(second)) => turned(first, second),
        _ => None,
    }
}

// Whether it is a read of what has no value.
fn is_unset(finding: &Finding) -> bool {
    matches!(
        finding,
        Finding::Undefined {
            clause: Clause::Indeterminate,
            ..
        }
    )
}

// What was done to the object that was copied to the bytes of this trail.
fn origin_of(
    alloc: Global,
    asked: &Asked<'_>,
    core: &CoreProgram<'_>,
    finding: &Finding,
    source: Option<ObjName>,
) -> Result<Trail, NoMemory> {
    match source {
        Some(object) if is_unset(finding) => trail_of(
            alloc,
            core,
            course_of(asked),
            picks_of(finding),
            Some(whole(object)),
        ),
        _ => Ok(Trail::new(alloc)),
    }
}

/// What was looked at again.
#[derive(Drop)]
pub struct Looked {
    pub moment: Moment,
    pub trail: Trail,
    pub target: Trail,
    pub origin: Trail,
    pub both: Both,
}

impl Looked {
    /// Nothing yet.
    pub fn new(alloc: Global) -> Looked {
        Looked {
            moment: Moment::new(alloc),
            trail: Trail::new(alloc),
            target: Trail::new(alloc),
            origin: Trail::new(alloc),
            both: Both {
                one: None,
                other: None,
            },
        }
    }

    // Looks at the run again, up to its finding.
    fn look(
        &mut self,
        alloc: Global,
        asked: &Asked<'_>,
        core: &CoreProgram<'_>,
        audit: &Audit,
        events: Option<Events>,
    ) -> Result<(), NoMemory> {
        let finding = &audit.finding;
        let course = course_of(asked);
        let picks = picks_of(finding);
        self.moment = moment_before(alloc, core, course, looked_at(finding), last_event(finding))?;
        let sought = sought_of(events, &self.moment, &audit.map);
        self.trail = trail_of(alloc, core, course, picks, sought)?;
        if let Some(object) = self.moment.held {
            self.target = trail_of(alloc, core, course, picks, Some(whole(object)))?;
        }
        self.origin = origin_of(alloc, asked, core, finding, self.trail.source)?;
        Ok(())
    }
}

/// Looks at what was found of a run.
pub fn look_again(
    alloc: Global,
    asked: &Asked<'_>,
    core: &CoreProgram<'_>,
    audit: &Audit,
    first: &Option<Act<'_>>,
    second: &Option<Act<'_>>,
    looked: &mut Looked,
) -> Result<(), NoMemory> {
    looked.look(alloc, asked, core, audit, events_of(&audit.finding))?;
    match turned_by(&audit.finding, first, second) {
        Some(before) => looked.both.see(alloc, asked, core, &before),
        None => Ok(()),
    }
}
