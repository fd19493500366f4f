// The finding of an audit, as its explanation takes it.

use explain_facts::{Events, Verdict};
use footprint_run::Finding;

/// The events of a finding.
pub fn events_of(finding: &Finding) -> Option<Events> {
    match *finding {
        Finding::Undefined {
            event,
            line,
            race,
            ..
        } => Some(Events {
            event,
            line,
            against: race.map(|race| (race.against, race.against_line)),
            items: race.map(|race| race.items),
        }),
        Finding::OrderDependent {
            event,
            line,
            against,
            against_line,
            items,
            ..
        } => Some(Events {
            event,
            line,
            against: Some((against, against_line)),
            items: Some(items),
        }),
        _ => None,
    }
}

/// The verdict of a finding.
pub fn verdict_of(finding: &Finding) -> Verdict {
    match *finding {
        Finding::Clean { status, .. } => Verdict::Clean { status },
        Finding::Undefined { clause, .. } => Verdict::Undefined(clause),
        Finding::OrderDependent { .. } => Verdict::OrderDependent,
        Finding::OutOfSteps { picks } => Verdict::OutOfSteps(picks),
        Finding::Outside { cause, number, .. } => Verdict::Outside { cause, number },
    }
}

/// How many picks lead to it.
pub fn picks_of(finding: &Finding) -> u64 {
    match finding {
        Finding::Clean { picks, .. }
        | Finding::Undefined { picks, .. }
        | Finding::OrderDependent { picks, .. }
        | Finding::OutOfSteps { picks }
        | Finding::Outside { picks, .. } => *picks,
    }
}
