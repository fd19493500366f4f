// The order of a certificate from its text.
ghost use Rattle.std.specs.Prelude.{◌≡◌, ◌≤◌, ◌<◌, ◌^◌, Ok, map, codes, option_and_then};
ghost use Rattle.serde_json.specs.View.{view};
ghost use Rattle.certificate.specs.Form.{picks_of, most_picks};
ghost use Rattle.certificate_text.specs.Reading.{pick_in, segment_in, short_segments, order_in, is_one_number, suits, list_at, need, Answers};

use crate::values::{items, kind, list_member, number, small_number};
use crate::words::Verdict;
use certificate::{CertFault, Field, Segment, Segments, Version};
use serde_json::Value;
use std::alloc::Global;
use ub_base::Items;

/// The most picks of a certificate, in version 1 and in version 2 (own).
const MAX_PICKS: [u64; 2] = [10_000_000, 100_000_000];

fn pick(items: &[Value]) -> Option<Segment>
    ensures { result ≡ pick_in (map view items.now) }
{
    match items {
        [node, word] => Some(Segment::Pick {
            node: small_number(node)?,
            kind: kind(word)?,
        }),
        _ => None,
    }
}

fn segment(value: &Value) -> Option<Segment>
    ensures { result ≡ segment_in (view value.now) }
{
    match number(value) {
        Some(0) => None,
        Some(count) => Some(Segment::Canonical(count)),
        None => pick(items(value)?),
    }
}

fn picks(segment: Segment) -> u64
    ensures { result ≡ picks_of segment }
{
    match segment {
        Segment::Canonical(count) => count,
        Segment::Pick { .. } => 1,
    }
}

fn is_one_number(order: &[Segment]) -> bool
    ensures { result ≡ is_one_number order.now }
{
    matches!(order, [Segment::Canonical(_)])
}

// Whether an order has a form that this verdict allows.
fn suits(verdict: Verdict, order: &[Segment]) -> bool
    ensures { result ≡ suits verdict order.now }
{
    match verdict {
        Verdict::Undefined => true,
        Verdict::Outside => order.is_empty() || is_one_number(order),
        Verdict::Clean | Verdict::OrderDependent | Verdict::OutOfSteps => is_one_number(order),
    }
}

fn most_picks(version: Version) -> u64
    ensures value { result ≡ most_picks version }
    ensures bound { result ≤ 100000000 }
{
    match version {
        Version::One => MAX_PICKS[0],
        Version::Two => MAX_PICKS[1],
    }
}

// The stretches of an order of at most so many picks.
fn segments(alloc: Global, entries: &[Value], most: u64) -> Result<Segments, CertFault>
    requires { most < 2 ^ 63 }
    ensures { Answers (need Field.Order (short_segments most (map view entries.now)) Ok) result }
{
    let wrong = CertFault::BadShape(Field::Order);
    let mut order = Items::new(alloc);
    let mut total: u64 = 0;
    for entry in entries {
        let Some(segment) = segment(entry) else {
            return Err(wrong);
        };
        total = total.saturating_add(picks(segment));
        if total > most {
            return Err(wrong);
        }
        order.push(segment)?;
    }
    Ok(order)
}

/// The order of picks of a certificate of this version and verdict.
pub fn read_order(
    alloc: Global,
    value: &Value,
    version: Version,
    verdict: Verdict,
) -> Result<Segments, CertFault>
    ensures { Answers (need Field.Order (option_and_then (order_in version verdict) (list_at (codes "order") (view value.now))) Ok) result }
{
    let wrong = CertFault::BadShape(Field::Order);
    let Some(entries) = list_member(value, "order") else {
        return Err(wrong);
    };
    let order = segments(alloc, entries, most_picks(version))?;
    if !suits(verdict, order.as_slice()) {
        return Err(wrong);
    }
    Ok(order)
}
