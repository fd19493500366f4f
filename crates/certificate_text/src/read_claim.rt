// The claim of a certificate from its text.
ghost use Rattle.std.specs.Prelude.{◌≡◌, Ok, option_map, map};
ghost use Rattle.std.specs.List.{list_all};
ghost use Rattle.serde_json.specs.View.{view};
ghost use Rattle.certificate_text.specs.Reading.{is_lower_digit, digits_in, output_in, status_in, clause_named, clause_in, cause_in, limit_in, event_parts};
ghost use Rattle.certificate_text.specs.Reading.{event_in, two_events, pair_or_none, claim_in, need, Answers};

use crate::values::{frame, items, kind, list_member, number, small_number};
use crate::words::{Verdict, cause_of};
use certificate::{CertFault, Claim, Field};
use hex::FromHexError;
use serde_json::Value;
use std::alloc::Global;
use ub_base::{Bytes, Cause, Clause, Event};

fn is_lower_digit(byte: u8) -> bool
    ensures { result ≡ is_lower_digit byte }
{
    byte.is_ascii_digit() || (b'a'..=b'f').contains(&byte)
}

fn are_lower_digits(bytes: &[u8]) -> bool
    ensures { result ≡ list_all is_lower_digit bytes.now }
{
    bytes.iter().all(|byte| is_lower_digit(*byte))
}

// The text of the output, where it has no other character than lower-case hexadecimal digits.
fn output_digits(value: &Value) -> Option<&str>
    ensures { option_map (λ text. text.now) result ≡ digits_in (view value.now) }
{
    let digits = value.get("output")?.as_str()?;
    if are_lower_digits(digits.as_bytes()) {
        Some(digits)
    } else {
        None
    }
}

fn output_of(alloc: Global, value: &Value) -> Result<Bytes, CertFault>
    ensures { Answers (need Field.Output (output_in (view value.now)) Ok) result }
{
    let wrong = CertFault::BadShape(Field::Output);
    let Some(digits) = output_digits(value) else {
        return Err(wrong);
    };
    match hex::decode(alloc, digits) {
        Ok(bytes) => Ok(Bytes::from_vec(bytes)),
        Err(FromHexError::OutOfMemory) => Err(CertFault::NoMemory),
        Err(_) => Err(wrong),
    }
}

fn status_of(value: &Value) -> Option<u8>
    ensures { result ≡ status_in (view value.now) }
{
    let number = value.get("status")?.as_u64()?;
    if number < 256 {
        Some(number as u8)
    } else {
        None
    }
}

fn clause_named(text: &str) -> Option<Clause>
    ensures { result ≡ clause_named text.now }
{
    Clause::from_text(text)
}

fn clause_of(value: &Value) -> Option<Clause>
    ensures { result ≡ clause_in (view value.now) }
{
    clause_named(value.get("clause")?.as_str()?)
}

fn cause_named(value: &Value) -> Option<Cause>
    ensures { result ≡ cause_in (view value.now) }
{
    cause_of(value.get("cause")?.as_str()?)
}

fn limit_of(value: &Value) -> Option<u64>
    ensures { result ≡ limit_in (view value.now) }
{
    number(value.get("number")?)
}

// An event of a frame that is there.
fn event_of(parts: &[Value], frames: u32) -> Option<Event>
    ensures { result ≡ event_parts frames (map view parts.now) }
{
    match parts {
        [at, turn, node, word] => Some(Event {
            frame: frame(at, frames)?,
            turn: number(turn)?,
            node: small_number(node)?,
            kind: kind(word)?,
        }),
        _ => None,
    }
}

fn event(value: &Value, frames: u32) -> Option<Event>
    ensures { result ≡ event_in frames (view value.now) }
{
    event_of(items(value)?, frames)
}

fn two_events(items: &[Value], frames: u32) -> Option<(Event, Event)>
    ensures { result ≡ two_events frames (map view items.now) }
{
    match items {
        [first, second] => Some((event(first, frames)?, event(second, frames)?)),
        _ => None,
    }
}

// No pair, or two events.
fn pair_or_none(items: &[Value], frames: u32) -> Option<Option<(Event, Event)>>
    ensures { result ≡ pair_or_none frames (map view items.now) }
{
    if items.is_empty() {
        Some(None)
    } else {
        Some(Some(two_events(items, frames)?))
    }
}

fn read_clean(alloc: Global, value: &Value) -> Result<Claim, CertFault>
    ensures { Answers (claim_in Verdict.Clean 0 (view value.now)) result }
{
    let output = output_of(alloc, value)?;
    match status_of(value) {
        Some(status) => Ok(Claim::Clean { status, output }),
        None => Err(CertFault::BadShape(Field::Status)),
    }
}

fn read_undefined(value: &Value, frames: u32) -> Result<Claim, CertFault>
    ensures { Answers (claim_in Verdict.Undefined frames (view value.now)) result }
{
    let Some(clause) = clause_of(value) else {
        return Err(CertFault::BadShape(Field::Clause));
    };
    let Some(items) = list_member(value, "pair") else {
        return Err(CertFault::BadShape(Field::Pair));
    };
    match pair_or_none(items, frames) {
        Some(pair) => Ok(Claim::Undefined { clause, pair }),
        None => Err(CertFault::BadShape(Field::Pair)),
    }
}

fn read_order_dependent(value: &Value, frames: u32) -> Result<Claim, CertFault>
    ensures { Answers (claim_in Verdict.OrderDependent frames (view value.now)) result }
{
    let Some(items) = list_member(value, "pair") else {
        return Err(CertFault::BadShape(Field::Pair));
    };
    match two_events(items, frames) {
        Some((event, against)) => Ok(Claim::OrderDependent { event, against }),
        None => Err(CertFault::BadShape(Field::Pair)),
    }
}

fn read_outside(value: &Value) -> Result<Claim, CertFault>
    ensures { Answers (claim_in Verdict.Outside 0 (view value.now)) result }
{
    let Some(cause) = cause_named(value) else {
        return Err(CertFault::BadShape(Field::Cause));
    };
    match limit_of(value) {
        Some(number) => Ok(Claim::Outside { cause, number }),
        None => Err(CertFault::BadShape(Field::Number)),
    }
}

/// The claim of this verdict, `frames` being how many frames the certificate has beside `main`.
pub fn read_claim(
    alloc: Global,
    value: &Value,
    verdict: Verdict,
    frames: u32,
) -> Result<Claim, CertFault>
    ensures { Answers (claim_in verdict frames (view value.now)) result }
{
    match verdict {
        Verdict::Clean => read_clean(alloc, value),
        Verdict::Undefined => read_undefined(value, frames),
        Verdict::OrderDependent => read_order_dependent(value, frames),
        Verdict::OutOfSteps => Ok(Claim::OutOfSteps),
        Verdict::Outside => read_outside(value),
    }
}
