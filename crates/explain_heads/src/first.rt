// The explanation of a case.

use crate::heads::put_head;
use crate::marks::{put_events, shown_first};
use explain_case::{Case, end_of};
use explain_facts::Verdict;
use std::alloc::Global;
use ub_base::{Bytes, Cause, NoMemory};

/// The token at which a case is told: the first one of the evaluation that is shown first, or where the run stands at its
/// end.
pub fn told_at(case: &Case<'_, '_>) -> Option<u32> {
    if let Some(first) = shown_first(case) {
        return Some(first.extent.first);
    }
    match case.found.verdict {
        Verdict::OutOfSteps(_) | Verdict::Outside { .. } => {
            let (_, at) = end_of(case)?;
            Some(at)
        }
        _ => None,
    }
}

fn put_place(out: &mut Bytes, case: &Case<'_, '_>) -> Result<(), NoMemory> {
    match told_at(case) {
        Some(at) => {
            case.page.put_token_place(out, at)?;
            out.append(b": ")
        }
        None => Ok(()),
    }
}

fn cause_name(cause: Cause) -> &'static str {
    match cause {
        Cause::Output => "output",
        Cause::Created => "created",
        Cause::Depth => "depth",
        Cause::Conversion => "conversion",
        Cause::Directive => "directive",
    }
}

fn paragraph_of(case: &Case<'_, '_>) -> Option<&'static str> {
    match case.found.verdict {
        Verdict::Undefined(clause) => Some(clause.text()),
        Verdict::OrderDependent => Some("6.5.2.2p10"),
        Verdict::Outside { cause, .. } => Some(cause_name(cause)),
        _ => None,
    }
}

fn put_paragraph(out: &mut Bytes, case: &Case<'_, '_>) -> Result<(), NoMemory> {
    match paragraph_of(case) {
        Some(paragraph) => {
            out.append(b" (")?;
            out.append(paragraph.as_bytes())?;
            out.push(b')')
        }
        None => Ok(()),
    }
}

fn put_first_line(out: &mut Bytes, case: &Case<'_, '_>) -> Result<(), NoMemory> {
    put_place(out, case)?;
    out.append(case.found.verdict.word().as_bytes())?;
    put_paragraph(out, case)?;
    out.append(b": ")?;
    put_head(out, case)?;
    out.push(b'\n')
}

/// Adds what stands before the notes: the first line and the lines of source.
pub fn put_front(alloc: Global, out: &mut Bytes, case: &Case<'_, '_>) -> Result<(), NoMemory> {
    put_first_line(out, case)?;
    put_events(alloc, out, case)
}
