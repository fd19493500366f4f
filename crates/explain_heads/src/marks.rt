// The events of a case on their lines of source.

use crate::heads::put_does;
use explain_case::{Act, Case, Mismatch, mismatch_of, put_a_type, put_taken};
use explain_page::{Mark, Stretch, empty, put_marks};
use explain_places::extent_of;
use std::alloc::Global;
use ub_base::{Bytes, NoMemory};

/// A stretch of the text that is shown, what is said of it, and the evaluation that it is, where it is one.
#[derive(Drop)]
pub struct Marked<'c> {
    pub stretch: Stretch,
    pub does: Bytes,
    pub act: Option<Act<'c>>,
}

fn marked_act<'c>(
    alloc: Global,
    case: &Case<'c, '_>,
    act: Act<'c>,
) -> Result<Marked<'c>, NoMemory> {
    let mut does = empty(alloc);
    put_does(&mut does, case, &act)?;
    Ok(Marked {
        stretch: case.page.stretch(act.extent),
        does,
        act: Some(act),
    })
}

// A conversion, and the argument that it is given.
fn push_mismatch<'c>(
    alloc: Global,
    marks: &mut Vec<Marked<'c>>,
    case: &Case<'c, '_>,
    mismatch: &Mismatch<'c>,
) -> Result<(), NoMemory> {
    let mut takes = Bytes::from_slice(alloc, b"takes ")?;
    put_taken(&mut takes, case.page, mismatch.takes)?;
    marks.push(Marked {
        stretch: mismatch.stretch,
        does: takes,
        act: None,
    })?;
    let mut gives = Bytes::from_slice(alloc, b"gives ")?;
    put_a_type(&mut gives, case.page, &mismatch.given.ty)?;
    let extent = extent_of(case.page.tokens, mismatch.given);
    marks.push(Marked {
        stretch: case.page.stretch(extent),
        does: gives,
        act: None,
    })?;
    Ok(())
}

/// The evaluation that is shown first: the call of the program, where a finding stands in the library.
pub fn shown_first<'c>(case: &Case<'c, '_>) -> Option<Act<'c>> {
    match case.call {
        Some(call) => Some(call),
        None => case.first,
    }
}

// The evaluation that is shown second.
fn shown_second<'c>(case: &Case<'c, '_>) -> Option<Act<'c>> {
    match case.call {
        Some(_) => None,
        None => case.second,
    }
}

fn push_shown<'c>(
    alloc: Global,
    marks: &mut Vec<Marked<'c>>,
    case: &Case<'c, '_>,
    act: Option<Act<'c>>,
) -> Result<(), NoMemory> {
    match act {
        Some(act) => {
            marks.push(marked_act(alloc, case, act)?)?;
            Ok(())
        }
        None => Ok(()),
    }
}

/// What is shown of a case on its lines of source: nothing, one stretch or two.
pub fn marks_of<'c>(alloc: Global, case: &Case<'c, '_>) -> Result<Vec<Marked<'c>>, NoMemory> {
    let mut marks = Vec::new(alloc);
    match mismatch_of(case) {
        Some(mismatch) => push_mismatch(alloc, &mut marks, case, &mismatch)?,
        None => {
            push_shown(alloc, &mut marks, case, shown_first(case))?;
            push_shown(alloc, &mut marks, case, shown_second(case))?;
        }
    }
    Ok(marks)
}

fn mark_of<'m>(marked: &'m Marked<'_>, number: u8) -> Mark<'m> {
    Mark {
        stretch: marked.stretch,
        number,
        does: marked.does.as_slice(),
    }
}

/// Adds the lines of source of a case.
pub fn put_events(alloc: Global, out: &mut Bytes, case: &Case<'_, '_>) -> Result<(), NoMemory> {
    let marks = marks_of(alloc, case)?;
    let Some(first) = marks.get(0) else {
        return Ok(());
    };
    match marks.get(1) {
        Some(second) => put_marks(
            out,
            case.page,
            &mark_of(first, 1),
            Some(&mark_of(second, 2)),
        ),
        None => put_marks(out, case.page, &mark_of(first, 1), None),
    }
}
