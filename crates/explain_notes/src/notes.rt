// Notes.
ghost use Rattle.std.specs.Prelude.{◌<◌, length, IfSome};

use crate::further::put_further;
use crate::hints::put_hint;
use c_typed::{Node, Typed};
use explain_case::{
    Act, Case, is_behind, is_write, place_of, put_by, put_calls, put_object, put_values, subject,
    token_at,
};
use explain_facts::{Outcome, Verdict, common};
use explain_page::{empty, put_long_note, put_number};
use explain_places::extent_of;
use explain_words::{ORDER_RULE, PAST_THE_END, TWO_WRITES, rule_of};
use std::alloc::Global;
use ub_base::{Bytes, Clause, NoMemory, ObjName};

/// A note of an explanation.
#[derive(Drop)]
pub struct Note {
    pub name: &'static str,
    pub text: Bytes,
}

// Adds a note, where it says something.
fn push(notes: &mut Vec<Note>, name: &'static str, text: Bytes) -> Result<(), NoMemory> {
    if !text.as_slice().is_empty() {
        notes.push(Note { name, text })?;
    }
    Ok(())
}

fn note_of(alloc: Global, name: &'static str, text: &str) -> Result<Note, NoMemory> {
    Ok(Note {
        name,
        text: Bytes::from_slice(alloc, text.as_bytes())?,
    })
}

// Adds which bytes of an object a member is.
fn put_member(out: &mut Bytes, case: &Case<'_, '_>, act: &Act<'_>) -> Result<(), NoMemory> {
    let (Node::Member { .. }, Some(aim)) = (&place_of(act.tree).node, case.moment.place) else {
        return Ok(());
    };
    let (Some(object), Some(extent)) = (aim.object, case.program.tags.extent(&act.tree.ty)) else {
        return Ok(());
    };
    let Some(row) = case.found.map.row(object) else {
        return Ok(());
    };
    let from = aim.addr.saturating_sub(row.base);
    out.append(b"; ")?;
    out.append(case.page.spelling(act.extent.last))?;
    out.append(b" is its bytes ")?;
    put_number(out, from)?;
    out.append(b" to ")?;
    put_number(out, from.saturating_add(extent.size).saturating_sub(1))
}

/// What is known of the object that a finding is about.
pub fn object_text(alloc: Global, case: &Case<'_, '_>) -> Result<Bytes, NoMemory> {
    let mut text = empty(alloc);
    if let (Some(object), Some(first)) = (subject(case), &case.first) {
        put_object(&mut text, case, object, case.trail)?;
        if first.item.is_none() {
            put_member(&mut text, case, first)?;
        }
    }
    Ok(text)
}

// Why a store of `++` isn't ordered against an assignment.
const STEP_UNDER_ASSIGN: &[u8] =
    b" isn't part of its value (6.5.2.4p2), so the store of = doesn't wait for it (6.5.16p3).";

fn is_assignment(act: &Act<'_>) -> bool {
    matches!(&act.tree.node, Node::Assign { .. })
}

fn is_step(act: &Act<'_>) -> bool {
    matches!(&act.tree.node, Node::Update { old: true, .. })
}

// Adds which parts of an expression are in no order.
fn put_unordered(
    out: &mut Bytes,
    case: &Case<'_, '_>,
    above: Option<&Typed>,
) -> Result<(), NoMemory> {
    let Some(above) = above else {
        return out.append(b"The two are in no order.");
    };
    match &above.node {
        Node::Call { .. } => out.append(
            b"The function and the arguments of a call are in no order (6.5.2.2p10).",
        ),
        Node::List { .. } => out.append(b"The expressions of a list are in no order (6.7.9p23)."),
        Node::Assign { .. } => out.append(
            b"The operands of = are in no order, and its store follows their values alone (6.5.16p3).",
        ),
        _ => {
            let extent = extent_of(case.page.tokens, above);
            out.append(b"The operands of ")?;
            out.append(case.page.spelling(extent.operator))?;
            out.append(b" are in no order.")
        }
    }
}

fn put_order(
    out: &mut Bytes,
    case: &Case<'_, '_>,
    first: &Act<'_>,
    second: &Act<'_>,
) -> Result<(), NoMemory> {
    if is_assignment(first) && is_step(second) {
        out.append(b"The store of ")?;
        out.append(case.page.spelling(second.extent.operator))?;
        return out.append(STEP_UNDER_ASSIGN);
    }
    put_unordered(
        out,
        case,
        common(first.root, first.event.node, second.event.node),
    )?;
    if case.found.verdict.clause().is_none() {
        out.append(b" Bodies run whole, one after the other, so this is no race.")?;
    }
    Ok(())
}

fn put_rule(out: &mut Bytes, case: &Case<'_, '_>) -> Result<(), NoMemory> {
    let Some(clause) = case.found.verdict.clause() else {
        return out.append(ORDER_RULE.as_bytes());
    };
    if case.call.is_some() {
        out.append(rule_of(Clause::LibraryArgument).as_bytes())?;
        if clause == Clause::LibraryArgument {
            return Ok(());
        }
        out.append(b" Inside it: ")?;
    }
    match (case.first, case.second) {
        (Some(first), Some(second)) if is_write(first.item) && is_write(second.item) => {
            out.append(TWO_WRITES.as_bytes())
        }
        (Some(first), None) if clause == Clause::OutOfBounds && is_behind(case, &first) => {
            out.append(PAST_THE_END.as_bytes())
        }
        _ => out.append(rule_of(clause).as_bytes()),
    }
}

const SHORT: usize = 40;

const LINE: usize = 80;

// Whether each byte can be shown, but for a line feed at the end.
fn is_plain(output: &[u8]) -> bool {
    output
        .iter()
        .all(|byte| *byte >= b' ' && *byte < 127 && *byte != b'`')
}

fn without_line_feed(output: &[u8]) -> &[u8] {
    match output.split_last() {
        Some((last, front)) if *last == b'\n' => front,
        _ => output,
    }
}

// Where the first line feed stands.
fn line_end(text: &[u8]) -> Option<usize>
    ensures within { IfSome result (λ at. at < length text.now) }
{
    text.iter().position(|byte| *byte == b'\n')
}

fn first_line(text: &[u8]) -> &[u8] {
    match line_end(text) {
        Some(at) => &text[..at],
        None => text,
    }
}

// Adds how a run ended.
fn put_outcome(out: &mut Bytes, outcome: &Outcome) -> Result<(), NoMemory> {
    out.append(b" first: exit ")?;
    put_number(out, u64::from(outcome.status))?;
    let shown = without_line_feed(outcome.output.as_slice());
    if shown.len() <= SHORT && is_plain(shown) {
        out.append(b", output `")?;
        out.append(shown)?;
        out.append(b"`.")
    } else {
        out.append(b", ")?;
        put_number(out, outcome.output.as_slice().len() as u64)?;
        out.append(b" bytes of output.")
    }
}

fn put_both(out: &mut Bytes, case: &Case<'_, '_>) -> Result<(), NoMemory> {
    let Some((one, other)) = case.both else {
        return Ok(());
    };
    if one.status == other.status && one.output.as_slice() == other.output.as_slice() {
        return out.append(b"Both orders end alike here, and the verdict stands.");
    }
    out.append(b"With 1")?;
    put_outcome(out, one)?;
    out.append(b" With 2")?;
    put_outcome(out, other)
}

// Adds what is known of the object that a pointer points to.
fn put_target(out: &mut Bytes, case: &Case<'_, '_>, clause: Clause) -> Result<(), NoMemory> {
    match (clause, case.moment.held) {
        (Clause::DeadObject, Some(object)) => put_object(out, case, object, case.target),
        _ => Ok(()),
    }
}

fn put_ended(out: &mut Bytes, case: &Case<'_, '_>, clause: Clause) -> Result<(), NoMemory> {
    let (Clause::DeadObject, Some(object)) = (clause, case.moment.held) else {
        return Ok(());
    };
    if let ObjName::Auto { .. } = object {
        return out.append(b"with the block that declares it");
    }
    match &case.target.died {
        Some(died) => put_by(out, case, died),
        None => Ok(()),
    }
}

// The notes on a broken clause.
fn push_single(
    alloc: Global,
    notes: &mut Vec<Note>,
    case: &Case<'_, '_>,
    clause: Clause,
    first: &Act<'_>,
) -> Result<(), NoMemory> {
    let mut target = empty(alloc);
    put_target(&mut target, case, clause)?;
    push(notes, "target", target)?;
    let mut ended = empty(alloc);
    put_ended(&mut ended, case, clause)?;
    push(notes, "ended", ended)?;
    let mut value = empty(alloc);
    put_values(&mut value, case, clause, first)?;
    push(notes, "value", value)
}

// The notes on two events.
fn push_pair(
    alloc: Global,
    notes: &mut Vec<Note>,
    case: &Case<'_, '_>,
    first: &Act<'_>,
    second: &Act<'_>,
) -> Result<(), NoMemory> {
    let mut order = empty(alloc);
    put_order(&mut order, case, first, second)?;
    push(notes, "order", order)?;
    let mut both = empty(alloc);
    put_both(&mut both, case)?;
    push(notes, "both", both)
}

fn push_rule_and_hint(
    alloc: Global,
    notes: &mut Vec<Note>,
    case: &Case<'_, '_>,
) -> Result<(), NoMemory> {
    let mut rule = empty(alloc);
    put_rule(&mut rule, case)?;
    push(notes, "rule", rule)?;
    let mut hint = empty(alloc);
    put_hint(&mut hint, case)?;
    push(notes, "hint", hint)
}

fn push_events(
    alloc: Global,
    notes: &mut Vec<Note>,
    case: &Case<'_, '_>,
    first: &Act<'_>,
) -> Result<(), NoMemory> {
    match (case.second, case.found.verdict.clause()) {
        (Some(second), _) => push_pair(alloc, notes, case, first, &second)?,
        (None, Some(clause)) => push_single(alloc, notes, case, clause, first)?,
        (None, None) => {}
    }
    push_rule_and_hint(alloc, notes, case)
}

const FOR: &str = "this input, these arguments, this address map. Other inputs are not looked at.";

const LIMIT: &str =
    "One of this tool, not of C (REPORTS.md, Limits). Nothing was found until there.";

// Adds by which call a run ended.
fn put_ending(out: &mut Bytes, case: &Case<'_, '_>) -> Result<(), NoMemory> {
    match &case.trail.ending {
        Some(touch) => put_by(out, case, touch),
        None => Ok(()),
    }
}

// Adds which allocation gave null at a limit.
fn put_null(out: &mut Bytes, case: &Case<'_, '_>) -> Result<(), NoMemory> {
    let Some(null) = case.trail.unallocated else {
        return Ok(());
    };
    let Some(token) = token_at(case, null.touch.opened, null.touch.node) else {
        return Ok(());
    };
    out.append(case.page.spelling(token))?;
    out.append(b" gave null at ")?;
    case.page.put_token_place(out, token)?;
    out.append(b": ")?;
    put_number(out, u64::try_from(null.size).unwrap_or(u64::MAX))?;
    out.append(b" bytes are above 1048576")
}

fn push_clean(alloc: Global, notes: &mut Vec<Note>, case: &Case<'_, '_>) -> Result<(), NoMemory> {
    let mut limit = empty(alloc);
    put_null(&mut limit, case)?;
    push(notes, "limit", limit)?;
    let mut ended = empty(alloc);
    put_ending(&mut ended, case)?;
    push(notes, "ended", ended)?;
    notes.push(note_of(alloc, "for", FOR)?)?;
    Ok(())
}

// Adds what was written to standard error: how many bytes, and where it can be shown the first line.
fn put_errors(out: &mut Bytes, errors: &[u8]) -> Result<(), NoMemory> {
    if errors.is_empty() {
        return Ok(());
    }
    put_number(out, errors.len() as u64)?;
    out.append(b" bytes on standard error")?;
    let first = first_line(errors);
    if first.len() <= LINE && is_plain(first) {
        out.append(b", first `")?;
        out.append(first)?;
        out.push(b'`')?;
    }
    Ok(())
}

// The notes on the finding itself.
fn push_finding(alloc: Global, notes: &mut Vec<Note>, case: &Case<'_, '_>) -> Result<(), NoMemory> {
    if let Some(first) = &case.first {
        return push_events(alloc, notes, case, first);
    }
    match case.found.verdict {
        Verdict::Clean { .. } => push_clean(alloc, notes, case),
        Verdict::Outside { .. } => {
            notes.push(note_of(alloc, "limit", LIMIT)?)?;
            Ok(())
        }
        _ => Ok(()),
    }
}

/// The notes of a case behind those of its calls and its object.
pub fn notes_of(alloc: Global, case: &Case<'_, '_>) -> Result<Vec<Note>, NoMemory> {
    let mut notes = Vec::new(alloc);
    push_finding(alloc, &mut notes, case)?;
    let mut errors = empty(alloc);
    put_errors(&mut errors, case.found.errors)?;
    push(&mut notes, "errors", errors)?;
    let mut further = empty(alloc);
    put_further(alloc, &mut further, case)?;
    push(&mut notes, "see", further)?;
    Ok(notes)
}

/// Adds all notes of a case.
pub fn put_notes(alloc: Global, out: &mut Bytes, case: &Case<'_, '_>) -> Result<(), NoMemory> {
    put_calls(alloc, out, case)?;
    let object = object_text(alloc, case)?;
    if !object.as_slice().is_empty() {
        put_long_note(out, b"object", object.as_slice())?;
    }
    let notes = notes_of(alloc, case)?;
    for note in notes.iter() {
        put_long_note(out, note.name.as_bytes(), note.text.as_slice())?;
    }
    Ok(())
}
