// The explanation of a verdict.
ghost use Rattle.std.specs.Prelude.{◌≤◌, ◌^◌, length};

use crate::again::{Both, Looked, look_again};
use crate::asked::Asked;
use crate::found::{events_of, verdict_of};
use elaborate::{elaborate, roots_of};
use explain_case::{Case, Words, first_act, library_call, second_act};
use explain_facts::{Events, Found, Outcome};
use explain_heads::put_front;
use explain_json::{Reported, put_case_json, put_refusal_json, put_report_json};
use explain_notes::put_notes;
use explain_page::{Page, empty, tags_of};
use explain_program::{program_of, tokens_of};
use explain_refusal::{Refusal, Refused, put_refusal, refusal_of, unlexed};
use footprint_run::{Audit, Quiet, audit_run};
use std::alloc::Global;
use ub_base::{Bytes, NoMemory};

// How an explanation is put.
#[derive(Clone, Copy, PartialEq, Eq)]
enum Form {
    Words,
    Json,
}

// What is asked, and in which form.
#[derive(Clone, Copy)]
struct Request<'a> {
    asked: Asked<'a>,
    form: Form,
}

fn reported<'a>(asked: &Asked<'a>) -> Reported<'a> {
    Reported {
        report: asked.report,
        status: asked.status,
    }
}

fn words_of<'a>(asked: &Asked<'a>) -> Words<'a> {
    Words {
        file: asked.file,
        input: asked.input_name,
        steps: asked.steps,
        mode: asked.mode,
        args: asked.args,
    }
}

fn put_found(
    alloc: Global,
    out: &mut Bytes,
    request: &Request<'_>,
    case: &Case<'_, '_>,
) -> Result<(), NoMemory> {
    match request.form {
        Form::Words => {
            put_front(alloc, out, case)?;
            put_notes(alloc, out, case)
        }
        Form::Json => put_case_json(alloc, out, reported(&request.asked), case),
    }
}

const TOO_DEEP: &[u8] =
    b":1:1: too deep: the text is nested too deep, or too long, to be explained\n";

// Adds that the text as a whole can't be explained.
fn put_whole(alloc: Global, out: &mut Bytes, request: &Request<'_>) -> Result<(), NoMemory> {
    match request.form {
        Form::Words => {
            out.append(request.asked.file)?;
            out.append(TOO_DEEP)
        }
        Form::Json => put_report_json(alloc, out, reported(&request.asked)),
    }
}

fn put_refused(
    alloc: Global,
    out: &mut Bytes,
    request: &Request<'_>,
    page: &Page<'_, '_>,
    refusal: Option<Refusal>,
) -> Result<(), NoMemory> {
    let Some(refusal) = refusal else {
        return put_whole(alloc, out, request);
    };
    match request.form {
        Form::Words => put_refusal(alloc, out, page, &refusal),
        Form::Json => put_refusal_json(alloc, out, reported(&request.asked), page, &refusal),
    }
}

fn found_of<'f>(audit: &'f Audit, events: Option<Events>) -> Found<'f> {
    Found {
        verdict: verdict_of(&audit.finding),
        events,
        map: &audit.map,
        frames: &audit.frames,
        output: audit.output.as_slice(),
        errors: audit.errors.as_slice(),
    }
}

fn shown_both(both: &Both) -> Option<(&Outcome, &Outcome)> {
    match (&both.one, &both.other) {
        (Some(one), Some(other)) => Some((one, other)),
        _ => None,
    }
}

// Adds why the text has no tokens, on a page without tokens.
fn put_unlexed(
    alloc: Global,
    out: &mut Bytes,
    request: &Request<'_>,
    refused: Refused,
) -> Result<(), NoMemory> {
    match tokens_of(alloc, b"") {
        Ok(tokens) => {
            let page = Page {
                text: request.asked.text,
                file: request.asked.file,
                tokens: &tokens,
                tags: &[],
                written: request.asked.written,
            };
            let refusal = unlexed(&page, refused);
            put_refused(alloc, out, request, &page, refusal)
        }
        Err(_) => Err(NoMemory),
    }
}

// Adds the explanation in this form. All that a case holds is made here: its references stand at one lifetime.
fn put_explanation(alloc: Global, out: &mut Bytes, request: &Request<'_>) -> Result<(), NoMemory>
    requires text { length request.now.asked.text.now ≤ 2 ^ 20 }
    requires steps { request.now.asked.steps ≤ 100000000 }
{
    let asked = &request.asked;
    let tokens = match tokens_of(alloc, asked.text) {
        Ok(tokens) => tokens,
        Err(Refused::NoMemory) => return Err(NoMemory),
        Err(refused) => return put_unlexed(alloc, out, request, refused),
    };
    let tags = tags_of(alloc, &tokens)?;
    let page = Page {
        text: asked.text,
        file: asked.file,
        tokens: &tokens,
        tags: tags.as_slice(),
        written: asked.written,
    };
    let program = match program_of(alloc, &tokens) {
        Ok(program) => program,
        Err(Refused::NoMemory) => return Err(NoMemory),
        Err(refused) => {
            let refusal = refusal_of(&page, refused);
            return put_refused(alloc, out, request, &page, refusal);
        }
    };
    let core = elaborate(alloc, &program)?;
    let audit = audit_run(
        alloc,
        &core,
        asked.input,
        asked.args,
        asked.mode,
        asked.steps,
        &mut Quiet,
    )?;
    let roots = roots_of(alloc, &program)?;
    let events = events_of(&audit.finding);
    let first = first_act(&page, roots.as_slice(), events);
    let second = second_act(&page, roots.as_slice(), events);
    let mut looked = Looked::new(alloc);
    look_again(alloc, asked, &core, &audit, &first, &second, &mut looked)?;
    let call = library_call(
        &page,
        &audit.frames,
        looked.moment.open.as_slice(),
        roots.as_slice(),
        first,
    );
    let case = Case {
        words: words_of(asked),
        page: &page,
        program: &program,
        roots: roots.as_slice(),
        found: found_of(&audit, events),
        moment: &looked.moment,
        trail: &looked.trail,
        target: &looked.target,
        origin: &looked.origin,
        first,
        second,
        call,
        both: shown_both(&looked.both),
    };
    put_found(alloc, out, request, &case)
}

/// The explanation in words: lines of text, the last one ended too.
pub fn explanation(alloc: Global, asked: &Asked<'_>) -> Result<Bytes, NoMemory>
    requires text { length asked.now.text.now ≤ 2 ^ 20 }
    requires steps { asked.now.steps ≤ 100000000 }
{
    let mut out = empty(alloc);
    let request = Request {
        asked: *asked,
        form: Form::Words,
    };
    put_explanation(alloc, &mut out, &request)?;
    Ok(out)
}

/// The explanation as one JSON object, with no line feed behind it. It stands in place of the report too.
pub fn explanation_json(alloc: Global, asked: &Asked<'_>) -> Result<Bytes, NoMemory>
    requires text { length asked.now.text.now ≤ 2 ^ 20 }
    requires steps { asked.now.steps ≤ 100000000 }
{
    let mut out = empty(alloc);
    let request = Request {
        asked: *asked,
        form: Form::Json,
    };
    put_explanation(alloc, &mut out, &request)?;
    Ok(out)
}
