// The story of an object.
ghost use Rattle.std.specs.Prelude.{◌≡◌, ◌≤◌, ◌^◌, [], None, length, IfOk, codes, option_copied};
ghost use Rattle.audit_batch.specs.Moment.{moment};
ghost use Rattle.audit_looks.specs.Looks.{IsFront, IsStoryText, IsTextStory, NamedTold, Quiet, StoryTold};

use crate::judged::judged_report;
use crate::looks::{mode_of, quiet, run_audited, stopped_sheet};
use audit_sources::{Sources, fetch_sources};
use audit_verdict::{FrontFault, picks_of, program_of};
use c_names::read_object;
use c_typed::Program;
use command::AuditRequest;
use elaborate::elaborate;
use person_command::StoryRequest;
use person_top::{Page, Sheet};
use std::alloc::Global;
use trace_story::{entries_text, story};
use ub_base::{Bytes, Files, Frames, NoMemory, ObjName};

const USAGE: u8 = 10;

// The entries of the story of an object along the run of a program, up to its finding.
fn entries_of(
    alloc: Global,
    program: &Program,
    request: &AuditRequest<'_>,
    input: &[u8],
    frames: &Frames,
    object: &ObjName,
) -> Result<Bytes, NoMemory>
    requires { request.now.steps ≤ 100000000 }
    ensures { IfOk result (IsStoryText (frames.now, object.now)) }
{
    let core = elaborate(alloc, program)?;
    let audit = run_audited(alloc, &core, request, input)?;
    let picks = picks_of(audit.finding);
    let mode = mode_of(request.is_tight);
    let told = story(
        alloc,
        &core,
        input,
        &request.args,
        mode,
        picks,
        frames,
        object,
    )?;
    let text = entries_text(alloc, &told.frames, &told.entries)?;
    Ok(text)
}

// What stands before the report: nothing where the text has no program.
fn story_front(
    alloc: Global,
    request: &AuditRequest<'_>,
    sources: &Sources,
    frames: &Frames,
    object: &ObjName,
) -> Result<Bytes, NoMemory>
    requires text { length sources.now.text ≤ 2 ^ 20 }
    requires steps { request.now.steps ≤ 100000000 }
    ensures { IfOk result (IsFront (frames.now, object.now) sources.now.text) }
{
    match program_of(alloc, sources.text.as_slice()) {
        Ok(program) => entries_of(
            alloc,
            &program,
            request,
            sources.input.as_slice(),
            frames,
            object,
        ),
        Err(FrontFault::Refused(_)) => Bytes::from_slice(alloc, b""),
        Err(FrontFault::NoMemory) => Err(NoMemory),
    }
}

// The page of a text: the story, and then the report of the audit.
fn story_page<F: Files>(
    alloc: Global,
    request: &AuditRequest<'_>,
    sources: &Sources,
    frames: &Frames,
    object: &ObjName,
    files: &mut F,
) -> Result<Page, NoMemory>
    requires text { length sources.now.text ≤ 2 ^ 20 }
    requires steps { request.now.steps ≤ 100000000 }
    requires cert { option_copied request.now.cert ≡ None }
    ensures page { IfOk result (λ page. IsTextStory (frames.now, object.now) request.now (F.write_faults files.old)
        (F.write_faults files.new) sources.now.text page.status page.text) }
    ensures held { F.held files.new ≡ F.held files.old }
{
    let page = judged_report(alloc, request, sources, files, &mut audit_verdict::Quiet)?;
    let mut text = story_front(alloc, request, sources, frames, object)?;
    text.append(page.text.as_slice())?;
    Ok(Page {
        status: page.status,
        text,
    })
}

// The sheet of a text.
fn judged_sheet<F: Files>(
    alloc: Global,
    request: &AuditRequest<'_>,
    sources: &Sources,
    frames: &Frames,
    object: &ObjName,
    files: &mut F,
) -> Result<Sheet, NoMemory>
    requires text { length sources.now.text ≤ 2 ^ 20 }
    requires steps { request.now.steps ≤ 100000000 }
    requires cert { option_copied request.now.cert ≡ None }
    ensures sheet { IfOk result (λ sheet. Quiet (IsTextStory (frames.now, object.now) request.now (F.write_faults files.old)
        (F.write_faults files.new) sources.now.text)
        sheet.status sheet.text sheet.errors) }
    ensures held { F.held files.new ≡ F.held files.old }
{
    let page = story_page(alloc, request, sources, frames, object, files)?;
    quiet(alloc, page)
}

// The sheet of a story of an object that is named.
fn named_sheet<F: Files>(
    alloc: Global,
    request: &AuditRequest<'_>,
    frames: &Frames,
    object: &ObjName,
    files: &mut F,
) -> Result<Sheet, NoMemory>
    requires steps { request.now.steps ≤ 100000000 }
    requires cert { option_copied request.now.cert ≡ None }
    ensures sheet { IfOk result (λ sheet. NamedTold
        (moment (F.held files.old) (F.read_faults files.old) (F.write_faults files.old))
        (moment (F.held files.new) (F.read_faults files.new) (F.write_faults files.new))
        (frames.now, object.now) request.now sheet.status sheet.text sheet.errors) }
    ensures held { F.held files.new ≡ F.held files.old }
{
    match fetch_sources(alloc, request.file, request.input, files) {
        Ok(sources) => judged_sheet(alloc, request, &sources, frames, object, files),
        Err(fault) => stopped_sheet(alloc, fault),
    }
}

// The sheet of words that name no object.
fn usage_sheet(alloc: Global) -> Result<Sheet, NoMemory>
    ensures status { IfOk result (λ sheet. sheet.status ≡ 10) }
    ensures text { IfOk result (λ sheet. sheet.text ≡ codes "usage\n") }
    ensures errors { IfOk result (λ sheet. sheet.errors ≡ []) }
{
    let text = Bytes::from_slice(alloc, b"usage\n")?;
    quiet(
        alloc,
        Page {
            status: USAGE,
            text,
        },
    )
}

/// The story of an object along a run, and the report of its audit.
pub fn story_sheet<F: Files>(
    alloc: Global,
    request: &StoryRequest<'_>,
    files: &mut F,
) -> Result<Sheet, NoMemory>
    requires steps { request.now.audit.steps ≤ 100000000 }
    requires cert { option_copied request.now.audit.cert ≡ None }
    ensures sheet { IfOk result (λ sheet. StoryTold
        (moment (F.held files.old) (F.read_faults files.old) (F.write_faults files.old))
        (moment (F.held files.new) (F.read_faults files.new) (F.write_faults files.new))
        request.now sheet.status sheet.text sheet.errors) }
    ensures held { F.held files.new ≡ F.held files.old }
{
    let mut frames = Frames::new(alloc);
    match read_object(alloc, &mut frames, request.name.as_bytes())? {
        Some(object) => named_sheet(alloc, &request.audit, &frames, &object, files),
        None => usage_sheet(alloc),
    }
}
