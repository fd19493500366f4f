// The report of an audit, and why.
ghost use Rattle.std.specs.Prelude.{◌≡◌, ◌≤◌, ◌^◌, true, false, None, length, IfOk, option_copied};
ghost use Rattle.audit_batch.specs.Moment.{moment};
ghost use Rattle.audit_engine.specs.Engine.{Explained, Explains, IsJudgedPage, IsPage, IsPageOf, is_untold};

use crate::written::written_of;
use audit_looks::{mode_of, stopped_page};
use audit_sources::{Sources, fetch_sources};
use audit_verdict::{Answer, Progress, judged};
use explain_report::{Asked, Written, explanation, explanation_json};
use person_command::ExplainRequest;
use person_top::Page;
use std::alloc::Global;
use ub_base::{Bytes, Files, NoMemory};

// The report of an answer, a blank line and why it is so.
fn with_reasons(alloc: Global, asked: &Asked<'_>) -> Result<Bytes, NoMemory>
    requires text { length asked.now.text.now ≤ 2 ^ 20 }
    requires steps { asked.now.steps ≤ 100000000 }
    ensures { IfOk result (Explains false asked.now.report.now) }
{
    let reasons = explanation(alloc, asked)?;
    let mut text = Bytes::from_slice(alloc, asked.report)?;
    text.append(b"\n")?;
    text.append(reasons.as_slice())?;
    Ok(text)
}

// The same as one JSON object.
fn as_json(alloc: Global, asked: &Asked<'_>) -> Result<Bytes, NoMemory>
    requires text { length asked.now.text.now ≤ 2 ^ 20 }
    requires steps { asked.now.steps ≤ 100000000 }
    ensures { IfOk result (Explains true asked.now.report.now) }
{
    let mut text = explanation_json(alloc, asked)?;
    text.append(b"\n")?;
    Ok(text)
}

// The explanation, in words or as an object.
fn explained_as(alloc: Global, is_json: bool, asked: &Asked<'_>) -> Result<Bytes, NoMemory>
    requires text { length asked.now.text.now ≤ 2 ^ 20 }
    requires steps { asked.now.steps ≤ 100000000 }
    ensures { IfOk result (Explains is_json asked.now.report.now) }
{
    if is_json {
        as_json(alloc, asked)
    } else {
        with_reasons(alloc, asked)
    }
}

// What is asked of the explanation of a run.
fn asked<'a>(
    request: &'a ExplainRequest<'_>,
    sources: &'a Sources,
    written: &'a [Written],
    report: &'a [u8],
    status: u8,
) -> Asked<'a>
    ensures text { result.text.now ≡ sources.now.text }
    ensures steps { result.steps ≡ request.now.audit.steps }
    ensures report { result.report.now ≡ report.now }
{
    Asked {
        text: sources.text.as_slice(),
        file: request.audit.file.as_bytes(),
        written,
        input_name: request.audit.input,
        input: sources.input.as_slice(),
        args: &request.audit.args,
        mode: mode_of(request.audit.is_tight),
        steps: request.audit.steps,
        report,
        status,
    }
}

// Nothing is said of a text.
fn is_untold(status: u8) -> bool
    ensures { result ≡ is_untold status }
{
    status == 14 || status == 20 || status == 21 || status == 30
}

// The text that is put for an answer about these sources.
fn page_text(
    alloc: Global,
    request: &ExplainRequest<'_>,
    sources: &Sources,
    written: &[Written],
    report: Bytes,
    status: u8,
) -> Result<Bytes, NoMemory>
    requires text { length sources.now.text ≤ 2 ^ 20 }
    requires steps { request.now.audit.steps ≤ 100000000 }
    ensures { IfOk result (λ text. IsPage request.now.is_json report text (is_untold status)) }
{
    if is_untold(status) {
        return Ok(report);
    }
    let asked = asked(request, sources, written, report.as_slice(), status);
    explained_as(alloc, request.is_json, &asked)
}

// The page of an answer about these sources.
fn page_of(
    alloc: Global,
    request: &ExplainRequest<'_>,
    sources: &Sources,
    written: &[Written],
    answer: &Answer,
) -> Result<Page, NoMemory>
    requires text { length sources.now.text ≤ 2 ^ 20 }
    requires steps { request.now.audit.steps ≤ 100000000 }
    ensures { IfOk result (λ page. IsPageOf request.now.is_json answer.now page.status page.text) }
{
    let status = answer.status();
    let report = answer.report(alloc)?;
    Ok(Page {
        status,
        text: page_text(alloc, request, sources, written, report, status)?,
    })
}

// The page of the answer to a text.
fn judged_page<F: Files, P: Progress>(
    alloc: Global,
    request: &ExplainRequest<'_>,
    sources: &Sources,
    written: &[Written],
    files: &mut F,
    progress: &mut P,
) -> Result<Page, NoMemory>
    requires text { length sources.now.text ≤ 2 ^ 20 }
    requires steps { request.now.audit.steps ≤ 100000000 }
    requires cert { option_copied request.now.audit.cert ≡ None }
    ensures page { IfOk result (λ page. IsJudgedPage request.now (F.write_faults files.old) (F.write_faults files.new) sources.now.text page.status page.text) }
    ensures held { F.held files.new ≡ F.held files.old }
{
    let answer = judged(alloc, &request.audit, sources, files, progress);
    page_of(alloc, request, sources, written, &answer)
}

// The files that the text was made of; none where lines are asked for as the text has them.
fn written_for<F: Files>(
    alloc: Global,
    request: &ExplainRequest<'_>,
    sources: &Sources,
    files: &mut F,
) -> Result<Vec<Written>, NoMemory>
    ensures held { F.held files.new ≡ F.held files.old }
    ensures writes { F.write_faults files.new ≡ F.write_faults files.old }
{
    if request.is_text {
        Ok(Vec::new(alloc))
    } else {
        written_of(alloc, sources.text.as_slice(), files)
    }
}

// The page of the answer to a text, with lines of the files that it was made of.
fn text_page<F: Files, P: Progress>(
    alloc: Global,
    request: &ExplainRequest<'_>,
    sources: &Sources,
    files: &mut F,
    progress: &mut P,
) -> Result<Page, NoMemory>
    requires text { length sources.now.text ≤ 2 ^ 20 }
    requires steps { request.now.audit.steps ≤ 100000000 }
    requires cert { option_copied request.now.audit.cert ≡ None }
    ensures page { IfOk result (λ page. IsJudgedPage request.now (F.write_faults files.old) (F.write_faults files.new) sources.now.text page.status page.text) }
    ensures held { F.held files.new ≡ F.held files.old }
{
    match written_for(alloc, request, sources, files) {
        Ok(written) => judged_page(alloc, request, sources, written.as_slice(), files, progress),
        Err(fault) => Err(fault),
    }
}

/// The page of a request.
pub fn explained<F: Files, P: Progress>(
    alloc: Global,
    request: &ExplainRequest<'_>,
    files: &mut F,
    progress: &mut P,
) -> Result<Page, NoMemory>
    requires steps { request.now.audit.steps ≤ 100000000 }
    requires cert { option_copied request.now.audit.cert ≡ None }
    ensures page { IfOk result (λ page. Explained
        (moment (F.held files.old) (F.read_faults files.old) (F.write_faults files.old))
        (moment (F.held files.new) (F.read_faults files.new) (F.write_faults files.new))
        request.now page.status page.text) }
    ensures held { F.held files.new ≡ F.held files.old }
{
    match fetch_sources(alloc, request.audit.file, request.audit.input, files) {
        Ok(sources) => text_page(alloc, request, &sources, files, progress),
        Err(fault) => stopped_page(alloc, fault),
    }
}
