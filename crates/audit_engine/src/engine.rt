// Audits, in a line each, and audits that are explained.
ghost use Rattle.std.specs.Prelude.{◌≡◌, ◌<◌, ◌≤◌, ◌==◌, None, length, IfOk, IfSome, option_copied};
ghost use Rattle.std.specs.List.{position};
ghost use Rattle.audit_batch.specs.Moment.{moment};
ghost use Rattle.audit_verdict.specs.Report.{report, status};
ghost use Rattle.audit_engine.specs.Engine.{Explained, IsAudited, Says, first_line};
ghost use Rattle.audit_looks.specs.Looks.{Explored};

use crate::explain::explained;
use audit_batch::{Auditor, Limits, Verdict};
use audit_looks::{errors_sheet, static_sheet, story_sheet, swap_sheet};
use audit_verdict::{Answer, Progress, audit};
use command::AuditRequest;
use person_command::{ExplainRequest, Exploration};
use person_top::{Explainer, Explorer, Page, Sheet};
use std::alloc::Global;
use ub_base::{Bytes, Files, NoMemory};

/// Audits and explains by the top call's own functions.
#[derive(Clone, Copy)]
pub struct Engine<P> {
    /// Each run is told to a copy of it.
    pub progress: P,
}

// Where the first line feed stands.
fn line_end(text: &[u8]) -> Option<usize>
    ensures value { result ≡ position (λ byte. byte == 10) text.now }
    ensures within { IfSome result (λ at. at < length text.now) }
{
    text.iter().position(|byte| *byte == b'\n')
}

// The bytes before the first line feed.
fn first_line(text: &[u8]) -> &[u8]
    ensures { result.now ≡ first_line text.now }
{
    match line_end(text) {
        Some(at) => &text[..at],
        None => text,
    }
}

// The status of an answer, and the first line of its report.
fn verdict_of(alloc: Global, answer: &Answer) -> Result<Verdict, NoMemory>
    ensures status { IfOk result (λ verdict. verdict.status ≡ status answer.now) }
    ensures line { IfOk result (λ verdict. verdict.line ≡ first_line (report answer.now)) }
{
    let report = answer.report(alloc)?;
    Ok(Verdict {
        status: answer.status(),
        line: Bytes::from_slice(alloc, first_line(report.as_slice()))?,
    })
}

// What is said of the audit of a request.
fn audited<F: Files, P: Progress>(
    alloc: Global,
    request: &AuditRequest<'_>,
    files: &mut F,
    progress: &mut P,
) -> Result<Verdict, NoMemory>
    requires steps { request.now.steps ≤ 100000000 }
    requires cert { option_copied request.now.cert ≡ None }
    ensures said { IfOk result (λ verdict. IsAudited request.now
        (moment (F.held files.old) (F.read_faults files.old) (F.write_faults files.old))
        (moment (F.held files.new) (F.read_faults files.new) (F.write_faults files.new))
        verdict.status verdict.line) }
    ensures held { F.held files.new ≡ F.held files.old }
{
    let answer = audit(alloc, request, files, progress);
    verdict_of(alloc, &answer)
}

impl<P: Progress + Copy> Auditor for Engine<P> {
    ghost says = { λ _ limits was is program input said line. Says limits was is program input said line };

    fn audit<'a, F: Files>(
        &self,
        alloc: Global,
        files: &mut F,
        limits: Limits,
        program: &'a str,
        input: Option<&'a str>,
    ) -> Result<Verdict, NoMemory> {
        let request = AuditRequest {
            file: program,
            input,
            steps: limits.steps,
            is_tight: limits.is_tight,
            cert: None,
            args: Vec::new(alloc),
        };
        let mut progress = self.progress;
        audited(alloc, &request, files, &mut progress)
    }
}

impl<P: Progress + Copy> Explainer for Engine<P> {
    ghost explains = { λ _ was is request said text. Explained was is request said text };

    fn explain<F: Files>(
        &self,
        alloc: Global,
        files: &mut F,
        request: &ExplainRequest<'_>,
    ) -> Result<Page, NoMemory> {
        let mut progress = self.progress;
        explained(alloc, request, files, &mut progress)
    }
}

impl<P: Progress + Copy> Explorer for Engine<P> {
    ghost explores = { λ _ was is look said text errors. Explored was is look said text errors };

    fn explore<F: Files>(
        &self,
        alloc: Global,
        files: &mut F,
        look: &Exploration<'_>,
    ) -> Result<Sheet, NoMemory> {
        let mut progress = self.progress;
        match look {
            Exploration::Errors(request) => errors_sheet(alloc, request, files, &mut progress),
            Exploration::Static(file) => static_sheet(alloc, file, files),
            Exploration::Swap(request) => swap_sheet(alloc, request, files),
            Exploration::Story(request) => story_sheet(alloc, request, files),
        }
    }
}
