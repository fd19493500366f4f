// What further looks share.
ghost use Rattle.std.specs.Prelude.{◌≡◌, ◌≤◌, [], IfOk};
ghost use Rattle.audit_verdict.specs.Cause.{stopped};
ghost use Rattle.audit_verdict.specs.Report.{report, status};
ghost use Rattle.elaborate.specs.Expressions.{program_trees};
ghost use Rattle.footprint_run.specs.Apart.{StandsApart};
ghost use Rattle.footprint_run.specs.Findings.{picks_of};

use addr_map::Mode;
use audit_sources::FetchFault;
use audit_verdict::stopped;
use command::AuditRequest;
use core_ir::CoreProgram;
use footprint_run::{Audit, Quiet, audit_run};
use person_top::{Page, Sheet};
use std::alloc::Global;
use ub_base::{Bytes, NoMemory};

/// Where the objects of a run stand.
pub fn mode_of(is_tight: bool) -> Mode {
    if is_tight { Mode::Tight } else { Mode::Spaced }
}

/// The page where a file isn't fetched: the report alone.
pub fn stopped_page(alloc: Global, fault: FetchFault) -> Result<Page, NoMemory>
    ensures status { IfOk result (λ page. page.status ≡ status (stopped fault)) }
    ensures page { IfOk result (λ page. page.text ≡ report (stopped fault)) }
{
    let answer = stopped(fault);
    Ok(Page {
        status: answer.status(),
        text: answer.report(alloc)?,
    })
}

/// A page, with nothing for standard error.
pub fn quiet(alloc: Global, page: Page) -> Result<Sheet, NoMemory>
    ensures status { IfOk result (λ sheet. sheet.status ≡ page.status) }
    ensures text { IfOk result (λ sheet. sheet.text ≡ page.text) }
    ensures errors { IfOk result (λ sheet. sheet.errors ≡ []) }
{
    let Page { status, text } = page;
    let errors = Bytes::from_slice(alloc, b"")?;
    Ok(Sheet {
        status,
        text,
        errors,
    })
}

/// The sheet where a file isn't fetched: the report alone.
pub fn stopped_sheet(alloc: Global, fault: FetchFault) -> Result<Sheet, NoMemory>
    ensures status { IfOk result (λ sheet. sheet.status ≡ status (stopped fault)) }
    ensures text { IfOk result (λ sheet. sheet.text ≡ report (stopped fault)) }
    ensures errors { IfOk result (λ sheet. sheet.errors ≡ []) }
{
    let page = stopped_page(alloc, fault)?;
    quiet(alloc, page)
}

/// The audit of the run of a program.
pub fn run_audited(
    alloc: Global,
    core: &CoreProgram<'_>,
    request: &AuditRequest<'_>,
    input: &[u8],
) -> Result<Audit, NoMemory>
    requires { request.now.steps ≤ 100000000 }
    ensures within { IfOk result (λ a. picks_of a.finding ≤ request.now.steps) }
    ensures apart { IfOk result (λ a. StandsApart (program_trees core.now.program.now) a.finding) }
{
    let mode = mode_of(request.is_tight);
    audit_run(
        alloc,
        core,
        input,
        &request.args,
        mode,
        request.steps,
        &mut Quiet,
    )
}
