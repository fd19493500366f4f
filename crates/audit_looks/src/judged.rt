// The report of an audit, where it stands alone.
ghost use Rattle.std.specs.Prelude.{◌≡◌, ◌≤◌, ◌^◌, None, length, IfOk, option_copied};
ghost use Rattle.audit_verdict.specs.Report.{report, status};
ghost use Rattle.audit_looks.specs.Looks.{IsTextReport};

use audit_sources::Sources;
use audit_verdict::{Answer, Progress, judged};
use command::AuditRequest;
use person_top::Page;
use std::alloc::Global;
use ub_base::{Files, NoMemory};

// The status and the report of an answer. Want of memory has none.
fn report_page(alloc: Global, answer: &Answer) -> Result<Page, NoMemory>
    ensures status { IfOk result (λ page. page.status ≡ status answer.now) }
    ensures text { IfOk result (λ page. page.text ≡ report answer.now) }
{
    if let Answer::NoMemory = answer {
        return Err(NoMemory);
    }
    Ok(Page {
        status: answer.status(),
        text: answer.report(alloc)?,
    })
}

/// The report of the answer to the text of a request.
pub fn judged_report<F: Files, P: Progress>(
    alloc: Global,
    request: &AuditRequest<'_>,
    sources: &Sources,
    files: &mut F,
    progress: &mut P,
) -> Result<Page, NoMemory>
    requires text { length sources.now.text ≤ 2 ^ 20 }
    requires steps { request.now.steps ≤ 100000000 }
    requires cert { option_copied request.now.cert ≡ None }
    ensures page { IfOk result (λ page. IsTextReport request.now (F.write_faults files.old) (F.write_faults files.new) sources.now.text page.status page.text) }
    ensures held { F.held files.new ≡ F.held files.old }
{
    let answer = judged(alloc, request, sources, files, progress);
    report_page(alloc, &answer)
}
