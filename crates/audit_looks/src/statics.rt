// Which full expressions aren't known never to race.
ghost use Rattle.std.specs.Prelude.{◌≡◌, ◌≤◌, ◌^◌, None, length, IfOk, option_copied};
ghost use Rattle.audit_batch.specs.Moment.{moment};
ghost use Rattle.audit_looks.specs.Looks.{IsFileStatic, IsOfFile, IsProgramStatic, IsTextStatic, Quiet, StaticTold};

use crate::judged::judged_report;
use crate::looks::{quiet, stopped_sheet};
use audit_sources::{Sources, fetch_sources};
use audit_verdict::{FrontFault, program_of};
use c_typed::Program;
use command::AuditRequest;
use person_top::{Page, Sheet};
use static_report::static_report;
use std::alloc::Global;
use ub_base::{Files, NoMemory};

// The audit of a file, which says why its text is refused.
fn audit_of<'a>(alloc: Global, file: &'a str) -> AuditRequest<'a>
    ensures of { IsOfFile file.now result }
    ensures steps { result.steps ≤ 100000000 }
    ensures cert { option_copied result.cert ≡ None }
{
    AuditRequest {
        file,
        input: None,
        steps: 1,
        is_tight: false,
        cert: None,
        args: Vec::new(alloc),
    }
}

// The page of a program.
fn program_page(alloc: Global, program: &Program) -> Result<Page, NoMemory>
    ensures { IfOk result (λ page. IsProgramStatic program.now page.status page.text) }
{
    let (text, status) = static_report(alloc, program)?;
    Ok(Page { status, text })
}

// The page of a text: what is said of its program, or why it is refused.
fn static_page<F: Files>(
    alloc: Global,
    request: &AuditRequest<'_>,
    sources: &Sources,
    files: &mut F,
) -> Result<Page, NoMemory>
    requires text { length sources.now.text ≤ 2 ^ 20 }
    requires steps { request.now.steps ≤ 100000000 }
    requires cert { option_copied request.now.cert ≡ None }
    ensures page { IfOk result (λ page. IsTextStatic request.now (F.write_faults files.old) (F.write_faults files.new) sources.now.text page.status page.text) }
    ensures held { F.held files.new ≡ F.held files.old }
{
    match program_of(alloc, sources.text.as_slice()) {
        Ok(program) => program_page(alloc, &program),
        Err(FrontFault::Refused(_)) => judged_report(
            alloc,
            request,
            sources,
            files,
            &mut audit_verdict::Quiet,
        ),
        Err(FrontFault::NoMemory) => Err(NoMemory),
    }
}

// The sheet of a text.
fn text_sheet<F: Files>(
    alloc: Global,
    request: &AuditRequest<'_>,
    sources: &Sources,
    files: &mut F,
) -> Result<Sheet, NoMemory>
    requires text { length sources.now.text ≤ 2 ^ 20 }
    requires steps { request.now.steps ≤ 100000000 }
    requires cert { option_copied request.now.cert ≡ None }
    ensures sheet { IfOk result (λ sheet. Quiet (IsTextStatic request.now (F.write_faults files.old) (F.write_faults files.new) sources.now.text)
        sheet.status sheet.text sheet.errors) }
    ensures held { F.held files.new ≡ F.held files.old }
{
    let page = static_page(alloc, request, sources, files)?;
    quiet(alloc, page)
}

// The sheet of the file that an audit is asked for.
fn fetched_sheet<F: Files>(
    alloc: Global,
    request: &AuditRequest<'_>,
    files: &mut F,
) -> Result<Sheet, NoMemory>
    requires steps { request.now.steps ≤ 100000000 }
    requires cert { option_copied request.now.cert ≡ None }
    ensures sheet { IfOk result (λ sheet. Quiet (IsFileStatic
        (moment (F.held files.old) (F.read_faults files.old) (F.write_faults files.old))
        (moment (F.held files.new) (F.read_faults files.new) (F.write_faults files.new))
        request.now) sheet.status sheet.text sheet.errors) }
    ensures held { F.held files.new ≡ F.held files.old }
{
    match fetch_sources(alloc, request.file, request.input, files) {
        Ok(sources) => text_sheet(alloc, request, &sources, files),
        Err(fault) => stopped_sheet(alloc, fault),
    }
}

/// Which full expressions of the program of a file aren't known never to race.
pub fn static_sheet<F: Files>(alloc: Global, file: &str, files: &mut F) -> Result<Sheet, NoMemory>
    ensures sheet { IfOk result (λ sheet. StaticTold
        (moment (F.held files.old) (F.read_faults files.old) (F.write_faults files.old))
        (moment (F.held files.new) (F.read_faults files.new) (F.write_faults files.new))
        file.now sheet.status sheet.text sheet.errors) }
    ensures held { F.held files.new ≡ F.held files.old }
{
    let request = audit_of(alloc, file);
    fetched_sheet(alloc, &request, files)
}
