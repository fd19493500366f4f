// What a program writes to its standard error, beside the report of its audit.
ghost use Rattle.std.specs.Prelude.{◌≡◌, ◌≤◌, ◌^◌, None, length, IfOk, option_copied};
ghost use Rattle.audit_batch.specs.Moment.{moment};
ghost use Rattle.audit_looks.specs.Looks.{ErrorsTold, IsTextReport, MayWrite};

use crate::judged::judged_report;
use crate::looks::{run_audited, stopped_sheet};
use audit_sources::{Sources, fetch_sources};
use audit_verdict::{FrontFault, Progress, program_of};
use c_typed::Program;
use command::AuditRequest;
use elaborate::elaborate;
use footprint_run::Audit;
use person_top::{Page, Sheet};
use std::alloc::Global;
use ub_base::{Bytes, Files, NoMemory};

// What the run of a program writes to standard error, up to its finding.
fn errors_of(
    alloc: Global,
    program: &Program,
    request: &AuditRequest<'_>,
    input: &[u8],
) -> Result<Bytes, NoMemory>
    requires { request.now.steps ≤ 100000000 }
{
    let core = elaborate(alloc, program)?;
    let audit = run_audited(alloc, &core, request, input)?;
    let Audit { errors, .. } = audit;
    Ok(errors)
}

// What the run of a text writes to standard error: nothing where it has no program.
fn written(alloc: Global, request: &AuditRequest<'_>, sources: &Sources) -> Result<Bytes, NoMemory>
    requires text { length sources.now.text ≤ 2 ^ 20 }
    requires steps { request.now.steps ≤ 100000000 }
    ensures { IfOk result (MayWrite sources.now.text) }
{
    match program_of(alloc, sources.text.as_slice()) {
        Ok(program) => errors_of(alloc, &program, request, sources.input.as_slice()),
        Err(FrontFault::Refused(_)) => Bytes::from_slice(alloc, b""),
        Err(FrontFault::NoMemory) => Err(NoMemory),
    }
}

// The sheet of a text.
fn judged_sheet<F: Files, P: Progress>(
    alloc: Global,
    request: &AuditRequest<'_>,
    sources: &Sources,
    files: &mut F,
    progress: &mut P,
) -> Result<Sheet, NoMemory>
    requires text { length sources.now.text ≤ 2 ^ 20 }
    requires steps { request.now.steps ≤ 100000000 }
    requires cert { option_copied request.now.cert ≡ None }
    ensures page { IfOk result (λ sheet. IsTextReport request.now (F.write_faults files.old)
        (F.write_faults files.new) sources.now.text sheet.status sheet.text) }
    ensures errors { IfOk result (λ sheet. MayWrite sources.now.text sheet.errors) }
    ensures held { F.held files.new ≡ F.held files.old }
{
    let Page { status, text } = judged_report(alloc, request, sources, files, progress)?;
    let errors = written(alloc, request, sources)?;
    Ok(Sheet {
        status,
        text,
        errors,
    })
}

/// The report of an audit, and what the program wrote to standard error.
pub fn errors_sheet<F: Files, P: Progress>(
    alloc: Global,
    request: &AuditRequest<'_>,
    files: &mut F,
    progress: &mut P,
) -> Result<Sheet, NoMemory>
    requires steps { request.now.steps ≤ 100000000 }
    requires cert { option_copied request.now.cert ≡ None }
    ensures sheet { IfOk result (λ sheet. ErrorsTold
        (moment (F.held files.old) (F.read_faults files.old) (F.write_faults files.old))
        (moment (F.held files.new) (F.read_faults files.new) (F.write_faults files.new))
        request.now sheet.status sheet.text sheet.errors) }
    ensures held { F.held files.new ≡ F.held files.old }
{
    match fetch_sources(alloc, request.file, request.input, files) {
        Ok(sources) => judged_sheet(alloc, request, &sources, files, progress),
        Err(fault) => stopped_sheet(alloc, fault),
    }
}
