// The answer to a text: by the first form, or by its run.
ghost use Rattle.std.specs.Prelude.{◌≡◌, ◌≤◌, ◌^◌, ◌↔◌, length, IfOk, IsTrue, option_copied};
ghost use Rattle.audit_verdict.specs.Cause.{FormCause, GeneratedCause, IsRun, KeptCause, Leaves, SelfCause, TextCause, UsesForm};
ghost use Rattle.audit_verdict.specs.Setting.{IsSettingOf, mode_of};

use crate::answer::{Answer, Summary};
use crate::certify::certify;
use crate::front::{FrontFault, program_of};
use crate::run::{Found, Setting, audited};
use crate::value::verdict;
use addr_map::Mode;
use audit_generator::generated;
use audit_sources::{KeepFault, Sources};
use command::{AuditRequest, SelfRequest};
use first_form::{FormFault, read_unit};
use footprint_run::{Progress, Quiet};
use std::alloc::Global;
use ub_base::{Files, NoMemory};

const FORM_STEPS: u64 = 5;

const SELF_STEPS: u64 = 1_000_000;

// Whether the first form decides: the steps suffice for it, and no certificate is asked for.
fn uses_form(request: &AuditRequest<'_>) -> bool
    ensures { IsTrue result ↔ UsesForm request.now }
{
    request.steps >= FORM_STEPS && request.cert.is_none()
}

// The verdict of a text of the first form, where that decides.
fn by_form(
    alloc: Global,
    request: &AuditRequest<'_>,
    text: &[u8],
) -> Result<Option<Answer>, NoMemory>
    requires { length text.now ≤ 2 ^ 20 }
    ensures { IfOk result (FormCause request.now text.now) }
{
    if !uses_form(request) {
        return Ok(None);
    }
    match read_unit(alloc, text) {
        Ok(unit) => Ok(Some(verdict(unit))),
        Err(FormFault::NotFirstForm) => Ok(None),
        Err(FormFault::NoMemory) => Err(NoMemory),
    }
}

// The answer to a finding, whose certificate is kept first where one is asked for.
fn kept<F: Files>(alloc: Global, found: Found, cert: Option<&str>, files: &mut F) -> Answer
    ensures why { KeptCause found.status found.report (F.write_faults files.old) (F.write_faults files.new) result }
    ensures files { Leaves (option_copied cert.entry) (F.held files.old) (F.held files.new) result }
{
    let Found {
        audit,
        status,
        report,
    } = found;
    let Some(name) = cert else {
        return Answer::Found { status, report };
    };
    match certify(alloc, audit, name, files) {
        Ok(()) => Answer::Found { status, report },
        Err(KeepFault::TooLong) => Answer::CertificateTooLong,
        Err(KeepFault::Failed) => Answer::NotKept,
        Err(KeepFault::NoMemory) => Answer::NoMemory,
    }
}

// Where the objects of a run stand.
fn mode_of(is_tight: bool) -> Mode
    ensures { result ≡ mode_of is_tight }
{
    if is_tight { Mode::Tight } else { Mode::Spaced }
}

// What the run of a request is given.
fn setting<'a>(request: &'a AuditRequest<'_>, input: &'a [u8]) -> Setting<'a>
    ensures { IsSettingOf request.now input.now result }
{
    Setting {
        input,
        args: &request.args,
        mode: mode_of(request.is_tight),
        steps: request.steps,
    }
}

// The answer to a text by its run.
fn by_run<F: Files, P: Progress>(
    alloc: Global,
    request: &AuditRequest<'_>,
    sources: &Sources,
    files: &mut F,
    progress: &mut P,
) -> Answer
    requires steps { request.now.steps ≤ 100000000 }
    requires text { length sources.now.text ≤ 2 ^ 20 }
    requires run { IsRun request.now sources.now.text }
    ensures why { TextCause request.now (F.write_faults files.old) (F.write_faults files.new) sources.now.text result }
    ensures files { Leaves (option_copied request.now.cert) (F.held files.old) (F.held files.new) result }
{
    let program = match program_of(alloc, sources.text.as_slice()) {
        Ok(program) => program,
        Err(FrontFault::Refused(refusal)) => return Answer::Refused(refusal),
        Err(FrontFault::NoMemory) => return Answer::NoMemory,
    };
    let setting = setting(request, sources.input.as_slice());
    match audited(alloc, &program, &setting, progress) {
        Ok(found) => kept(alloc, found, request.cert, files),
        Err(NoMemory) => Answer::NoMemory,
    }
}

/// The answer to a text, with its input. A run of it is told to the progress.
pub fn judged<F: Files, P: Progress>(
    alloc: Global,
    request: &AuditRequest<'_>,
    sources: &Sources,
    files: &mut F,
    progress: &mut P,
) -> Answer
    requires steps { request.now.steps ≤ 100000000 }
    requires text { length sources.now.text ≤ 2 ^ 20 }
    ensures why { TextCause request.now (F.write_faults files.old) (F.write_faults files.new) sources.now.text result }
    ensures files { Leaves (option_copied request.now.cert) (F.held files.old) (F.held files.new) result }
{
    match by_form(alloc, request, sources.text.as_slice()) {
        Ok(Some(answer)) => answer,
        Ok(None) => by_run(alloc, request, sources, files, progress),
        Err(NoMemory) => Answer::NoMemory,
    }
}

// The answer to a generated program that is run.
fn generated_found(alloc: Global, summary: Summary, text: &[u8]) -> Answer
    requires { length text.now ≤ 2 ^ 20 }
    ensures { GeneratedCause summary text.now result }
{
    let program = match program_of(alloc, text) {
        Ok(program) => program,
        Err(FrontFault::Refused(refusal)) => return Answer::GeneratedRefused { summary, refusal },
        Err(FrontFault::NoMemory) => return Answer::NoMemory,
    };
    let setting = Setting {
        input: &[],
        args: &[],
        mode: Mode::Spaced,
        steps: SELF_STEPS,
    };
    match audited(alloc, &program, &setting, &mut Quiet) {
        Ok(Found { status, report, .. }) => Answer::Generated {
            summary,
            status,
            report,
        },
        Err(NoMemory) => Answer::NoMemory,
    }
}

/// The answer to the program that a seed and a number of lines give.
pub fn self_audit(alloc: Global, request: SelfRequest) -> Answer
    requires seed { request.seed ≤ 65536 }
    requires lines { request.lines ≤ 20000 }
    ensures { SelfCause request result }
{
    let text = match generated(alloc, request.seed, request.lines) {
        Ok(text) => text,
        Err(NoMemory) => return Answer::NoMemory,
    };
    let summary = Summary {
        seed: request.seed,
        lines: request.lines,
        size: text.len(),
    };
    generated_found(alloc, summary, text.as_slice())
}
