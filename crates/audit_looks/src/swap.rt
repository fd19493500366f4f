// Both orders of a quarrel.
ghost use Rattle.std.specs.Prelude.{◌≡◌, ◌≤◌, ◌^◌, List, false, None, length, IfOk, IfSome, option_copied};
ghost use Rattle.audit_batch.specs.Moment.{moment};
ghost use Rattle.c_typed.specs.Tree.{Tree};
ghost use Rattle.conflict_detector.specs.Apart.{AreApart};
ghost use Rattle.footprint_run.specs.Apart.{StandsApart};
ghost use Rattle.audit_looks.specs.Looks.{AreBothOrders, IsProgramSwap, IsTextSwap, IsSwap, Quiet, SwapTold, swap_status};

use crate::judged::judged_report;
use crate::looks::{mode_of, quiet, run_audited, stopped_sheet};
use audit_sources::{Sources, fetch_sources};
use audit_verdict::{FrontFault, program_of};
use c_typed::Program;
use command::AuditRequest;
use core_ir::CoreProgram;
use elaborate::elaborate;
use footprint_run::Finding;
use order_swap::{swap_run, swapped_text};
use person_top::{Page, Sheet};
use std::alloc::Global;
use ub_base::{Event, Files, Frames, NoMemory};

// The status where both orders end, in other ways or alike.
fn swap_status(differs: bool) -> u8
    ensures { result ≡ swap_status differs }
{
    if differs { 6 } else { 7 }
}

// The two evaluations that a finding names of which neither is sequenced before the other, with their lines.
#[derive(Clone, Copy)]
struct Quarrel {
    event: (Event, u32),
    against: (Event, u32),
}

// The quarrel of a finding, where it is one.
fn quarrel_of(finding: &Finding) -> Option<Quarrel>
    ensures { (trees : List Tree) → StandsApart trees finding.now → IfSome result (λ q. AreApart trees false q.event.0 q.against.0) }
{
    match finding {
        Finding::OrderDependent {
            event,
            line,
            against,
            against_line,
            ..
        } => Some(Quarrel {
            event: (*event, *line),
            against: (*against, *against_line),
        }),
        _ => None,
    }
}

// How both orders of a quarrel end.
fn both_orders(
    alloc: Global,
    core: &CoreProgram<'_>,
    request: &AuditRequest<'_>,
    input: &[u8],
    frames: &Frames,
    quarrel: &Quarrel,
) -> Result<Option<Page>, NoMemory>
    requires { request.now.steps ≤ 100000000 }
    ensures { IfOk result (λ page. IfSome page (λ page. AreBothOrders frames.now quarrel.now.event quarrel.now.against page.status page.text)) }
{
    let swapped = swap_run(
        alloc,
        core,
        input,
        &request.args,
        mode_of(request.is_tight),
        request.steps,
        frames,
        quarrel.event.0,
        quarrel.against.0,
    )?;
    let text = swapped_text(alloc, frames, quarrel.event, quarrel.against, &swapped)?;
    let status = swap_status(swapped.differs);
    Ok(Some(Page { status, text }))
}

// The same of the quarrel of the run of a program, where it has one.
fn quarrel_page(
    alloc: Global,
    program: &Program,
    request: &AuditRequest<'_>,
    input: &[u8],
) -> Result<Option<Page>, NoMemory>
    requires { request.now.steps ≤ 100000000 }
    ensures { IfOk result (λ page. IfSome page (λ page. IsProgramSwap program.now page.status page.text)) }
{
    let core = elaborate(alloc, program)?;
    let audit = run_audited(alloc, &core, request, input)?;
    match quarrel_of(&audit.finding) {
        Some(quarrel) => both_orders(alloc, &core, request, input, &audit.frames, &quarrel),
        None => Ok(None),
    }
}

// The same of a text, where it has a program.
fn text_quarrel(
    alloc: Global,
    request: &AuditRequest<'_>,
    sources: &Sources,
) -> Result<Option<Page>, NoMemory>
    requires text { length sources.now.text ≤ 2 ^ 20 }
    requires steps { request.now.steps ≤ 100000000 }
    ensures { IfOk result (λ page. IfSome page (λ page. IsSwap sources.now.text page.status page.text)) }
{
    match program_of(alloc, sources.text.as_slice()) {
        Ok(program) => quarrel_page(alloc, &program, request, sources.input.as_slice()),
        Err(FrontFault::Refused(_)) => Ok(None),
        Err(FrontFault::NoMemory) => Err(NoMemory),
    }
}

// The page of a text: both orders of its quarrel, and else the report of its audit.
fn swap_page<F: Files>(
    alloc: Global,
    request: &AuditRequest<'_>,
    sources: &Sources,
    files: &mut F,
) -> Result<Page, NoMemory>
    requires text { length sources.now.text ≤ 2 ^ 20 }
    requires steps { request.now.steps ≤ 100000000 }
    requires cert { option_copied request.now.cert ≡ None }
    ensures page { IfOk result (λ page. IsTextSwap request.now (F.write_faults files.old) (F.write_faults files.new) sources.now.text page.status page.text) }
    ensures held { F.held files.new ≡ F.held files.old }
{
    match text_quarrel(alloc, request, sources)? {
        Some(page) => Ok(page),
        None => judged_report(alloc, request, sources, files, &mut audit_verdict::Quiet),
    }
}

// The sheet of a text.
fn judged_sheet<F: Files>(
    alloc: Global,
    request: &AuditRequest<'_>,
    sources: &Sources,
    files: &mut F,
) -> Result<Sheet, NoMemory>
    requires text { length sources.now.text ≤ 2 ^ 20 }
    requires steps { request.now.steps ≤ 100000000 }
    requires cert { option_copied request.now.cert ≡ None }
    ensures sheet { IfOk result (λ sheet. Quiet (IsTextSwap request.now (F.write_faults files.old) (F.write_faults files.new) sources.now.text)
        sheet.status sheet.text sheet.errors) }
    ensures held { F.held files.new ≡ F.held files.old }
{
    let page = swap_page(alloc, request, sources, files)?;
    quiet(alloc, page)
}

/// Both orders of the quarrel of a run, and else the report of its audit.
pub fn swap_sheet<F: Files>(
    alloc: Global,
    request: &AuditRequest<'_>,
    files: &mut F,
) -> Result<Sheet, NoMemory>
    requires steps { request.now.steps ≤ 100000000 }
    requires cert { option_copied request.now.cert ≡ None }
    ensures sheet { IfOk result (λ sheet. SwapTold
        (moment (F.held files.old) (F.read_faults files.old) (F.write_faults files.old))
        (moment (F.held files.new) (F.read_faults files.new) (F.write_faults files.new))
        request.now sheet.status sheet.text sheet.errors) }
    ensures held { F.held files.new ≡ F.held files.old }
{
    match fetch_sources(alloc, request.file, request.input, files) {
        Ok(sources) => judged_sheet(alloc, request, &sources, files),
        Err(fault) => stopped_sheet(alloc, fault),
    }
}
