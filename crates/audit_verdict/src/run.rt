// The run of a program, and its report.
ghost use Rattle.std.specs.Prelude.{◌≡◌, ◌≤◌, IfOk};
ghost use Rattle.audit_verdict.specs.Finding.{IsFound};
ghost use Rattle.footprint_run.specs.Findings.{picks_of, IsOutOfSteps, ItemsConflict};

use crate::finding::{report_of, status_of};
use addr_map::Mode;
use c_typed::Program;
use elaborate::elaborate;
use footprint_run::{Audit, Progress, audit_run};
use std::alloc::Global;
use ub_base::{Bytes, NoMemory};

/// What a run is given: the input, the words behind the program's name, where its objects stand, and its most steps.
#[derive(Clone, Copy)]
pub struct Setting<'a> {
    pub input: &'a [u8],
    pub args: &'a [String],
    pub mode: Mode,
    pub steps: u64,
}

/// The finding of a run, with its status and its report.
#[derive(Drop)]
pub struct Found {
    pub audit: Audit,
    pub status: u8,
    pub report: Bytes,
}

// The first finding of the run of a program.
fn audit_of<P: Progress>(
    alloc: Global,
    program: &Program,
    setting: &Setting<'_>,
    progress: &mut P,
) -> Result<Audit, NoMemory>
    requires { setting.now.steps ≤ 100000000 }
    ensures within { IfOk result (λ a. picks_of a.finding ≤ setting.now.steps) }
    ensures out_of_steps { IfOk result (λ a. IsOutOfSteps a.finding → picks_of a.finding ≡ setting.now.steps) }
    ensures items { IfOk result (λ a. ItemsConflict a.finding) }
{
    let core = elaborate(alloc, program)?;
    audit_run(
        alloc,
        &core,
        setting.input,
        setting.args,
        setting.mode,
        setting.steps,
        progress,
    )
}

/// Audits the run of a program, and says what was found.
pub fn audited<P: Progress>(
    alloc: Global,
    program: &Program,
    setting: &Setting<'_>,
    progress: &mut P,
) -> Result<Found, NoMemory>
    requires { setting.now.steps ≤ 100000000 }
    ensures { IfOk result (λ found. IsFound setting.now.steps found.status found.report) }
{
    let audit = audit_of(alloc, program, setting, progress)?;
    let report = report_of(alloc, &audit, setting.steps)?;
    Ok(Found {
        status: status_of(&audit.finding),
        report,
        audit,
    })
}
