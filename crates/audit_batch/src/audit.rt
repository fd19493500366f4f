// Runs, one after the other.
ghost use Rattle.std.specs.Prelude.{◌≡◌, ◌≤◌, ◌⊎◌, [], map, IfOk, OnOk, OnErr, IsErrOf, option_copied};
ghost use Rattle.ub_base.specs.Causes.{Rose};
ghost use Rattle.ub_base.specs.Sink.{Gains, GainsPart};
ghost use Rattle.audit_batch.specs.Batch.{no_runs, run_line};
ghost use Rattle.audit_batch.specs.Moment.{moment};
ghost use Rattle.audit_batch.specs.Runs.{Breaks, Goes, IsCut, IsSaid, Reaches, names_of, stand};

use crate::line::run_line;
use crate::tally::Tally;
use std::alloc::Global;
use ub_base::{Bytes, Failed, Files, NoMemory, Sink, put_all};

/// A program, and its input, which is empty where there is none.
#[derive(Clone, Copy)]
pub struct Run<'a> {
    pub program: &'a str,
    pub input: Option<&'a str>,
}

/// What an audit says: its status, and the first line of its report, without the line feed.
#[derive(Drop)]
pub struct Verdict {
    pub status: u8,
    pub line: Bytes,
}

/// What each run is given beside its program and its input.
#[derive(Clone, Copy)]
pub struct Limits {
    /// The most steps, up to 100,000,000.
    pub steps: u64,
    pub is_tight: bool,
}

/// Audits runs.
pub trait Auditor {
    ghost use Rattle.std.specs.Prelude.{◌≡◌, ◌≤◌, ℕ, List, Option, IfOk, option_copied};
    ghost use Rattle.audit_batch.specs.Moment.{Moment, moment};
    ghost use Rattle.audit_batch.specs.declared.audit.Limits.{Limits};

    /// Whether the audit of this program on this input within these limits may say this status and this line, while the files went from one moment
    /// to the next.
    ghost says: { Self → Limits → Moment → Moment → List ℕ → Option (List ℕ) → ℕ → List ℕ → Type 0 };

    fn audit<'a, F: Files>(
        &self,
        alloc: Global,
        files: &mut F,
        limits: Limits,
        program: &'a str,
        input: Option<&'a str>,
    ) -> Result<Verdict, NoMemory>
        requires { limits.steps ≤ 100000000 }
        ensures said { IfOk result (λ verdict. says self.now limits
            (moment (F.held files.old) (F.read_faults files.old) (F.write_faults files.old))
            (moment (F.held files.new) (F.read_faults files.new) (F.write_faults files.new))
            program.now (option_copied input.entry) verdict.status verdict.line) }
        ensures held { F.held files.new ≡ F.held files.old };
}

/// Why a batch ends early: a line can't be written, or memory ran out.
#[derive(Clone, Copy)]
pub enum BatchFault {
    Failed,
    NoMemory,
}

// Puts the line of a run.
fn put_line<O: Sink>(
    alloc: Global,
    run: &Run<'_>,
    said: &[u8],
    out: &mut O,
) -> Result<(), BatchFault>
    ensures put { OnOk result (Gains (O.told out.old) (O.told out.new) (run_line run.now.program.now (option_copied run.now.input) said.now)) }
    ensures part { OnErr result ((O.told out.new ≡ O.told out.old)
        ⊎ GainsPart (O.told out.old) (O.told out.new) (run_line run.now.program.now (option_copied run.now.input) said.now)) }
    ensures failed { IsErrOf result BatchFault.Failed → Rose (O.faults out.old) (O.faults out.new) }
    ensures later { O.faults out.old ≤ O.faults out.new }
{
    let text = match run_line(alloc, run.program, run.input, said) {
        Ok(text) => text,
        Err(NoMemory) => return Err(BatchFault::NoMemory),
    };
    match put_all(out, text.as_slice()) {
        Ok(()) => Ok(()),
        Err(Failed) => Err(BatchFault::Failed),
    }
}

// Audits a run, puts its line, and gives its status.
fn audit_one<A: Auditor, F: Files, O: Sink>(
    alloc: Global,
    run: &Run<'_>,
    limits: Limits,
    auditor: &A,
    files: &mut F,
    out: &mut O,
) -> Result<u8, BatchFault>
    requires { limits.steps ≤ 100000000 }
    ensures said { IfOk result (IsSaid (A.says auditor.now limits)
        (moment (F.held files.old) (F.read_faults files.old) (F.write_faults files.old))
        (moment (F.held files.new) (F.read_faults files.new) (F.write_faults files.new))
        (names_of run.now) (O.told out.old) (O.told out.new)) }
    ensures cut { OnErr result (IsCut (A.says auditor.now limits)
        (moment (F.held files.old) (F.read_faults files.old) (F.write_faults files.old))
        (moment (F.held files.new) (F.read_faults files.new) (F.write_faults files.new))
        (names_of run.now) (O.told out.old) (O.told out.new)) }
    ensures held { F.held files.new ≡ F.held files.old }
    ensures failed { IsErrOf result BatchFault.Failed → Rose (O.faults out.old) (O.faults out.new) }
    ensures later { O.faults out.old ≤ O.faults out.new }
{
    let verdict = match auditor.audit(alloc, files, limits, run.program, run.input) {
        Ok(verdict) => verdict,
        Err(NoMemory) => return Err(BatchFault::NoMemory),
    };
    match put_line(alloc, run, verdict.line.as_slice(), out) {
        Ok(()) => Ok(verdict.status),
        Err(fault) => Err(fault),
    }
}

/// Audits runs in turn, puts a line for each as soon as it is done, and counts them.
pub fn audit_all<A: Auditor, F: Files, O: Sink>(
    alloc: Global,
    runs: &[Run<'_>],
    limits: Limits,
    auditor: &A,
    files: &mut F,
    out: &mut O,
) -> Result<Tally, BatchFault>
    requires { limits.steps ≤ 100000000 }
    ensures said { IfOk result (λ tally. Reaches (A.says auditor.now limits)
        (stand (moment (F.held files.old) (F.read_faults files.old) (F.write_faults files.old)) (O.told out.old) no_runs) (map names_of runs.now)
        (stand (moment (F.held files.new) (F.read_faults files.new) (F.write_faults files.new)) (O.told out.new) tally) []) }
    ensures cut { OnErr result (Breaks (A.says auditor.now limits)
        (stand (moment (F.held files.old) (F.read_faults files.old) (F.write_faults files.old)) (O.told out.old) no_runs) (map names_of runs.now)
        (moment (F.held files.new) (F.read_faults files.new) (F.write_faults files.new)) (O.told out.new)) }
    ensures held { F.held files.new ≡ F.held files.old }
    ensures failed { IsErrOf result BatchFault.Failed → Rose (O.faults out.old) (O.faults out.new) }
    ensures later { O.faults out.old ≤ O.faults out.new }
{
    let mut tally = Tally::new();
    for run in runs {
        match audit_one(alloc, run, limits, auditor, files, out) {
            Ok(status) => tally = tally.after(status),
            Err(fault) => return Err(fault),
        }
    }
    Ok(tally)
}
