// Many audits in one call.
ghost use Rattle.std.specs.Prelude.{◌≡◌, ◌⊎◌, ◌≤◌, codes, true, false, map, string_bytes, IfOk, option_copied};
ghost use Rattle.audit_batch.specs.Moment.{moment};
ghost use Rattle.audit_batch.specs.Runs.{names_of, run_for};
ghost use Rattle.person_top.specs.Batch.{BatchEnds, IsSummary, IsUnfetched, RunsEnd, limits_of, names_given};
ghost use Rattle.person_top.specs.Ends.{EndsBy, EndsForMemory, EndsTold};

use crate::list::{ListFault, fetch_lists, listed_runs};
use crate::put::{WRITE_FAULT, put_no_memory, put_text};
use audit_batch::{Auditor, BatchFault, Limits, Run, Tally, audit_all, named};
use audit_sources::FetchFault;
use person_command::BatchRequest;
use std::alloc::{AllocError, Global};
use ub_base::{Files, Sink};

const READ_FAULT: u8 = 20;

const TOO_LONG: u8 = 14;

// Puts the summary of runs.
fn put_summary<O: Sink>(alloc: Global, tally: Tally, out: &mut O) -> u8
    ensures { EndsTold (IsSummary tally) (O.told out.old) (O.told out.new) (O.faults out.old) (O.faults out.new) result }
{
    match tally.summary(alloc) {
        Ok(text) => put_text(out, text.as_slice(), tally.highest),
        Err(_) => put_no_memory(out),
    }
}

// Ends a batch in the middle.
fn put_break<O: Sink>(fault: BatchFault, out: &mut O) -> u8
    ensures { ((fault ≡ BatchFault.Failed) × (result ≡ 21) × (O.told out.new ≡ O.told out.old) × (O.faults out.new ≡ O.faults out.old))
        ⊎ EndsForMemory (O.told out.old) (O.told out.new) (O.faults out.old) (O.faults out.new) result }
{
    match fault {
        BatchFault::Failed => WRITE_FAULT,
        BatchFault::NoMemory => put_no_memory(out),
    }
}

// Says why a list isn't fetched.
fn put_unfetched<O: Sink>(fault: FetchFault, out: &mut O) -> u8
    ensures { EndsTold (IsUnfetched fault) (O.told out.old) (O.told out.new) (O.faults out.old) (O.faults out.new) result }
{
    match fault {
        FetchFault::ReadFault => put_text(out, b"read fault\n", READ_FAULT),
        FetchFault::TooLong(_) => put_text(out, b"too long list 16777216\n", TOO_LONG),
        FetchFault::NoMemory => put_no_memory(out),
    }
}

// Says why the names in lists aren't known.
fn put_unlisted<O: Sink>(fault: ListFault, out: &mut O) -> u8
    ensures { ((fault ≡ ListFault.NotText) × EndsBy (O.told out.old) (O.told out.new) (O.faults out.old) (O.faults out.new) result 20 (codes "read fault\n"))
        ⊎ EndsForMemory (O.told out.old) (O.told out.new) (O.faults out.old) (O.faults out.new) result }
{
    match fault {
        ListFault::NotText => put_text(out, b"read fault\n", READ_FAULT),
        ListFault::NoMemory => put_no_memory(out),
    }
}

// Audits runs, and puts a line for each and the summary.
fn audit_runs<A: Auditor, F: Files, O: Sink>(
    alloc: Global,
    request: &BatchRequest<'_>,
    runs: &[Run<'_>],
    auditor: &A,
    files: &mut F,
    out: &mut O,
) -> u8
    requires { request.now.steps ≤ 100000000 }
    ensures ends { RunsEnd (A.says auditor.now (limits_of request.now))
        (moment (F.held files.old) (F.read_faults files.old) (F.write_faults files.old))
        (moment (F.held files.new) (F.read_faults files.new) (F.write_faults files.new))
        (O.told out.old) (O.told out.new) (O.faults out.old) (O.faults out.new) result (map names_of runs.now) }
    ensures held { F.held files.new ≡ F.held files.old }
{
    let limits = Limits {
        steps: request.steps,
        is_tight: request.is_tight,
    };
    match audit_all(alloc, runs, limits, auditor, files, out) {
        Ok(tally) => put_summary(alloc, tally, out),
        Err(fault) => put_break(fault, out),
    }
}

// The runs of the names that the words hold.
fn named_runs<'a>(alloc: Global, request: &'a BatchRequest<'_>) -> Result<Vec<Run<'a>>, AllocError>
    ensures { IfOk result (λ runs. map names_of runs.items ≡ map (run_for (option_copied request.now.program)) (names_given request.now)) }
{
    let mut runs = Vec::new(alloc);
    named(&mut runs, request.program, &request.names)?;
    Ok(runs)
}

// Audits what the words name.
fn batch_names<A: Auditor, F: Files, O: Sink>(
    alloc: Global,
    request: &BatchRequest<'_>,
    auditor: &A,
    files: &mut F,
    out: &mut O,
) -> u8
    requires steps { request.now.steps ≤ 100000000 }
    requires names { request.now.is_list ≡ false }
    ensures ends { BatchEnds (A.says auditor.now (limits_of request.now)) request.now
        (moment (F.held files.old) (F.read_faults files.old) (F.write_faults files.old))
        (moment (F.held files.new) (F.read_faults files.new) (F.write_faults files.new))
        (O.told out.old) (O.told out.new) (O.faults out.old) (O.faults out.new) result }
    ensures held { F.held files.new ≡ F.held files.old }
{
    match named_runs(alloc, request) {
        Ok(runs) => audit_runs(alloc, request, &runs, auditor, files, out),
        Err(_) => put_no_memory(out),
    }
}

// Audits what the lists name that the words name.
fn batch_lists<A: Auditor, F: Files, O: Sink>(
    alloc: Global,
    request: &BatchRequest<'_>,
    auditor: &A,
    files: &mut F,
    out: &mut O,
) -> u8
    requires steps { request.now.steps ≤ 100000000 }
    requires lists { request.now.is_list ≡ true }
    ensures ends { BatchEnds (A.says auditor.now (limits_of request.now)) request.now
        (moment (F.held files.old) (F.read_faults files.old) (F.write_faults files.old))
        (moment (F.held files.new) (F.read_faults files.new) (F.write_faults files.new))
        (O.told out.old) (O.told out.new) (O.faults out.old) (O.faults out.new) result }
    ensures held { F.held files.new ≡ F.held files.old }
{
    let lists = match fetch_lists(alloc, &request.names, files) {
        Ok(lists) => lists,
        Err(fault) => return put_unfetched(fault, out),
    };
    match listed_runs(alloc, request.program, &lists) {
        Ok(runs) => audit_runs(alloc, request, &runs, auditor, files, out),
        Err(fault) => put_unlisted(fault, out),
    }
}

/// Audits what the words name.
pub fn batch<A: Auditor, F: Files, O: Sink>(
    alloc: Global,
    request: &BatchRequest<'_>,
    auditor: &A,
    files: &mut F,
    out: &mut O,
) -> u8
    requires { request.now.steps ≤ 100000000 }
    ensures ends { BatchEnds (A.says auditor.now (limits_of request.now)) request.now
        (moment (F.held files.old) (F.read_faults files.old) (F.write_faults files.old))
        (moment (F.held files.new) (F.read_faults files.new) (F.write_faults files.new))
        (O.told out.old) (O.told out.new) (O.faults out.old) (O.faults out.new) result }
    ensures held { F.held files.new ≡ F.held files.old }
{
    if request.is_list {
        batch_lists(alloc, request, auditor, files, out)
    } else {
        batch_names(alloc, request, auditor, files, out)
    }
}
