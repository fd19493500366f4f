// The answer to a request for an audit: its files are fetched, and their text is judged.
ghost use Rattle.std.specs.Prelude.{◌≡◌, ◌≤◌, option_copied};
ghost use Rattle.audit_verdict.specs.Cause.{AuditCause, Leaves, disk, stopped};

use crate::answer::Answer;
use crate::judge::judged;
use audit_sources::{FetchFault, fetch_sources};
use command::AuditRequest;
use footprint_run::Progress;
use std::alloc::Global;
use ub_base::Files;

/// The answer where a file isn't fetched.
pub fn stopped(fault: FetchFault) -> Answer
    ensures { result ≡ stopped fault }
{
    match fault {
        FetchFault::ReadFault => Answer::ReadFault,
        FetchFault::TooLong(role) => Answer::TooLong(role),
        FetchFault::NoMemory => Answer::NoMemory,
    }
}

/// The answer to an audit. Its run is told to the progress.
pub fn audit<F: Files, P: Progress>(
    alloc: Global,
    request: &AuditRequest<'_>,
    files: &mut F,
    progress: &mut P,
) -> Answer
    requires { request.now.steps ≤ 100000000 }
    ensures why { AuditCause (disk (F.held files.old) (F.read_faults files.old) (F.write_faults files.old))
        (disk (F.held files.new) (F.read_faults files.new) (F.write_faults files.new)) request.now result }
    ensures files { Leaves (option_copied request.now.cert) (F.held files.old) (F.held files.new) result }
{
    match fetch_sources(alloc, request.file, request.input, files) {
        Ok(sources) => judged(alloc, request, &sources, files, progress),
        Err(fault) => stopped(fault),
    }
}
