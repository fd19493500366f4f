// The top call.
ghost use Rattle.std.specs.Prelude.{◌≡◌, map, string_bytes};
ghost use Rattle.ub_base.specs.Causes.{Rose};
ghost use Rattle.audit_verdict.specs.Cause.{disk};
ghost use Rattle.audit_verdict.specs.Report.{Ends, EndsWith, report};
ghost use Rattle.audit_top.specs.Cause.{CheckCause, HasCause, RequestCause};
ghost use Rattle.audit_top.specs.Told.{OnStopped, OnCheckStopped, OnFirstForm, OnRefused, OnNoTree, OnCheckRefused, StaysUncertified};
ghost use Rattle.audit_top.specs.Words.{IsBounded};

use crate::weigh::weighed;
use crate::words::asked;
use audit_sources::fetch_check_sources;
use audit_verdict::{Answer, Quiet, audit, self_audit, stopped};
use command::{CheckRequest, Request, WordFault};
use std::alloc::Global;
use ub_base::{Failed, Files, Sink, put_all};

const WRITE_FAULT: u8 = 21;

// The answer to a check of a certificate.
fn check<F: Files>(alloc: Global, request: &CheckRequest<'_>, files: &mut F) -> Answer
    ensures why { CheckCause (disk (F.held files.old) (F.read_faults files.old) (F.write_faults files.old))
        (disk (F.held files.new) (F.read_faults files.new) (F.write_faults files.new)) request.now result }
    ensures files { F.held files.new ≡ F.held files.old }
{
    match fetch_check_sources(alloc, request.file, request.cert, request.input, files) {
        Ok(sources) => weighed(alloc, &request.args, &sources),
        Err(fault) => stopped(fault),
    }
}

// The answer to a request.
fn answer_to<F: Files>(alloc: Global, request: &Request<'_>, files: &mut F) -> Answer
    requires { IsBounded request.now }
    ensures { RequestCause (disk (F.held files.old) (F.read_faults files.old) (F.write_faults files.old))
        (disk (F.held files.new) (F.read_faults files.new) (F.write_faults files.new)) request.now result }
{
    match request {
        Request::Audit(request) => audit(alloc, request, files, &mut Quiet),
        Request::Check(request) => check(alloc, request, files),
        Request::SelfAudit(request) => self_audit(alloc, *request),
    }
}

// The answer to the words.
fn answer<F: Files>(alloc: Global, words: &[String], files: &mut F) -> Answer
    ensures { HasCause (map string_bytes words.now) (disk (F.held files.old) (F.read_faults files.old) (F.write_faults files.old))
        (disk (F.held files.new) (F.read_faults files.new) (F.write_faults files.new)) result }
{
    match asked(alloc, words) {
        Ok(request) => answer_to(alloc, &request, files),
        Err(WordFault::Usage) => Answer::Usage,
        Err(WordFault::NoMemory) => Answer::NoMemory,
    }
}

// Puts a report, and gives the status.
fn finish<O: Sink>(out: &mut O, answer: &Answer, text: &[u8]) -> u8
    requires { text.now ≡ report answer.now }
    ensures { Ends (O.told out.old) (O.told out.new) (O.faults out.old) (O.faults out.new) result answer.now }
{
    match put_all(out, text) {
        Ok(()) => answer.status(),
        Err(Failed) => WRITE_FAULT,
    }
}

// Puts the report of an answer that has its cause.
fn run<F: Files, O: Sink>(alloc: Global, words: &[String], files: &mut F, out: &mut O) -> u8
    ensures { (answer : _)
        × HasCause (map string_bytes words.now) (disk (F.held files.old) (F.read_faults files.old) (F.write_faults files.old))
        (disk (F.held files.new) (F.read_faults files.new) (F.write_faults files.new)) answer
        × Ends (O.told out.old) (O.told out.new) (O.faults out.old) (O.faults out.new) result answer }
{
    let answer = answer(alloc, words, files);
    match answer.report(alloc) {
        Ok(report) => finish(out, &answer, report.as_slice()),
        Err(_) => finish(out, &Answer::NoMemory, b"no memory\n"),
    }
}

/// Does what the words ask for, puts the report, and gives the status.
pub fn audit_main<F: Files, O: Sink>(
    alloc: Global,
    words: &[String],
    files: &mut F,
    out: &mut O,
) -> u8
    // One answer has its cause, and its report is put whole, or a proper front of it before a write that failed.
    ensures answer { (answer : _)
        × HasCause (map string_bytes words.now) (disk (F.held files.old) (F.read_faults files.old) (F.write_faults files.old))
        (disk (F.held files.new) (F.read_faults files.new) (F.write_faults files.new)) answer
        × Ends (O.told out.old) (O.told out.new) (O.faults out.old) (O.faults out.new) result answer }

    // Where files are told and no fault is counted, the files decide what is put.
    ensures stopped { ¬ Rose (F.read_faults files.old) (F.read_faults files.new) → ¬ Rose (O.faults out.old) (O.faults out.new)
        → OnStopped (map string_bytes words.now) (F.held files.old) (EndsWith (O.told out.old) (O.told out.new) result) }
    ensures check_stopped { ¬ Rose (F.read_faults files.old) (F.read_faults files.new) → ¬ Rose (O.faults out.old) (O.faults out.new)
        → OnCheckStopped (map string_bytes words.now) (F.held files.old) (EndsWith (O.told out.old) (O.told out.new) result) }
    ensures verdict { ¬ Rose (F.read_faults files.old) (F.read_faults files.new) → ¬ Rose (O.faults out.old) (O.faults out.new)
        → OnFirstForm (map string_bytes words.now) (F.held files.old) (EndsWith (O.told out.old) (O.told out.new) result) }
    ensures refused { ¬ Rose (F.read_faults files.old) (F.read_faults files.new) → ¬ Rose (O.faults out.old) (O.faults out.new)
        → OnRefused (map string_bytes words.now) (F.held files.old) (EndsWith (O.told out.old) (O.told out.new) result) }
    ensures no_tree { ¬ Rose (F.read_faults files.old) (F.read_faults files.new) → ¬ Rose (O.faults out.old) (O.faults out.new)
        → OnNoTree (map string_bytes words.now) (F.held files.old) (EndsWith (O.told out.old) (O.told out.new) result) }
    ensures check_refused { ¬ Rose (F.read_faults files.old) (F.read_faults files.new) → ¬ Rose (O.faults out.old) (O.faults out.new)
        → OnCheckRefused (map string_bytes words.now) (F.held files.old) (EndsWith (O.told out.old) (O.told out.new) result) }

    // Without `--cert` the files stay.
    ensures held { StaysUncertified (map string_bytes words.now) (F.held files.old) (F.held files.new) }
{
    run(alloc, words, files, out)
}
