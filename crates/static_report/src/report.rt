// The report on expressions that never race.
ghost use Rattle.std.specs.Prelude.{◌≡◌, ◌++◌, IfOk, OnOk};
ghost use Rattle.static_seq.specs.Verdicts.{ProgramCounts, verdicts};
ghost use Rattle.static_report.specs.Report.{kind_text, counted, access_line, unknown_line, verdict_lines, unknown, parted, report, status};

use c_typed::Program;
use itoa::Buffer;
use static_seq::{Accessed, Verdict, examine};
use std::alloc::Global;
use ub_base::{Bytes, Kind, NoMemory};

/// The report on all full expressions of a program, with its status: for each of which nothing shows that it never races a line
/// and those of its least pair of accesses, and last how many never race and how many may. The status is 0 where none may,
/// and 8 otherwise (own). The only refusal is want of memory.
pub fn static_report(alloc: Global, p: &Program) -> Result<(Bytes, u8), NoMemory>
    ensures report { ProgramCounts p.now → IfOk result (λ said. said.0 ≡ report (verdicts p.now)) }
    ensures status { ProgramCounts p.now → IfOk result (λ said. said.1 ≡ status (verdicts p.now)) }
{
    let said = examine(alloc, p)?;
    let text = report(alloc, said.as_slice())?;
    let status = status(said.as_slice());
    Ok((text, status))
}

fn status(said: &[Verdict]) -> u8
    ensures { result ≡ status said.now }
{
    if unknown(said) == 0 { 0 } else { 8 }
}

/// How many may race.
fn unknown(said: &[Verdict]) -> usize
    ensures { result ≡ unknown said.now }
{
    let mut count = 0;
    for verdict in said {
        if verdict.unparted.is_some() {
            count += 1;
        }
    }
    count
}

/// How many never race.
fn parted(said: &[Verdict]) -> usize
    ensures { result ≡ parted said.now }
{
    let mut count = 0;
    for verdict in said {
        if verdict.unparted.is_none() {
            count += 1;
        }
    }
    count
}

fn report(alloc: Global, said: &[Verdict]) -> Result<Bytes, NoMemory>
    ensures { IfOk result (λ text. text ≡ report said.now) }
{
    let mut text = Bytes::from_slice(alloc, b"")?;
    for verdict in said {
        put_verdict(&mut text, verdict)?;
    }
    put_counted(&mut text, b"parted ", parted(said) as u64)?;
    put_counted(&mut text, b" unknown ", unknown(said) as u64)?;
    text.append(b"\n")?;
    Ok(text)
}

fn put_verdict(text: &mut Bytes, verdict: &Verdict) -> Result<(), NoMemory>
    ensures { OnOk result (text.new ≡ text.old ++ verdict_lines verdict.now) }
{
    let Some((first, second)) = verdict.unparted else {
        return Ok(());
    };
    put_unknown(text, verdict)?;
    put_access(text, first)?;
    put_access(text, second)
}

fn put_unknown(text: &mut Bytes, verdict: &Verdict) -> Result<(), NoMemory>
    ensures { OnOk result (text.new ≡ text.old ++ unknown_line verdict.now) }
{
    put_counted(text, b"unknown function ", verdict.function as u64)?;
    put_counted(text, b" expression ", verdict.expression as u64)?;
    put_counted(text, b" line ", verdict.line as u64)?;
    text.append(b"\n")
}

fn put_access(text: &mut Bytes, access: Accessed) -> Result<(), NoMemory>
    ensures { OnOk result (text.new ≡ text.old ++ access_line access) }
{
    put_counted(text, b"access ", access.place.node as u64)?;
    put_kind(text, access.place.kind, access.line as u64)?;
    text.append(b"\n")
}

fn put_kind(text: &mut Bytes, kind: Kind, line: u64) -> Result<(), NoMemory>
    ensures { OnOk result (text.new ≡ text.old ++ counted (kind_text kind) line) }
{
    match kind {
        Kind::Val => put_counted(text, b" val line ", line),
        Kind::Eff => put_counted(text, b" eff line ", line),
        Kind::Body => put_counted(text, b" body line ", line),
    }
}

/// Adds words and a number.
fn put_counted(text: &mut Bytes, words: &[u8], number: u64) -> Result<(), NoMemory>
    ensures { OnOk result (text.new ≡ text.old ++ counted words.now number) }
{
    let mut digits = Buffer::new();
    text.append(words)?;
    text.append(digits.format(number).as_bytes())
}
