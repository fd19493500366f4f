//! `bare_run FILE PICKS` follows a run of a C program for so many picks and tells nothing of them: what a pick costs without an audit.
#![tactic(auto)]

ghost use Rattle.std.specs.Prelude.{◌≤◌, ◌^◌, length, IfSome};

mod idle;

use addr_map::Mode;
use audit_verdict::program_of;
use core_run::run;
use elaborate::elaborate;
use host_files::HostFiles;
use idle::Idle;
use std::alloc::Global;
use std::process::ExitCode;
use std::{env, fs, rt};
use ub_base::{Bytes, Fetched, Files, NoMemory};

// The longest source in bytes, and the most picks (own).
const MOST_BYTES: usize = 1 << 20;

const MOST_PICKS: u64 = 100_000_000;

const USAGE: u8 = 10;

// The command line without the program's name.
fn words<R: rt::Env + AllocGlobal>(rt: &R) -> Option<Vec<String>> {
    let mut words = Vec::new(rt.alloc());
    for word in env::args(rt).ok()?.skip(1) {
        words.push(word).ok()?;
    }
    Some(words)
}

// The text of a file.
fn text_of<R: fs::Files + Input + AllocGlobal>(rt: &R, name: &str) -> Option<Bytes>
    ensures { IfSome result (λ text. length text ≤ 2 ^ 20) }
{
    let mut files = HostFiles::new(rt);
    match files.fetch(rt.alloc(), name, MOST_BYTES) {
        Ok(Fetched::Whole(text)) => Some(text),
        _ => None,
    }
}

// Follows the run of the program of this text, without input and words of its own.
fn follow(alloc: Global, text: &[u8], picks: u64) -> Option<()>
    requires text { length text.now ≤ 2 ^ 20 }
    requires picks { picks ≤ 100000000 }
{
    let program = program_of(alloc, text).ok()?;
    let core = elaborate(alloc, &program).ok()?;
    let mut watch = Idle;
    let _ = run(alloc, &core, &[], &[], Mode::Spaced, picks, &mut watch).ok()?;
    Some(())
}

// Does what the words ask for.
fn answered<R: rt::Env + fs::Files + Input + AllocGlobal>(rt: &R) -> Option<()> {
    let words = words(rt)?;
    let [name, picks] = words.as_slice() else {
        return None;
    };
    let picks = picks.as_str().parse::<u64>().ok()?.min(MOST_PICKS);
    let text = text_of(rt, name.as_str())?;
    follow(rt.alloc(), text.as_slice(), picks)
}

fn main(rt: HostRuntime) -> ExitCode {
    match answered(&rt) {
        Some(()) => ExitCode::from(0),
        None => ExitCode::from(USAGE),
    }
}
