//! `cub audit FILE` follows one run of a C program, and says whether it is undefined; `cub explain FILE` says why.
#![tactic(auto)]

mod progress;

use audit_engine::Engine;
use audit_top::audit_main;
use command_help::command_lines;
use host_files::{HostFiles, HostSink};
use person_top::{is_for_person, person_main};
use progress::HostProgress;
use std::io::{ErrorKind, IsTerminal};
use std::process::ExitCode;
use std::rt::Clock;
use std::{env, fs, rt};
use ub_base::{Failed, NoMemory, put_all};

const USAGE: u8 = 10;

const WRITE_FAULT: u8 = 21;

const NO_MEMORY: u8 = 30;

// The command line without the program's name. Where a word isn't UTF-8 there are none.
fn words<R: rt::Env + AllocGlobal>(rt: &R) -> Result<Vec<String>, NoMemory> {
    let mut words = Vec::new(rt.alloc());
    let args = match env::args(rt) {
        Ok(args) => args,
        Err(fault) if fault.kind() == ErrorKind::OutOfMemory => return Err(NoMemory),
        Err(_) => return Ok(words),
    };
    for word in args.skip(1) {
        words.push(word)?;
    }
    Ok(words)
}

// Does what the words ask for. What a program wrote to its standard error goes to a stream of its own; where that is a terminal, runs are told
// of there.
fn answered<R: fs::Files + Input + Print + Eprint + Clock + AllocGlobal, E: Print + IsTerminal>(
    rt: &R,
    stream: &E,
    words: &[String],
) -> u8 {
    let mut files = HostFiles::new(rt);
    let mut out = HostSink::new(rt);
    let mut errors = HostSink::new(stream);
    if is_for_person(words) {
        let engine = Engine {
            progress: HostProgress::new(rt, stream.is_terminal()),
        };
        person_main(
            rt.alloc(),
            words,
            &engine,
            &mut files,
            &mut out,
            &mut errors,
        )
    } else {
        audit_main(rt.alloc(), words, &mut files, &mut out)
    }
}

// Tells a person which words there are. Where standard error can't be written nothing is told.
fn tell_commands<R: Eprint>(rt: &R) {
    let _ = eprint!(rt; "{}", command_lines());
}

fn main(rt: HostRuntime) -> ExitCode {
    let stream = rt.stderr();
    let status = match words(&rt) {
        Ok(words) => answered(&rt, &stream, &words),
        Err(NoMemory) => match put_all(&mut HostSink::new(&rt), b"no memory\n") {
            Ok(()) => NO_MEMORY,
            Err(Failed) => WRITE_FAULT,
        },
    };
    if status == USAGE {
        tell_commands(&rt);
    }
    ExitCode::from(status)
}
