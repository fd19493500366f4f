// The top call of the commands for a person.
ghost use Rattle.std.specs.Prelude.{◌↔◌, IsTrue, map, string_bytes, option_copied};
ghost use Rattle.person_command.specs.PersonAsked.{IsExplorationName, IsPersonName};
ghost use Rattle.audit_batch.specs.Moment.{moment};
ghost use Rattle.person_top.specs.Ends.{EndsTold, device};
ghost use Rattle.person_top.specs.Person.{IsForPerson, PersonEnds, RequestEnds, IsBounded, IsVersion, tells};
ghost use Rattle.person_top.specs.Help.{IsHelp};

use crate::batch::batch;
use crate::explain::{Explainer, explain};
use crate::explore::{Explorer, explore};
use crate::help::help;
use crate::put::{put_no_memory, put_text};
use crate::words::asked;
use audit_batch::Auditor;
use command::WordFault;
use command_help::version;
use person_command::PersonRequest;
use std::alloc::Global;
use ub_base::{Files, Sink};

const USAGE: u8 = 10;

// A word names a command that looks further at a program or its run.
fn is_exploration_name(word: &str) -> bool
    ensures { IsTrue result ↔ IsExplorationName word.now }
{
    word == "errors" || word == "static" || word == "swap" || word == "story"
}

// A word names a command for a person.
fn is_name(word: &str) -> bool
    ensures { IsTrue result ↔ IsPersonName word.now }
{
    word == "explain"
        || word == "batch"
        || word == "help"
        || word == "version"
        || is_exploration_name(word)
}

/// Whether words are for these commands: the first one names one of them.
pub fn is_for_person(words: &[String]) -> bool
    ensures { IsTrue result ↔ IsForPerson (map string_bytes words.now) }
{
    match words.first() {
        Some(word) => is_name(word.as_str()),
        None => false,
    }
}

// Puts help on this command, or on all.
fn put_help<O: Sink>(topic: Option<&str>, out: &mut O) -> u8
    ensures { EndsTold (IsHelp (option_copied topic.entry)) (O.told out.old) (O.told out.new) (O.faults out.old) (O.faults out.new) result }
{
    let (status, text) = help(topic);
    put_text(out, text.as_bytes(), status)
}

// Does what is asked for.
fn answer_to<A: Auditor + Explainer + Explorer, F: Files, O: Sink, E: Sink>(
    alloc: Global,
    request: &PersonRequest<'_>,
    engine: &A,
    files: &mut F,
    out: &mut O,
    errors: &mut E,
) -> u8
    requires { IsBounded request.now }
    ensures { RequestEnds (tells (A.says engine.now) (A.explains engine.now) (A.explores engine.now))
        (moment (F.held files.old) (F.read_faults files.old) (F.write_faults files.old))
        (moment (F.held files.new) (F.read_faults files.new) (F.write_faults files.new))
        (device (O.told out.old) (O.faults out.old)) (device (O.told out.new) (O.faults out.new))
        (device (E.told errors.old) (E.faults errors.old)) (device (E.told errors.new) (E.faults errors.new)) result request.now }
{
    match request {
        PersonRequest::Explain(request) => explain(alloc, request, engine, files, out),
        PersonRequest::Batch(request) => batch(alloc, request, engine, files, out),
        PersonRequest::Help(topic) => put_help(*topic, out),
        PersonRequest::Version => put_text(out, version().as_bytes(), 0),
        PersonRequest::Explore(look) => explore(alloc, look, engine, files, out, errors),
    }
}

/// Does what the words ask for by a command for a person, and gives the status. What the program wrote to its standard error goes to
/// `errors`, where that is asked for.
pub fn person_main<A: Auditor + Explainer + Explorer, F: Files, O: Sink, E: Sink>(
    alloc: Global,
    words: &[String],
    engine: &A,
    files: &mut F,
    out: &mut O,
    errors: &mut E,
) -> u8
    ensures { PersonEnds (tells (A.says engine.now) (A.explains engine.now) (A.explores engine.now)) (map string_bytes words.now)
        (moment (F.held files.old) (F.read_faults files.old) (F.write_faults files.old))
        (moment (F.held files.new) (F.read_faults files.new) (F.write_faults files.new))
        (device (O.told out.old) (O.faults out.old)) (device (O.told out.new) (O.faults out.new))
        (device (E.told errors.old) (E.faults errors.old)) (device (E.told errors.new) (E.faults errors.new)) result }
{
    match asked(alloc, words) {
        Ok(request) => answer_to(alloc, &request, engine, files, out, errors),
        Err(WordFault::Usage) => put_text(out, b"usage\n", USAGE),
        Err(WordFault::NoMemory) => put_no_memory(out),
    }
}
