// From words to what they ask for by a command for a person.
ghost use Rattle.std.specs.Prelude.{◌≡◌, ◌≢◌, true, map, string_bytes, IfOk, OnOk, IsErrOf};
ghost use Rattle.clap.specs.Matches.{found_of};
ghost use Rattle.clap.specs.Simple.{HasMatchesOf};
ghost use Rattle.clap.specs.Takes.{takes};
ghost use Rattle.clap.specs.Walk.{rows_of};
ghost use Rattle.person_command.specs.PersonApp.{person_app};
ghost use Rattle.person_command.specs.PersonAsked.{person_named, IsBatch, IsExplain, IsExploration, IsExplorationName, IsPersonName, IsPersonRequest};
ghost use Rattle.person_command.specs.PersonAsked.{IsPersonTaken, IsStory, IsUncertified};

use crate::person_app::person_command;
use crate::person_request::{
    BatchRequest, ExplainRequest, Exploration, PersonRequest, StoryRequest,
};
use clap::ArgMatches;
use clap::error::ErrorKind;
use command::{
    AuditRequest, MAX_STEPS, WordFault, is_set, number_of, text_given, text_of, texts_of,
};
use std::alloc::{AllocError, Global};

fn person_matches_of<'a>(alloc: Global, words: &'a [String]) -> Result<ArgMatches<'a>, WordFault>
    ensures taken { OnOk result (IsPersonTaken (map string_bytes words.now)) }
    ensures refused { IsErrOf result WordFault.Usage → ¬ IsPersonTaken (map string_bytes words.now) }
    ensures usage { IsErrOf result WordFault.Usage → takes person_app (map string_bytes words.now) ≢ true }
    ensures matches { IfOk result (HasMatchesOf person_app (map string_bytes words.now)) }
{
    let Ok(command) = person_command(alloc) else {
        return Err(WordFault::NoMemory);
    };
    match command.try_get_matches_from(words) {
        Ok(matches) => Ok(matches),
        Err(error) => match error.kind() {
            ErrorKind::OutOfMemory => Err(WordFault::NoMemory),
            _ => Err(WordFault::Usage),
        },
    }
}

// An audit without a certificate.
fn uncertified<'a>(alloc: Global, given: &ArgMatches<'a>) -> Result<AuditRequest<'a>, AllocError>
    ensures { IfOk result (IsUncertified (rows_of (found_of given.now))) }
{
    Ok(AuditRequest {
        file: text_given(given, "FILE"),
        input: text_of(given, "input"),
        steps: number_of(given, "steps", 1, MAX_STEPS),
        is_tight: is_set(given, "tight"),
        cert: None,
        args: texts_of(alloc, given, "ARGS")?,
    })
}

fn explain_request<'a>(
    alloc: Global,
    given: &ArgMatches<'a>,
) -> Result<ExplainRequest<'a>, AllocError>
    ensures { IfOk result (IsExplain (rows_of (found_of given.now))) }
{
    let audit = uncertified(alloc, given)?;
    Ok(ExplainRequest {
        audit,
        is_json: is_set(given, "json"),
        is_text: is_set(given, "text"),
    })
}

fn batch_request<'a>(alloc: Global, given: &ArgMatches<'a>) -> Result<BatchRequest<'a>, AllocError>
    ensures { IfOk result (IsBatch (rows_of (found_of given.now))) }
{
    Ok(BatchRequest {
        names: texts_of(alloc, given, "NAME")?,
        program: text_of(given, "program"),
        is_list: is_set(given, "list"),
        steps: number_of(given, "steps", 1, MAX_STEPS),
        is_tight: is_set(given, "tight"),
    })
}

fn story_request<'a>(alloc: Global, given: &ArgMatches<'a>) -> Result<StoryRequest<'a>, AllocError>
    ensures { IfOk result (IsStory (rows_of (found_of given.now))) }
{
    let audit = uncertified(alloc, given)?;
    Ok(StoryRequest {
        audit,
        name: text_given(given, "NAME"),
    })
}

fn exploration_of<'a>(
    alloc: Global,
    name: &str,
    given: &ArgMatches<'a>,
) -> Result<Exploration<'a>, AllocError>
    requires { IsExplorationName name.now }
    ensures { IfOk result (IsExploration (name.now, rows_of (found_of given.now))) }
{
    if name == "errors" {
        return Ok(Exploration::Errors(uncertified(alloc, given)?));
    }
    if name == "static" {
        return Ok(Exploration::Static(text_given(given, "FILE")));
    }
    if name == "swap" {
        return Ok(Exploration::Swap(uncertified(alloc, given)?));
    }
    Ok(Exploration::Story(story_request(alloc, given)?))
}

fn person_request_of<'a>(
    alloc: Global,
    name: &str,
    given: &ArgMatches<'a>,
) -> Result<PersonRequest<'a>, AllocError>
    requires { IsPersonName name.now }
    ensures { IfOk result (IsPersonRequest (name.now, rows_of (found_of given.now))) }
{
    if name == "explain" {
        return Ok(PersonRequest::Explain(explain_request(alloc, given)?));
    }
    if name == "batch" {
        return Ok(PersonRequest::Batch(batch_request(alloc, given)?));
    }
    if name == "help" {
        return Ok(PersonRequest::Help(text_of(given, "COMMAND")));
    }
    if name == "version" {
        return Ok(PersonRequest::Version);
    }
    Ok(PersonRequest::Explore(exploration_of(alloc, name, given)?))
}

/// What the words ask for by a command for a person.
pub fn read_person_words<'a>(
    alloc: Global,
    words: &'a [String],
) -> Result<PersonRequest<'a>, WordFault>
    ensures asked { IfOk result (IsPersonRequest (person_named (map string_bytes words.now))) }
    ensures taken { OnOk result (IsPersonTaken (map string_bytes words.now)) }
    ensures refused { IsErrOf result WordFault.Usage → ¬ IsPersonTaken (map string_bytes words.now) }
    ensures usage { IsErrOf result WordFault.Usage → takes person_app (map string_bytes words.now) ≢ true }
{
    let matches = person_matches_of(alloc, words)?;
    let (name, given) = matches.subcommand().unwrap();
    let request = person_request_of(alloc, name, given)?;
    Ok(request)
}
