// From words to a request.
ghost use Rattle.std.specs.Prelude.{◌≡◌, ◌≢◌, ◌⊎◌, true, map, string_bytes, IfOk, OnOk, IsErrOf, option_copied, unwrap_or, codes, []};
ghost use Rattle.clap.specs.Matches.{found_of};
ghost use Rattle.clap.specs.Simple.{HasMatchesOf};
ghost use Rattle.clap.specs.Takes.{takes};
ghost use Rattle.clap.specs.Walk.{rows_of, first_of, one_of, all_of};
ghost use Rattle.command.specs.App.{cub_app};
ghost use Rattle.command.specs.Asked.{named, text_given, texts_given, is_set, Spells, IsAudit, IsCheck, IsName, IsSelf, IsRequest, IsTaken, is_given_as};
ghost use Rattle.command.specs.Asked.{displaces, overwrites, words_overwrite, AreFit};

use crate::app::cub_command;
use crate::request::{AuditRequest, CheckRequest, Request, SelfRequest, WordFault};
use clap::ArgMatches;
use clap::error::ErrorKind;
use std::alloc::{AllocError, Global};

/// The most steps that are asked for.
pub const MAX_STEPS: u64 = 100000000;

const MAX_SEED: u64 = 65536;

const MAX_LINES: u64 = 20000;

fn matches_of<'a>(alloc: Global, words: &'a [String]) -> Result<ArgMatches<'a>, WordFault>
    ensures taken { OnOk result (IsTaken (map string_bytes words.now)) }
    ensures refused { IsErrOf result WordFault.Usage → ¬ IsTaken (map string_bytes words.now) }
    ensures usage { IsErrOf result WordFault.Usage → takes cub_app (map string_bytes words.now) ≢ true }
    ensures matches { IfOk result (HasMatchesOf cub_app (map string_bytes words.now)) }
{
    let Ok(command) = cub_command(alloc) else {
        return Err(WordFault::NoMemory);
    };
    match command.try_get_matches_from(words) {
        Ok(matches) => Ok(matches),
        Err(error) => match error.kind() {
            ErrorKind::OutOfMemory => Err(WordFault::NoMemory),
            _ => Err(WordFault::Usage),
        },
    }
}

/// The text of an argument that has one.
pub fn text_of<'a>(matches: &ArgMatches<'a>, id: &str) -> Option<&'a str>
    ensures { option_copied result ≡ first_of id.now (rows_of (found_of matches.now)) }
{
    matches.get_str(id)
}

/// The text of an argument; the empty one where it has none.
pub fn text_given<'a>(matches: &ArgMatches<'a>, id: &str) -> &'a str
    ensures { result.now ≡ text_given id.now (rows_of (found_of matches.now)) }
{
    match text_of(matches, id) {
        Some(text) => text,
        None => "",
    }
}

/// Whether a flag is set.
pub fn is_set(matches: &ArgMatches<'_>, id: &str) -> bool
    ensures { result ≡ is_set (first_of id.now (rows_of (found_of matches.now))) }
{
    match text_of(matches, id) {
        Some(text) => text == "true",
        None => false,
    }
}

/// The number that an argument spells, kept between these two; the least one where it has none.
pub fn number_of(matches: &ArgMatches<'_>, id: &str, least: u64, most: u64) -> u64
    ensures { Spells least most (one_of id.now (rows_of (found_of matches.now))) result }
{
    matches.get_one::<u64>(id).unwrap_or(0).min(most).max(least)
}

fn copies(alloc: Global, texts: &[&str]) -> Result<Vec<String>, AllocError>
    ensures { IfOk result (λ copies. map string_bytes copies.items ≡ map (λ text. text.now) texts.now) }
{
    let mut copies = Vec::new(alloc);
    for text in texts {
        copies.push(String::from_str(alloc, text)?)?;
    }
    Ok(copies)
}

/// The texts of an argument.
pub fn texts_of(
    alloc: Global,
    matches: &ArgMatches<'_>,
    id: &str,
) -> Result<Vec<String>, AllocError>
    ensures { IfOk result (λ texts. map string_bytes texts.items ≡ texts_given id.now (rows_of (found_of matches.now))) }
{
    match matches.get_strs(id) {
        Some(texts) => copies(alloc, texts),
        None => Ok(Vec::new(alloc)),
    }
}

fn audit_request<'a>(alloc: Global, given: &ArgMatches<'a>) -> Result<AuditRequest<'a>, AllocError>
    ensures { IfOk result (IsAudit (rows_of (found_of given.now))) }
{
    Ok(AuditRequest {
        file: text_given(given, "FILE"),
        input: text_of(given, "input"),
        steps: number_of(given, "steps", 1, MAX_STEPS),
        is_tight: is_set(given, "tight"),
        cert: text_of(given, "cert"),
        args: texts_of(alloc, given, "ARGS")?,
    })
}

fn check_request<'a>(alloc: Global, given: &ArgMatches<'a>) -> Result<CheckRequest<'a>, AllocError>
    ensures { IfOk result (IsCheck (rows_of (found_of given.now))) }
{
    Ok(CheckRequest {
        file: text_given(given, "FILE"),
        cert: text_given(given, "CERT"),
        input: text_of(given, "input"),
        args: texts_of(alloc, given, "ARGS")?,
    })
}

fn self_request(given: &ArgMatches<'_>) -> SelfRequest
    ensures { IsSelf (rows_of (found_of given.now)) result }
{
    SelfRequest {
        seed: number_of(given, "SEED", 0, MAX_SEED),
        lines: number_of(given, "N", 1, MAX_LINES),
    }
}

fn request_of<'a>(
    alloc: Global,
    name: &str,
    given: &ArgMatches<'a>,
) -> Result<Request<'a>, AllocError>
    requires { IsName name.now }
    ensures { IfOk result (IsRequest (name.now, rows_of (found_of given.now))) }
{
    if name == "audit" {
        return Ok(Request::Audit(audit_request(alloc, given)?));
    }
    if name == "check" {
        return Ok(Request::Check(check_request(alloc, given)?));
    }
    Ok(Request::SelfAudit(self_request(given)))
}

// Whether the name is that of an argument that was given.
fn is_given_as(name: &str, given: Option<&str>) -> bool
    ensures { result ≡ is_given_as name.now (option_copied given.entry) }
{
    match given {
        Some(given) => name == given,
        None => false,
    }
}

// Whether the certificate would be kept in the place of what is read.
fn displaces(cert: Option<&str>, file: &str, input: Option<&str>) -> bool
    ensures { result ≡ displaces (option_copied cert.entry) file.now (option_copied input.entry) }
{
    match cert {
        Some(cert) => cert == "-" || cert == file || is_given_as(cert, input),
        None => false,
    }
}

/// Whether the certificate that is asked for would be kept in the place of the source or the input.
pub fn overwrites(request: &Request<'_>) -> bool
    ensures { result ≡ overwrites request.now }
{
    match request {
        Request::Audit(request) => displaces(request.cert, request.file, request.input),
        Request::Check(_) | Request::SelfAudit(_) => false,
    }
}

/// What the words ask for. Words by which a certificate would be kept in the place of what is read ask for nothing.
pub fn read_words<'a>(alloc: Global, words: &'a [String]) -> Result<Request<'a>, WordFault>
    ensures asked { IfOk result (IsRequest (named (map string_bytes words.now))) }
    ensures fit { OnOk result (AreFit (map string_bytes words.now)) }
    ensures refused { IsErrOf result WordFault.Usage → ¬ AreFit (map string_bytes words.now) }
    ensures usage { IsErrOf result WordFault.Usage → (takes cub_app (map string_bytes words.now) ≢ true)
        ⊎ (words_overwrite (named (map string_bytes words.now)) ≡ true) }
{
    let matches = matches_of(alloc, words)?;
    let (name, given) = matches.subcommand().unwrap();
    let request = request_of(alloc, name, given)?;
    if overwrites(&request) {
        return Err(WordFault::Usage);
    }
    Ok(request)
}
