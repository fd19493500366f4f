// Lists of names.
ghost use Rattle.std.specs.Prelude.{◌≡◌, ◌≤◌, ◌++◌, ◌∷◌, [], ℕ, List, map, string_bytes, IfOk, IfErr, OnOk, IsErrOf, option_copied};
ghost use Rattle.std.specs.Str.{IsUtf8};
ghost use Rattle.audit_batch.specs.Runs.{names_in, names_of, run_for};
ghost use Rattle.audit_sources.specs.Fetching.{IsWhole, Misses, Stops};
ghost use Rattle.person_top.specs.Batch.{AreLists, AreUtf8, list_file, names_in_all};

use audit_batch::{Run, listed};
use audit_sources::{FetchFault, Role, fetch_file};
use std::alloc::Global;
use std::str;
use ub_base::{Bytes, Files};

/// Why the names in lists aren't known: one of the lists isn't UTF-8, or memory ran out.
#[derive(Clone, Copy)]
pub enum ListFault {
    NotText,
    NoMemory,
}

// Fetches the list of this name, and adds its text.
fn fetch_list<F: Files>(
    alloc: Global,
    name: &str,
    texts: &mut Vec<Bytes>,
    files: &mut F,
) -> Result<(), FetchFault>
    ensures list { OnOk result ((text : List ℕ) × IsWhole (F.held files.old) (list_file name.now) text × (texts.new.items ≡ texts.old.items ++ text ∷ [])) }
    ensures fault { IfErr result (Misses (F.held files.old) (F.read_faults files.old) (F.read_faults files.new) (list_file name.now)) }
    ensures held { F.held files.new ≡ F.held files.old }
    ensures later { F.read_faults files.old ≤ F.read_faults files.new }
{
    let text = fetch_file(alloc, Role::Input, name, files)?;
    match texts.push(text) {
        Ok(()) => Ok(()),
        Err(_) => Err(FetchFault::NoMemory),
    }
}

/// The texts of the lists of these names.
pub fn fetch_lists<F: Files>(
    alloc: Global,
    names: &[String],
    files: &mut F,
) -> Result<Vec<Bytes>, FetchFault>
    ensures lists { IfOk result (λ texts. AreLists (F.held files.old) (map string_bytes names.now) texts.items) }
    ensures fault { IfErr result (Stops (F.held files.old) (F.read_faults files.old) (F.read_faults files.new) (map list_file (map string_bytes names.now))) }
    ensures held { F.held files.new ≡ F.held files.old }
{
    let mut texts = Vec::new(alloc);
    for name in names {
        match fetch_list(alloc, name.as_str(), &mut texts, files) {
            Ok(()) => {}
            Err(fault) => return Err(fault),
        }
    }
    Ok(texts)
}

// Adds the runs of the names in this list.
fn add_list<'a>(
    alloc: Global,
    runs: &mut Vec<Run<'a>>,
    program: Option<&'a str>,
    list: &'a Bytes,
) -> Result<(), ListFault>
    ensures text { OnOk result (IsUtf8 list.now) }
    ensures runs { OnOk result (map names_of runs.new.items ≡ map names_of runs.old.items ++ map (run_for (option_copied program.entry)) (names_in list.now)) }
    ensures wrong { IsErrOf result ListFault.NotText → ¬ IsUtf8 list.now }
{
    let Ok(text) = str::from_utf8(list.as_slice()) else {
        return Err(ListFault::NotText);
    };
    match listed(alloc, runs, program, text) {
        Ok(()) => Ok(()),
        Err(_) => Err(ListFault::NoMemory),
    }
}

/// The runs of the names in lists.
pub fn listed_runs<'a>(
    alloc: Global,
    program: Option<&'a str>,
    lists: &'a [Bytes],
) -> Result<Vec<Run<'a>>, ListFault>
    ensures runs { IfOk result (λ runs. map names_of runs.items ≡ map (run_for (option_copied program.entry)) (names_in_all lists.now)) }
    ensures wrong { IsErrOf result ListFault.NotText → ¬ AreUtf8 lists.now }
{
    let mut runs = Vec::new(alloc);
    for list in lists {
        match add_list(alloc, &mut runs, program, list) {
            Ok(()) => {}
            Err(fault) => return Err(fault),
        }
    }
    Ok(runs)
}
