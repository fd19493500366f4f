// The runs that names stand for.
ghost use Rattle.std.specs.Prelude.{◌≡◌, ◌++◌, map, filter, string_bytes, IfOk, OnOk, option_copied};
ghost use Rattle.std.specs.Str.Lines.{lines};
ghost use Rattle.audit_batch.specs.Runs.{is_name, names_in, names_of, run_for};

use crate::audit::Run;
use std::alloc::{AllocError, Global};

// The run of a name: of the program, if there is one, on the input of this name, or else of the program of this name.
fn run_of<'a>(program: Option<&'a str>, name: &'a str) -> Run<'a>
    ensures { names_of result ≡ run_for (option_copied program.entry) name.now }
{
    match program {
        Some(program) => Run {
            program,
            input: Some(name),
        },
        None => Run {
            program: name,
            input: None,
        },
    }
}

/// Adds the runs of these names.
pub fn named<'a>(
    runs: &mut Vec<Run<'a>>,
    program: Option<&'a str>,
    names: &'a [String],
) -> Result<(), AllocError>
    ensures { OnOk result (map names_of runs.new.items ≡ map names_of runs.old.items ++ map (run_for (option_copied program.entry))
        (map string_bytes names.now)) }
{
    for name in names {
        runs.push(run_of(program, name.as_str()))?;
    }
    Ok(())
}

// The lines of a list.
fn lines_of<'a>(alloc: Global, list: &'a str) -> Result<Vec<&'a str>, AllocError>
    ensures { IfOk result (λ found. map (λ line. line.now) found.items ≡ lines list.now) }
{
    list.lines().collect(alloc)
}

// Adds the runs of the names among these lines.
fn named_lines<'a>(
    runs: &mut Vec<Run<'a>>,
    program: Option<&'a str>,
    lines: &[&'a str],
) -> Result<(), AllocError>
    ensures { OnOk result (map names_of runs.new.items ≡ map names_of runs.old.items ++ map (run_for (option_copied program.entry))
        (filter is_name (map (λ line. line.now) lines.now))) }
{
    for line in lines {
        if !line.is_empty() {
            runs.push(run_of(program, *line))?;
        }
    }
    Ok(())
}

/// Adds the runs of the names that stand in a list, one a line. Empty lines are left out.
pub fn listed<'a>(
    alloc: Global,
    runs: &mut Vec<Run<'a>>,
    program: Option<&'a str>,
    list: &'a str,
) -> Result<(), AllocError>
    ensures { OnOk result (map names_of runs.new.items ≡ map names_of runs.old.items ++ map (run_for (option_copied program.entry)) (names_in list.now)) }
{
    let lines = lines_of(alloc, list)?;
    named_lines(runs, program, &lines)
}
