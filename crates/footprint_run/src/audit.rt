// The audit of a run.
ghost use Rattle.std.specs.Prelude.{◌≡◌, ◌≤◌, length, IfOk, List, Some};
ghost use Rattle.core_run.specs.Calls.{AnswersEnd, StartedBy, picks_in};
ghost use Rattle.core_run.specs.Ends as ends;
ghost use Rattle.c_typed.specs.Tree.{Tree};
ghost use Rattle.elaborate.specs.Expressions.{program_trees};
ghost use Rattle.conflict_detector.specs.Apart.{AreApart, SeenApart};
ghost use Rattle.footprint_run.specs.Apart.{StandsApart};
ghost use Rattle.footprint_run.specs.Findings.{picks_of, IsOutOfSteps, ItemsConflict, IsConflict, Tells};
ghost use Rattle.footprint_run.specs.Record.{HasSeen};

use crate::finding::{Audit, Finding, Race};
use crate::progress::{Progress, ToldWatcher};
use crate::watcher::Watcher;
use addr_map::Mode;
use conflict_detector::Seen;
use core_ir::CoreProgram;
use core_run::{Ran, RunState, run};
use elaborate::roots_of;
use std::alloc::Global;
use ub_base::{Clause, NoMemory};

/// The first finding of a program's run in canonical order on this input, with these arguments behind the program's name,
/// its objects placed in this mode, along at most `budget` picks. A raised clause goes before a race at one pick, a race
/// before a dependence on the order, and then the least pair of events. Needs what `run` needs.
pub fn audit_run<P: Progress>(
    alloc: Global,
    p: &CoreProgram,
    input: &[u8],
    args: &[String],
    mode: Mode,
    budget: u64,
    progress: &mut P,
) -> Result<Audit, NoMemory>
    requires { budget ≤ 100000000 }
    ensures within { IfOk result (λ a. picks_of a.finding ≤ budget) }
    ensures out_of_steps { IfOk result (λ a. IsOutOfSteps a.finding → picks_of a.finding ≡ budget) }
    ensures frames { IfOk result (λ a. length a.frames ≤ picks_of a.finding) }
    ensures items { IfOk result (λ a. ItemsConflict a.finding) }

    // The two events of a race or of a dependence on the order stand in one full expression of the program.
    ensures apart { IfOk result (λ a. StandsApart (program_trees p.now.program.now) a.finding) }

    // What ended the run is what is found.
    ensures tells { IfOk result (λ a. Tells a.ran a.finding) }

    // The watch stopped the run exactly at its last call, or never.
    ensures answers { IfOk result (λ a. AnswersEnd a.ran (Some a.calls)) }
    ensures told { IfOk result (λ a. picks_in a.calls ≡ ends.told_of a.ran) }
    ensures started { IfOk result (λ a. StartedBy (Some a.calls) a.frames) }
{
    let roots = roots_of(alloc, p.program)?;
    let watcher = Watcher::new(alloc, roots.as_slice())?;
    progress.begin(budget);
    let mut told = ToldWatcher {
        watcher,
        picks: 0,
        progress,
    };
    let ended = run(alloc, p, input, args, mode, budget, &mut told);
    let ToldWatcher {
        watcher,
        progress,
        ..
    } = told;
    progress.end();
    let state = ended?;
    let RunState {
        ran,
        output,
        errors,
        map,
        frames,
    } = state;
    let (calls, seen) = watcher.into_parts();
    Ok(Audit {
        finding: finding_of(ran, seen),
        ran,
        calls,
        output,
        errors,
        map,
        frames,
    })
}

// What is found where a run ended so. A watch that stopped a run has seen a conflict.
fn finding_of(ran: Ran, seen: Option<Seen>) -> Finding
    requires { HasSeen ran seen }
    ensures picks { picks_of result ≡ ends.picks_of ran }
    ensures out_of_steps { IsOutOfSteps result → ends.IsOutOfSteps ran }
    ensures items { ItemsConflict result }
    ensures apart { (trees : List Tree) → SeenApart trees seen → StandsApart trees result }
    ensures tells { Tells ran result }
{
    match ran {
        Ran::Ended { status, picks } => Finding::Clean { status, picks },
        Ran::Raised {
            event,
            line,
            clause,
            picks,
        } => Finding::Undefined {
            clause,
            event,
            line,
            race: None,
            picks,
        },
        Ran::Stopped { picks } => finding_at(seen.unwrap(), picks),
        Ran::OutOfSteps { picks } => Finding::OutOfSteps { picks },
        Ran::Outside {
            cause,
            number,
            picks,
        } => Finding::Outside {
            cause,
            number,
            picks,
        },
    }
}

fn finding_at(seen: Seen, picks: u64) -> Finding
    ensures picks { picks_of result ≡ picks }
    ensures out_of_steps { ¬ IsOutOfSteps result }
    ensures items { ItemsConflict result }
    ensures apart { (trees : List Tree) → AreApart trees seen.found.race seen.found.event seen.found.against → StandsApart trees result }
    ensures conflict { IsConflict result }
{
    let found = seen.found;
    if found.race {
        Finding::Undefined {
            clause: Clause::Unsequenced,
            event: found.event,
            line: seen.line,
            race: Some(Race {
                against: found.against,
                against_line: seen.against_line,
                items: found.items,
            }),
            picks,
        }
    } else {
        Finding::OrderDependent {
            event: found.event,
            line: seen.line,
            against: found.against,
            against_line: seen.against_line,
            items: found.items,
            picks,
        }
    }
}
