// What a certificate says of its order.
ghost use Rattle.std.specs.Prelude.{◌≡◌, true, IfOk};
ghost use Rattle.cert_check.specs.Parts.{NamesRace};

use crate::findings::Findings;
use crate::pair::{Pair, Sought};
use crate::run::{Course, Run};
use c_typed::Typed;
use certificate::Claim;
use prov_memory::Streams;
use run_machine::{Halt, Machine, Pick, canonical};
use std::alloc::Global;
use ub_base::{Bytes, Cause, Clause, NoMemory};

// What of the picks the claim needs.
#[derive(Drop)]
pub enum Witness<'p> {
    Nothing,
    Pair(Pair),
    Findings(Findings<'p>),
}

impl<'p> Witness<'p> {
    // Of a program with these full expressions.
    pub fn of(
        alloc: Global,
        roots: &'p [&'p Typed],
        claim: &Claim,
    ) -> Result<Witness<'p>, NoMemory> {
        match claim {
            Claim::Undefined {
                clause: _,
                pair: None,
            } => Ok(Witness::Nothing),
            Claim::Undefined {
                clause: _,
                pair: Some(pair),
            } => Ok(Witness::Pair(Pair::new(alloc, Sought::Race, *pair))),
            Claim::OrderDependent { event, against } => {
                let pair = (*event, *against);
                Ok(Witness::Pair(Pair::new(alloc, Sought::Quarrel, pair)))
            }
            _ => Ok(Witness::Findings(Findings::new(alloc, roots)?)),
        }
    }

    pub fn tell(&mut self, run: &Run, pick: Pick) -> Result<(), NoMemory> {
        match self {
            Witness::Nothing => Ok(()),
            Witness::Pair(pair) => pair.tell(&run.machine, pick),
            Witness::Findings(findings) => {
                let view = run.machine.view(run.frames);
                findings.tell(&view, pick, run.machine.items.items())
            }
        }
    }

    fn holds(&self, machine: &Machine) -> bool {
        match self {
            Witness::Pair(pair) => pair.holds(machine),
            _ => false,
        }
    }

    fn finds_nothing(&self) -> bool {
        match self {
            Witness::Findings(findings) => !findings.found(),
            _ => false,
        }
    }
}

// Whether the claim holds of an order that led so far. What the run wrote is taken from the machine.
pub fn claim_holds(
    machine: &mut Machine,
    witness: &Witness,
    course: Course,
    claim: &Claim,
) -> Result<bool, NoMemory>
    ensures { IfOk result (λ holds. holds ≡ true → NamesRace claim.now) }
{
    match claim {
        Claim::Clean { status, output } => Ok(
            course == Course::Ended(*status)
                && (witness.finds_nothing() && has_written(machine, output.as_slice())),
        ),
        Claim::Undefined { clause, pair } => Ok(match pair {
            None => course == Course::Raised(*clause),
            Some(_) => *clause == Clause::Unsequenced && witness.holds(machine),
        }),
        Claim::OrderDependent { .. } => Ok(witness.holds(machine)),
        Claim::OutOfSteps => Ok(course == Course::Going && witness.finds_nothing()),
        Claim::Outside { cause, number } => {
            if course == Course::Going && witness.finds_nothing() {
                passes_next(machine, *cause, *number)
            } else {
                Ok(false)
            }
        }
    }
}

// Whether the run wrote these bytes to standard output.
fn has_written(machine: &mut Machine, output: &[u8]) -> bool {
    let none = Streams::new(machine.alloc, Bytes::from_vec(Vec::new(machine.alloc)));
    let written = std::mem::replace(&mut machine.streams, none).into_output();
    written.standard.as_slice() == output
}

// Whether the next canonical pick would pass this limit with this number.
fn passes_next(machine: &mut Machine, cause: Cause, number: u64) -> Result<bool, NoMemory> {
    match canonical(machine) {
        Err(Halt::Over(passed, reached)) => Ok(passed == cause && reached == number),
        Err(Halt::NoMemory) => Err(NoMemory),
        _ => Ok(false),
    }
}
