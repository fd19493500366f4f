// Frames end.
ghost use Rattle.std.specs.Prelude.{◌≡◌, [], true, None, OnOk};
ghost use Rattle.run_control.specs.Stacked.{Closes};
ghost use Rattle.run_answers.specs.Ended.{AnswersEnd};
ghost use Rattle.run_answers.specs.Ending.{EndsFrame, HasGiven, LeavesValue, depth_without};
ghost use Rattle.run_answers.specs.Keeping.{GoesFurther};
ghost use Rattle.run_answers.specs.Rows.{KeepsMemory};

use crate::events::note;
use c_typed::Place;
use prov_memory::Value;
use run_acts::{exit_status, left};
use run_listing::law_cursor;
use run_state::{Halt, Machine};
use ub_base::Kind;

// The top frame, in which nothing is left to do, ends: its body is done in the frame below and leaves its result there.
// The end of the first frame is that of the run, with this status.
#[inline(never)]
pub fn end_frame(machine: &mut Machine) -> Result<Option<u8>, Halt>
    requires over { machine.old.work.now ≡ [] }
    ensures work { OnOk result (Closes machine.old.work.below true machine.new.work) }
    ensures answers { AnswersEnd machine.old machine.new result }
    ensures further { GoesFurther machine.old machine.new result }
    ensures memory { KeepsMemory machine.old machine.new result }
{
    law_cursor();
    close_frame(machine)
}

fn close_frame(machine: &mut Machine) -> Result<Option<u8>, Halt>
    requires over { machine.old.work.now ≡ [] }
    ensures work { OnOk result (Closes machine.old.work.below true machine.new.work) }
    ensures ends { EndsFrame machine.old machine.new result }
{
    if !machine.work.finish() {
        return Err(Halt::NoMemory);
    }
    let value = result_of(machine);
    let node = machine.top.node;
    let Some(open) = machine.below.pop() else {
        return Ok(Some(exit_status(&value)));
    };
    machine.top = open;
    machine.keep(node, value);
    note(
        machine,
        Place {
            node,
            kind: Kind::Body,
        },
    )?;
    Ok(None)
}

// What the top frame leaves.
fn result_of(machine: &mut Machine) -> Value
    ensures { HasGiven machine.old result machine.new }
{
    let otherwise = left_without(machine);
    machine.left.take().unwrap_or(otherwise)
}

// What it leaves where it has no result. A function that ends isn't open any more.
fn left_without(machine: &mut Machine) -> Value
    ensures rest { machine.new ≡ record machine.old { depth = depth_without machine.old.top.function machine.old.depth } }
    ensures value { LeavesValue machine.old.program.now machine.old.top.function None result }
{
    match machine.top.function {
        Some(function) => {
            machine.depth = machine.depth.saturating_sub(1);
            left(machine.program, function)
        }
        None => Value::Nothing,
    }
}
