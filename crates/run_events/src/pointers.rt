// The acts that make or measure pointers: moves, members, distances, parts of values (6.5.6, 6.5.2.3).
ghost use Rattle.std.specs.Prelude.{◌<◌, OnErr};
ghost use Rattle.mem_objects.specs.Keeps.{RowsStay};
ghost use Rattle.run_layout.specs.declared.steps.Act.TheVariants as acts;
ghost use Rattle.run_answers.specs.Acts.{AreGiven};
ghost use Rattle.run_answers.specs.Performs.{CanAct, ChangesOnly, Does};

use c_typed::Access;
use run_acts::{distance, member, moved, part};
use run_answers::{Fault, Outcome};
use run_layout::Operand;
use run_state::Machine;
use ub_base::Event;

#[inline(never)]
pub fn move_by(
    machine: &mut Machine,
    size: u64,
    subtract: bool,
    pointer: &Operand,
    index: &Operand,
    event: Event,
) -> Result<Outcome, Fault>
    ensures exact { CanAct machine.old → AreGiven machine.old event (acts.Move size subtract pointer.now index.now) →
        Does machine.old machine.new event (acts.Move size subtract pointer.now index.now) result }
    ensures changes { ChangesOnly machine.old machine.new event.node (acts.Move size subtract pointer.now index.now) }
    ensures rows { OnErr result (RowsStay machine.old.memory.rows machine.new.memory.rows) }
{
    let pointer = machine.pointer(*pointer);
    let index = machine.integer(*index);
    let t = &mut machine.items;
    let moved = moved(&mut machine.memory, pointer, size, subtract, index, t)?;
    machine.keep(event.node, moved.value());
    Ok(Outcome::Done)
}

#[inline(never)]
pub fn member_of(
    machine: &mut Machine,
    offset: u64,
    pointer: &Operand,
    event: Event,
) -> Result<Outcome, Fault>
    ensures exact { CanAct machine.old → AreGiven machine.old event (acts.Member offset pointer.now) →
        Does machine.old machine.new event (acts.Member offset pointer.now) result }
    ensures changes { ChangesOnly machine.old machine.new event.node (acts.Member offset pointer.now) }
    ensures rows { OnErr result (RowsStay machine.old.memory.rows machine.new.memory.rows) }
{
    let pointer = machine.pointer(*pointer);
    let t = &mut machine.items;
    let member = member(&mut machine.memory, pointer, offset, t)?;
    machine.keep(event.node, member.value());
    Ok(Outcome::Done)
}

#[inline(never)]
pub fn distance_between(
    machine: &mut Machine,
    size: u64,
    left: &Operand,
    right: &Operand,
    event: Event,
) -> Result<Outcome, Fault>
    ensures exact { CanAct machine.old → AreGiven machine.old event (acts.Distance size left.now right.now) →
        Does machine.old machine.new event (acts.Distance size left.now right.now) result }
    ensures changes { ChangesOnly machine.old machine.new event.node (acts.Distance size left.now right.now) }
    ensures rows { OnErr result (RowsStay machine.old.memory.rows machine.new.memory.rows) }
{
    let left = machine.pointer(*left);
    let right = machine.pointer(*right);
    let t = &mut machine.items;
    let value = distance(&mut machine.memory, left, right, size, t)?;
    machine.keep(event.node, value);
    Ok(Outcome::Done)
}

// A member of a structure or union that stands nowhere.
#[inline(never)]
pub fn part_of(
    machine: &mut Machine,
    offset: u64,
    access: &Access,
    whole: &Operand,
    event: Event,
) -> Result<Outcome, Fault>
    ensures exact { CanAct machine.old → AreGiven machine.old event (acts.Part offset access.now whole.now) →
        Does machine.old machine.new event (acts.Part offset access.now whole.now) result }
    ensures changes { ChangesOnly machine.old machine.new event.node (acts.Part offset access.now whole.now) }
    ensures rows { OnErr result (RowsStay machine.old.memory.rows machine.new.memory.rows) }
{
    let alloc = machine.alloc;
    let whole = machine.value(*whole)?;
    let t = &mut machine.items;
    let value = part(
        alloc,
        &mut machine.memory,
        *access,
        event,
        &whole,
        offset,
        t,
    )?;
    machine.keep(event.node, value);
    Ok(Outcome::Done)
}
