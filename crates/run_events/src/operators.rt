// The acts of arithmetic, conversions and comparisons (6.3, 6.5.3 to 6.5.9).
ghost use Rattle.std.specs.Prelude.{◌≡◌, ◌<◌, true, false, OnErr};
ghost use Rattle.c_model.specs.Nodes.{in_order};
ghost use Rattle.mem_objects.specs.Keeps.{RowsStay};
ghost use Rattle.c_typed.specs.declared.tree.Conversion.TheVariants as conversions;
ghost use Rattle.run_layout.specs.declared.steps.Act.TheVariants as acts;
ghost use Rattle.run_answers.specs.Acts.{AreGiven};
ghost use Rattle.run_answers.specs.Performs.{CanAct, ChangesOnly, Does};

use crate::acts::number;
use c_typed::{Conversion, EqOp, RelOp, UnOp};
use c_types::{BinOp, IntKind};
use prov_memory::Value;
use run_acts::{binary, convert, equal, related, unary};
use run_answers::{Fault, Outcome};
use run_layout::Operand;
use run_state::Machine;
use ub_base::Event;

#[inline(never)]
pub fn arithmetic(
    machine: &mut Machine,
    op: BinOp,
    kind: IntKind,
    left: &Operand,
    right: &Operand,
    event: Event,
) -> Result<Outcome, Fault>
    ensures exact { CanAct machine.old → AreGiven machine.old event (acts.Binary op kind left.now right.now) →
        Does machine.old machine.new event (acts.Binary op kind left.now right.now) result }
    ensures changes { ChangesOnly machine.old machine.new event.node (acts.Binary op kind left.now right.now) }
    ensures rows { OnErr result (RowsStay machine.old.memory.rows machine.new.memory.rows) }
{
    let left = machine.integer(*left);
    let right = machine.integer(*right);
    let number = binary(op, kind, left, right)?;
    machine.keep(event.node, Value::Int(number));
    Ok(Outcome::Done)
}

// The value of a conversion (6.3). Most are between integers, whose value is put into the room without a copy of what other values have.
#[inline(always)]
pub fn converted(
    machine: &mut Machine,
    conversion: Conversion,
    operand: &Operand,
    event: Event,
) -> Result<Outcome, Fault>
    ensures exact { CanAct machine.old → AreGiven machine.old event (acts.Convert conversion operand.now) →
        Does machine.old machine.new event (acts.Convert conversion operand.now) result }
    ensures changes { ChangesOnly machine.old machine.new event.node (acts.Convert conversion operand.now) }
    ensures rows { OnErr result (RowsStay machine.old.memory.rows machine.new.memory.rows) }
{
    match conversion {
        Conversion::Integer(kind) => converted_integer(machine, kind, operand, event),
        _ => converted_value(machine, conversion, operand, event),
    }
}

#[inline(never)]
fn converted_integer(
    machine: &mut Machine,
    kind: IntKind,
    operand: &Operand,
    event: Event,
) -> Result<Outcome, Fault>
    ensures exact { CanAct machine.old → AreGiven machine.old event (acts.Convert (conversions.Integer kind) operand.now) →
        Does machine.old machine.new event (acts.Convert (conversions.Integer kind) operand.now) result }
    ensures changes { ChangesOnly machine.old machine.new event.node (acts.Convert (conversions.Integer kind) operand.now) }
    ensures rows { OnErr result (RowsStay machine.old.memory.rows machine.new.memory.rows) }
{
    let operand = machine.integer(*operand);
    let number = c_arith::convert(kind, operand);
    machine.keep(event.node, Value::Int(number));
    Ok(Outcome::Done)
}

#[inline(never)]
fn converted_value(
    machine: &mut Machine,
    conversion: Conversion,
    operand: &Operand,
    event: Event,
) -> Result<Outcome, Fault>
    ensures exact { CanAct machine.old → AreGiven machine.old event (acts.Convert conversion operand.now) →
        Does machine.old machine.new event (acts.Convert conversion operand.now) result }
    ensures changes { ChangesOnly machine.old machine.new event.node (acts.Convert conversion operand.now) }
    ensures rows { OnErr result (RowsStay machine.old.memory.rows machine.new.memory.rows) }
{
    let operand = machine.value(*operand)?;
    let t = &mut machine.items;
    let value = convert(&mut machine.memory, conversion, event, &operand, t)?;
    machine.keep(event.node, value);
    Ok(Outcome::Done)
}

#[inline(never)]
pub fn unary_value(
    machine: &mut Machine,
    op: UnOp,
    operand: &Operand,
    event: Event,
) -> Result<Outcome, Fault>
    ensures exact { CanAct machine.old → AreGiven machine.old event (acts.Unary op operand.now) →
        Does machine.old machine.new event (acts.Unary op operand.now) result }
    ensures changes { ChangesOnly machine.old machine.new event.node (acts.Unary op operand.now) }
    ensures rows { OnErr result (RowsStay machine.old.memory.rows machine.new.memory.rows) }
{
    let operand = machine.value(*operand)?;
    let value = unary(op, &operand)?;
    machine.keep(event.node, value);
    Ok(Outcome::Done)
}

// The value of a relational operator (6.5.8), on two pointers or two integers.
#[inline(always)]
pub fn relation(
    machine: &mut Machine,
    op: RelOp,
    pointers: bool,
    left: &Operand,
    right: &Operand,
    event: Event,
) -> Result<Outcome, Fault>
    ensures exact { CanAct machine.old → AreGiven machine.old event (acts.Related op pointers left.now right.now) →
        Does machine.old machine.new event (acts.Related op pointers left.now right.now) result }
    ensures changes { ChangesOnly machine.old machine.new event.node (acts.Related op pointers left.now right.now) }
    ensures rows { OnErr result (RowsStay machine.old.memory.rows machine.new.memory.rows) }
{
    if pointers {
        pointer_relation(machine, op, left, right, event)
    } else {
        integer_relation(machine, op, left, right, event)
    }
}

#[inline(never)]
fn pointer_relation(
    machine: &mut Machine,
    op: RelOp,
    left: &Operand,
    right: &Operand,
    event: Event,
) -> Result<Outcome, Fault>
    ensures exact { CanAct machine.old → AreGiven machine.old event (acts.Related op true left.now right.now) →
        Does machine.old machine.new event (acts.Related op true left.now right.now) result }
    ensures changes { ChangesOnly machine.old machine.new event.node (acts.Related op true left.now right.now) }
    ensures rows { OnErr result (RowsStay machine.old.memory.rows machine.new.memory.rows) }
{
    let left = machine.pointer(*left);
    let right = machine.pointer(*right);
    let first = left.value();
    let second = right.value();
    let t = &mut machine.items;
    let value = related(&mut machine.memory, op, true, &first, &second, t)?;
    machine.keep(event.node, value);
    Ok(Outcome::Done)
}

#[inline(never)]
fn integer_relation(
    machine: &mut Machine,
    op: RelOp,
    left: &Operand,
    right: &Operand,
    event: Event,
) -> Result<Outcome, Fault>
    ensures exact { CanAct machine.old → AreGiven machine.old event (acts.Related op false left.now right.now) →
        Does machine.old machine.new event (acts.Related op false left.now right.now) result }
    ensures changes { ChangesOnly machine.old machine.new event.node (acts.Related op false left.now right.now) }
    ensures rows { OnErr result (RowsStay machine.old.memory.rows machine.new.memory.rows) }
{
    let left = machine.integer(*left);
    let right = machine.integer(*right);
    let value = number(is_in_order(op, left, right));
    machine.keep(event.node, value);
    Ok(Outcome::Done)
}

fn is_in_order(op: RelOp, left: i128, right: i128) -> bool
    ensures { result ≡ in_order op left right }
{
    match op {
        RelOp::Less => left < right,
        RelOp::Greater => right < left,
        RelOp::LessEq => left <= right,
        RelOp::GreaterEq => right <= left,
    }
}

#[inline(never)]
pub fn equality(
    machine: &mut Machine,
    op: EqOp,
    left: &Operand,
    right: &Operand,
    event: Event,
) -> Result<Outcome, Fault>
    ensures exact { CanAct machine.old → AreGiven machine.old event (acts.Equal op left.now right.now) →
        Does machine.old machine.new event (acts.Equal op left.now right.now) result }
    ensures changes { ChangesOnly machine.old machine.new event.node (acts.Equal op left.now right.now) }
    ensures rows { OnErr result (RowsStay machine.old.memory.rows machine.new.memory.rows) }
{
    let left = machine.value(*left)?;
    let right = machine.value(*right)?;
    let value = equal(op, &left, &right);
    machine.keep(event.node, value);
    Ok(Outcome::Done)
}
