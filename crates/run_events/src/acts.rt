// The acts of events.
ghost use Rattle.std.specs.Prelude.{◌≡◌, ◌<◌, ℕ, true, false, not, List, length, OnErr};
ghost use Rattle.addr_map.specs.declared.map.Row.{Row};
ghost use Rattle.c_model.specs.Nodes.{bool_value};
ghost use Rattle.c_model.specs.Values as model;
ghost use Rattle.mem_objects.specs.Keeps.{RowsStay};
ghost use Rattle.mem_objects.specs.Memory.{Kept};
ghost use Rattle.run_values.specs.Kept.{IsOf};
ghost use Rattle.run_values.specs.Views.{value_in};
ghost use Rattle.run_layout.specs.Named.{IsNamed};
ghost use Rattle.run_layout.specs.declared.steps.Act.TheVariants as acts;
ghost use Rattle.run_answers.specs.Acts.{either_truth, given_by, is_body_act, AreGiven, IsGiven};
ghost use Rattle.run_answers.specs.Calling.{CallsNumbered};
ghost use Rattle.run_answers.specs.Opens.{Opens};
ghost use Rattle.run_answers.specs.Performs.{gives_value, is_pointer_act, CanAct, CanPerform, ChangesOnly, Does, Performs};

use crate::frames::{call, initialize};
use crate::loads::loaded;
use crate::operators::{arithmetic, converted, equality, relation, unary_value};
use crate::pointers::{distance_between, member_of, move_by, part_of};
use crate::stores::{fill_list, store_value};
use crate::updates::update;
use prov_memory::Value;
use run_acts::answer;
use run_answers::{Fault, Outcome};
use run_layout::{Act, Operand};
use run_state::Machine;
use ub_base::Event;

pub fn number(value: bool) -> Value
    ensures seen { (m : Kept) → value_in m result ≡ bool_value value }
    ensures made { (m : Kept) → IsOf m result }
{
    Value::Int(i128::from(value))
}

/// Does the act of an event of the top frame's full expression: it touches what the pick touches, and a value goes to the room of the node.
#[inline(always)]
pub fn perform(machine: &mut Machine, act: &Act, event: Event) -> Result<Outcome, Fault>
    requires named { IsNamed machine.old.image.code.now.tables act.now }
    ensures exact { (rows : List Row) → CanPerform rows machine.old → AreGiven machine.old event act.now → is_body_act act.now ≡ false →
        Performs rows machine.old machine.new event act.now result }
    ensures changes { is_body_act act.now ≡ false → ChangesOnly machine.old machine.new event.node act.now }
    ensures effect { is_body_act act.now ≡ false → gives_value act.now ≡ false → machine.new.values ≡ machine.old.values }
    ensures rows { (rows : List Row) → CanPerform rows machine.old → AreGiven machine.old event act.now → is_body_act act.now ≡ false →
        OnErr result (RowsStay machine.old.memory.rows machine.new.memory.rows) }
    ensures bodies { Opens machine.old act.now event machine.new result }
    ensures calls { (number : ℕ) → act.now ≡ acts.Call number → CallsNumbered number machine.old event machine.new result }
    // Where it isn't done, nothing was written.
    ensures streams { OnErr result (machine.new.streams ≡ machine.old.streams) }
{
    match act {
        Act::Store {
            store,
            place,
            value,
        } => store_value(machine, *store, place, value),
        Act::Fill { object, constants } => fill_list(machine, object, *constants),
        Act::Call(number) => call_of(machine, *number, event),
        Act::Initialize(number) => initialize(machine, *number, event),
        _ => value_act(machine, act, event),
    }
}

// The body of the call of this number.
#[inline(never)]
fn call_of(machine: &mut Machine, number: u32, event: Event) -> Result<Outcome, Fault>
    requires there { number < length machine.old.image.code.now.tables.calls.items }
    ensures calls { CallsNumbered number machine.old event machine.new result }
    ensures streams { OnErr result (machine.new.streams ≡ machine.old.streams) }
{
    let code = machine.image.code;
    call(machine, &code.tables.calls[number as usize], event)
}

// An act that gives a value. What a function keeps on the stack is set to zero as it begins: so each act stands in one of its own,
// which isn't inlined and puts the value into the room itself.
#[inline(always)]
fn value_act(machine: &mut Machine, act: &Act, event: Event) -> Result<Outcome, Fault>
    ensures exact { CanAct machine.old → AreGiven machine.old event act.now → gives_value act.now ≡ true → Does machine.old machine.new event act.now result }
    ensures changes { ChangesOnly machine.old machine.new event.node act.now }
    ensures rows { OnErr result (RowsStay machine.old.memory.rows machine.new.memory.rows) }
{
    match act {
        Act::Load { access, ty, place } => loaded(machine, access, *ty, place, event),
        Act::Same(operand) => same(machine, operand, event),
        Act::Binary(op, kind, left, right) => arithmetic(machine, *op, *kind, left, right, event),
        Act::Convert(conversion, operand) => converted(machine, *conversion, operand, event),
        Act::Unary(op, operand) => unary_value(machine, *op, operand, event),
        Act::Logical {
            either,
            first,
            second,
        } => logical(machine, *either, first, second, event),
        Act::Selected { test, yes, no } => selected(machine, test, yes, no, event),
        Act::Change {
            change,
            old,
            ty,
            place,
            operand,
            room,
        } => update(machine, *change, *old, *ty, event, place, operand, *room),
        Act::Answer { discarded } => answered(machine, *discarded, event),
        Act::Part {
            offset,
            access,
            whole,
        } => part_of(machine, *offset, access, whole, event),
        _ => pointer_act(machine, act, event),
    }
}

#[inline(never)]
fn same(machine: &mut Machine, operand: &Operand, event: Event) -> Result<Outcome, Fault>
    ensures exact { CanAct machine.old → AreGiven machine.old event (acts.Same operand.now) →
        Does machine.old machine.new event (acts.Same operand.now) result }
    ensures changes { ChangesOnly machine.old machine.new event.node (acts.Same operand.now) }
    ensures rows { OnErr result (RowsStay machine.old.memory.rows machine.new.memory.rows) }
{
    let value = machine.value(*operand)?;
    machine.keep(event.node, value);
    Ok(Outcome::Done)
}

// The acts on pointers. Lists and isolated initializers have no value.
#[inline(always)]
fn pointer_act(machine: &mut Machine, act: &Act, event: Event) -> Result<Outcome, Fault>
    ensures exact { CanAct machine.old → AreGiven machine.old event act.now → is_pointer_act act.now ≡ true →
        Does machine.old machine.new event act.now result }
    ensures changes { ChangesOnly machine.old machine.new event.node act.now }
    ensures rows { OnErr result (RowsStay machine.old.memory.rows machine.new.memory.rows) }
{
    match act {
        Act::Move {
            size,
            subtract,
            pointer,
            index,
        } => move_by(machine, *size, *subtract, pointer, index, event),
        Act::Member { offset, pointer } => member_of(machine, *offset, pointer, event),
        Act::Distance { size, left, right } => distance_between(machine, *size, left, right, event),
        Act::Related {
            op,
            pointers,
            left,
            right,
        } => relation(machine, *op, *pointers, left, right, event),
        Act::Equal(op, left, right) => equality(machine, *op, left, right, event),
        _ => {
            machine.keep(event.node, Value::Nothing);
            Ok(Outcome::Done)
        }
    }
}

#[inline(never)]
fn logical(
    machine: &mut Machine,
    either: bool,
    first: &Operand,
    second: &Operand,
    event: Event,
) -> Result<Outcome, Fault>
    ensures exact { CanAct machine.old → AreGiven machine.old event (acts.Logical either first.now second.now) →
        Does machine.old machine.new event (acts.Logical either first.now second.now) result }
    ensures changes { ChangesOnly machine.old machine.new event.node (acts.Logical either first.now second.now) }
    ensures rows { OnErr result (RowsStay machine.old.memory.rows machine.new.memory.rows) }
{
    let value = number(logical_truth(machine, either, first, second));
    machine.keep(event.node, value);
    Ok(Outcome::Done)
}

fn logical_truth(machine: &Machine, either: bool, first: &Operand, second: &Operand) -> bool
    ensures { IsGiven machine.now first.now → (model.truth (given_by machine.now first.now) ≡ not either → IsGiven machine.now second.now) →
        result ≡ either_truth either (model.truth (given_by machine.now first.now)) (model.truth (given_by machine.now second.now)) }
{
    if either {
        machine.truth(*first) || machine.truth(*second)
    } else {
        machine.truth(*first) && machine.truth(*second)
    }
}

// The operand that a `?:` gives (6.5.15p4).
fn selected(
    machine: &mut Machine,
    test: &Operand,
    yes: &Operand,
    no: &Operand,
    event: Event,
) -> Result<Outcome, Fault>
    ensures exact { CanAct machine.old → AreGiven machine.old event (acts.Selected test.now yes.now no.now) →
        Does machine.old machine.new event (acts.Selected test.now yes.now no.now) result }
    ensures changes { ChangesOnly machine.old machine.new event.node (acts.Selected test.now yes.now no.now) }
    ensures rows { OnErr result (RowsStay machine.old.memory.rows machine.new.memory.rows) }
{
    if machine.truth(*test) {
        same(machine, yes, event)
    } else {
        same(machine, no, event)
    }
}

// What the body of a call has left is the call's value.
#[inline(never)]
fn answered(machine: &mut Machine, discarded: bool, event: Event) -> Result<Outcome, Fault>
    ensures exact { CanAct machine.old → AreGiven machine.old event (acts.Answer discarded) →
        Does machine.old machine.new event (acts.Answer discarded) result }
    ensures changes { ChangesOnly machine.old machine.new event.node (acts.Answer discarded) }
    ensures rows { OnErr result (RowsStay machine.old.memory.rows machine.new.memory.rows) }
{
    let left = machine.take(event.node);
    let value = answer(left, discarded)?;
    machine.keep(event.node, value);
    Ok(Outcome::Done)
}
