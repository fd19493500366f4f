// The control steps (6.8).
ghost use Rattle.std.specs.Prelude.{◌≡◌, ◌≢◌, ◌∷◌, ◌+◌, ◌-◌, ◌^◌, true, false, min, ℕ, ℤ, Bool, Option, None, Some, length, slice_get, IfOk, IfSome, OnOk};
ghost use Rattle.std.specs.Prelude.{◌<◌, option_map};
ghost use Rattle.std.specs.List.{All};
ghost use Rattle.c_types.specs.Shapes.{form_of};
ghost use Rattle.run_control.specs.Moves.{moved};
ghost use Rattle.c_model.specs.Control.{Break_here, moved_in, ready_work};
ghost use Rattle.run_control.specs.declared.links.Place.{Place};
ghost use Rattle.run_control.specs.declared.work.Step.TheVariants as steps;
ghost use Rattle.run_control.specs.Links.{work_at};
ghost use Rattle.run_control.specs.View.{Meaning, after, is_nothing, todo_of};
ghost use Rattle.run_answers.specs.Answering.{AnswersControl, AnswersStep, step_of_move};
ghost use Rattle.run_layout.specs.InRange.{IsObject, part_of};
ghost use Rattle.run_answers.specs.Beginning.{HasShown, IsAmong};
ghost use Rattle.run_answers.specs.Ended.{AnswersEnd};
ghost use Rattle.run_answers.specs.Entering.{BearsAll, CanBear, CreatesOne, Enters};
ghost use Rattle.run_answers.specs.Keeping.{FillsObjects, GoesFurther, KeepsControl, ResultBehind, StaysSo};
ghost use Rattle.run_answers.specs.Leaving.{GoesStill, LeavesBlock};
ghost use Rattle.run_answers.specs.Passing.{IsOnePassed, PassesAll, with_arguments};
ghost use Rattle.run_answers.specs.Moving.{GoesOn, IsGone, StepLeaves, TakesStep};
ghost use Rattle.run_answers.specs.Rows.{GrowsByControl, GrowsByStep, KeepsMemory, KeepsTaken};
ghost use Rattle.run_answers.specs.Settling.{HasSelected, HasUsed, left_by};
ghost use Rattle.run_machine.specs.Written.{KeepsStreams};
ghost use Rattle.run_state.specs.Operands.{operand_in};
ghost use Rattle.mem_objects.specs.declared.value.Value.{Value as Kept_value};

use crate::frames::end_frame;
use c_typed::Typed;
use c_types::Shape;
use program_view::law_view;
use prov_memory::ObjKind;
use run_control::{Move, Step, Use};
use run_events::{choose_at_once, put_at};
use run_layout::{BlockCode, Expression, ObjectCode, Operand, Range, law_choices};
use run_listing::law_cursor;
use run_objects::total;
use run_state::{Begun, Halt, Local, Machine, Stage, law_operands};
use seq_order::Taken;
use std::rc::Rc;
use ub_base::{Cause, NoMemory, ObjName};

/// How many bytes the created objects may count (own).
pub const MOST_CREATED: u64 = 1 << 26;

// The control step of the top frame, in whose full expression no event is left, with the status where it ends the run. Not inlined, so that
// the way of an event is short.
#[inline(never)]
pub fn control_step(machine: &mut Machine) -> Result<Option<u8>, Halt>
    ensures step { OnOk result (machine.old.top.stage ≡ None → (m : Meaning) → TakesStep m machine.old.jumps.links.items machine.old.work machine.new.work) }
    ensures answers { AnswersControl machine.old machine.new result }
    ensures keeps { KeepsControl machine.old machine.new result }
    ensures rows { GrowsByControl machine.old machine.new result }
    ensures streams { KeepsStreams machine.old machine.new result }
{
    match machine.top.stage {
        Some(stage) => settle(machine, stage),
        None => match machine.work.next()? {
            Some(step) => take_step(machine, step),
            None => Err(Halt::NoMemory),
        },
    }
}

fn take_step<'c>(machine: &mut Machine<'_, 'c>, step: Step<'c>) -> Result<Option<u8>, Halt>
    ensures leaves { OnOk result ((m : Meaning) → StepLeaves m machine.old.jumps.links.items step.entry machine.old.work machine.new.work) }
    ensures answers { AnswersStep step.entry machine.old machine.new result }
    ensures keeps { machine.old.top.stage ≡ None → KeepsControl machine.old machine.new result }
    ensures rows { GrowsByStep step.entry machine.old machine.new result }
    ensures streams { KeepsStreams machine.old machine.new result }
{
    match step {
        Step::Begin(number, how) => begin(machine, number, how),
        Step::Enter(block) => enter(machine, block.number),
        Step::Leave(block) => {
            leave(machine, block.number)?;
            go_on(machine)
        }
        Step::Unwrite(object) => declare(machine, object),
        Step::Nothing => Ok(None),
        Step::GoTo(label) => go_to(machine, label),
        Step::GoOut => go(machine, Move::Out),
        Step::GoOn => go(machine, Move::On),
        Step::GoBack => go(machine, Move::Back),
    }
}

// The frame ends with this step where nothing is left to do in it.
#[inline(always)]
fn go_on(machine: &mut Machine) -> Result<Option<u8>, Halt>
    ensures goes { OnOk result ((m : Meaning) → GoesOn m machine.old.work machine.new.work) }
    ensures still { (m : Meaning) → is_nothing (ready_work (todo_of m machine.old.work.now)) ≡ false → GoesStill machine.old machine.new result }
    ensures ends { (m : Meaning) → is_nothing (ready_work (todo_of m machine.old.work.now)) ≡ true → AnswersEnd machine.old machine.new result }
    ensures further { GoesFurther machine.old machine.new result }
    ensures memory { KeepsMemory machine.old machine.new result }
{
    if machine.work.is_over()? {
        end_frame(machine)
    } else {
        Ok(None)
    }
}

fn go(machine: &mut Machine, how: Move) -> Result<Option<u8>, Halt>
    ensures below { OnOk result (machine.new.work.below ≡ machine.old.work.below) }
    ensures now { OnOk result ((m : Meaning) → todo_of m machine.new.work.now ≡ moved how (todo_of m machine.old.work.now)) }
    ensures answers { AnswersStep (step_of_move how) machine.old machine.new result }
    ensures rest { OnOk result (machine.new ≡ record machine.old { work = machine.new.work }) }
    ensures memory { KeepsMemory machine.old machine.new result }
{
    machine.work.go(how)?;
    Ok(None)
}

fn go_to(machine: &mut Machine, label: u32) -> Result<Option<u8>, Halt>
    ensures gone { OnOk result ((m : Meaning) → IsGone m machine.old.jumps.links.items machine.old.work machine.new.work) }
    ensures answers { AnswersStep (steps.GoTo label) machine.old machine.new result }
    ensures rest { OnOk result (machine.new ≡ record machine.old { work = machine.new.work }) }
    ensures memory { KeepsMemory machine.old machine.new result }
{
    let Some(function) = machine.top.function else {
        return Err(Halt::NoMemory);
    };
    let target = machine.jumps.label(function, label)?;
    machine.work.go_to(&machine.jumps.links, target)?;
    Ok(None)
}

// The block of this number in the function, with its objects.
fn block_of<'c>(
    machine: &Machine<'_, 'c>,
    number: u32,
) -> Result<(BlockCode, &'c [ObjectCode]), NoMemory>
    ensures at { IfOk result (λ b. slice_get machine.now.image.code.now.tables.blocks.items (min (machine.now.top.blocks + number) (2 ^ 32 - 1)) ≡ Some b.0) }
    ensures objects { IfOk result (λ b. b.1.now ≡ part_of machine.now.image.code.now.tables.objects.items b.0.objects) }
    ensures stores { IfOk result (λ b. All (IsObject (length machine.now.image.code.now.tables.stores.items)) b.1.now) }
{
    let code = machine.image.code;
    let at = machine.top.blocks.saturating_add(number);
    match code.block(at) {
        Some(block) => Ok(block),
        None => Err(NoMemory),
    }
}

// A block is entered: its objects are created in order, and the first take the arguments.
fn enter(machine: &mut Machine, number: u32) -> Result<Option<u8>, Halt>
    ensures work { machine.new.work ≡ machine.old.work }
    ensures enters { Enters machine.old number machine.new result }
    ensures stays { OnOk result (StaysSo machine.old machine.new) }
    ensures streams { KeepsStreams machine.old machine.new result }
{
    machine.entered = number;
    machine.top.turn = machine.top.turn.saturating_add(1);
    let (block, objects) = block_of(machine, number)?;
    let reached = total(machine.memory.created(), block.created);
    if reached > MOST_CREATED {
        return Err(Halt::Over(Cause::Created, reached));
    }
    create_objects(machine, objects, block.first)?;
    store_arguments(machine, taking(objects, block.arguments), block.first)?;
    Ok(None)
}

// The objects of a block, of which the first has this number in the function.
fn create_objects(machine: &mut Machine, objects: &[ObjectCode], first: u32) -> Result<(), Halt>
    ensures work { machine.new.work ≡ machine.old.work }
    ensures born { CanBear machine.old first (length objects.now) → BearsAll machine.old objects.now first machine.new result }
    ensures fills { OnOk result (FillsObjects machine.old machine.new) }
    ensures streams { KeepsStreams machine.old machine.new result }
{
    let mut number: u32 = 0;
    for object in objects {
        create(machine, object, first, number)?;
        number = number.saturating_add(1);
    }
    Ok(())
}

// The first of a block's objects, which take the arguments.
#[inline(always)]
fn taking(objects: &[ObjectCode], arguments: u32) -> &[ObjectCode]
    ensures first { result.now ≡ with_arguments objects.now arguments }
    ensures stores { (n : ℕ) → All (IsObject n) objects.now → All (IsObject n) result.now }
{
    let count = objects.len().min(arguments as usize);
    let (taking, _) = objects.split_at(count);
    taking
}

// These objects of a block, of which the first has this number in the function, take the arguments.
fn store_arguments(
    machine: &mut Machine,
    objects: &[ObjectCode],
    first: u32,
) -> Result<(), NoMemory>
    requires stores { All (IsObject (length machine.old.image.code.now.tables.stores.items)) objects.now }
    ensures work { machine.new.work ≡ machine.old.work }
    ensures passes { OnOk result (PassesAll machine.old objects.now first machine.new) }
    ensures fills { OnOk result (FillsObjects machine.old machine.new) }
{
    let mut number: u32 = 0;
    for object in objects {
        store_argument(machine, object, first, number)?;
        number = number.saturating_add(1);
    }
    Ok(())
}

// The object of this number in the block.
fn create(machine: &mut Machine, object: &ObjectCode, first: u32, number: u32) -> Result<(), Halt>
    ensures work { machine.new.work ≡ machine.old.work }
    ensures creates { CreatesOne machine.old object.now first number machine.new result }
    ensures fills { OnOk result (FillsObjects machine.old machine.new) }
{
    let name = ObjName::Auto {
        frame: machine.top.frame,
        turn: machine.top.turn,
        decl: number,
    };
    let kind = ObjKind {
        heap: false,
        literal: false,
        constant: object.constant,
    };
    let shape = shape_of(object)?;
    let spare = &mut machine.spare;
    let addr = machine
        .memory
        .create(name, object.size, object.align, kind, shape, spare)?;
    place(machine, first.saturating_add(number), Local { addr, name })?;
    machine.items.join(&machine.spare)?;
    Ok(())
}

// The shape of an object's declared type, with an owner more.
fn shape_of(object: &ObjectCode) -> Result<Option<Rc<Shape>>, NoMemory>
    ensures shape { IfOk result (λ shape. option_map (λ s. s.value) shape ≡ option_map (λ s. s.value) object.now.shape) }
    ensures form { IfOk result (λ shape. option_map (λ s. form_of s.value) shape ≡ option_map (λ s. form_of s.value) object.now.shape) }
{
    match &object.shape {
        Some(shape) => Ok(Some(shape.clone()?)),
        None => Ok(None),
    }
}

// An automatic object of the top frame stands here.
fn place(machine: &mut Machine, object: u32, local: Local) -> Result<(), NoMemory>
    ensures rest { machine.new ≡ record machine.old { locals = machine.new.locals } }
    ensures placed { OnOk result (slice_get machine.new.locals.items (min (machine.old.top.locals + object) (2 ^ 64 - 1)) ≡ Some local) }
    ensures others { (j : ℕ) → j ≢ min (machine.old.top.locals + object) (2 ^ 64 - 1)
        → slice_get machine.new.locals.items j ≡ slice_get machine.old.locals.items j }
    ensures count { length machine.new.locals.items ≡ length machine.old.locals.items }
{
    let at = machine.top.locals.saturating_add(object as usize);
    match machine.locals.get_mut(at) {
        Some(place) => {
            *place = local;
            Ok(())
        }
        None => Err(NoMemory),
    }
}

// A parameter takes its argument. The store is an initialization of a new object by a value of its type, which raises
// nothing.
fn store_argument(
    machine: &mut Machine,
    object: &ObjectCode,
    first: u32,
    number: u32,
) -> Result<(), NoMemory>
    requires there { object.now.store < length machine.old.image.code.now.tables.stores.items }
    ensures work { machine.new.work ≡ machine.old.work }
    ensures passes { OnOk result (IsOnePassed machine.old object.now first number machine.new) }
    ensures fills { OnOk result (FillsObjects machine.old machine.new) }
{
    let place = machine.local(first.saturating_add(number), 0);
    let value = machine.take(number);
    let _ = put_at(machine, object.store, place, &value);
    machine.items.join(&machine.spare)
}

// A block is left: the lives of its objects end.
fn leave(machine: &mut Machine, number: u32) -> Result<(), NoMemory>
    ensures work { machine.new.work ≡ machine.old.work }
    ensures lives { OnOk result (LeavesBlock machine.old number machine.new) }
{
    let (block, _) = block_of(machine, number)?;
    for object in 0..block.objects.count {
        let name = machine.local_name(block.first.saturating_add(object))?;
        machine.memory.kill(name, &mut machine.spare);
        machine.items.join(&machine.spare)?;
    }
    Ok(())
}

// The bytes of an object of the innermost block become unwritten.
fn declare(machine: &mut Machine, object: u32) -> Result<Option<u8>, Halt>
    ensures work { machine.new.work ≡ machine.old.work }
    ensures answers { AnswersStep (steps.Unwrite object) machine.old machine.new result }
    ensures rest { OnOk result (machine.new ≡ record machine.old { memory = machine.new.memory; items = machine.new.items }) }
    ensures rows { KeepsTaken machine.old machine.new result }
    ensures streams { KeepsStreams machine.old machine.new result }
{
    let Some(block) = machine.work.block() else {
        return Err(Halt::NoMemory);
    };
    let (block, _) = block_of(machine, block.number)?;
    let name = machine.local_name(block.first.saturating_add(object))?;
    machine.memory.unwrite(name, &mut machine.items);
    Ok(None)
}

// A full expression begins, whose value has this use.
fn begin<'c>(machine: &mut Machine<'_, 'c>, number: u32, how: Use<'c>) -> Result<Option<u8>, Halt>
    ensures work { machine.new.work ≡ machine.old.work }
    ensures answers { AnswersStep (steps.Begin number how.entry) machine.old machine.new result }
    ensures keeps { machine.old.top.stage ≡ None → KeepsControl machine.old machine.new result }
    ensures memory { KeepsMemory machine.old machine.new result }
{
    law_view();
    law_cursor();
    law_choices();
    machine.top.how = how;
    machine.top.turn = machine.top.turn.saturating_add(1);
    let Some((expression, chosen)) = own_expression(machine, number) else {
        return Err(Halt::NoMemory);
    };
    machine.top.rooms = expression.rooms;
    machine.top.stage = Some(Stage {
        expression: number,
        first: expression.first,
        cursor: expression.first,
        end: expression.end,
        straight: true,
        value: expression.value,
    });
    let size = machine.top.base.saturating_add(expression.rooms as usize);
    machine.grow(size)?;
    show_begun(machine, number, expression.root)?;
    choose_at_once(machine, chosen)?;
    Ok(None)
}

// The full expression of this number, where it is one of the function whose objects the top frame sees.
fn own_expression<'p, 'c>(
    machine: &Machine<'p, 'c>,
    number: u32,
) -> Option<(&'c Expression<'p>, &'c [(u32, u32)])>
    ensures found { IfSome result (λ e. (slice_get machine.now.image.code.now.expressions.items number ≡ Some e.0.now)
        × (e.1.now ≡ part_of machine.now.image.code.now.tables.chosen.items e.0.now.chosen)) }
    ensures own { IfSome result (λ e. IsAmong machine.now.top.expressions number) }
{
    if !is_among(machine.top.expressions, number) {
        return None;
    }
    let code = machine.image.code;
    code.expression(number)
}

fn is_among(range: Range, number: u32) -> bool
    ensures { result ≡ true → IsAmong range number }
{
    range.first <= number && number - range.first < range.count
}

// It takes the place of the one that was settled before it at this height.
fn show_begun<'p>(
    machine: &mut Machine<'p, '_>,
    number: u32,
    root: &'p Typed,
) -> Result<(), NoMemory>
    ensures work { machine.new.work ≡ machine.old.work }
    ensures shown { OnOk result (HasShown machine.old number root.entry machine.new) }
{
    let frame = machine.top.frame;
    let turn = machine.top.turn;
    let alloc = machine.alloc;
    let height = machine.below.len();
    if let Some(begun) = machine.begun.get_mut(height) {
        begun.frame = frame;
        begun.turn = turn;
        begun.tree = number;
        begun.root = root;
        begun.taken.clear();
        return Ok(());
    }
    machine.begun.push(Begun {
        frame,
        turn,
        tree: number,
        root,
        taken: Taken::new(alloc),
    })?;
    Ok(())
}

// The value of a full expression is used.
fn settle(machine: &mut Machine, stage: Stage) -> Result<Option<u8>, Halt>
    ensures answers { machine.old.top.stage ≡ Some stage → AnswersControl machine.old machine.new result }
    ensures keeps { machine.old.top.stage ≡ Some stage → KeepsControl machine.old machine.new result }
    ensures memory { KeepsMemory machine.old machine.new result }
{
    law_operands();
    let operand = stage.value;
    machine.top.stage = None;
    match machine.top.how {
        Use::Select(switch) => {
            select(machine, switch.number, operand)?;
            go_on(machine)
        }
        how => {
            use_value(machine, how, operand)?;
            go_on(machine)
        }
    }
}

fn use_value<'c>(
    machine: &mut Machine<'_, 'c>,
    how: Use<'c>,
    operand: Operand,
) -> Result<(), NoMemory>
    ensures below { OnOk result (machine.new.work.below ≡ machine.old.work.below) }
    ensures now { OnOk result ((truth : Bool) × ((m : Meaning) (z : ℤ) → todo_of m machine.new.work.now ≡ after m truth z how.entry (todo_of m
        machine.old.work.now))) }
    ensures used { OnOk result (HasUsed machine.old how.entry operand machine.new) }
    ensures result { OnOk result (ResultBehind machine.old operand how.entry machine.new.left) }
{
    keep_result(machine, how, operand)?;
    let truth = machine.truth(operand);
    machine.work.settle(how, truth)
}

// The value of a `return` statement is the result of the frame.
fn keep_result(machine: &mut Machine, how: Use, operand: Operand) -> Result<(), NoMemory>
    ensures rest { OnOk result (machine.new ≡ record machine.old { left = machine.new.left }) }
    ensures left { OnOk result ((h : Kept_value) → operand_in machine.old operand ≡ Some h → machine.new.left ≡ left_by how.entry h machine.old.left) }
    ensures result { OnOk result (ResultBehind machine.old operand how.entry machine.new.left) }
{
    if let Use::Result = how {
        machine.left = Some(machine.value(operand)?);
    }
    Ok(())
}

// The case that the value of the test of a `switch` statement of the function names comes next.
fn select(machine: &mut Machine, switch: u32, operand: Operand) -> Result<(), NoMemory>
    ensures below { OnOk result (machine.new.work.below ≡ machine.old.work.below) }
    ensures now { OnOk result ((target : Option Place) × ((m : Meaning) → todo_of m machine.new.work.now ≡ moved_in (work_at m
        machine.old.jumps.links.items target) (Break_here ∷ todo_of m machine.old.work.now))) }
    ensures selects { OnOk result (HasSelected machine.old switch operand machine.new) }
{
    let Some(function) = machine.top.function else {
        return Err(NoMemory);
    };
    let value = machine.integer(operand);
    let target = machine.jumps.case(function, switch, value)?;
    machine.work.select(&machine.jumps.links, target)
}
