// The bodies of calls, and the frames that they start.
ghost use Rattle.std.specs.Prelude.{◌≡◌, ◌<◌, false, length, OnErr, OnOk, IfOk, Some, slice_get};
ghost use Rattle.c_model.specs.Values.{function_in};
ghost use Rattle.libc_arguments.specs.Answers.{gives_value};
ghost use Rattle.mem_objects.specs.Memory.{Kept};
ghost use Rattle.mem_objects.specs.declared.value.Value.{Value as Kept_value};
ghost use Rattle.run_values.specs.Views.{value_in};
ghost use Rattle.run_state.specs.Operands.{operand_in};
ghost use Rattle.run_answers.specs.Calling.{library_in, Calls};
ghost use Rattle.run_answers.specs.Depth.{StartsWithin};
ghost use Rattle.run_answers.specs.LibraryCalls.{types_seen, AreArguments, CallsLibrary, CanCall, IsAnswered, TakesAnswer, TouchesStreams};
ghost use Rattle.run_answers.specs.Opens.{started_on, IsOnTop, OpensFrame, OpensFunction, OpensInitializer, Passes};

use crate::places::value_in_room;
use c_typed::Program;
use c_types::LibFunc;
use prov_memory::{LibAnswer, Values};
use run_acts::callee;
use run_answers::{Fault, Outcome};
use run_control::Use;
use run_layout::{CallCode, FunctionCode, Operand, Range};
use run_state::{Machine, Open};
use run_values::as_function;
use ub_base::{Cause, Clause, Event, Items, NoMemory};

// How many frames of functions may be open at once (own).
const MOST_FRAMES: u64 = 100_000;

// The body of a call: an act of the library, or a new frame.
pub fn call(machine: &mut Machine, call: &CallCode, event: Event) -> Result<Outcome, Fault>
    ensures calls { Calls machine.old call.now event machine.new result }
    ensures streams { OnErr result (machine.new.streams ≡ machine.old.streams) }
{
    let Some(ty) = call.ty else {
        return Err(Fault::Raise(Clause::InvalidPointer));
    };
    let program = machine.program;
    let address = designated(machine, call.designator);
    let number = callee(program, address, ty)?;
    match library_of(program, number) {
        Some(library) => call_library(machine, library, call, event),
        None => start_function(machine, number, call, event),
    }
}

// The address of the function that a designator leads to. Anything but a function pointer leads to none.
fn designated(machine: &Machine, designator: Operand) -> u64
    ensures { (h : Kept_value) → operand_in machine.now designator ≡ Some h → (m : Kept) → result ≡ function_in (value_in m h) }
{
    match designator {
        Operand::Function(addr) => addr,
        Operand::Done(room) => match value_in_room(machine, room) {
            Some(value) => as_function(value),
            None => 0,
        },
        _ => 0,
    }
}

// Which function of the library the function of this number is, where it is one.
fn library_of(program: &Program, number: u32) -> Option<LibFunc>
    requires there { number < length program.now.functions }
    ensures { result ≡ library_in (slice_get program.now.functions number) }
{
    program.functions.as_slice()[number as usize].library
}

// The values of a call's arguments.
fn arguments_of(machine: &Machine, call: &CallCode) -> Result<Values, NoMemory>
    ensures { IfOk result (AreArguments machine.now call.now.arguments.items) }
{
    let mut arguments = Items::new(machine.alloc);
    for operand in call.arguments.as_slice() {
        arguments.push(machine.value(*operand)?)?;
    }
    Ok(arguments)
}

fn call_library(
    machine: &mut Machine,
    library: LibFunc,
    call: &CallCode,
    event: Event,
) -> Result<Outcome, Fault>
    ensures library { CallsLibrary machine.old library call.now.arguments.items call.now.types event machine.new result }
    ensures streams { OnErr result (machine.new.streams ≡ machine.old.streams) }
{
    let arguments = arguments_of(machine, call)?;
    let answer = answer_of(machine, library, call, &arguments, event);
    take_answer(machine, answer, event)
}

// What the library answers.
fn answer_of(
    machine: &mut Machine,
    library: LibFunc,
    call: &CallCode,
    arguments: &Values,
    event: Event,
) -> LibAnswer
    ensures rest { TouchesStreams machine.old machine.new }
    ensures exact { CanCall machine.old library arguments.now →
        IsAnswered machine.old machine.new library event (types_seen call.now.types) arguments.now result }
    ensures streams { gives_value result ≡ false → machine.new.streams ≡ machine.old.streams }
{
    let alloc = machine.alloc;
    let types = call.types.as_slice();
    let t = &mut machine.items;
    let (memory, streams) = (&mut machine.memory, &mut machine.streams);
    match library {
        LibFunc::Printf => libc_print::format(alloc, arguments, types, memory, streams, t),
        LibFunc::Fprintf => libc_print::format_to(alloc, arguments, types, memory, streams, t),
        LibFunc::Sprintf => libc_print::format_into(alloc, arguments, types, memory, t),
        LibFunc::Snprintf => libc_print::format_within(alloc, arguments, types, memory, t),
        _ => libc_model::call(alloc, library, arguments, event, memory, streams, t),
    }
}

// What the library has answered: a value goes to the room of the call.
fn take_answer(machine: &mut Machine, answer: LibAnswer, event: Event) -> Result<Outcome, Fault>
    ensures { TakesAnswer machine.old answer event.node machine.new result }
{
    match answer {
        LibAnswer::Value(value) => {
            machine.keep(event.node, value);
            Ok(Outcome::Done)
        }
        LibAnswer::End(status) => Ok(Outcome::End(status)),
        LibAnswer::Raise(clause) => Err(Fault::Raise(clause)),
        LibAnswer::Outside(cause, number) => Err(Fault::Over(cause, number)),
        LibAnswer::Unplaced => Err(Fault::Unplaced),
        LibAnswer::NoMemory => Err(Fault::NoMemory),
    }
}

// The arguments become the first values of the new frame, whose body block takes them as it is entered.
fn start_function(
    machine: &mut Machine,
    function: u32,
    call: &CallCode,
    event: Event,
) -> Result<Outcome, Fault>
    ensures within { StartsWithin result machine.old.depth machine.new.depth }
    ensures opens { OpensFunction machine.old function call.now.arguments.items event machine.new result }
    ensures streams { machine.new.streams ≡ machine.old.streams }
{
    let reached = machine.depth.saturating_add(1);
    if reached > MOST_FRAMES {
        return Err(Fault::Over(Cause::Depth, reached));
    }
    let base = machine.top.base.saturating_add(machine.top.rooms as usize);
    pass_arguments(machine, call.arguments.as_slice(), base)?;
    open_function(machine, function, event)?;
    machine.depth = reached;
    Ok(Outcome::Started)
}

// The values of these operands go to the rooms from this one on.
fn pass_arguments(machine: &mut Machine, operands: &[Operand], room: usize) -> Result<(), NoMemory>
    ensures rest { machine.new ≡ record machine.old { values = machine.new.values } }
    ensures passes { OnOk result (Passes machine.old operands.now room machine.new) }
{
    machine.grow(room.saturating_add(operands.len()))?;
    let mut at = room;
    for operand in operands {
        let value = machine.value(*operand)?;
        machine.put(at, value);
        at = at.saturating_add(1);
    }
    Ok(())
}

fn function_code<'c>(machine: &Machine<'_, 'c>, function: u32) -> Result<&'c FunctionCode, NoMemory>
    ensures { IfOk result (λ f. slice_get machine.now.image.code.now.functions.items function ≡ Some (Some f.now)) }
{
    let code = machine.image.code;
    match code.functions.get(function as usize) {
        Some(Some(function)) => Ok(function),
        _ => Err(NoMemory),
    }
}

// The frame of an isolated initializer, by its full expression, which sees the objects of the frame below.
#[inline(never)]
pub fn initialize(machine: &mut Machine, number: u32, event: Event) -> Result<Outcome, Fault>
    ensures opens { OpensInitializer machine.old number event machine.new result }
    ensures streams { machine.new.streams ≡ machine.old.streams }
{
    machine.work.start_initializer(number)?;
    let locals = (machine.top.locals, machine.top.above);
    let Open {
        blocks,
        expressions,
        ..
    } = machine.top;
    open_frame(machine, None, (blocks, expressions), locals, event)?;
    Ok(Outcome::Started)
}

fn open_function(machine: &mut Machine, function: u32, event: Event) -> Result<(), NoMemory>
    ensures opens { OnOk result (OpensFrame machine.old function event machine.new) }
    ensures streams { machine.new.streams ≡ machine.old.streams }
{
    let code = function_code(machine, function)?;
    let locals = machine.top.above;
    let above = locals.saturating_add(code.objects as usize);
    machine.grow_locals(above)?;
    machine.work.start(&code.body)?;
    open_frame(
        machine,
        Some(function),
        (code.blocks, code.expressions),
        (locals, above),
        event,
    )
}

// A frame becomes the top one, whose work was started.
fn open_frame(
    machine: &mut Machine,
    function: Option<u32>,
    seen: (u32, Range),
    locals: (usize, usize),
    event: Event,
) -> Result<(), NoMemory>
    ensures top { OnOk result (IsOnTop machine.old (started_on machine.old.top event function seen.0 seen.1 locals.0 locals.1) machine.new) }
    ensures streams { machine.new.streams ≡ machine.old.streams }
{
    machine.below.push(machine.top)?;
    machine.top = Open {
        frame: event.frame,
        turn: 0,
        stage: None,
        how: Use::Unused,
        base: machine.top.base.saturating_add(machine.top.rooms as usize),
        rooms: 0,
        locals: locals.0,
        above: locals.1,
        function,
        blocks: seen.0,
        expressions: seen.1,
        node: event.node,
    };
    Ok(())
}
