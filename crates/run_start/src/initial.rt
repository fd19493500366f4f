// A run before its first pick.
ghost use Rattle.std.specs.Prelude.{◌≡◌, [], ◌∷◌, ◌+◌, ◌<◌, ◌^◌, None, Some, length, map, slice_get, string_bytes, IfOk, OnOk};
ghost use Rattle.addr_map.specs.Sound.{Above};
ghost use Rattle.c_typed.specs.Lawful.{IsLawful};
ghost use Rattle.mem_spec.specs.Streams.{Io, silent};
ghost use Rattle.mem_objects.specs.Keeps.{Keeps};
ghost use Rattle.mem_objects.specs.Made.{AreNamed};
ghost use Rattle.mem_objects.specs.Memory.{empty, store_of};
ghost use Rattle.mem_objects.specs.Sound.{IsSound};
ghost use Rattle.mem_objects.specs.Tags.{AreTagged};
ghost use Rattle.run_standing.specs.Standing.{StartStands, program_name};
ghost use Rattle.run_values.specs.Placed.{ArePlaced};
ghost use Rattle.run_start.specs.Begins.{AreBytesWhere, BeginsAsDefined, HoldsGiven, IsBodyOf, IsFirst, IsGivenIn, IsNamed, IsNamedVia, KeepsLabels};
ghost use Rattle.run_start.specs.Begins.{StartsMain};
ghost use Rattle.run_start.specs.Begins.{CountsAsDefined, IsUnstarted, SeesMain};
ghost use Rattle.run_state.specs.Stands.{AreEach};

use c_typed::{Access, Program};
use prov_memory::{Memory, Streams, Touched, TypeId, Value, Via};
use run_control::{Control, Statement, Use};
use run_layout::{Code, FunctionCode, StoreCode};
use run_standing::{Started, fillings, start};
use run_state::{Halt, Image, Machine, Open};
use run_statements::Jumps;
use run_values::{Filling, Places};
use std::alloc::Global;
use ub_base::{Bytes, Frame, Items, NoMemory};

// The vias of the stores.
fn vias_of(alloc: Global, code: &Code, memory: &mut Memory) -> Result<Vec<Via>, NoMemory>
    ensures kept { Keeps memory.old memory.new }
    ensures store { AreTagged memory.old → (io : Io) → store_of memory.new io ≡ store_of memory.old io }
    ensures vias { IfOk result (λ vias. AreEach (IsNamedVia memory.new) code.now.tables.stores.items vias.items) }
    ensures count { IfOk result (λ vias. length vias.items ≡ length code.now.tables.stores.items) }
{
    let mut vias = Vec::new(alloc);
    for store in &code.tables.stores {
        vias.push(via_of(store, memory)?)?;
    }
    Ok(vias)
}

fn via_of(store: &StoreCode, memory: &mut Memory) -> Result<Via, NoMemory>
    ensures kept { Keeps memory.old memory.new }
    ensures store { AreTagged memory.old → (io : Io) → store_of memory.new io ≡ store_of memory.old io }
    ensures via { IfOk result (λ via. IsNamedVia memory.new store.now via) }
{
    match store.access {
        Access::Integer(kind) => Ok(Via::Scalar(TypeId::of_kind(kind))),
        Access::Pointer | Access::Function => Ok(Via::Scalar(memory.type_id(store.ty)?)),
        Access::Whole { .. } => Ok(Via::Whole),
    }
}

// The bytes of the initializer lists.
fn fillings_of(
    alloc: Global,
    code: &Code,
    memory: &Memory,
    places: &Places,
) -> Result<Vec<Items<Filling>>, NoMemory>
    ensures bytes { AreNamed memory.now → IfOk result (λ all. AreEach (AreBytesWhere memory.now places.now) code.now.tables.constants.items all.items) }
    ensures count { IfOk result (λ all. length all.items ≡ length code.now.tables.constants.items) }
{
    let mut all = Vec::new(alloc);
    for constants in &code.tables.constants {
        all.push(fillings(alloc, memory, places, *constants)?)?;
    }
    Ok(all)
}

fn main_of<'c>(program: &Program, code: &'c Code<'_>) -> Result<&'c FunctionCode, NoMemory>
    ensures { IfOk result (λ main. slice_get code.now.functions.items program.now.main ≡ Some (Some main.now)) }
{
    match code.functions.get(program.main as usize) {
        Some(Some(main)) => Ok(main),
        _ => Err(NoMemory),
    }
}

// The body of a function, where it has code.
fn body_of<'c>(function: &'c Option<FunctionCode>) -> Option<&'c Statement>
    ensures { IsBodyOf function.now result }
{
    match function {
        Some(function) => Some(&function.body),
        None => None,
    }
}

// Where the jumps of the program go.
fn jumps_of<'c>(alloc: Global, code: &'c Code<'_>) -> Result<Jumps<'c>, NoMemory>
    ensures { IfOk result (KeepsLabels code.now) }
{
    let mut jumps = Jumps::new(alloc);
    for function in &code.functions {
        jumps.add(alloc, body_of(function))?;
    }
    Ok(jumps)
}

// The frame of `main` before its first step, what is to be done in it, and where jumps go.
#[derive(Drop)]
struct First<'c> {
    top: Open<'c>,
    work: Control<'c>,
    jumps: Jumps<'c>,
}

fn first_frame<'c>(
    alloc: Global,
    program: &Program,
    code: &'c Code<'_>,
) -> Result<First<'c>, NoMemory>
    ensures top { IfOk result (λ first. IsFirst program.now first.top) }
    ensures sees { IfOk result (λ first. SeesMain program.now code.now first.top) }
    ensures work { IfOk result (λ first. StartsMain code.now program.now first.work) }
    ensures labels { IfOk result (λ first. KeepsLabels code.now first.jumps) }
{
    let main = main_of(program, code)?;
    let jumps = jumps_of(alloc, code)?;
    let mut work = Control::new(alloc);
    work.start(&main.body)?;
    let top = Open {
        frame: Frame(0),
        turn: 0,
        stage: None,
        how: Use::Unused,
        base: 0,
        rooms: 0,
        locals: 0,
        above: main.objects as usize,
        function: Some(program.main),
        blocks: main.blocks,
        expressions: main.expressions,
        node: 0,
    };
    Ok(First { top, work, jumps })
}

// Where the objects stand that stand before the first pick, and the arguments of `main`.
#[derive(Drop)]
struct Placed {
    memory: Memory,
    places: Places,
    values: Vec<Value>,
}

// What `main` is given stands in the first rooms.
fn given_values(alloc: Global, count: Value, vector: Value) -> Result<Vec<Value>, NoMemory>
    ensures { IfOk result (λ values. values.items ≡ count ∷ vector ∷ []) }
{
    let mut values = Vec::new(alloc);
    values.push(count)?;
    values.push(vector)?;
    Ok(values)
}

fn placed_objects(
    alloc: Global,
    program: &Program,
    args: &[String],
    memory: Memory,
) -> Result<Placed, Halt>
    ensures kept { IfOk result (λ first. IsSound memory → IsLawful program.now → Keeps memory first.memory) }
    ensures placed { IfOk result (λ first. IsSound memory → IsLawful program.now → ArePlaced first.memory program.now first.places) }
    ensures stands { IfOk result (λ first. IsSound memory → IsLawful program.now → length args.now + 1 < 2 ^ 32
        → StartStands memory first.memory program.now (program_name ∷ map string_bytes args.now)) }
    ensures given { IfOk result (λ first. IsSound memory → IsLawful program.now
        → IsGivenIn first.memory program.now (length args.now + 1) first.values.items) }
{
    let mut memory = memory;
    let started = start(alloc, program, args, &mut memory)?;
    let Started {
        places,
        count,
        vector,
    } = started;
    let values = given_values(alloc, count, vector)?;
    Ok(Placed {
        memory,
        places,
        values,
    })
}

// What a pick touches, and what one act of it touches.
#[derive(Drop)]
struct TouchedItems {
    pick: Touched,
    act: Touched,
}

fn no_items(alloc: Global) -> Result<TouchedItems, NoMemory>
    ensures pick { IfOk result (λ items. items.pick ≡ []) }
    ensures act { IfOk result (λ items. items.act ≡ []) }
{
    let pick = Touched::new(alloc)?;
    let act = Touched::new(alloc)?;
    Ok(TouchedItems { pick, act })
}

/// The machine of a program before its first pick, on this input, with these arguments behind the program's name. Its
/// objects are placed in this memory, in which nothing was created. It stands for the state that the definitions of runs start from (5.1.2).
pub fn prepare<'p, 'c>(
    alloc: Global,
    program: &'p Program,
    code: &'c Code<'p>,
    input: Bytes,
    args: &[String],
    memory: Memory,
) -> Result<Machine<'p, 'c>, Halt>
    ensures stands { IfOk result (λ machine. IsLawful program.now → length args.now + 1 < 2 ^ 32 → memory ≡ empty memory.rows memory.mode
        → Above 16777216 memory.rows → BeginsAsDefined program.now (map string_bytes args.now) input machine) }
    // The created bytes are what the objects count that stand before the first pick, and nothing was read or written.
    ensures counts { IfOk result (λ machine. IsLawful program.now → length args.now + 1 < 2 ^ 32 → memory ≡ empty memory.rows memory.mode
        → CountsAsDefined program.now (map string_bytes args.now) input machine) }
    // The first rooms hold what `main` is given (5.1.2.2.1p2).
    ensures given { IfOk result (λ machine. IsLawful program.now → memory ≡ empty memory.rows memory.mode
        → HoldsGiven program.now (map string_bytes args.now) machine) }
    // Of each function that has code the labels of its body are kept (6.8.6.1).
    ensures labels { IfOk result (λ machine. KeepsLabels machine.image.code.now machine.jumps) }
    ensures code { IfOk result (λ machine. machine.image.code ≡ code.entry) }
    // Just the frame of `main` is open, with places for its objects, and sees the blocks and the full expressions of its code.
    ensures first { IfOk result (λ machine. IsUnstarted program.now machine) }
{
    let mut first = placed_objects(alloc, program, args, memory)?;
    let vias = vias_of(alloc, code, &mut first.memory)?;
    let fillings = fillings_of(alloc, code, &first.memory, &first.places)?;
    let items = no_items(alloc)?;
    let streams = Streams::new(alloc, input);
    let frame = first_frame(alloc, program, code)?;
    let above = frame.top.above;
    let image = Image {
        code,
        vias,
        fillings,
    };
    let mut machine = assembled(alloc, program, image, streams, first, items, frame);
    machine.grow_locals(above)?;
    Ok(machine)
}

fn assembled<'p, 'c>(
    alloc: Global,
    program: &'p Program,
    image: Image<'p, 'c>,
    streams: Streams,
    first: Placed,
    items: TouchedItems,
    frame: First<'c>,
) -> Machine<'p, 'c>
    ensures program { result.program ≡ program.entry }
    ensures image { result.image ≡ image.entry }
    ensures places { result.places ≡ first.places }
    ensures memory { result.memory ≡ first.memory }
    ensures streams { result.streams ≡ streams }
    ensures below { result.below.items ≡ [] }
    ensures top { result.top ≡ frame.entry.top }
    ensures work { result.work ≡ frame.entry.work }
    ensures entered { result.entered ≡ 0 }
    ensures depth { result.depth ≡ 1 }
    ensures begun { result.begun.items ≡ [] }
    ensures strayed { result.strayed.items ≡ [] }
    ensures values { result.values ≡ first.values }
    ensures jumps { result.jumps ≡ frame.entry.jumps }
    ensures left { result.left ≡ None }
    ensures items { result.items ≡ items.pick }
    ensures spare { result.spare ≡ items.act }
{
    let Placed {
        memory,
        places,
        values,
    } = first;
    let TouchedItems { pick, act } = items;
    let First { top, work, jumps } = frame;
    Machine {
        alloc,
        program,
        image,
        places,
        memory,
        streams,
        below: Vec::new(alloc),
        top,
        work,
        jumps,
        entered: 0,
        depth: 1,
        begun: Vec::new(alloc),
        strayed: Vec::new(alloc),
        values,
        locals: Vec::new(alloc),
        left: None,
        items: pick,
        spare: act,
    }
}
