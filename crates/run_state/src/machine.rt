// The state of a run.
ghost use Rattle.std.specs.Prelude.{◌≡◌, ◌≢◌, ◌+◌, ◌-◌, ◌^◌, ◌<◌, ◌≤◌, min, ℕ, Some, IfOk, OnOk, length, option_copied, slice_get};
ghost use Rattle.c_model.specs.Values as model;
ghost use Rattle.c_model.specs.Values.{integer_of, pointer_of};
ghost use Rattle.mem_objects.specs.Memory.{Kept};
ghost use Rattle.mem_objects.specs.declared.value.Value.{Value as Kept_value};
ghost use Rattle.run_values.specs.Views.{value_in, pointer_at};
ghost use Rattle.run_layout.specs.declared.steps.Operand.TheVariants as operands;
ghost use Rattle.run_state.specs.Operands.{operand_in};
ghost use Rattle.run_state.specs.declared.machine.Local.{Local as LocalOf};

use crate::image::Image;
use crate::watch::{Begun, View};
use addr_map::AddrMap;
use c_typed::Program;
use prov_memory::{Memory, Outputs, Streams, Touched, Value};
use run_control::{Control, Use};
use run_layout::{Operand, Range};
use run_statements::Jumps;
use run_values::{Places, Pointer, as_integer, as_pointer, pointer_to, truth};
use seq_order::Done;
use std::alloc::Global;
use ub_base::{Frame, Frames, NoMemory, ObjName};

// A full expression that has begun and isn't settled.
#[derive(Clone, Copy, Debug)]
pub struct Stage {
    pub expression: u32,
    // Where its listing begins, where the next entry of it stands, and where it ends.
    pub first: usize,
    pub cursor: usize,
    pub end: usize,
    // Each event so far was the canonical one, so that those done are those that the cursor has passed.
    pub straight: bool,
    // Where its value comes from.
    pub value: Operand,
}

// An open frame.
#[derive(Clone, Copy)]
pub struct Open<'c> {
    // Its number, from the end of the pick on that starts it.
    pub frame: Frame,
    pub turn: u64,
    pub stage: Option<Stage>,
    // What the value of its full expression is for.
    pub how: Use<'c>,
    // Where the values of its full expression begin, and how many there are.
    pub base: usize,
    pub rooms: u32,
    // Where its automatic objects stand, and where those of the frames above.
    pub locals: usize,
    pub above: usize,
    // The function, where the frame is no isolated initializer's.
    pub function: Option<u32>,
    // The first block of the function whose objects it sees, and its full expressions.
    pub blocks: u32,
    pub expressions: Range,
    // The node of the frame below that started it.
    pub node: u32,
}

// An automatic object.
#[derive(Clone, Copy)]
pub struct Local {
    pub addr: u64,
    pub name: ObjName,
}

/// The state of a run: its open frames, the values of their full expressions, and memory.
#[derive(Drop)]
pub struct Machine<'p, 'c> {
    pub alloc: Global,
    pub program: &'p Program,
    pub image: Image<'p, 'c>,
    pub places: Places,
    pub memory: Memory,
    pub streams: Streams,
    pub below: Vec<Open<'c>>,
    pub top: Open<'c>,
    // What is left to do in each open frame, and where jumps go.
    pub work: Control<'c>,
    pub jumps: Jumps<'c>,
    // The number in its function of the block that was entered last.
    pub entered: u32,
    // How many frames of functions are open.
    pub depth: u64,
    // For each open frame its full expression, and what is done in it where its order isn't the canonical one.
    pub begun: Vec<Begun<'p>>,
    pub strayed: Vec<Done>,
    pub values: Vec<Value>,
    pub locals: Vec<Local>,
    // The result of the top frame, once it has one.
    pub left: Option<Value>,
    // What the pick touches, and what one act of it touches.
    pub items: Touched,
    pub spare: Touched,
}

impl<'p, 'c> Machine<'p, 'c> {
    /// The number of the frame that the last pick started.
    pub fn start(&mut self, frame: Frame)
        ensures { self.new ≡ record self.old { top = record self.old.top { frame = frame } } }
    {
        self.top.frame = frame;
    }

    /// What was written to standard output and to standard error, and the map, of a run that has ended.
    pub fn into_output_and_map(self) -> (Outputs, AddrMap) {
        let Machine {
            memory,
            streams,
            ..
        } = self;
        (streams.into_output(), memory.into_map())
    }

    // The value of a node of the open full expression.
    #[inline(always)]
    fn done(&self, node: u32) -> Option<&Value>
        ensures { option_copied result ≡ slice_get self.now.values.items (self.now.top.base + node) }
    {
        self.values.get(self.top.base.saturating_add(node as usize))
    }

    #[inline(always)]
    pub fn local(&self, object: u32, offset: u64) -> Pointer
        ensures { (h : Kept_value) → operand_in self.now (operands.Local object offset) ≡ Some h → (m : Kept) → pointer_at result ≡ pointer_of (value_in m h) }
    {
        match self
            .locals
            .get(self.top.locals.saturating_add(object as usize))
        {
            Some(local) => pointer_to(local.name, local.addr, offset),
            None => Pointer::null(),
        }
    }

    #[inline(always)]
    pub fn pointer(&self, operand: Operand) -> Pointer
        ensures { (h : Kept_value) → operand_in self.now operand ≡ Some h → (m : Kept) → pointer_at result ≡ pointer_of (value_in m h) }
    {
        match operand {
            Operand::Local { object, offset } => self.local(object, offset),
            Operand::Done(node) => match self.done(node) {
                Some(value) => as_pointer(value),
                None => Pointer::null(),
            },
            Operand::Static { object, offset } => self.places.object(object, offset),
            Operand::Literal { object, offset } => self.places.literal(object, offset),
            Operand::Address(addr) => Pointer {
                addr,
                prov: exposure::Prov::Empty,
            },
            Operand::Integer(_) | Operand::Function(_) => Pointer::null(),
        }
    }

    #[inline(always)]
    pub fn integer(&self, operand: Operand) -> i128
        ensures { (h : Kept_value) → operand_in self.now operand ≡ Some h → (m : Kept) → result ≡ integer_of (value_in m h) }
    {
        match operand {
            Operand::Integer(number) => number,
            Operand::Done(node) => match self.done(node) {
                Some(value) => as_integer(value),
                None => 0,
            },
            _ => 0,
        }
    }

    #[inline(always)]
    pub fn truth(&self, operand: Operand) -> bool
        ensures { (h : Kept_value) → operand_in self.now operand ≡ Some h → (m : Kept) → result ≡ model.truth (value_in m h) }
    {
        match operand {
            Operand::Integer(number) => number != 0,
            Operand::Function(addr) => addr != 0,
            Operand::Done(node) => match self.done(node) {
                Some(value) => truth(value),
                None => true,
            },
            _ => self.pointer(operand).addr != 0,
        }
    }

    // A copy of an operand's value.
    #[inline(always)]
    pub fn value(&self, operand: Operand) -> Result<Value, NoMemory>
        ensures { IfOk result (λ v. (h : Kept_value) → operand_in self.now operand ≡ Some h → v ≡ h) }
    {
        match operand {
            Operand::Integer(number) => Ok(Value::Int(number)),
            Operand::Function(addr) => Ok(Value::Func(addr)),
            Operand::Done(node) => match self.done(node) {
                Some(value) => value.copied(self.alloc),
                None => Ok(Value::Nothing),
            },
            _ => Ok(self.pointer(operand).value()),
        }
    }

    // Gives a room of the open full expression its value. Inlined, so that of an integer no more is written than it has.
    #[inline(always)]
    pub fn keep(&mut self, room: u32, value: Value)
        ensures rest { self.new ≡ record self.old { values = self.new.values } }
        ensures room { self.old.top.base + room < length self.old.values.items → slice_get self.new.values.items (self.old.top.base + room) ≡ Some value }
        ensures others { (j : ℕ) → j ≢ self.old.top.base + room → slice_get self.new.values.items j ≡ slice_get self.old.values.items j }
        ensures count { length self.new.values.items ≡ length self.old.values.items }
    {
        let at = self.top.base.saturating_add(room as usize);
        self.put(at, value);
    }

    #[inline(always)]
    pub fn put(&mut self, at: usize, value: Value)
        ensures rest { self.new ≡ record self.old { values = self.new.values } }
        ensures room { at < length self.old.values.items → slice_get self.new.values.items at ≡ Some value }
        ensures others { (j : ℕ) → j ≢ at → slice_get self.new.values.items j ≡ slice_get self.old.values.items j }
        ensures count { length self.new.values.items ≡ length self.old.values.items }
    {
        if let Some(place) = self.values.get_mut(at) {
            *place = value;
        }
    }

    // Takes the value out of a room.
    pub fn take(&mut self, room: u32) -> Value
        ensures rest { self.new ≡ record self.old { values = self.new.values } }
        ensures room { (h : Kept_value) → slice_get self.old.values.items (self.old.top.base + room) ≡ Some h → result ≡ h }
        ensures others { (j : ℕ) → j ≢ self.old.top.base + room → slice_get self.new.values.items j ≡ slice_get self.old.values.items j }
        ensures count { length self.new.values.items ≡ length self.old.values.items }
    {
        let at = self.top.base.saturating_add(room as usize);
        match self.values.get_mut(at) {
            Some(place) => std::mem::replace(place, Value::Nothing),
            None => Value::Nothing,
        }
    }

    // Makes room for so many values.
    pub fn grow(&mut self, size: usize) -> Result<(), NoMemory>
        ensures rest { self.new ≡ record self.old { values = self.new.values } }
        ensures kept { (j : ℕ) (h : Kept_value) → slice_get self.old.values.items j ≡ Some h → slice_get self.new.values.items j ≡ Some h }
        ensures count { OnOk result (size ≤ length self.new.values.items) }
        ensures fewest { length self.old.values.items ≤ length self.new.values.items }
    {
        for room in self.values.len()..size {
            self.values.push(Value::Nothing)?;
        }
        Ok(())
    }

    pub fn grow_locals(&mut self, size: usize) -> Result<(), NoMemory>
        ensures rest { self.new ≡ record self.old { locals = self.new.locals } }
        ensures kept { (j : ℕ) (l : LocalOf) → slice_get self.old.locals.items j ≡ Some l → slice_get self.new.locals.items j ≡ Some l }
        ensures count { OnOk result (size ≤ length self.new.locals.items) }
        ensures fewest { length self.old.locals.items ≤ length self.new.locals.items }
    {
        for _ in self.locals.len()..size {
            self.locals.push(Local {
                addr: 0,
                name: ObjName::Argv,
            })?;
        }
        Ok(())
    }

    // An automatic object of the top frame stands here.
    pub fn place_local(&mut self, object: u32, local: Local) -> Result<(), NoMemory>
        ensures { self.new ≡ record self.old { locals = self.new.locals } }
    {
        let at = self.top.locals.saturating_add(object as usize);
        match self.locals.get_mut(at) {
            Some(place) => {
                *place = local;
                Ok(())
            }
            None => Err(NoMemory),
        }
    }

    pub fn local_name(&self, object: u32) -> Result<ObjName, NoMemory>
        ensures { IfOk result (λ name. (l : LocalOf) × (slice_get self.now.locals.items (min (self.now.top.locals + object) (2 ^ 64 - 1)) ≡ Some l)
            × (l.name ≡ name)) }
    {
        let at = self.top.locals.saturating_add(object as usize);
        match self.locals.get(at) {
            Some(local) => Ok(local.name),
            None => Err(NoMemory),
        }
    }

    /// The full expressions that have begun and aren't settled, from the frame of `main` on.
    pub fn shown(&self) -> &[Begun<'p>] {
        let below = self.below.len();
        let open = match self.top.stage {
            Some(_) => below.saturating_add(1),
            None => below,
        };
        &self.begun[..open.min(self.begun.len())]
    }

    /// The full expression that a control step has just settled.
    pub fn settled(&self) -> Option<&Begun<'p>> {
        self.begun.get(self.shown().len())
    }

    /// What is shown of the run, with these frames.
    pub fn view<'v>(&'v self, frames: &'v Frames) -> View<'v, 'p> {
        View {
            frames,
            map: self.memory.map(),
            program: self.program,
            begun: self.shown(),
            top: self.top.frame,
        }
    }
}
