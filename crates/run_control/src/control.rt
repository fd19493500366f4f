//! What is left to do in all frames, and how each control step changes it.

ghost use Rattle.std.specs.Prelude.{◌≡◌, [], ◌∷◌, ℤ, true, IfOk, OnOk, IsNone, Some};
ghost use Rattle.c_model.specs.Control.{Break_here, ready_work, gone_to, moved_in};
ghost use Rattle.run_control.specs.declared.work.Work.TheVariants as work;
ghost use Rattle.run_control.specs.Stacked.{Closes, innermost};
ghost use Rattle.run_control.specs.View.{Meaning, todo_of, readied, after, is_nothing};
ghost use Rattle.run_control.specs.Moves.{moved};
ghost use Rattle.run_control.specs.Links.{work_from, work_at};

use crate::jumps::{Room, go_in, go_to};
use crate::moves::go;
use crate::{Block, Link, Move, Place, Stack, Statement, Step, Use, Work};
use std::alloc::Global;
use std::marker::Model;
use ub_base::NoMemory;

/// What is left to do in all frames.
#[derive(Drop)]
pub struct Control<'p> {
    stack: Stack<'p>,
    kept: Vec<Work<'p>>,
    room: Room<'p>,
}

impl<'p> Model for Control<'p> {
    ghost use Rattle.run_control.specs.Stacked.{Stacked};
    ghost use Rattle.run_control.specs.contracts.statement.Statement as statement;
    ghost use Rattle.std.specs.Coded.{codes};

    ghost Value = { Stacked };

    ghost coded = { Prim.hlevel (codes, statement.the_row.coded) };

    ghost view = { λ c. c.stack };
}

impl<'p> Control<'p> {
    pub fn new(alloc: Global) -> Control<'p>
        ensures { result ≡ record { below = []; now = [] } }
    {
        Control {
            stack: Stack::new(alloc),
            kept: Vec::new(alloc),
            room: Room::new(alloc),
        }
    }

    /// Starts a frame for a body.
    pub fn start(&mut self, body: &'p Statement) -> Result<(), NoMemory>
        ensures below { OnOk result (self.new.below ≡ self.old.now ∷ self.old.below) }
        ensures now { OnOk result (self.new.now ≡ work.ToDo body.entry ∷ []) }
    {
        self.stack.open()?;
        self.stack.push(Work::ToDo(body))
    }

    /// Starts a frame for an isolated initializer, by the number of its full expression.
    pub fn start_initializer(&mut self, root: u32) -> Result<(), NoMemory>
        ensures below { OnOk result (self.new.below ≡ self.old.now ∷ self.old.below) }
        ensures now { OnOk result (self.new.now ≡ work.Begin root ∷ []) }
    {
        self.stack.open()?;
        self.stack.push(Work::Begin(root))
    }

    /// Ends a frame that has nothing left to do: the one below it goes on, if there is one, which the result tells.
    pub fn finish(&mut self) -> bool
        requires empty { self.old.now ≡ [] }
        ensures { Closes self.old.below result self.new }
    {
        self.stack.close()
    }

    /// Whether nothing is left to do in the top frame. Ends of blocks and of `switch` statements that come first are taken off.
    pub fn is_over(&mut self) -> Result<bool, NoMemory>
        ensures below { OnOk result (self.new.below ≡ self.old.below) }
        ensures now { OnOk result ((m : Meaning) → ready_work (todo_of m self.new.now) ≡ ready_work (todo_of m self.old.now)) }
        ensures over { IfOk result (λ over. (m : Meaning) → over ≡ is_nothing (ready_work (todo_of m self.old.now))) }
        ensures empty { IfOk result (λ over. over ≡ true → self.new.now ≡ []) }
    {
        self.stack.is_over()
    }

    /// The innermost block that the top frame is to leave.
    pub fn block(&self) -> Option<&'p Block>
        ensures { result ≡ innermost self.now.now }
    {
        self.stack.block()
    }

    /// The next control step, which is taken off; none where the frame has nothing left to do.
    pub fn next(&mut self) -> Result<Option<Step<'p>>, NoMemory>
        ensures below { OnOk result (self.new.below ≡ self.old.below) }
        ensures step { IfOk result (λ step. (m : Meaning) → readied m step (todo_of m self.new.now) ≡ ready_work (todo_of m self.old.now)) }
        ensures over { IfOk result (λ step. IsNone step → self.new.now ≡ []) }
    {
        self.stack.next()
    }

    /// After a full expression that isn't the test of a `switch`, by whether its value is true.
    pub fn settle(&mut self, what: Use<'p>, truth: bool) -> Result<(), NoMemory>
        ensures below { OnOk result (self.new.below ≡ self.old.below) }
        ensures now { OnOk result ((m : Meaning) (z : ℤ) → todo_of m self.new.now ≡ after m truth z what.entry (todo_of m self.old.now)) }
    {
        match what {
            Use::Branch(yes, no) => {
                let chosen = if truth { yes } else { no };
                self.stack.push(Work::ToDo(chosen))
            }
            Use::Enter(yes) if truth => self.stack.push(Work::ToDo(yes)),
            Use::GoRound(round) if truth => {
                self.stack.push(Work::Round(round))?;
                self.stack.push(Work::ToDo(round.body.get()))
            }
            Use::GoAgain(again) if truth => {
                self.stack.push(Work::Again(again))?;
                self.stack.push(Work::ToDo(again.body.get()))
            }
            Use::Result => self.go(Move::Back),
            Use::Unused | Use::Enter(_) | Use::GoRound(_) | Use::GoAgain(_) | Use::Select(_) => Ok(
                (),
            ),
        }
    }

    /// Moves, for `break`, `continue` and `return`.
    pub fn go(&mut self, how: Move) -> Result<(), NoMemory>
        ensures below { OnOk result (self.new.below ≡ self.old.below) }
        ensures now { OnOk result ((m : Meaning) → todo_of m self.new.now ≡ moved how (todo_of m self.old.now)) }
    {
        go(&mut self.stack, &mut self.kept, how)
    }

    /// Goes to a label of the frame's function.
    pub fn go_to(&mut self, links: &[Link<'p>], target: Place<'p>) -> Result<(), NoMemory>
        ensures below { OnOk result (self.new.below ≡ self.old.below) }
        ensures now { OnOk result ((m : Meaning) → todo_of m self.new.now ≡ gone_to (todo_of m self.old.now) (Some (todo_of m (work_from links.now
            target.entry)))) }
    {
        go_to(&mut self.stack, &mut self.room, links, target)
    }

    /// After the test of a `switch`: goes to the case, if there is one.
    pub fn select(&mut self, links: &[Link<'p>], target: Option<Place<'p>>) -> Result<(), NoMemory>
        ensures below { OnOk result (self.new.below ≡ self.old.below) }
        ensures now { OnOk result ((m : Meaning) → todo_of m self.new.now ≡ moved_in (work_at m links.now target.entry) (Break_here ∷ todo_of m
            self.old.now)) }
    {
        self.stack.push(Work::BreakHere)?;
        match target {
            Some(place) => go_in(&mut self.stack, &mut self.room, links, place),
            None => Ok(()),
        }
    }
}
