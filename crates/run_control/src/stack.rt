//! The stack of work, which all frames share.

ghost use Rattle.std.specs.Prelude.{◌≡◌, [], ◌∷◌, List, reverse, MatchOption, OnOk};
ghost use Rattle.run_control.specs.declared.work.Work.{Work as WorkOf};
ghost use Rattle.run_control.specs.Stacked.{Closes, innermost, or_else};

use crate::{Block, Work};
use std::alloc::Global;
use std::marker::Model;
use ub_base::NoMemory;

/// What is left to do, of the top frame and of the frames below it.
#[derive(Drop)]
pub struct Stack<'p> {
    items: Vec<Work<'p>>,
    // Where the top frame begins, and the frames below it, the oldest first.
    base: usize,
    bases: Vec<usize>,
}

impl<'p> Model for Stack<'p> {
    ghost use Rattle.std.specs.Prelude.{◌≤◌, length, take, drop, reverse};
    ghost use Rattle.run_control.specs.Stacked.{Stacked, cut, Rise};
    ghost use Rattle.run_control.specs.contracts.statement.Statement as statement;
    ghost use Rattle.std.specs.Coded.{codes};

    ghost Value = { Stacked };

    ghost coded = { Prim.hlevel (codes, statement.the_row.coded) };

    ghost view = { λ s. record { below = cut (take s.base s.items.items) (reverse s.bases.items); now = reverse (drop s.base s.items.items) } };

    ghost invariant = { λ s. (s.base ≤ length s.items.items) × Rise (reverse s.bases.items) s.base };
}

impl<'p> Stack<'p> {
    pub fn new(alloc: Global) -> Stack<'p>
        ensures { result ≡ record { below = []; now = [] } }
    {
        Stack {
            items: Vec::new(alloc),
            base: 0,
            bases: Vec::new(alloc),
        }
    }

    /// Puts work before the rest.
    pub fn push(&mut self, work: Work<'p>) -> Result<(), NoMemory>
        ensures { OnOk result (self.new ≡ record self.old { now = work.entry ∷ self.old.now }) }
    {
        self.items.push(work)?;
        Ok(())
    }

    /// Takes the first piece of work of the top frame.
    pub fn pop(&mut self) -> Option<Work<'p>>
        ensures below { self.new.below ≡ self.old.below }
        ensures taken { MatchOption result ((self.old.now ≡ []) × (self.new.now ≡ [])) (λ work. self.old.now ≡ work ∷ self.new.now) }
    {
        if self.items.len() > self.base {
            self.items.pop()
        } else {
            None
        }
    }

    /// The innermost block that the top frame is to leave.
    pub fn block(&self) -> Option<&'p Block>
        ensures { result ≡ innermost self.now.now }
    {
        innermost_of(&self.items[self.base..])
    }

    /// Starts a frame, which has nothing to do yet.
    pub fn open(&mut self) -> Result<(), NoMemory>
        ensures below { OnOk result (self.new.below ≡ self.old.now ∷ self.old.below) }
        ensures now { OnOk result (self.new.now ≡ []) }
    {
        self.bases.push(self.base)?;
        self.base = self.items.len();
        Ok(())
    }

    /// Ends a frame that has nothing left to do: the one below it goes on, if there is one, which the result tells.
    pub fn close(&mut self) -> bool
        requires empty { self.old.now ≡ [] }
        ensures { Closes self.old.below result self.new }
    {
        match self.bases.pop() {
            Some(base) => {
                self.base = base;
                true
            }
            None => false,
        }
    }
}

// The innermost block that this work leaves, the first piece last.
fn innermost_of<'p>(works: &[Work<'p>]) -> Option<&'p Block>
    ensures { result ≡ innermost (reverse works.now) }
{
    let mut at = works.len();
    while at > 0 {
        at -= 1;
        let Some(work) = works.get(at) else {
            return None;
        };
        if let Some(block) = left_by(*work) {
            return Some(block);
        }
    }
    None
}

// The block that the work leaves.
fn left_by<'p>(work: Work<'p>) -> Option<&'p Block>
    ensures { (rest : List WorkOf) → innermost (work.entry ∷ rest) ≡ or_else result (innermost rest) }
{
    match work {
        Work::Leave(block) => Some(block),
        Work::Enter(_)
        | Work::ToDo(_)
        | Work::Rest(_)
        | Work::Round(_)
        | Work::Again(_)
        | Work::Test(_)
        | Work::BreakHere
        | Work::Begin(_) => None,
    }
}
