//! `break`, `continue` and `return`, which leave the blocks on their way.

ghost use Rattle.std.specs.Prelude.{◌≡◌, [], ◌∷◌, ◌++◌, List, OnOk};
ghost use Rattle.run_control.specs.declared.work.Work.{Work};
ghost use Rattle.run_control.specs.View.{Meaning, todo_of};
ghost use Rattle.run_control.specs.Moves.{moved, Becomes};

use crate::{Stack, Work};
use ub_base::NoMemory;

/// Where a move goes: past the loop or `switch` round it, on with the loop round it, or out of the function.
#[derive(Clone, Copy)]
pub enum Move {
    Out,
    On,
    Back,
}

// What becomes of a piece of work on the way: it stays to be done, is passed over, or ends the move, which goes past it or
// to it.
#[derive(Clone, Copy)]
enum Fate {
    Keep,
    Skip,
    Past,
    At,
}

fn fate_of<'p>(how: Move, work: Work<'p>) -> Fate
    ensures { (m : Meaning) (rest : List Work) → Becomes m how work.entry result rest }
{
    match work {
        Work::Leave(_) => Fate::Keep,
        Work::Round(_) | Work::Again(_) => match how {
            Move::Out => Fate::Past,
            Move::On => Fate::At,
            Move::Back => Fate::Skip,
        },
        Work::BreakHere => match how {
            Move::Out => Fate::Past,
            Move::On | Move::Back => Fate::Skip,
        },
        Work::Begin(_) | Work::Enter(_) | Work::ToDo(_) | Work::Rest(_) | Work::Test(_) =>
            Fate::Skip,
    }
}

// The kept work, the first piece first, goes before the rest.
pub fn put_back<'p>(stack: &mut Stack<'p>, kept: &mut Vec<Work<'p>>) -> Result<(), NoMemory>
    ensures below { OnOk result (stack.new.below ≡ stack.old.below) }
    ensures now { OnOk result (stack.new.now ≡ kept.old.items ++ stack.old.now) }
{
    while let Some(work) = kept.pop() {
        stack.push(work)?;
    }
    Ok(())
}

/// Moves; `kept` is room for what is kept on the way.
pub fn go<'p>(stack: &mut Stack<'p>, kept: &mut Vec<Work<'p>>, how: Move) -> Result<(), NoMemory>
    ensures below { OnOk result (stack.new.below ≡ stack.old.below) }
    ensures now { OnOk result ((m : Meaning) → todo_of m stack.new.now ≡ moved how (todo_of m stack.old.now)) }
{
    kept.clear();
    while let Some(work) = stack.pop() {
        match fate_of(how, work) {
            Fate::Keep => kept.push(work)?,
            Fate::Skip => {}
            Fate::Past => return put_back(stack, kept),
            Fate::At => {
                stack.push(work)?;
                return put_back(stack, kept);
            }
        }
    }
    put_back(stack, kept)
}
