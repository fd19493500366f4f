//! The next control step.

ghost use Rattle.std.specs.Prelude.{◌≡◌, [], ◌∷◌, List, true, IfOk, OnOk, IsNone};
ghost use Rattle.run_control.specs.declared.work.Work.{Work as WorkOf};
ghost use Rattle.c_model.specs.Control.{opened, tested, ready_work};
ghost use Rattle.run_control.specs.View.{Meaning, stmt_of, todo_of, step_of, readied, round_of, ReadyFrom, is_nothing, is_nil, IsEnd};

use crate::{Round, Stack, Statement, Step, Use, Work};
use ub_base::NoMemory;

impl<'p> Stack<'p> {
    /// The next control step, which is taken off; none where the frame has nothing left to do.
    pub fn next(&mut self) -> Result<Option<Step<'p>>, NoMemory>
        ensures below { OnOk result (self.new.below ≡ self.old.below) }
        ensures step { IfOk result (λ step. (m : Meaning) → readied m step (todo_of m self.new.now) ≡ ready_work (todo_of m self.old.now)) }
        ensures over { IfOk result (λ step. IsNone step → self.new.now ≡ []) }
    {
        while let Some(work) = self.pop() {
            if let Some(step) = self.ready(work)? {
                return Ok(Some(step));
            }
        }
        Ok(None)
    }

    /// Whether nothing is left to do. Ends of blocks and of `switch` statements that come first are taken off.
    pub fn is_over(&mut self) -> Result<bool, NoMemory>
        ensures below { OnOk result (self.new.below ≡ self.old.below) }
        ensures now { OnOk result ((m : Meaning) → ready_work (todo_of m self.new.now) ≡ ready_work (todo_of m self.old.now)) }
        ensures over { IfOk result (λ over. (m : Meaning) → over ≡ is_nothing (ready_work (todo_of m self.old.now))) }
        ensures empty { IfOk result (λ over. over ≡ true → self.new.now ≡ []) }
    {
        while let Some(work) = self.pop() {
            if !is_end(work) {
                self.push(work)?;
                return Ok(false);
            }
        }
        Ok(true)
    }

    // The step that a piece of work begins with; none where it has none.
    fn ready(&mut self, work: Work<'p>) -> Result<Option<Step<'p>>, NoMemory>
        ensures below { OnOk result (self.new.below ≡ self.old.below) }
        ensures step { IfOk result (λ step. (m : Meaning) → ReadyFrom m work.entry step self.old.now self.new.now) }
        ensures passed { IfOk result (λ step. IsNone step → self.new ≡ self.old) }
    {
        match work {
            Work::ToDo(statement) => Ok(Some(self.begin(statement)?)),
            Work::Rest([first, rest @ ..]) => {
                self.push(Work::Rest(rest))?;
                Ok(Some(self.begin(first)?))
            }
            Work::Rest([]) | Work::BreakHere => Ok(None),
            Work::Begin(root) => Ok(Some(Step::Begin(root, Use::Unused))),
            Work::Leave(block) => Ok(Some(Step::Leave(block))),
            Work::Enter(block) => Ok(Some(Step::Enter(block))),
            Work::Round(round) => Ok(Some(self.go_on(round)?)),
            Work::Again(again) => Ok(Some(Step::Begin(again.test, Use::GoAgain(again)))),
            Work::Test(round) => Ok(Some(self.test(round)?)),
        }
    }

    // The first step of a statement; the rest of its work is put before other work.
    fn begin(&mut self, statement: &'p Statement) -> Result<Step<'p>, NoMemory>
        ensures below { OnOk result (self.new.below ≡ self.old.below) }
        ensures step { IfOk result (λ step. (m : Meaning) → step_of m step ∷ todo_of m self.new.now
            ≡ opened (stmt_of m statement.now) (todo_of m self.old.now)) }
    {
        match statement {
            Statement::Value(root) => Ok(Step::Begin(*root, Use::Unused)),
            Statement::Empty => Ok(Step::Nothing),
            Statement::Declare(object) => Ok(Step::Unwrite(*object)),
            Statement::Block(block) => {
                self.push(Work::Leave(block))?;
                self.push(Work::Rest(block.statements.as_slice()))?;
                Ok(Step::Enter(block))
            }
            Statement::If(test, yes, no) => Ok(Step::Begin(
                *test,
                Use::Branch(yes.get(), no.get()),
            )),
            Statement::IfOnly(test, yes) => Ok(Step::Begin(*test, Use::Enter(yes.get()))),
            Statement::Switch(switch) => Ok(Step::Begin(switch.test, Use::Select(switch))),
            Statement::Do(again) => {
                self.push(Work::Again(again))?;
                self.begin(again.body.get())
            }
            Statement::For(Some(start), round) => {
                self.push(Work::Test(round))?;
                Ok(Step::Begin(*start, Use::Unused))
            }
            Statement::For(None, round) => match round.test {
                Some(test) => Ok(Step::Begin(test, Use::GoRound(round))),
                None => {
                    self.push(Work::Round(round))?;
                    self.begin(round.body.get())
                }
            },
            Statement::Goto(label) => Ok(Step::GoTo(*label)),
            Statement::Continue => Ok(Step::GoOn),
            Statement::Break => Ok(Step::GoOut),
            Statement::Return(root) => Ok(Step::Begin(*root, Use::Result)),
            Statement::ReturnNone => Ok(Step::GoBack),
            Statement::Label(_, inner) | Statement::Case(_, inner) | Statement::Default(inner) => {
                self.begin(inner.get())
            }
        }
    }

    // The test of a loop, or the first step of its body.
    fn test(&mut self, round: &'p Round) -> Result<Step<'p>, NoMemory>
        ensures below { OnOk result (self.new.below ≡ self.old.below) }
        ensures step { IfOk result (λ step. (m : Meaning) → step_of m step ∷ todo_of m self.new.now
            ≡ tested (round_of m round.now).test (round_of m round.now).step (round_of m round.now).body (todo_of m self.old.now)) }
    {
        match round.test {
            Some(test) => Ok(Step::Begin(test, Use::GoRound(round))),
            None => {
                self.push(Work::Round(round))?;
                self.begin(round.body.get())
            }
        }
    }

    // What comes after the body of a loop.
    fn go_on(&mut self, round: &'p Round) -> Result<Step<'p>, NoMemory>
        ensures below { OnOk result (self.new.below ≡ self.old.below) }
        ensures step { IfOk result (λ step. (m : Meaning) → step_of m step ∷ todo_of m self.new.now
            ≡ ready_work (todo_of m (Work.Round round.entry ∷ self.old.now))) }
    {
        match round.step {
            Some(step) => {
                self.push(Work::Test(round))?;
                Ok(Step::Begin(step, Use::Unused))
            }
            None => self.test(round),
        }
    }
}

// Whether the work is no step: the end of a block, or of a `switch`.
#[tactic(auto, using(crate::proofs::Searches::opened_some, crate::proofs::Searches::tested_some))]
fn is_end<'p>(work: Work<'p>) -> bool
    ensures { (m : Meaning) (rest : List WorkOf) → IsEnd m work.entry result rest }
{
    match work {
        Work::Rest(statements) => is_empty(statements),
        Work::BreakHere => true,
        Work::ToDo(_)
        | Work::Begin(_)
        | Work::Leave(_)
        | Work::Enter(_)
        | Work::Round(_)
        | Work::Again(_)
        | Work::Test(_) => false,
    }
}

fn is_empty(statements: &[Statement]) -> bool
    ensures { result ≡ is_nil statements.now }
{
    match statements {
        [] => true,
        [_, ..] => false,
    }
}
