//! The `switch` statements in a statement.

ghost use Rattle.std.specs.Prelude.{◌≡◌, ◌++◌, map, OnOk};
ghost use Rattle.run_statements.specs.Switches.{switches_in, switches_in_all};

use run_control::{Statement, Switch};
use ub_base::NoMemory;

/// Adds the `switch` statements in a statement, in the order of the text.
#[cycle(collect)]
pub fn switches_of<'p>(
    statement: &'p Statement,
    found: &mut Vec<&'p Switch>,
) -> Result<(), NoMemory>
    ensures { OnOk result (map (λ s. s.now) found.new.items ≡ map (λ s. s.now) found.old.items ++ switches_in statement.now) }
{
    match statement {
        Statement::Block(block) => switches_in(block.statements.as_slice(), found),
        Statement::If(_, yes, no) => {
            switches_of(yes.get(), found)?;
            switches_of(no.get(), found)
        }
        Statement::Switch(switch) => {
            found.push(switch)?;
            switches_of(switch.body.get(), found)
        }
        Statement::Do(again) => switches_of(again.body.get(), found),
        Statement::For(_, round) => switches_of(round.body.get(), found),
        Statement::IfOnly(_, inner) => switches_of(inner.get(), found),
        Statement::Label(_, inner) => switches_of(inner.get(), found),
        Statement::Case(_, inner) => switches_of(inner.get(), found),
        Statement::Default(inner) => switches_of(inner.get(), found),
        Statement::Value(_)
        | Statement::Empty
        | Statement::Declare(_)
        | Statement::Goto(_)
        | Statement::Continue
        | Statement::Break
        | Statement::Return(_)
        | Statement::ReturnNone => Ok(()),
    }
}

#[cycle(collect)]
fn switches_in<'p>(statements: &'p [Statement], found: &mut Vec<&'p Switch>) -> Result<(), NoMemory>
    ensures { OnOk result (map (λ s. s.now) found.new.items ≡ map (λ s. s.now) found.old.items ++ switches_in_all statements.now) }
{
    for statement in statements {
        switches_of(statement, found)?;
    }
    Ok(())
}
