// The value of an expression, and the verdict on a unit.
ghost use Rattle.std.specs.Prelude.{◌≡◌, ◌≤◌, IfSome};
ghost use Rattle.audit_verdict.specs.Answer.{verdict};
ghost use Rattle.audit_verdict.specs.Value.{in_int, outcome, value, exit_status};

use crate::answer::Answer;
use first_form::{Operator, ReturnUnit};
use ub_base::Clause;

fn in_int(value: i64) -> Result<i64, Clause>
    ensures { result ≡ in_int value }
{
    if value >= -2147483648 && value <= 2147483647 {
        Ok(value)
    } else {
        Err(Clause::Exceptional)
    }
}

fn outcome(op: Operator, left: u32, right: u32) -> Result<i64, Clause>
    requires left { left ≤ 2147483647 }
    requires right { right ≤ 2147483647 }
    ensures { result ≡ outcome op left right }
{
    let a = i64::from(left);
    let b = i64::from(right);
    match op {
        Operator::Add => in_int(a + b),
        Operator::Sub => in_int(a - b),
        Operator::Mul => in_int(a * b),
        Operator::Div => {
            if right == 0 {
                return Err(Clause::DivideByZero);
            }
            Ok(i64::from(left / right))
        }
        Operator::Rem => {
            if right == 0 {
                return Err(Clause::DivideByZero);
            }
            Ok(i64::from(left % right))
        }
    }
}

fn exit_status(value: i64) -> u8
    ensures { result ≡ exit_status value }
{
    value.rem_euclid(256).unsigned_abs() as u8
}

fn unit_value(unit: ReturnUnit) -> Result<i64, Clause>
    requires left { unit.left ≤ 2147483647 }
    requires right { IfSome unit.rest (λ rest. rest.1 ≤ 2147483647) }
    ensures { result ≡ value unit }
{
    match unit.rest {
        None => Ok(i64::from(unit.left)),
        Some((op, right)) => outcome(op, unit.left, right),
    }
}

/// The verdict on a unit: clean with its status, or the clause that its operator breaks.
pub fn verdict(unit: ReturnUnit) -> Answer
    requires left { unit.left ≤ 2147483647 }
    requires right { IfSome unit.rest (λ rest. rest.1 ≤ 2147483647) }
    ensures { result ≡ verdict unit }
{
    match unit_value(unit) {
        Ok(value) => Answer::Clean {
            status: exit_status(value),
        },
        Err(clause) => Answer::Undefined {
            clause,
            line: unit.line,
        },
    }
}
