// How an order ends.
ghost use Rattle.std.specs.Prelude.{◌≡◌, ◌≢◌, ◌↔◌, IsTrue};

use ub_base::{Bytes, Cause, Clause};

/// How a run ends that follows an order.
#[derive(Drop)]
pub enum End {
    /// With its status, and what it wrote to standard output and to standard error.
    Ended {
        status: u8,
        output: Bytes,
        errors: Bytes,
    },
    Raised(Clause),
    OutOfSteps,
    /// The next pick, or the start, would pass the limit, with the number that would be reached.
    Outside(Cause, u64),
    /// An object's row has another size or alignment.
    Unplaced,
}

/// Whether two ends differ.
pub fn differ(end: &End, other: &End) -> bool
    ensures { IsTrue result ↔ (other.now ≢ end.now) }
{
    !are_equal(end, other)
}

fn are_equal(end: &End, other: &End) -> bool
    ensures { IsTrue result ↔ (other.now ≡ end.now) }
{
    match end {
        End::Ended {
            status,
            output,
            errors,
        } => is_ended(other, *status, output, errors),
        End::Raised(clause) => is_raised(other, *clause),
        End::OutOfSteps => is_out_of_steps(other),
        End::Outside(cause, number) => is_outside(other, *cause, *number),
        End::Unplaced => is_unplaced(other),
    }
}

fn is_ended(end: &End, status: u8, output: &Bytes, errors: &Bytes) -> bool
    ensures { IsTrue result ↔ (end.now ≡ End.Ended status output.now errors.now) }
{
    match end {
        End::Ended {
            status: found,
            output: put,
            errors: told,
        } => {
            if *found != status {
                return false;
            }
            if !same_bytes(put, output) {
                return false;
            }
            same_bytes(told, errors)
        }
        _ => false,
    }
}

fn is_raised(end: &End, clause: Clause) -> bool
    ensures { IsTrue result ↔ (end.now ≡ End.Raised clause) }
{
    match end {
        End::Raised(raised) => same_clause(*raised, clause),
        _ => false,
    }
}

fn is_out_of_steps(end: &End) -> bool
    ensures { IsTrue result ↔ (end.now ≡ End.OutOfSteps) }
{
    match end {
        End::OutOfSteps => true,
        _ => false,
    }
}

fn is_outside(end: &End, cause: Cause, number: u64) -> bool
    ensures { IsTrue result ↔ (end.now ≡ End.Outside cause number) }
{
    match end {
        End::Outside(passed, reached) => {
            if *reached != number {
                return false;
            }
            same_cause(*passed, cause)
        }
        _ => false,
    }
}

fn is_unplaced(end: &End) -> bool
    ensures { IsTrue result ↔ (end.now ≡ End.Unplaced) }
{
    match end {
        End::Unplaced => true,
        _ => false,
    }
}

fn same_bytes(bytes: &Bytes, others: &Bytes) -> bool
    ensures { IsTrue result ↔ (bytes.now ≡ others.now) }
{
    bytes.as_slice() == others.as_slice()
}

fn same_clause(clause: Clause, other: Clause) -> bool
    ensures { IsTrue result ↔ (clause ≡ other) }
{
    clause == other
}

fn same_cause(cause: Cause, other: Cause) -> bool
    ensures { IsTrue result ↔ (cause ≡ other) }
{
    cause == other
}
