// The limit on what is put out.
ghost use Rattle.std.specs.Prelude.{◌≡◌, ◌<◌, ◌≤◌, ◌+◌, ◌^◌, nat_lt, Some, None, Ok, Err, OnOk, IfNone, if◌then◌else◌};
ghost use Rattle.ub_base.specs.declared.clause.Cause.TheVariants.{Output};
ghost use Rattle.mem_spec.specs.Streams.{total};
ghost use Rattle.mem_objects.specs.declared.answer.LibAnswer.TheVariants as answers;

use prov_memory::{LibAnswer, Streams};
use ub_base::Cause;

/// The limit on the bytes of standard output and standard error together (own).
const OUTPUT: u64 = 1 << 24;

// How many bytes would be written in all with so many more, where that passes the limit.
fn output_past(written: u64, more: u64) -> Option<u64>
    ensures past { written + more < 2 ^ 64 → result ≡ (if nat_lt (2 ^ 24) (written + more) then Some (written + more) else None) }
    ensures within { IfNone result (written + more ≤ 2 ^ 24) }
{
    let total = written.saturating_add(more);
    if total > OUTPUT { Some(total) } else { None }
}

/// Whether so many more bytes pass the limit on standard output and standard error together.
pub fn check_output(io: &Streams, more: u64) -> Result<(), LibAnswer>
    ensures within { OnOk result (total io.now.output + more ≤ 2 ^ 24) }
    ensures past { total io.now.output + more < 2 ^ 64 → result ≡
        (if nat_lt (2 ^ 24) (total io.now.output + more) then Err (answers.Outside Output (total io.now.output + more)) else Ok tt) }
{
    match output_past(io.written(), more) {
        Some(total) => Err(LibAnswer::Outside(Cause::Output, total)),
        None => Ok(()),
    }
}
