// How many runs had which verdict.
ghost use Rattle.std.specs.Prelude.{◌≡◌, ◌++◌, IfOk, OnOk, decimal};
ghost use Rattle.audit_batch.specs.Batch.{no_runs, counted, tally_after, summary, count_text};

use itoa::Buffer;
use std::alloc::Global;
use ub_base::{Bytes, NoMemory};

/// How many runs had which verdict, and the highest status.
#[derive(Clone, Copy)]
pub struct Tally {
    pub runs: u64,
    pub clean: u64,
    pub undefined: u64,
    pub order_dependent: u64,
    pub out_of_steps: u64,
    pub outside: u64,
    /// Those that weren't run.
    pub refused: u64,
    pub highest: u8,
}

impl Tally {
    /// Of no run.
    pub fn new() -> Self
        ensures { result ≡ no_runs }
    {
        Tally {
            runs: 0,
            clean: 0,
            undefined: 0,
            order_dependent: 0,
            out_of_steps: 0,
            outside: 0,
            refused: 0,
            highest: 0,
        }
    }

    /// With a further run, which ended with this status.
    pub fn after(self, status: u8) -> Self
        ensures { result ≡ tally_after self status }
    {
        Tally {
            runs: self.runs.saturating_add(1),
            highest: self.highest.max(status),
            ..counted(self, status)
        }
    }

    /// The line that says it.
    pub fn summary(self, alloc: Global) -> Result<Bytes, NoMemory>
        ensures { IfOk result (λ text. text ≡ summary self) }
    {
        let mut text = Bytes::from_slice(alloc, b"")?;
        put_count(&mut text, self.runs, b" runs: ")?;
        put_count(&mut text, self.clean, b" clean, ")?;
        put_count(&mut text, self.undefined, b" undefined, ")?;
        put_count(&mut text, self.order_dependent, b" order-dependent, ")?;
        put_count(&mut text, self.out_of_steps, b" out of steps, ")?;
        put_count(&mut text, self.outside, b" outside, ")?;
        put_count(&mut text, self.refused, b" not run\n")?;
        Ok(text)
    }
}

// The verdict that a status stands for is counted.
fn counted(tally: Tally, status: u8) -> Tally
    ensures { result ≡ counted tally status }
{
    if status == 0 {
        let clean = tally.clean.saturating_add(1);
        return Tally { clean, ..tally };
    }
    if status == 1 {
        let undefined = tally.undefined.saturating_add(1);
        return Tally { undefined, ..tally };
    }
    if status == 2 {
        let order_dependent = tally.order_dependent.saturating_add(1);
        return Tally {
            order_dependent,
            ..tally
        };
    }
    if status == 3 {
        let out_of_steps = tally.out_of_steps.saturating_add(1);
        return Tally {
            out_of_steps,
            ..tally
        };
    }
    if status == 4 {
        let outside = tally.outside.saturating_add(1);
        return Tally { outside, ..tally };
    }
    let refused = tally.refused.saturating_add(1);
    Tally { refused, ..tally }
}

fn put_count(text: &mut Bytes, count: u64, of: &[u8]) -> Result<(), NoMemory>
    ensures { OnOk result (text.new ≡ text.old ++ count_text count of.now) }
{
    let mut digits = Buffer::new();
    text.append(digits.format(count).as_bytes())?;
    text.append(of)
}
