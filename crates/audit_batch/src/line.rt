// The line of a run.
ghost use Rattle.std.specs.Prelude.{◌≡◌, ◌++◌, IfOk, OnOk, option_copied};
ghost use Rattle.audit_batch.specs.Batch.{input_text, run_line};

use std::alloc::Global;
use ub_base::{Bytes, NoMemory};

// The input of a run, where it has one.
fn put_input(text: &mut Bytes, input: Option<&str>) -> Result<(), NoMemory>
    ensures { OnOk result (text.new ≡ text.old ++ input_text (option_copied input.entry)) }
{
    match input {
        Some(name) => {
            text.append(b" < ")?;
            text.append(name.as_bytes())
        }
        None => text.append(b""),
    }
}

/// The line of a run that is said to be this.
pub fn run_line(
    alloc: Global,
    program: &str,
    input: Option<&str>,
    said: &[u8],
) -> Result<Bytes, NoMemory>
    ensures { IfOk result (λ text. text ≡ run_line program.now (option_copied input.entry) said.now) }
{
    let mut text = Bytes::from_slice(alloc, program.as_bytes())?;
    put_input(&mut text, input)?;
    text.append(b": ")?;
    text.append(said)?;
    text.append(b"\n")?;
    Ok(text)
}
