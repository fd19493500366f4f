// Numbers of nodes, and of what stands in a table.
ghost use Rattle.std.specs.Prelude.{◌≡◌, ◌+◌, ◌-◌, ◌^◌, ◌≤◌, ◌<◌, min, length, IfOk, OnOk};
ghost use Rattle.run_layout.specs.InRange.{IsRange};

use crate::steps::Range;
use ub_base::NoMemory;

// A count as a number.
pub fn number_of(count: usize) -> Result<u32, NoMemory>
    ensures { IfOk result (λ n. n ≡ count) }
{
    match u32::try_from(count) {
        Ok(number) => Ok(number),
        Err(_) => Err(NoMemory),
    }
}

// As many more.
pub fn number_with(number: u32, more: u32) -> Result<u32, NoMemory>
    ensures sum { IfOk result (λ n. n ≡ number + more) }
    ensures few { IfOk result (λ n. n < 2 ^ 32) }
{
    match number.checked_add(more) {
        Some(sum) => Ok(sum),
        None => Err(NoMemory),
    }
}

// The number of what comes next in a table.
pub fn next_number<T>(items: &Vec<T>) -> Result<u32, NoMemory>
    ensures { IfOk result (λ n. n ≡ length items.now.items) }
{
    number_of(items.len())
}

// What stands in a table from this entry on.
pub fn range_from<T>(items: &Vec<T>, first: u32) -> Result<Range, NoMemory>
    requires { first ≤ length items.now.items }
    ensures within { IfOk result (IsRange (length items.now.items)) }
    ensures few { OnOk result (length items.now.items < 2 ^ 32) }
    ensures whole { IfOk result (λ r. (r.first ≡ first) × (r.first + r.count ≡ length items.now.items)) }
{
    let end = next_number(items)?;
    Ok(Range {
        first,
        count: end - first,
    })
}
