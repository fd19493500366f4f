// The labels of a `switch` (6.8.4.2).
ghost use Rattle.std.specs.Prelude.{◌≡◌, ◌||◌, ◌==◌, ℕ, not, IfOk, OnOk};
ghost use Rattle.std.specs.BTreeSet.{contains};
ghost use Rattle.std.specs.Ordering.{nat_cmp};
ghost use Rattle.type_values.specs.Labels.{number_of};

use c_arith::convert;
use c_types::IntKind;
use std::collections::BTreeSet;
use ub_base::NoMemory;

// The number that stands for the value of a label in the set of a `switch`.
fn number_of(value: i128) -> u64
    ensures { result ≡ number_of value }
{
    u64::try_from(convert(IntKind::ULong, value)).unwrap_or(0)
}

/// Takes the value of a label into those of its `switch`; false where another label has it already (6.8.4.2p3).
pub fn take_label(values: &mut BTreeSet<u64>, value: i128) -> Result<bool, NoMemory>
    ensures fresh { IfOk result (λ fresh. fresh ≡ not (contains nat_cmp values.old (number_of value))) }
    ensures taken { OnOk result ((n : ℕ) → contains nat_cmp values.new n ≡ (contains nat_cmp values.old n || n == number_of value)) }
{
    Ok(values.insert(number_of(value))?)
}
