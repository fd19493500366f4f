// Lists in which no element stands twice.
ghost use Rattle.std.specs.Prelude.{◌≡◌, ◌≢◌, ℕ, true, IsTrue, IfOk};
ghost use Rattle.std.specs.BTreeSet.{contains};
ghost use Rattle.std.specs.List.{All, AllPairs, Contains};
ghost use Rattle.std.specs.Ordering.{nat_cmp};

use std::alloc::{AllocError, Global};
use std::collections::BTreeSet;

/// Whether no element stands twice in the list.
pub(crate) fn are_distinct<K: Ord + Copy + Drop>(
    alloc: Global,
    items: &[K],
) -> Result<bool, AllocError>
    ensures { IfOk result (λ b. IsTrue b → AllPairs ◌≢◌ items.now) }
{
    let mut seen = BTreeSet::new(alloc);
    for item in items {
        if !seen.insert(*item)? {
            return Ok(false);
        }
    }
    Ok(true)
}

/// Whether each number is one of these labels.
pub(crate) fn are_in(alloc: Global, labels: &[u32], numbers: &[u32]) -> Result<bool, AllocError>
    ensures { IfOk result (λ b. IsTrue b → All (Contains labels.now) numbers.now) }
{
    let known = set_of(alloc, labels)?;
    for number in numbers {
        if !known.contains(number) {
            return Ok(false);
        }
    }
    Ok(true)
}

fn set_of(alloc: Global, labels: &[u32]) -> Result<BTreeSet<u32>, AllocError>
    ensures { IfOk result (λ set. (n : ℕ) → contains nat_cmp set n ≡ true → Contains labels.now n) }
{
    let mut set = BTreeSet::new(alloc);
    for label in labels {
        let _fresh = set.insert(*label)?;
    }
    Ok(set)
}
