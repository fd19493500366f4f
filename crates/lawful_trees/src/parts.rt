// The parts of an object: inside it, and none over another (6.7.9).
ghost use Rattle.std.specs.Prelude.{◌≡◌, ◌≤◌, List, IsTrue, IfOk, map};
ghost use Rattle.std.specs.List.{All, AllPairs};
ghost use Rattle.c_typed.specs.declared.program.Constant.{Constant};
ghost use Rattle.c_typed.specs.Lawful.{length_of, end_of, PartsFit};
ghost use Rattle.lawful_trees.specs.Parts.{range_of, AreApart};

use c_typed::{Constant, Content};
use std::alloc::Global;
use ub_base::NoMemory;

fn length_of(content: &Content) -> u64
    ensures { result ≡ length_of content.now }
{
    match content {
        Content::Zeros(count) => *count,
        Content::Bytes(bytes) => bytes.len() as u64,
        Content::Address { .. } => 8,
    }
}

fn range_of(constant: &Constant) -> (u128, u128)
    ensures { result ≡ range_of constant.now }
{
    let begin = u128::from(constant.at);
    (begin, begin + u128::from(length_of(&constant.content)))
}

// Where the constants begin and end.
pub fn ranges_of(alloc: Global, constants: &[Constant]) -> Result<Vec<(u128, u128)>, NoMemory>
    ensures { IfOk result (λ ranges. ranges.items ≡ map range_of constants.now) }
{
    let mut ranges = Vec::new(alloc);
    for constant in constants {
        ranges.push(range_of(constant))?;
    }
    Ok(ranges)
}

fn are_inside(size: u64, ranges: &[(u128, u128)]) -> bool
    ensures { IsTrue result → All (λ r. r.1 ≤ size) ranges.now }
{
    for range in ranges {
        if range.1 > u128::from(size) {
            return false;
        }
    }
    true
}

// Whether each begins where all before it end, or later.
fn follow(ranges: &[(u128, u128)]) -> bool
    ensures { IsTrue result → AllPairs AreApart ranges.now }
{
    let mut end = 0;
    for range in ranges {
        if range.0 < end {
            return false;
        }
        end = end.max(range.1);
    }
    true
}

/// Whether parts of these ranges lie in an object of so many bytes, none over another, in whatever order they stand.
pub fn ranges_fit(size: u64, mut ranges: Vec<(u128, u128)>) -> Result<bool, NoMemory>
    ensures { IfOk result (λ b. IsTrue b → (constants : List Constant) → ranges.items ≡ map range_of constants → PartsFit size constants) }
{
    if !are_inside(size, &ranges) {
        return Ok(false);
    }
    ranges.sort()?;
    Ok(follow(&ranges))
}

/// Whether the parts of an object of so many bytes lie inside it, none over another, in whatever order they stand.
pub fn parts_fit(alloc: Global, size: u64, constants: &[Constant]) -> Result<bool, NoMemory>
    ensures { IfOk result (λ b. IsTrue b → PartsFit size constants.now) }
{
    ranges_fit(size, ranges_of(alloc, constants)?)
}
