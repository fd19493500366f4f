// Ranges that are written to, and the bytes that are copied (7.24).
ghost use Rattle.std.specs.Prelude.{◌≡◌, length, true, Ok, Err, IfOk, IfSome, OnOk, if◌then◌else◌};
ghost use Rattle.mem_spec.specs.Acts.{declared_of, retagged};
ghost use Rattle.mem_objects.specs.Keeps.{Keeps};
ghost use Rattle.mem_objects.specs.Held.{held_of};
ghost use Rattle.mem_spec.specs.Streams.{Io};
ghost use Rattle.mem_objects.specs.Memory.{AreKnown, CellsKnown, HasCell, life_in, store_of};
ghost use Rattle.mem_objects.specs.Stores.{tagged_all};
ghost use Rattle.mem_objects.specs.Tags.{AreTagged, CellsTagged};
ghost use Rattle.libc_arguments.specs.Parts.{Follows, IsRange, accessed_if, bytes_of};
ghost use Rattle.libc_arguments.specs.Writes.{IsKept, IsPlace, target_at, target_checked};
ghost use Rattle.libc_spec.specs.Library.{low_byte, order_of, overlap};

use crate::arguments::{Pointer, Range, check};
use crate::bytes::check_writable;
use exposure::Prov;
use prov_memory::{Block, LibAnswer, MemFault, Memory, Touched};
use std::cmp::Ordering;
use ub_base::{Clause, NoMemory};

/// A number modulo 256.
pub fn low_byte(number: i128) -> u8
    ensures { result ≡ low_byte number }
{
    number.rem_euclid(256) as u8
}

/// The order of two lists of unsigned bytes, by the first difference: -1, 0 or 1 (own).
pub fn order_of(first: &[u8], second: &[u8]) -> i128
    ensures { result ≡ order_of first.now second.now }
{
    match first.cmp(second) {
        Ordering::Less => -1,
        Ordering::Equal => 0,
        Ordering::Greater => 1,
    }
}

/// Whether two ranges of this many bytes overlap.
fn overlap(len: u64, a: u64, b: u64) -> bool
    ensures { result ≡ overlap len a b }
{
    if a <= b { b - a < len } else { a - b < len }
}

/// Whether two ranges of this many bytes may both be used: the clause where they overlap.
pub fn check_apart(len: u64, to: u64, from: u64, clause: Clause) -> Result<(), Clause>
    ensures { result ≡ (if overlap len to from then Err clause else Ok tt) }
{
    if overlap(len, to, from) {
        Err(clause)
    } else {
        Ok(())
    }
}

/// Whether the range, if there is one, may be written to; one of no bytes may be written anywhere (own).
pub fn check_target(m: &Memory, target: Option<Range>) -> Result<(), Clause>
    ensures { result ≡ target_checked m.now target }
{
    match target {
        Some(range) if range.len != 0 => check_writable(m, range.object),
        _ => Ok(()),
    }
}

/// The range of a pointer argument that is written to.
pub fn target_of(
    m: &Memory,
    to: Pointer,
    len: u64,
    t: &mut Touched,
) -> Result<Option<Range>, LibAnswer>
    ensures follows { (io : Io) → HasCell m.now to.prov →
        Follows true (accessed_if m.now) result m.now io t.old t.new (target_at m.now.rows len to.addr to.prov) }
    ensures range { IfOk result (IsRange len) }
    ensures place { IfOk result (λ target. IfSome target (IsPlace m.now to.addr)) }
{
    let target = check(m, to, len, t)?;
    check_target(m, target)?;
    Ok(target)
}

/// The bytes of the range that begins at the address, in a live object, as they stand, with pieces and tags.
pub fn copied(
    m: &mut Memory,
    addr: u64,
    range: Range,
    scratch: &mut Touched,
) -> Result<Block, NoMemory>
    requires { IsPlace m.old addr range }
    ensures bytes { IfOk result (λ b. AreTagged m.old → tagged_all m.new b.cells ≡ retagged
        (declared_of (life_in (held_of m.old.objects range.object))) range.from (bytes_of m.old range)) }
    ensures store { OnOk result (AreTagged m.old → (io : Io) → store_of m.new io ≡ store_of m.old io) }
    ensures len { IfOk result (λ b. length b.cells ≡ range.len) }
    ensures pieces { IfOk result (λ b. AreKnown m.old → CellsKnown (length m.new.origins) b.cells) }
    ensures kept { OnOk result (IsKept m.old m.new) }
    ensures keeps { Keeps m.old m.new }
    ensures tags { IfOk result (λ b. AreTagged m.old → CellsTagged (length m.new.types) b.cells) }
{
    match m.load_block(range.len, 1, addr, Prov::Whole(range.object), scratch) {
        Ok(block) => Ok(block),
        Err(MemFault::Raise(_)) => unreachable!(),
        Err(MemFault::NoMemory) => Err(NoMemory),
    }
}
