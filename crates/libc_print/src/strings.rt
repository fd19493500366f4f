// The strings of `%s` (7.21.6.1p8).
ghost use Rattle.std.specs.Prelude.{◌≡◌, ◌==◌, ◌+◌, ◌-◌, ◌<◌, ◌≤◌, ◌^◌, false, Some, None, IfOk, IfSome};
ghost use Rattle.std.specs.List.{position};
ghost use Rattle.addr_map.specs.Rows.{row_of};
ghost use Rattle.mem_spec.specs.Acts.{size_in};
ghost use Rattle.mem_spec.specs.Streams.{Io};
ghost use Rattle.mem_objects.specs.Memory.{HasCell};
ghost use Rattle.libc_spec.specs.Library.{is_zero};
ghost use Rattle.libc_spec.specs.Print.{before_zero, string_bytes};
ghost use Rattle.libc_arguments.specs.Seen.{pointer_seen};
ghost use Rattle.libc_arguments.specs.Parts.{Follows, IsShort, byte_at, bytes_if, string_size};
ghost use Rattle.libc_print.specs.Strings.{bounded_size, bounded_text};

use libc_arguments::{Pointer, Range, add_read, check, check_string, numbers};
use prov_memory::{LibAnswer, MemByte, Memory, Touched};
use std::alloc::Global;
use ub_base::{Clause, ObjName};

/// The bytes of a string before its zero, at most as many as the precision.
pub fn string_of(
    alloc: Global,
    pointer: Pointer,
    precision: Option<u64>,
    m: &Memory,
    t: &mut Touched,
) -> Result<Vec<u8>, LibAnswer>
    ensures { (io : Io) → HasCell m.now pointer.prov → Follows false (λ v. v.items) result m.now io t.old t.new
        (string_bytes m.now.rows (pointer_seen pointer) precision) }
{
    match precision {
        None => whole_string(alloc, pointer, m, t),
        Some(most) => bounded_string(alloc, pointer, most, m, t),
    }
}

fn whole_string(
    alloc: Global,
    pointer: Pointer,
    m: &Memory,
    t: &mut Touched,
) -> Result<Vec<u8>, LibAnswer>
    ensures { (io : Io) → HasCell m.now pointer.prov → Follows false (λ v. v.items) result m.now io t.old t.new
        (string_bytes m.now.rows (pointer_seen pointer) None) }
{
    let range = check_string(m, pointer, t)?;
    let mut text = numbers(alloc, m, range, t)?;
    end_at_zero(&mut text);
    Ok(text)
}

fn bounded_string(
    alloc: Global,
    pointer: Pointer,
    most: u64,
    m: &Memory,
    t: &mut Touched,
) -> Result<Vec<u8>, LibAnswer>
    ensures { (io : Io) → HasCell m.now pointer.prov → Follows false (λ v. v.items) result m.now io t.old t.new
        (string_bytes m.now.rows (pointer_seen pointer) (Some most)) }
{
    let Some(range) = bounded_range(m, pointer, most, t)? else {
        return Ok(Vec::new(alloc));
    };
    let mut text = numbers(alloc, m, range, t)?;
    end_at_zero(&mut text);
    Ok(text)
}

// The bytes before the first zero stay.
fn end_at_zero(bytes: &mut Vec<u8>)
    ensures { bytes.new.items ≡ before_zero bytes.old.items }
{
    if let Some(at) = place_of_zero(bytes.as_slice()) {
        bytes.truncate(at);
    }
}

fn place_of_zero(bytes: &[u8]) -> Option<usize>
    ensures { result ≡ position (λ byte. byte == 0) bytes.now }
{
    bytes.iter().position(|byte| *byte == 0)
}

// What is read of a string of which at most so many bytes are wanted; none where no bytes leave its object open.
fn bounded_range(
    m: &Memory,
    pointer: Pointer,
    most: u64,
    t: &mut Touched,
) -> Result<Option<Range>, LibAnswer>
    ensures follows { (io : Io) → HasCell m.now pointer.prov →
        Follows false (bytes_if m.now) result m.now io t.old t.new (bounded_text m.now.rows most pointer.addr pointer.prov) }
    ensures short { IfOk result (λ range. IfSome range IsShort) }
{
    let Some(first) = check(m, pointer, most.min(1), t)? else {
        return Ok(None);
    };
    let Some(len) = bounded_length(m, first.object, first.from, most) else {
        return Err(LibAnswer::Raise(Clause::LibraryArgument));
    };
    let range = Range { len, ..first };
    add_read(range, t)?;
    Ok(Some(range))
}

// How many bytes are read of a string of which at most so many are wanted: up to the first written zero, or all that are
// wanted; None where the object ends before either.
fn bounded_length(m: &Memory, object: ObjName, from: u64, most: u64) -> Option<u64>
    ensures size { result ≡ bounded_size (byte_at m.now object) most (size_in (row_of m.now.rows object) - from) from }
    ensures short { IfSome result (λ len. from + len < 2 ^ 64) }
{
    let left = size_of(m, object).saturating_sub(from);
    match zero_within(m, object, from, most.min(left)) {
        Some(len) => Some(len),
        None => { if most <= left { Some(most) } else { None } }
    }
}

// How many bytes are up to and with the first written zero, if it is among the next so many.
fn zero_within(m: &Memory, object: ObjName, from: u64, count: u64) -> Option<u64>
    requires { from + count < 2 ^ 64 }
    ensures size { result ≡ string_size (byte_at m.now object) count from }
    ensures within { IfSome result (λ len. len ≤ count) }
{
    for at in from..from + count {
        if is_zero(m, object, at) {
            return Some(at - from + 1);
        }
    }
    None
}

fn is_zero(m: &Memory, object: ObjName, at: u64) -> bool
    ensures { result ≡ is_zero (byte_at m.now object at).byte }
{
    match m.byte(object, at) {
        MemByte::Unwritten => false,
        MemByte::Written { number, .. } => number == 0,
    }
}

// The size of an object, 0 where it has no row.
fn size_of(m: &Memory, object: ObjName) -> u64
    ensures size { result ≡ size_in (row_of m.now.rows object) }
    ensures low { result ≤ 2 ^ 47 }
{
    match m.map().row(object) {
        Some(row) => row.size,
        None => 0,
    }
}
