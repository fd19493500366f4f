// Functions on ranges of bytes (7.24.2.1, 7.24.2.2, 7.24.4.1, 7.24.6.1).
ghost use Rattle.std.specs.Prelude.{◌≡◌, ◌++◌, ◌||◌, [], true, false, not, Ok, Err, IfOk, IfSome, OnOk, OnErr, if◌then◌else◌};
ghost use Rattle.ub_base.specs.declared.names.Event.{Event};
ghost use Rattle.ub_base.specs.declared.clause.Clause.TheVariants.{MemcpyOverlap};
ghost use Rattle.c_types.specs.declared.library.LibFunc.TheVariants.{Memset, Memcmp};
ghost use Rattle.mem_objects.specs.Keeps.{Keeps};
ghost use Rattle.mem_spec.specs.Streams.{Io};
ghost use Rattle.mem_objects.specs.Memory.{AreKnown, HasCell, store_of};
ghost use Rattle.mem_objects.specs.Tags.{AreTagged};
ghost use Rattle.libc_arguments.specs.Seen.{value_seen, values_seen};
ghost use Rattle.libc_arguments.specs.Answers.{IsCall, Answers, answer_in, copy_function, leaves_all, wants_memory};
ghost use Rattle.libc_arguments.specs.Parts.{after, CanFollow, Follows, IsPassed, IsRange, IsShort, accessed_if, bytes_if, reads_if, ReadsAll};
ghost use Rattle.libc_arguments.specs.Writes.{Tells, AreEven, IsPlace, FillsRange, has_expose, moved, moved_items, moving, ranges_to_copy, target_checked};
ghost use Rattle.libc_spec.specs.Library.{called, low_byte, memcmp, order_of, overlap};

use libc_arguments::{
    Pointer, Range, add_write, check, check_apart, check_target, copied, filled, finish, int_at,
    low_byte, order_of, overwrite, pointer_at, put_over, read, read_of, settle, size_at, target_of,
};
use prov_memory::{LibAnswer, Memory, Touched, Value, Via};
use std::alloc::Global;
use ub_base::{Clause, NoMemory};

// How many bytes are written.
fn len_of(target: Option<Range>) -> u64
    ensures { FillsRange result target }
{
    match target {
        Some(range) => range.len,
        None => 0,
    }
}

// Whether the ranges may overlap or don't (7.24.2.1p2).
fn check_overlap(may_overlap: bool, len: u64, to: u64, from: u64) -> Result<(), Clause>
    ensures { result ≡ (if may_overlap || not (overlap len to from) then Ok tt else Err MemcpyOverlap) }
{
    if may_overlap {
        return Ok(());
    }
    check_apart(len, to, from, Clause::MemcpyOverlap)
}

// The ranges of a copy, each none where it leaves an ambiguity open.
#[derive(Clone, Copy)]
struct Ranges {
    target: Option<Range>,
    source: Option<Range>,
}

fn ranges_to_copy(
    m: &Memory,
    may_overlap: bool,
    to: Pointer,
    from: Pointer,
    len: u64,
    t: &mut Touched,
) -> Result<Ranges, LibAnswer>
    ensures follows { (io : Io) → HasCell m.now to.prov → HasCell m.now from.prov → Follows true
        (λ r. (accessed_if m.now r.target, accessed_if m.now r.source)) result m.now io t.old t.new
        (ranges_to_copy m.now.rows may_overlap to.addr to.prov from.addr from.prov len) }
    ensures target { IfOk result (λ r. IsRange len r.target) }
    ensures source { IfOk result (λ r. IsRange len r.source) }
    ensures to { IfOk result (λ r. IfSome r.target (IsPlace m.now to.addr)) }
    ensures from { IfOk result (λ r. IfSome r.source (IsPlace m.now from.addr)) }
    ensures writable { IfOk result (λ r. target_checked m.now r.target ≡ Ok tt) }
{
    let target = check(m, to, len, t)?;
    let source = check(m, from, len, t)?;
    check_target(m, target)?;
    check_overlap(may_overlap, len, to.addr, from.addr)?;
    Ok(Ranges { target, source })
}

/// memcpy, and memmove, which takes an overlap.
pub fn copy(
    alloc: Global,
    may_overlap: bool,
    args: &[Value],
    m: &mut Memory,
    t: &mut Touched,
) -> Result<Value, LibAnswer>
    requires { t.old ≡ [] }
    ensures exact { (io : Io) (who : Event) → IsCall (copy_function may_overlap) (values_seen args.now) m.old io →
        Answers (answer_in result) t.new (store_of m.new io) (called m.new.rows (copy_function may_overlap) (values_seen args.now) who (store_of m.old io)) }
    ensures known { AreKnown m.old → wants_memory (answer_in result) ≡ false → AreKnown m.new }
    ensures same { leaves_all (answer_in result) (copy_function may_overlap) ≡ true → m.new ≡ m.old }
    ensures failed { OnErr result (Keeps m.old m.new) }
    ensures kept { AreKnown m.old → AreTagged m.old → Keeps m.old m.new }
{
    let to = pointer_at(args, 0);
    let from = pointer_at(args, 1);
    let ranges = ranges_to_copy(m, may_overlap, to, from, size_at(args, 2), t)?;
    move_bytes(alloc, m, to.addr, from.addr, ranges, t)?;
    Ok(to.value())
}

// The ranges between which bytes are copied, none where there are no bytes.
fn moving(ranges: Ranges) -> Option<(Range, Range)>
    ensures { result ≡ moving ranges.target ranges.source }
{
    match (ranges.target, ranges.source) {
        (Some(target), Some(source)) if target.len != 0 => Some((target, source)),
        _ => None,
    }
}

// The end of a copy: what the items settle takes effect, and the bytes are stored as they stand. `t` gains the read and the
// write.
fn move_bytes(
    alloc: Global,
    m: &mut Memory,
    to: u64,
    from: u64,
    ranges: Ranges,
    t: &mut Touched,
) -> Result<(), NoMemory>
    requires to { IfSome ranges.target (IsPlace m.old to) }
    requires from { IfSome ranges.source (IsPlace m.old from) }
    requires even { AreEven ranges.target ranges.source }
    ensures items { OnOk result (t.new ≡ t.old ++ moved_items ranges.target ranges.source) }
    ensures store { OnOk result ((io : Io) → has_expose t.old ≡ false → AreTagged m.old → CanFollow m.old.cells t.old (store_of m.old io) →
        store_of m.new io ≡ moved m.old ranges.target ranges.source (after t.old (store_of m.old io))) }
    ensures rows { OnOk result (m.new.rows ≡ m.old.rows) }
    ensures known { AreKnown m.old → OnOk result (AreKnown m.new) }
    ensures failed { OnErr result (Keeps m.old m.new) }
    ensures kept { AreKnown m.old → AreTagged m.old → Keeps m.old m.new }
{
    let mut scratch = Touched::new(alloc)?;
    let Some((target, source)) = moving(ranges) else {
        settle(m, t, &mut scratch);
        return Ok(());
    };
    t.add(read_of(source))?;
    add_write(target, t)?;
    settle(m, t, &mut scratch);
    let block = copied(m, from, source, &mut scratch)?;
    put_over(m, to, target, Via::Whole, &block, &mut scratch);
    Ok(())
}

/// memset.
pub fn fill(
    alloc: Global,
    args: &[Value],
    m: &mut Memory,
    t: &mut Touched,
) -> Result<Value, LibAnswer>
    requires { t.old ≡ [] }
    ensures exact { (io : Io) (who : Event) → IsCall Memset (values_seen args.now) m.old io →
        Answers (answer_in result) t.new (store_of m.new io) (called m.new.rows Memset (values_seen args.now) who (store_of m.old io)) }
    ensures known { AreKnown m.old → AreKnown m.new }
    ensures same { OnErr result (m.new ≡ m.old) }
    ensures kept { Keeps m.old m.new }
{
    let to = pointer_at(args, 0);
    let number = low_byte(int_at(args, 1));
    let target = target_of(m, to, size_at(args, 2), t)?;
    let block = filled(alloc, number, len_of(target))?;
    overwrite(alloc, m, to.addr, target, &block, t)?;
    Ok(to.value())
}

// The bytes of a range, none where it leaves an ambiguity open.
fn read_if(
    alloc: Global,
    m: &Memory,
    range: Option<Range>,
    t: &mut Touched,
) -> Result<Vec<u8>, LibAnswer>
    ensures { IfSome range IsShort → ReadsAll (λ v. v.items) result (bytes_if m.now range) (t.old ++ reads_if range) t.new }
{
    match range {
        Some(range) => read(alloc, m, range, t),
        None => Ok(Vec::new(alloc)),
    }
}

/// memcmp: reads all bytes of both ranges.
pub fn compare(
    alloc: Global,
    args: &[Value],
    m: &mut Memory,
    t: &mut Touched,
) -> Result<Value, LibAnswer>
    requires { t.old ≡ [] }
    ensures exact { (io : Io) (who : Event) → IsCall Memcmp (values_seen args.now) m.old io →
        Answers (answer_in result) t.new (store_of m.new io) (called m.new.rows Memcmp (values_seen args.now) who (store_of m.old io)) }
    ensures known { AreKnown m.old → AreKnown m.new }
    ensures same { OnErr result (m.new ≡ m.old) }
    ensures kept { Keeps m.old m.new }
{
    let read = order_of_ranges(
        alloc,
        m,
        pointer_at(args, 0),
        pointer_at(args, 1),
        size_at(args, 2),
        t,
    );
    finish(alloc, read, m, t)
}

fn order_of_ranges(
    alloc: Global,
    m: &Memory,
    first: Pointer,
    second: Pointer,
    len: u64,
    t: &mut Touched,
) -> Result<Value, LibAnswer>
    ensures tells { (io : Io) → HasCell m.now first.prov → HasCell m.now second.prov →
        Tells value_seen result m.now io t.old t.new (memcmp m.now.rows first.addr first.prov second.addr second.prov len) }
    ensures passed { IfOk result IsPassed }
{
    let a = check(m, first, len, t)?;
    let b = check(m, second, len, t)?;
    let x = read_if(alloc, m, a, t)?;
    let y = read_if(alloc, m, b, t)?;
    Ok(Value::Int(order_of(x.as_slice(), y.as_slice())))
}
