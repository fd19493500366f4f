// Functions on strings (7.24.2.3, 7.24.4.2, 7.24.5.2, 7.24.6.3).

ghost use Rattle.std.specs.Prelude.{◌≡◌, ◌==◌, [], length, false, IfOk, IfSome, OnErr};
ghost use Rattle.std.specs.List.{position};
ghost use Rattle.ub_base.specs.declared.names.Event.{Event};
ghost use Rattle.c_types.specs.declared.library.LibFunc.TheVariants.{Strlen, Strcpy, Strcmp, Strchr};
ghost use Rattle.mem_spec.specs.Streams.{Io};
ghost use Rattle.mem_objects.specs.Keeps.{Keeps};
ghost use Rattle.mem_objects.specs.Memory.{AreKnown, HasCell, store_of};
ghost use Rattle.libc_spec.specs.Library.{called, strlen, strcmp, strchr};
ghost use Rattle.libc_arguments.specs.Seen.{value_seen, values_seen};
ghost use Rattle.libc_arguments.specs.Answers.{IsCall, Answers, answer_in};
ghost use Rattle.libc_arguments.specs.Parts.{Follows, IsPassed, accessed_if};
ghost use Rattle.libc_arguments.specs.Writes.{IsPlace, FillsRange, string_to_copy};

use libc_arguments::{
    Pointer, Range, block_of, check, check_apart, check_string, check_target, finish, int_at,
    low_byte, numbers, order_of, overwrite, pointer_at,
};
use prov_memory::{LibAnswer, Memory, Touched, Value};
use std::alloc::Global;
use ub_base::Clause;

/// strlen: the bytes before the zero.
pub fn length(
    alloc: Global,
    args: &[Value],
    m: &mut Memory,
    t: &mut Touched,
) -> Result<Value, LibAnswer>
    requires { t.old ≡ [] }
    ensures exact { (io : Io) (who : Event) → IsCall Strlen (values_seen args.now) m.old io →
        Answers (answer_in result) t.new (store_of m.new io) (called m.new.rows Strlen (values_seen args.now) who (store_of m.old io)) }
    ensures known { AreKnown m.old → AreKnown m.new }
    ensures same { OnErr result (m.new ≡ m.old) }
    ensures kept { Keeps m.old m.new }
{
    let read = length_of(alloc, m, pointer_at(args, 0), t);
    finish(alloc, read, m, t)
}

fn length_of(alloc: Global, m: &Memory, text: Pointer, t: &mut Touched) -> Result<Value, LibAnswer>
    ensures follows { (io : Io) → HasCell m.now text.prov → Follows false value_seen result m.now io t.old t.new (strlen m.now.rows text.addr text.prov) }
    ensures passed { IfOk result IsPassed }
{
    let range = check_string(m, text, t)?;
    let _ = numbers(alloc, m, range, t)?;
    Ok(Value::Int(i128::from(range.len.saturating_sub(1))))
}

// Where the byte first stands.
fn place_of(wanted: u8, numbers: &[u8]) -> Option<usize>
    ensures { result ≡ position (λ number. number == wanted) numbers.now }
{
    numbers.iter().position(|number| *number == wanted)
}

/// strcpy: the string with its zero. The source is checked before the target.
pub fn copy_string(
    alloc: Global,
    args: &[Value],
    m: &mut Memory,
    t: &mut Touched,
) -> Result<Value, LibAnswer>
    requires { t.old ≡ [] }
    ensures exact { (io : Io) (who : Event) → IsCall Strcpy (values_seen args.now) m.old io →
        Answers (answer_in result) t.new (store_of m.new io) (called m.new.rows Strcpy (values_seen args.now) who (store_of m.old io)) }
    ensures known { AreKnown m.old → AreKnown m.new }
    ensures same { OnErr result (m.new ≡ m.old) }
    ensures kept { Keeps m.old m.new }
{
    let to = pointer_at(args, 0);
    let copy = string_to_copy(alloc, m, to, pointer_at(args, 1), t)?;
    let block = block_of(alloc, copy.numbers.as_slice())?;
    overwrite(alloc, m, to.addr, copy.target, &block, t)?;
    Ok(to.value())
}

// The bytes of a string and the range that they replace.
#[derive(Drop)]
struct StringCopy {
    numbers: Vec<u8>,
    target: Option<Range>,
}

fn string_to_copy(
    alloc: Global,
    m: &Memory,
    to: Pointer,
    from: Pointer,
    t: &mut Touched,
) -> Result<StringCopy, LibAnswer>
    ensures follows { (io : Io) → HasCell m.now to.prov → HasCell m.now from.prov → Follows false
        (λ copy. (copy.numbers.items, accessed_if m.now copy.target)) result m.now io t.old t.new
        (string_to_copy m.now.rows to.addr to.prov from.addr from.prov) }
    ensures place { IfOk result (λ copy. IfSome copy.target (IsPlace m.now to.addr)) }
    ensures len { IfOk result (λ copy. FillsRange (length copy.numbers.items) copy.target) }
{
    let source = check_string(m, from, t)?;
    let target = check(m, to, source.len, t)?;
    let numbers = numbers(alloc, m, source, t)?;
    check_target(m, target)?;
    check_apart(source.len, to.addr, from.addr, Clause::StrcpyOverlap)?;
    Ok(StringCopy { numbers, target })
}

/// strcmp: reads both strings whole; the first difference decides, as unsigned bytes.
pub fn compare_strings(
    alloc: Global,
    args: &[Value],
    m: &mut Memory,
    t: &mut Touched,
) -> Result<Value, LibAnswer>
    requires { t.old ≡ [] }
    ensures exact { (io : Io) (who : Event) → IsCall Strcmp (values_seen args.now) m.old io →
        Answers (answer_in result) t.new (store_of m.new io) (called m.new.rows Strcmp (values_seen args.now) who (store_of m.old io)) }
    ensures known { AreKnown m.old → AreKnown m.new }
    ensures same { OnErr result (m.new ≡ m.old) }
    ensures kept { Keeps m.old m.new }
{
    let read = order_of_strings(alloc, m, pointer_at(args, 0), pointer_at(args, 1), t);
    finish(alloc, read, m, t)
}

fn order_of_strings(
    alloc: Global,
    m: &Memory,
    first: Pointer,
    second: Pointer,
    t: &mut Touched,
) -> Result<Value, LibAnswer>
    ensures follows { (io : Io) → HasCell m.now first.prov → HasCell m.now second.prov →
        Follows false value_seen result m.now io t.old t.new (strcmp m.now.rows first.addr first.prov second.addr second.prov) }
    ensures passed { IfOk result IsPassed }
{
    let a = check_string(m, first, t)?;
    let b = check_string(m, second, t)?;
    let x = numbers(alloc, m, a, t)?;
    let y = numbers(alloc, m, b, t)?;
    Ok(Value::Int(order_of(x.as_slice(), y.as_slice())))
}

/// strchr: the first byte equal to the number modulo 256, the zero included, or null; reads the whole string.
pub fn find_byte(
    alloc: Global,
    args: &[Value],
    m: &mut Memory,
    t: &mut Touched,
) -> Result<Value, LibAnswer>
    requires { t.old ≡ [] }
    ensures exact { (io : Io) (who : Event) → IsCall Strchr (values_seen args.now) m.old io →
        Answers (answer_in result) t.new (store_of m.new io) (called m.new.rows Strchr (values_seen args.now) who (store_of m.old io)) }
    ensures known { AreKnown m.old → AreKnown m.new }
    ensures same { OnErr result (m.new ≡ m.old) }
    ensures kept { Keeps m.old m.new }
{
    let read = place_in_string(alloc, m, pointer_at(args, 0), int_at(args, 1), t);
    finish(alloc, read, m, t)
}

fn place_in_string(
    alloc: Global,
    m: &Memory,
    text: Pointer,
    number: i128,
    t: &mut Touched,
) -> Result<Value, LibAnswer>
    ensures follows { (io : Io) → HasCell m.now text.prov →
        Follows false value_seen result m.now io t.old t.new (strchr m.now.rows text.addr text.prov number) }
    ensures passed { IfOk result IsPassed }
{
    let range = check_string(m, text, t)?;
    let numbers = numbers(alloc, m, range, t)?;
    match place_of(low_byte(number), numbers.as_slice()) {
        Some(at) => Ok(Value::Ptr {
            addr: text.addr.saturating_add(at as u64),
            prov: text.prov,
        }),
        None => Ok(Pointer::NULL.value()),
    }
}
