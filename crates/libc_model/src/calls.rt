// The functions of the library, each with its act.
ghost use Rattle.std.specs.Prelude.{◌≡◌, ◌≢◌, ℕ, ◌<◌, true, false, Some, None, Ok, Err, length, List, [], OnOk, OnErr};
ghost use Rattle.c_types.specs.declared.library.LibFunc.TheVariants.{Malloc, Free, Getchar, Putchar, Puts, Exit, Abort, Printf, Fprintf, Sprintf, Snprintf};
ghost use Rattle.ub_base.specs.declared.clause.Cause.TheVariants.{Output};
ghost use Rattle.addr_map.specs.declared.map.Row.{Row};
ghost use Rattle.mem_spec.specs.Script.{Script, run};
ghost use Rattle.mem_objects.specs.Keeps.{Keeps};
ghost use Rattle.mem_objects.specs.Memory.{Kept, AreKnown, HasCell, store_of};
ghost use Rattle.mem_spec.specs.Streams.{Io};
ghost use Rattle.libc_spec.specs.Library.{LibValue, called, byte_or_end, integer_in, argument_at};
ghost use Rattle.ub_base.specs.declared.names.Event.{Event};
ghost use Rattle.libc_arguments.specs.Seen.{values_seen};
ghost use Rattle.libc_arguments.specs.Parts.{Gives, Follows, line, line_at, printing, limited};
ghost use Rattle.mem_objects.specs.Tags.{AreTagged};
ghost use Rattle.libc_arguments.specs.Answers.{ArgumentsMade, GivesMade, allocates, IsCall, AreWithin, Answers, answer_in, given_value, gives_value};
ghost use Rattle.libc_arguments.specs.Answers.{leaves_all};
ghost use Rattle.libc_arguments.specs.Answers.{wants_memory};

use c_types::LibFunc;
use libc_arguments::{
    Pointer, check_output, check_string, int_at, low_byte, numbers, pointer_at, settle, size_at,
};
use mem_spec::Stream;
use prov_memory::{LibAnswer, Memory, Streams, Touched, Value, Values};
use std::alloc::Global;
use ub_base::{Clause, Event, Item, NoMemory};

/// The status of a program that aborts (own).
const ABORTED: u8 = 134;

/// What a call of a library function gives, but for those that take a format. `who` names the object that it may allocate. After each answer
/// but a value memory and streams are as before, unless memory was wanted.
pub fn call(
    alloc: Global,
    f: LibFunc,
    args: &Values,
    who: Event,
    m: &mut Memory,
    io: &mut Streams,
    t: &mut Touched,
) -> LibAnswer
    requires printf { f ≢ Printf }
    requires fprintf { f ≢ Fprintf }
    requires sprintf { f ≢ Sprintf }
    requires snprintf { f ≢ Snprintf }
    ensures exact { IsCall f (values_seen args.now) m.old io.old →
        Answers result t.new (store_of m.new io.new) (called m.new.rows f (values_seen args.now) who (store_of m.old io.old)) }
    ensures known { AreKnown m.old → wants_memory result ≡ false → AreKnown m.new }
    ensures same { leaves_all result f ≡ true → (m.new ≡ m.old) × (io.new ≡ io.old) }
    ensures within { AreWithin io.old → AreWithin io.new }
    ensures streams { gives_value result ≡ false → io.new ≡ io.old }
    ensures failed { gives_value result ≡ false → Keeps m.old m.new }
    ensures kept { AreKnown m.old → AreTagged m.old → Keeps m.old m.new }
    ensures made { IsCall f (values_seen args.now) m.old io.old → AreTagged m.old → ArgumentsMade m.old (values_seen args.now) → GivesMade m.new result }
{
    t.clear();
    match value_of(alloc, f, args.as_slice(), who, m, io, t) {
        Ok(value) => LibAnswer::Value(value),
        Err(answer) => answer,
    }
}

fn value_of(
    alloc: Global,
    f: LibFunc,
    args: &[Value],
    who: Event,
    m: &mut Memory,
    io: &mut Streams,
    t: &mut Touched,
) -> Result<Value, LibAnswer>
    requires printf { f ≢ Printf }
    requires fprintf { f ≢ Fprintf }
    requires sprintf { f ≢ Sprintf }
    requires snprintf { f ≢ Snprintf }
    requires items { t.old ≡ [] }
    ensures exact { IsCall f (values_seen args.now) m.old io.old →
        Answers (answer_in result) t.new (store_of m.new io.new) (called m.new.rows f (values_seen args.now) who (store_of m.old io.old)) }
    ensures known { AreKnown m.old → wants_memory (answer_in result) ≡ false → AreKnown m.new }
    ensures same { leaves_all (answer_in result) f ≡ true → (m.new ≡ m.old) × (io.new ≡ io.old) }
    ensures within { AreWithin io.old → AreWithin io.new }
    ensures streams { OnErr result (io.new ≡ io.old) }
    ensures failed { OnErr result (Keeps m.old m.new) }
    ensures kept { AreKnown m.old → AreTagged m.old → Keeps m.old m.new }
    ensures made { allocates f ≡ true → IsCall f (values_seen args.now) m.old io.old → GivesMade m.new (answer_in result) }
{
    match f {
        LibFunc::Malloc => libc_heap::allocate(size_at(args, 0), who, m, t),
        LibFunc::Calloc => libc_heap::allocate_zeros(alloc, args, who, m, t),
        LibFunc::Realloc => libc_heap::reallocate(alloc, args, who, m, t),
        LibFunc::Free => free(alloc, args, m, t),
        LibFunc::Memcpy => libc_strings::copy(alloc, false, args, m, t),
        LibFunc::Memmove => libc_strings::copy(alloc, true, args, m, t),
        LibFunc::Memset => libc_strings::fill(alloc, args, m, t),
        LibFunc::Memcmp => libc_strings::compare(alloc, args, m, t),
        LibFunc::Strlen => libc_strings::length(alloc, args, m, t),
        LibFunc::Strcpy => libc_strings::copy_string(alloc, args, m, t),
        LibFunc::Strcmp => libc_strings::compare_strings(alloc, args, m, t),
        LibFunc::Strchr => libc_strings::find_byte(alloc, args, m, t),
        LibFunc::Getchar => getchar(io, t),
        LibFunc::Putchar => putchar(int_at(args, 0), io, t),
        LibFunc::Puts => puts(alloc, args, m, io, t),
        LibFunc::Exit => exit(int_at(args, 0), t),
        LibFunc::Abort => abort(t),
        LibFunc::Printf | LibFunc::Fprintf | LibFunc::Sprintf | LibFunc::Snprintf => {
            unreachable!()
        }
    }
}

// free: its value is none.
fn free(alloc: Global, args: &[Value], m: &mut Memory, t: &mut Touched) -> Result<Value, LibAnswer>
    ensures exact { (io : Io) → AreWithin io → IsCall Free (values_seen args.now) m.old io → (who : Event) →
        Answers (answer_in result) t.new (store_of m.new io) (called m.new.rows Free (values_seen args.now) who (store_of m.old io)) }
    ensures known { AreKnown m.old → AreKnown m.new }
    ensures same { OnErr result (m.new ≡ m.old) }
    ensures kept { Keeps m.old m.new }
{
    match libc_heap::free(alloc, pointer_at(args, 0), Clause::Free, m, t) {
        Ok(()) => Ok(Value::Nothing),
        Err(answer) => Err(answer),
    }
}

// getchar: the next byte of the input, or -1 at its end.
fn getchar(io: &mut Streams, t: &mut Touched) -> Result<Value, LibAnswer>
    requires { t.old ≡ [] }
    ensures exact { (m : Kept) (vs : List LibValue) (who : Event) → AreWithin io.old →
        Answers (answer_in result) t.new (store_of m io.new) (called m.rows Getchar vs who (store_of m io.old)) }
    ensures same { OnErr result (io.new ≡ io.old) }
    ensures within { AreWithin io.old → AreWithin io.new }
{
    t.add(Item::Input)?;
    Ok(byte_or_end(io.next()))
}

fn byte_or_end(next: Option<u8>) -> Value
    ensures { result ≡ given_value (byte_or_end next) }
{
    match next {
        Some(byte) => Value::Int(i128::from(byte)),
        None => Value::Int(-1),
    }
}

// putchar: the byte of the number modulo 256, which it gives.
fn putchar(number: i128, io: &mut Streams, t: &mut Touched) -> Result<Value, LibAnswer>
    requires { t.old ≡ [] }
    ensures exact { (m : Kept) (vs : List LibValue) (who : Event) → number ≡ integer_in (argument_at vs 0) → AreWithin io.old →
        Answers (answer_in result) t.new (store_of m io.new) (called m.rows Putchar vs who (store_of m io.old)) }
    ensures same { OnErr result (io.new ≡ io.old) }
    ensures within { AreWithin io.old → AreWithin io.new }
{
    let byte = low_byte(number);
    check_output(io, 1)?;
    t.add(Item::Output)?;
    io.put(Stream::Output, &[byte])?;
    Ok(Value::Int(i128::from(byte)))
}

// puts: the string and a line feed.
fn puts(
    alloc: Global,
    args: &[Value],
    m: &mut Memory,
    io: &mut Streams,
    t: &mut Touched,
) -> Result<Value, LibAnswer>
    requires { t.old ≡ [] }
    ensures exact { (who : Event) → IsCall Puts (values_seen args.now) m.old io.old →
        Answers (answer_in result) t.new (store_of m.new io.new) (called m.new.rows Puts (values_seen args.now) who (store_of m.old io.old)) }
    ensures known { AreKnown m.old → AreKnown m.new }
    ensures same { OnErr result ((m.new ≡ m.old) × (io.new ≡ io.old)) }
    ensures within { AreWithin io.old → AreWithin io.new }
    ensures streams { OnErr result (io.new ≡ io.old) }
    ensures kept { Keeps m.old m.new }
{
    let line = line_of(alloc, m, pointer_at(args, 0), t)?;
    print(alloc, line.as_slice(), m, io, t)
}

// The string with a line feed for its zero.
fn line_of(alloc: Global, m: &Memory, text: Pointer, t: &mut Touched) -> Result<Vec<u8>, LibAnswer>
    ensures { (io : Io) → HasCell m.now text.prov → Follows false (λ v. v.items) result m.now io t.old t.new (line_at m.now.rows text.addr text.prov) }
{
    let range = check_string(m, text, t)?;
    let mut line = numbers(alloc, m, range, t)?;
    end_line(&mut line)?;
    Ok(line)
}

// The last byte becomes a line feed.
fn end_line(bytes: &mut Vec<u8>) -> Result<(), NoMemory>
    ensures { OnOk result (bytes.new.items ≡ line bytes.old.items) }
{
    let _ = bytes.pop();
    bytes.push(b'\n')?;
    Ok(())
}

// The end of a call that prints; the value is own.
fn print(
    alloc: Global,
    bytes: &[u8],
    m: &mut Memory,
    io: &mut Streams,
    t: &mut Touched,
) -> Result<Value, LibAnswer>
    ensures exact { (script : List Row → Script (List ℕ)) → AreWithin io.old → Gives false (List ℕ) m.old io.old [] t.old (script m.old.rows) bytes.now →
        Answers (answer_in result) t.new (store_of m.new io.new)
        (limited (store_of m.old io.old) (run m.new.rows (printing (script m.new.rows)) (store_of m.old io.old))) }
    ensures known { AreKnown m.old → AreKnown m.new }
    ensures same { OnErr result ((m.new ≡ m.old) × (io.new ≡ io.old)) }
    ensures within { AreWithin io.old → AreWithin io.new }
    ensures kept { Keeps m.old m.new }
{
    check_output(io, bytes.len() as u64)?;
    t.add(Item::Output)?;
    let mut scratch = Touched::new(alloc)?;
    io.put(Stream::Output, bytes)?;
    settle(m, t, &mut scratch);
    Ok(Value::Int(1))
}

// exit: the end of the run with the status modulo 256.
fn exit(status: i128, t: &mut Touched) -> Result<Value, LibAnswer>
    requires { t.old ≡ [] }
    ensures exact { (m : Kept) (io : Io) (vs : List LibValue) (who : Event) → status ≡ integer_in (argument_at vs 0) → AreWithin io →
        Answers (answer_in result) t.new (store_of m io) (called m.rows Exit vs who (store_of m io)) }
{
    t.add(Item::Ending)?;
    Err(LibAnswer::End(low_byte(status)))
}

fn abort(t: &mut Touched) -> Result<Value, LibAnswer>
    requires { t.old ≡ [] }
    ensures exact { (m : Kept) (io : Io) (vs : List LibValue) (who : Event) → AreWithin io →
        Answers (answer_in result) t.new (store_of m io) (called m.rows Abort vs who (store_of m io)) }
{
    t.add(Item::Ending)?;
    Err(LibAnswer::End(ABORTED))
}
