// fprintf (7.21.6.1).

ghost use Rattle.std.specs.Prelude.{◌≡◌, [], drop, false, OnErr, Ok, Err, nat_lt, ◌^◌, if◌then◌else◌};
ghost use Rattle.std.specs.Ordering.{int_eq};
ghost use Rattle.ub_base.specs.declared.clause.Cause.TheVariants.{Output};
ghost use Rattle.mem_objects.specs.declared.answer.LibAnswer.TheVariants as answers;
ghost use Rattle.libc_spec.specs.Library.{argument_at, integer_in};
ghost use Rattle.libc_spec.specs.Formatted.{printed_to_by};
ghost use Rattle.libc_arguments.specs.Answers.{AreWithin, Answers, GivesMade, HaveCells, answer_in, gives_value};
ghost use Rattle.libc_arguments.specs.Seen.{values_seen};
ghost use Rattle.libc_print.specs.Seen.{typed};
ghost use Rattle.libc_print.specs.Runs.{Prints, printed_text};
ghost use Rattle.libc_print.specs.Calls.{short_text};
ghost use Rattle.mem_spec.specs.Streams.{Io};
ghost use Rattle.mem_objects.specs.Keeps.{Keeps};
ghost use Rattle.mem_objects.specs.Memory.{AreKnown, HasCell, store_of};

use crate::printf::{printed, printed_text};
use c_types::Qual;
use libc_arguments::{Pointer, int_at};
use mem_spec::Stream;
use prov_memory::{LibAnswer, Memory, Streams, Touched, Value, Values};
use std::alloc::Global;
use ub_base::{Cause, Clause};

/// The limit on the bytes of a text that isn't printed (own).
const TEXT: u64 = 1 << 24;

/// What fprintf gives for the number of a stream, a format and further arguments, which have these types: 1 is standard output
/// and 2 is standard error (own). After each answer but a value, memory and streams are as before.
pub fn format_to(
    alloc: Global,
    args: &Values,
    types: &[Qual],
    m: &mut Memory,
    io: &mut Streams,
    t: &mut Touched,
) -> LibAnswer
    ensures exact { AreWithin io.old → HaveCells m.old (values_seen args.now) → Answers result t.new (store_of m.new io.new)
        (printed_to_by m.new.rows (integer_in (argument_at (values_seen args.now) 0)) (argument_at (values_seen args.now) 1)
        (drop 2 (typed args.now types.now)) (store_of m.old io.old)) }
    ensures known { AreKnown m.old → AreKnown m.new }
    ensures same { gives_value result ≡ false → (m.new ≡ m.old) × (io.new ≡ io.old) }
    ensures within { AreWithin io.old → AreWithin io.new }
    ensures streams { gives_value result ≡ false → io.new ≡ io.old }
    ensures kept { Keeps m.old m.new }
    ensures made { AreWithin io.old → HaveCells m.old (values_seen args.now) → GivesMade m.new result }
{
    t.clear();
    match written(
        alloc,
        int_at(args.as_slice(), 0),
        args.as_slice(),
        types,
        m,
        io,
        t,
    ) {
        Ok(value) => LibAnswer::Value(value),
        Err(answer) => answer,
    }
}

fn is_number(number: i128, wanted: i128) -> bool
    ensures { result ≡ int_eq number wanted }
{
    number == wanted
}

fn written(
    alloc: Global,
    stream: i128,
    args: &[Value],
    types: &[Qual],
    m: &mut Memory,
    io: &mut Streams,
    t: &mut Touched,
) -> Result<Value, LibAnswer>
    requires { t.old ≡ [] }
    ensures exact { AreWithin io.old → HaveCells m.old (values_seen args.now) → Answers (answer_in result) t.new (store_of m.new io.new)
        (printed_to_by m.new.rows stream (argument_at (values_seen args.now) 1) (drop 2 (typed args.now types.now)) (store_of m.old io.old)) }
    ensures known { AreKnown m.old → AreKnown m.new }
    ensures same { OnErr result ((m.new ≡ m.old) × (io.new ≡ io.old)) }
    ensures within { AreWithin io.old → AreWithin io.new }
    ensures streams { OnErr result (io.new ≡ io.old) }
    ensures kept { Keeps m.old m.new }
{
    if is_number(stream, 1) {
        return printed(alloc, Stream::Output, args, types, 1, 2, m, io, t);
    }
    if is_number(stream, 2) {
        return printed(alloc, Stream::Errors, args, types, 1, 2, m, io, t);
    }
    Err(LibAnswer::Raise(Clause::LibraryArgument))
}

fn check_short(len: u64) -> Result<(), LibAnswer>
    ensures { result ≡ (if nat_lt (2 ^ 24) len then Err (answers.Outside Output len) else Ok tt) }
{
    if len > TEXT {
        return Err(LibAnswer::Outside(Cause::Output, len));
    }
    Ok(())
}

/// The text of a call that isn't printed.
pub fn short_text(
    alloc: Global,
    pointer: Pointer,
    args: &[Value],
    types: &[Qual],
    first: usize,
    m: &Memory,
    t: &mut Touched,
) -> Result<Vec<u8>, LibAnswer>
    ensures { (io : Io) → HasCell m.now pointer.prov → HaveCells m.now (values_seen args.now) →
        Prints (λ v. v.items) result m.now io t.old t.new (short_text m.now.rows pointer.addr pointer.prov (drop first (typed args.now types.now))) }
{
    let text = printed_text(alloc, pointer, args, types, first, m, t)?;
    check_short(text.as_slice().len() as u64)?;
    Ok(text)
}
