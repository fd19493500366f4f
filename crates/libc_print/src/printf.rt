// printf.

ghost use Rattle.std.specs.Prelude.{◌≡◌, ◌≤◌, ℕ, suc, length, drop, [], true, false, List, OnErr, IfOk};
ghost use Rattle.addr_map.specs.declared.map.Row.{Row};
ghost use Rattle.libc_spec.specs.Directives.{directive_of};
ghost use Rattle.libc_spec.specs.Library.{argument_at};
ghost use Rattle.libc_spec.specs.Print.{put_byte, put_integer, put_string, put_address, put_sized, put, step, text_of, print_to, printed_by};
ghost use Rattle.libc_arguments.specs.Answers.{AreWithin, Answers, GivesMade, HaveCells, answer_in, gives_value};
ghost use Rattle.libc_arguments.specs.Parts.{Gives};
ghost use Rattle.libc_arguments.specs.Seen.{values_seen};
ghost use Rattle.libc_directives.specs.Seen.{directive_seen, width_seen};
ghost use Rattle.libc_print.specs.Seen.{left, typed};
ghost use Rattle.libc_directives.specs.Answers.{Puts};
ghost use Rattle.libc_print.specs.Answers.{IsFormed, is_pointed};
ghost use Rattle.libc_print.specs.Runs.{Prints, printed_text, Adds, directive_bytes, step_bytes};
ghost use Rattle.libc_print.specs.Calls.{printing, limited};
ghost use Rattle.mem_spec.specs.Script.{Script, run};
ghost use Rattle.mem_spec.specs.Streams.{Io};
ghost use Rattle.mem_objects.specs.Keeps.{Keeps};
ghost use Rattle.mem_objects.specs.Memory.{Kept, HasCell, AreKnown, store_of};

use crate::strings::string_of;
use crate::values::{Arguments, take_int, take_integer, take_pointer, take_precision, take_width};
use c_types::Qual;
use libc_arguments::{
    Pointer, check_output, check_string, expose, low_byte, numbers, pointer_at, settle,
};
use libc_directives::{
    Directive, Form, Refusal, Width, behind, directive_of, is_signed, put_address, put_integer,
    put_one, put_text,
};
use mem_spec::Stream;
use prov_memory::{LibAnswer, Memory, Streams, Touched, Value, Values};
use std::alloc::Global;
use ub_base::{Cause, Clause, Item};

/// What printf gives for a format and further arguments, which have these types. After each answer but a value, memory and
/// streams are as before.
pub fn format(
    alloc: Global,
    args: &Values,
    types: &[Qual],
    m: &mut Memory,
    io: &mut Streams,
    t: &mut Touched,
) -> LibAnswer
    ensures exact { AreWithin io.old → HaveCells m.old (values_seen args.now) → Answers result t.new (store_of m.new io.new)
        (printed_by m.new.rows (argument_at (values_seen args.now) 0) (drop 1 (typed args.now types.now)) (store_of m.old io.old)) }
    ensures known { AreKnown m.old → AreKnown m.new }
    ensures same { gives_value result ≡ false → (m.new ≡ m.old) × (io.new ≡ io.old) }
    ensures within { AreWithin io.old → AreWithin io.new }
    ensures streams { gives_value result ≡ false → io.new ≡ io.old }
    ensures kept { Keeps m.old m.new }
    ensures made { AreWithin io.old → HaveCells m.old (values_seen args.now) → GivesMade m.new result }
{
    t.clear();
    match printed(
        alloc,
        Stream::Output,
        args.as_slice(),
        types,
        0,
        1,
        m,
        io,
        t,
    ) {
        Ok(value) => LibAnswer::Value(value),
        Err(answer) => answer,
    }
}

/// Prints to a stream, and gives the number of bytes. The format is the argument `at`, and its own arguments are those from `first`
/// on.
pub fn printed(
    alloc: Global,
    to: Stream,
    args: &[Value],
    types: &[Qual],
    at: usize,
    first: usize,
    m: &mut Memory,
    io: &mut Streams,
    t: &mut Touched,
) -> Result<Value, LibAnswer>
    requires { t.old ≡ [] }
    ensures exact { AreWithin io.old → HaveCells m.old (values_seen args.now) → Answers (answer_in result) t.new (store_of m.new io.new)
        (limited (run m.new.rows (print_to to m.new.rows (argument_at (values_seen args.now) at) (drop first (typed args.now types.now)))
        (store_of m.old io.old))) }
    ensures known { AreKnown m.old → AreKnown m.new }
    ensures same { OnErr result ((m.new ≡ m.old) × (io.new ≡ io.old)) }
    ensures within { AreWithin io.old → AreWithin io.new }
    ensures streams { OnErr result (io.new ≡ io.old) }
    ensures kept { Keeps m.old m.new }
{
    let text = printed_text(alloc, pointer_at(args, at), args, types, first, m, t)?;
    put_out(alloc, to, text.as_slice(), m, io, t)
}

// The end of a call: its bytes go to a stream.
fn put_out(
    alloc: Global,
    to: Stream,
    bytes: &[u8],
    m: &mut Memory,
    io: &mut Streams,
    t: &mut Touched,
) -> Result<Value, LibAnswer>
    ensures exact { (script : List Row → Script (List ℕ)) → AreWithin io.old → Gives false (List ℕ) m.old io.old [] t.old (script m.old.rows) bytes.now →
        Answers (answer_in result) t.new (store_of m.new io.new) (limited (run m.new.rows (printing to (script m.new.rows)) (store_of m.old io.old))) }
    ensures known { AreKnown m.old → AreKnown m.new }
    ensures same { OnErr result ((m.new ≡ m.old) × (io.new ≡ io.old)) }
    ensures within { AreWithin io.old → AreWithin io.new }
    ensures streams { OnErr result (io.new ≡ io.old) }
    ensures kept { Keeps m.old m.new }
{
    check_output(io, bytes.len() as u64)?;
    t.add(Item::Output)?;
    let mut scratch = Touched::new(alloc)?;
    io.put(to, bytes)?;
    settle(m, t, &mut scratch);
    Ok(Value::Int(i128::from(bytes.len() as u64)))
}

/// The text of a call: the format is read first. `first` is the number of the first argument behind it.
pub fn printed_text(
    alloc: Global,
    pointer: Pointer,
    args: &[Value],
    types: &[Qual],
    first: usize,
    m: &Memory,
    t: &mut Touched,
) -> Result<Vec<u8>, LibAnswer>
    ensures { (io : Io) → HasCell m.now pointer.prov → HaveCells m.now (values_seen args.now) →
        Prints (λ v. v.items) result m.now io t.old t.new (printed_text m.now.rows pointer.addr pointer.prov (drop first (typed args.now types.now))) }
{
    let range = check_string(m, pointer, t)?;
    let mut format = numbers(alloc, m, range, t)?;
    let _ = format.pop();
    text_of(alloc, format.as_slice(), args, types, first, m, t)
}

// The text of a format with its arguments, of which `first` is the number of the first.
fn text_of(
    alloc: Global,
    format: &[u8],
    values: &[Value],
    types: &[Qual],
    first: usize,
    m: &Memory,
    t: &mut Touched,
) -> Result<Vec<u8>, LibAnswer>
    ensures { (io : Io) → HaveCells m.now (values_seen values.now) → Prints (λ v. v.items) result m.now io t.old t.new
        (text_of (suc (length format.now)) m.now.rows 0 format.now (drop first (typed values.now types.now))) }
{
    let mut args = Arguments {
        values,
        types,
        next: first,
    };
    let mut out = Vec::new(alloc);
    let mut rest = format;
    for _turn in 0..format.len() {
        let Some((byte, cs)) = rest.split_first() else {
            return Ok(out);
        };
        let at = format.len() - rest.len();
        let len = put_next(alloc, &mut out, *byte, cs, at, &mut args, m, t)?;
        rest = behind(cs, len);
    }
    Ok(out)
}

// Adds what stands next in the format, a byte or the directive behind it, and gives how many bytes stand behind the first. It is
// that many bytes from the start of the format.
fn put_next(
    alloc: Global,
    out: &mut Vec<u8>,
    byte: u8,
    cs: &[u8],
    at: usize,
    args: &mut Arguments<'_>,
    m: &Memory,
    t: &mut Touched,
) -> Result<usize, LibAnswer>
    ensures exact { (io : Io) → HaveCells m.now (values_seen args.old.values.now) →
        Adds (step_bytes (left args.new)) result m.now io t.old t.new out.old.items out.new.items (step m.now.rows byte cs.now at (left args.old)) }
    ensures len { IfOk result (λ n. n ≤ length cs.now) }
    ensures values { args.new.values ≡ args.old.values }
{
    if byte != b'%' {
        put_one(out, byte)?;
        return Ok(0);
    }
    let directive = taken_directive(cs, at)?;
    put_directive(alloc, out, directive, args, m, t)?;
    Ok(directive.len)
}

// The directive whose `%` stands before the text, at this offset of the format.
fn taken_directive(text: &[u8], at: usize) -> Result<Directive, Refusal>
    ensures form { IsFormed result (directive_of text.now) at }
    ensures len { IfOk result (λ d. d.len ≤ length text.now) }
{
    let Some(directive) = directive_of(text) else {
        return Err(Refusal::Raise(Clause::Conversion));
    };
    match directive.form() {
        Form::Taken => Ok(directive),
        Form::Invalid => Err(Refusal::Raise(Clause::Conversion)),
        Form::LeftOut => Err(Refusal::Outside(Cause::Directive, at as u64)),
    }
}

// Whether the argument of a conversion is a pointer.
fn is_pointed(conversion: u8) -> bool
    ensures { result ≡ is_pointed conversion }
{
    conversion == b's' || conversion == b'p'
}

fn put_directive(
    alloc: Global,
    out: &mut Vec<u8>,
    directive: Directive,
    args: &mut Arguments<'_>,
    m: &Memory,
    t: &mut Touched,
) -> Result<(), LibAnswer>
    ensures exact { (io : Io) → HaveCells m.now (values_seen args.old.values.now) →
        Adds (directive_bytes (left args.new)) result m.now io t.old t.new out.old.items out.new.items
        (put m.now.rows (directive_seen directive) (left args.old)) }
    ensures values { args.new.values ≡ args.old.values }
{
    if is_pointed(directive.conversion) {
        return put_pointed(alloc, out, directive, args, m, t);
    }
    put_plain(alloc, out, directive, args)?;
    Ok(())
}

// Adds a directive without a pointer.
fn put_plain(
    alloc: Global,
    out: &mut Vec<u8>,
    directive: Directive,
    args: &mut Arguments<'_>,
) -> Result<(), Refusal>
    requires { is_pointed directive.conversion ≡ false }
    ensures exact { (rows : List Row) → Puts result out.old.items out.new.items (left args.new) (put rows (directive_seen directive) (left args.old)) }
    ensures values { args.new.values ≡ args.old.values }
{
    if directive.conversion == b'%' {
        put_one(out, b'%')?;
        return Ok(());
    }
    let width = take_width(directive.width, args)?;
    let precision = take_precision(directive.precision, args)?;
    put_value(alloc, out, directive, width, precision, args)
}

// Adds a byte or a number.
fn put_value(
    alloc: Global,
    out: &mut Vec<u8>,
    directive: Directive,
    width: Width,
    precision: Option<u64>,
    args: &mut Arguments<'_>,
) -> Result<(), Refusal>
    requires { is_pointed directive.conversion ≡ false }
    ensures exact { (rows : List Row) → Puts result out.old.items out.new.items (left args.new)
        (put_sized rows (directive_seen directive) (width_seen width) precision (left args.old)) }
    ensures values { args.new.values ≡ args.old.values }
{
    if directive.conversion == b'c' {
        put_byte(out, directive, width, args)
    } else {
        put_number(alloc, out, directive, width, precision, args)
    }
}

fn put_byte(
    out: &mut Vec<u8>,
    directive: Directive,
    width: Width,
    args: &mut Arguments<'_>,
) -> Result<(), Refusal>
    ensures exact { Puts result out.old.items out.new.items (left args.new) (put_byte (directive_seen directive) (width_seen width) (left args.old)) }
    ensures values { args.new.values ≡ args.old.values }
{
    match take_int(args) {
        Ok(number) => put_text(out, &[low_byte(number)], directive.flags, width),
        Err(clause) => Err(Refusal::Raise(clause)),
    }
}

fn put_number(
    alloc: Global,
    out: &mut Vec<u8>,
    directive: Directive,
    width: Width,
    precision: Option<u64>,
    args: &mut Arguments<'_>,
) -> Result<(), Refusal>
    ensures exact { Puts result out.old.items out.new.items (left args.new)
        (put_integer (directive_seen directive) (width_seen width) precision (left args.old)) }
    ensures values { args.new.values ≡ args.old.values }
{
    let conversion = directive.conversion;
    match take_integer(directive.length, is_signed(conversion), args) {
        Ok(number) => put_integer(
            alloc,
            out,
            directive.flags,
            conversion,
            width,
            precision,
            number,
        ),
        Err(clause) => Err(Refusal::Raise(clause)),
    }
}

// Adds a directive with a pointer.
fn put_pointed(
    alloc: Global,
    out: &mut Vec<u8>,
    directive: Directive,
    args: &mut Arguments<'_>,
    m: &Memory,
    t: &mut Touched,
) -> Result<(), LibAnswer>
    requires { is_pointed directive.conversion ≡ true }
    ensures exact { (io : Io) → HaveCells m.now (values_seen args.old.values.now) →
        Adds (directive_bytes (left args.new)) result m.now io t.old t.new out.old.items out.new.items
        (put m.now.rows (directive_seen directive) (left args.old)) }
    ensures values { args.new.values ≡ args.old.values }
{
    let width = take_width(directive.width, args)?;
    let precision = take_precision(directive.precision, args)?;
    if directive.conversion == b's' {
        put_string(alloc, out, directive, width, precision, args, m, t)
    } else {
        put_pointer(alloc, out, directive, width, args, t)
    }
}

fn put_string(
    alloc: Global,
    out: &mut Vec<u8>,
    directive: Directive,
    width: Width,
    precision: Option<u64>,
    args: &mut Arguments<'_>,
    m: &Memory,
    t: &mut Touched,
) -> Result<(), LibAnswer>
    ensures exact { (io : Io) → HaveCells m.now (values_seen args.old.values.now) → Adds (directive_bytes
        (left args.new)) result m.now io t.old t.new out.old.items out.new.items
        (put_string m.now.rows (directive_seen directive) (width_seen width) precision (left args.old)) }
    ensures values { args.new.values ≡ args.old.values }
{
    let pointer = take_pointer(false, args)?;
    let text = string_of(alloc, pointer, precision, m, t)?;
    put_text(out, text.as_slice(), directive.flags, width)?;
    Ok(())
}

fn put_pointer(
    alloc: Global,
    out: &mut Vec<u8>,
    directive: Directive,
    width: Width,
    args: &mut Arguments<'_>,
    t: &mut Touched,
) -> Result<(), LibAnswer>
    ensures exact { (m : Kept) (io : Io) → Adds (directive_bytes (left args.new)) result m io t.old t.new out.old.items out.new.items
        (put_address (directive_seen directive) (width_seen width) (left args.old)) }
    ensures values { args.new.values ≡ args.old.values }
{
    let pointer = take_pointer(true, args)?;
    expose(pointer.prov, t)?;
    put_address(alloc, out, pointer.addr, directive.flags, width)?;
    Ok(())
}
