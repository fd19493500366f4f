// sprintf and snprintf (7.21.6.5, 7.21.6.6).

ghost use Rattle.std.specs.Prelude.{◌≡◌, ◌<◌, ◌^◌, length, take, drop, [], true, false, List, Some, None, Ok, Err, IsTrue, IfOk, IfSome, OnErr, if◌then◌else◌};
ghost use Rattle.ub_base.specs.declared.clause.Clause.TheVariants.{LibraryArgument};
ghost use Rattle.ub_base.specs.Names.{same_object};
ghost use Rattle.addr_map.specs.declared.map.Row.{Row};
ghost use Rattle.libc_spec.specs.Library.{argument_at, integer_in, size_of_value};
ghost use Rattle.libc_spec.specs.Formatted as formatted;
ghost use Rattle.libc_spec.specs.Formatted.{array, ended, placed, room, stored_by, touches, touches_any};
ghost use Rattle.libc_arguments.specs.Answers.{AreWithin, Answers, GivesMade, HaveCells, answer_in, gives_value, is_size};
ghost use Rattle.libc_arguments.specs.Parts.{Follows, Gives, accessed_if};
ghost use Rattle.libc_arguments.specs.Seen.{pointer_seen, values_seen};
ghost use Rattle.libc_arguments.specs.Writes.{FillsRange, IsPlace};
ghost use Rattle.libc_print.specs.Seen.{typed};
ghost use Rattle.libc_print.specs.Calls.{limited};
ghost use Rattle.libc_print.specs.Runs.{Prints};
ghost use Rattle.libc_print.specs.Stored.{overlaps, placed_seen, storing};
ghost use Rattle.mem_spec.specs.Script.{Script, run};
ghost use Rattle.mem_spec.specs.Streams.{Io};
ghost use Rattle.mem_objects.specs.Keeps.{Keeps};
ghost use Rattle.mem_objects.specs.Memory.{AreKnown, HasCell, store_of};

use crate::stream::short_text;
use c_types::Qual;
use libc_arguments::{Pointer, Range, block_of, overwrite, pointer_at, size_at, target_of};
use libc_directives::front;
use prov_memory::{LibAnswer, Memory, Touched, Value, Values};
use std::alloc::Global;
use ub_base::{Clause, Item, NoMemory, ObjName};

// How many bytes are stored of a text of this length, with the zero: all of them, or at most so many.
fn room(most: Option<u64>, len: u64) -> u64
    requires { len < 2 ^ 63 }
    ensures { result ≡ room most len }
{
    match most {
        None => len + 1,
        Some(most) => most.min(len + 1),
    }
}

// Where so many bytes are stored; none where it is none.
fn array(m: &Memory, to: Pointer, len: u64, t: &mut Touched) -> Result<Option<Range>, LibAnswer>
    ensures follows { (io : Io) → HasCell m.now to.prov →
        Follows true (accessed_if m.now) result m.now io t.old t.new (array m.now.rows len (pointer_seen to)) }
    ensures fills { IfOk result (FillsRange len) }
    ensures place { IfOk result (λ target. IfSome target (IsPlace m.now to.addr)) }
{
    if len == 0 {
        return Ok(None);
    }
    target_of(m, to, len, t)
}

/// The text of a call and where it is stored.
#[derive(Drop)]
pub struct Placed {
    pub text: Vec<u8>,
    pub target: Option<Range>,
}

// The text, and where as much of it is stored as there is room for.
fn place(
    alloc: Global,
    most: Option<u64>,
    to: Pointer,
    format: Pointer,
    args: &[Value],
    types: &[Qual],
    first: usize,
    m: &Memory,
    t: &mut Touched,
) -> Result<Placed, LibAnswer>
    ensures follows { (io : Io) → HasCell m.now to.prov → HasCell m.now format.prov → HaveCells m.now (values_seen args.now) →
        Prints (placed_seen m.now) result m.now io t.old t.new
        (placed m.now.rows most (pointer_seen to) (pointer_seen format) (drop first (typed args.now types.now))) }
    ensures fills { IfOk result (λ p. FillsRange (room most (length p.text.items)) p.target) }
    ensures place { IfOk result (λ p. IfSome p.target (IsPlace m.now to.addr)) }
{
    let text = short_text(alloc, format, args, types, first, m, t)?;
    let target = array(m, to, room(most, text.as_slice().len() as u64), t)?;
    Ok(Placed { text, target })
}

fn same_object(first: ObjName, second: ObjName) -> bool
    ensures { result ≡ same_object first second }
{
    first == second
}

// Whether the range has a byte in common with what was read.
fn touches(range: Range, item: Item) -> bool
    ensures { result ≡ touches range.object range.from range.len item }
{
    match item {
        Item::Read { object, from, len } => {
            same_object(object, range.object)
                && (if from <= range.from {
                    range.from - from < len
                } else {
                    from - range.from < range.len
                })
        }
        _ => false,
    }
}

fn touches_any(range: Range, items: &[Item]) -> bool
    ensures { result ≡ touches_any range.object range.from range.len items.now }
{
    let Some((item, items)) = items.split_first() else {
        return false;
    };
    touches(range, *item) || touches_any(range, items)
}

// Whether what is stored overlaps nothing that was read.
fn check_apart(target: Option<Range>, items: &[Item]) -> Result<(), Clause>
    ensures { result ≡ (if overlaps target items.now then Err LibraryArgument else Ok tt) }
{
    match target {
        Some(range) if touches_any(range, items) => Err(Clause::LibraryArgument),
        _ => Ok(()),
    }
}

// So many bytes of the text, of which the last is a zero.
fn ended(alloc: Global, text: &[u8], len: u64) -> Result<Vec<u8>, NoMemory>
    ensures { IfOk result (λ v. v.items ≡ ended len text.now) }
{
    let mut bytes = Vec::new(alloc);
    if len == 0 {
        return Ok(bytes);
    }
    bytes.extend_from_slice(front(text, (len - 1) as usize))?;
    bytes.push(0)?;
    Ok(bytes)
}

// The end of a call: the text is stored, and all of its bytes are counted.
fn put_in(
    alloc: Global,
    most: Option<u64>,
    addr: u64,
    placed: &Placed,
    m: &mut Memory,
    t: &mut Touched,
) -> Result<Value, LibAnswer>
    requires place { IfSome placed.now.target (IsPlace m.old addr) }
    requires fills { FillsRange (room most (length placed.now.text.items)) placed.now.target }
    ensures exact { (script : List Row → Script formatted.Placed) (io : Io) → AreWithin io →
        Gives false formatted.Placed m.old io [] t.old (script m.old.rows) (placed_seen m.old placed.now) →
        Answers (answer_in result) t.new (store_of m.new io) (limited (run m.new.rows (storing most (script m.new.rows)) (store_of m.old io))) }
    ensures known { AreKnown m.old → AreKnown m.new }
    ensures same { OnErr result (m.new ≡ m.old) }
    ensures kept { Keeps m.old m.new }
{
    let text = placed.text.as_slice();
    check_apart(placed.target, t.items())?;
    let bytes = ended(alloc, text, room(most, text.len() as u64))?;
    let block = block_of(alloc, bytes.as_slice())?;
    overwrite(alloc, m, addr, placed.target, &block, t)?;
    Ok(Value::Int(i128::from(text.len() as u64)))
}

// Stores a text. The array is the first argument and the format the argument `at`, and its own arguments are those from `first` on.
fn stored(
    alloc: Global,
    most: Option<u64>,
    args: &[Value],
    types: &[Qual],
    at: usize,
    first: usize,
    m: &mut Memory,
    t: &mut Touched,
) -> Result<Value, LibAnswer>
    requires { t.old ≡ [] }
    ensures exact { (io : Io) → AreWithin io → HaveCells m.old (values_seen args.now) → Answers (answer_in result) t.new (store_of m.new io)
        (stored_by m.new.rows most (argument_at (values_seen args.now) 0) (argument_at (values_seen args.now) at) (drop first (typed args.now types.now))
        (store_of m.old io)) }
    ensures known { AreKnown m.old → AreKnown m.new }
    ensures same { OnErr result (m.new ≡ m.old) }
    ensures kept { Keeps m.old m.new }
{
    let to = pointer_at(args, 0);
    let placed = place(
        alloc,
        most,
        to,
        pointer_at(args, at),
        args,
        types,
        first,
        m,
        t,
    )?;
    put_in(alloc, most, to.addr, &placed, m, t)
}

/// What sprintf gives for an array, a format and further arguments, which have these types. After each answer but a value,
/// memory is as before.
pub fn format_into(
    alloc: Global,
    args: &Values,
    types: &[Qual],
    m: &mut Memory,
    t: &mut Touched,
) -> LibAnswer
    ensures exact { (io : Io) → AreWithin io → HaveCells m.old (values_seen args.now) → Answers result t.new (store_of m.new io)
        (stored_by m.new.rows None (argument_at (values_seen args.now) 0) (argument_at (values_seen args.now) 1) (drop 2 (typed args.now types.now))
        (store_of m.old io)) }
    ensures known { AreKnown m.old → AreKnown m.new }
    ensures same { gives_value result ≡ false → m.new ≡ m.old }
    ensures kept { Keeps m.old m.new }
    ensures made { HaveCells m.old (values_seen args.now) → GivesMade m.new result }
{
    t.clear();
    match stored(alloc, None, args.as_slice(), types, 1, 2, m, t) {
        Ok(value) => LibAnswer::Value(value),
        Err(answer) => answer,
    }
}

/// What snprintf gives for an array, its size, a format and further arguments, which have these types. After each answer but a
/// value, memory is as before.
pub fn format_within(
    alloc: Global,
    args: &Values,
    types: &[Qual],
    m: &mut Memory,
    t: &mut Touched,
) -> LibAnswer
    ensures exact { (io : Io) → AreWithin io → IsTrue (is_size (integer_in (argument_at (values_seen args.now) 1))) → HaveCells m.old (values_seen args.now) →
        Answers result t.new (store_of m.new io) (stored_by m.new.rows (Some (size_of_value (argument_at (values_seen args.now) 1)))
        (argument_at (values_seen args.now) 0) (argument_at (values_seen args.now) 2) (drop 3 (typed args.now types.now)) (store_of m.old io)) }
    ensures known { AreKnown m.old → AreKnown m.new }
    ensures same { gives_value result ≡ false → m.new ≡ m.old }
    ensures kept { Keeps m.old m.new }
    ensures made { HaveCells m.old (values_seen args.now) → GivesMade m.new result }
{
    t.clear();
    let most = Some(size_at(args.as_slice(), 1));
    match stored(alloc, most, args.as_slice(), types, 2, 3, m, t) {
        Ok(value) => LibAnswer::Value(value),
        Err(answer) => answer,
    }
}
