// Operators and conversions.
ghost use Rattle.std.specs.Prelude.{◌≡◌, List, [], IfOk, IfErr};
ghost use Rattle.addr_map.specs.declared.map.Row.{Row};
ghost use Rattle.c_arith.specs.Operators.{bits, conv, negated};
ghost use Rattle.c_types.specs.declared.kind.IntKind.TheVariants.{ULong};
ghost use Rattle.c_model.specs.Nodes as nodes;
ghost use Rattle.c_model.specs.Nodes.{bool_value, int_outcome, operated, unary_value};
ghost use Rattle.c_model.specs.Values.{address_in};
ghost use Rattle.mem_spec.specs.Acts as acts;
ghost use Rattle.mem_spec.specs.Script.{run, Done, Raised};
ghost use Rattle.mem_spec.specs.Store.{Store};
ghost use Rattle.mem_spec.specs.Streams.{Io};
ghost use Rattle.mem_objects.specs.Loads.{IfRaise};
ghost use Rattle.mem_objects.specs.Keeps.{Keeps};
ghost use Rattle.mem_objects.specs.Made.{IsMade};
ghost use Rattle.mem_objects.specs.Pieces.{IsMadeValue};
ghost use Rattle.mem_objects.specs.Memory.{Kept, AreKnown, act_of, store_of};
ghost use Rattle.run_acts.specs.Scripts.{exposed_act, found_act, aligned_act};
ghost use Rattle.run_values.specs.Kept.{IsOf};
ghost use Rattle.run_values.specs.Views.{value_in, value_result, pointer_at};

use c_arith::{apply, complement, is_operand, negate};
use c_typed::{Conversion, EqOp, UnOp};
use c_types::{BinOp, IntKind};
use prov_memory::{MemFault, Memory, Touched, Value};
use run_values::{Pointer, as_function, as_integer, as_pointer, truth};
use ub_base::{Clause, Event, NoMemory};

/// The value of a conversion (6.3), or 6.3.2.3p7.
pub fn convert(
    m: &mut Memory,
    conversion: Conversion,
    who: Event,
    operand: &Value,
    t: &mut Touched,
) -> Result<Value, MemFault>
    ensures exact { IfOk result (λ value. AreKnown m.old → (io : Io) → run m.old.rows (nodes.convert who conversion (value_in m.old operand.now))
        (store_of m.old io) ≡ Done (value_in m.new value) t.new (store_of m.new io)) }
    ensures raises { IfErr result (λ fault. IfRaise fault (λ c. (io : Io) →
        run m.old.rows (nodes.convert who conversion (value_in m.old operand.now)) (store_of m.old io) ≡ Raised c)) }
    ensures same { IfErr result (λ fault. IfRaise fault (λ c. m.new ≡ m.old)) }
    ensures kept { Keeps m.old m.new }
    ensures made { IsMadeValue m.old operand.now → IfOk result (IsOf m.new) }
{
    t.clear();
    match conversion {
        Conversion::Integer(kind) => Ok(Value::Int(c_arith::convert(kind, as_integer(operand)))),
        Conversion::Address(kind) => Ok(exposed(m, kind, as_pointer(operand), t)),
        Conversion::NotNull => Ok(flag(truth(operand))),
        Conversion::Lookup => {
            let pointer = found(m, who, address(as_integer(operand)), t)?;
            Ok(pointer)
        }
        Conversion::Pointer { align } => {
            let pointer = aligned(align, as_pointer(operand))?;
            Ok(pointer)
        }
        Conversion::Function => Ok(Value::Func(as_function(operand))),
    }
}

// The number of a pointer's address (6.3.2.3p6).
fn exposed(m: &mut Memory, kind: IntKind, pointer: Pointer, t: &mut Touched) -> Value
    ensures exact { (io : Io) → run m.old.rows (exposed_act kind (pointer_at pointer)) (store_of m.old io) ≡ Done (value_in m.new result) t.new
        (store_of m.new io) }
    ensures kept { Keeps m.old m.new }
    ensures made { IsOf m.new result }
{
    m.expose(pointer.prov, t);
    Value::Int(c_arith::convert(kind, i128::from(pointer.addr)))
}

// The pointer that an address makes (6.3.2.3p5).
fn found(m: &mut Memory, who: Event, addr: u64, t: &mut Touched) -> Result<Value, NoMemory>
    ensures exact { IfOk result (λ value. AreKnown m.old → (io : Io) →
        run m.old.rows (found_act who addr) (store_of m.old io) ≡ Done (value_in m.new value) t.new (store_of m.new io)) }
    ensures kept { Keeps m.old m.new }
    ensures made { IfOk result (IsOf m.new) }
{
    let prov = m.from_int(who, addr, t)?;
    Ok(Value::Ptr { addr, prov })
}

// A pointer that is aligned (6.3.2.3p7).
fn aligned(align: u64, pointer: Pointer) -> Result<Value, Clause>
    ensures exact { (m : Kept) (rows : List Row) (s : Store) → run rows (aligned_act align (pointer_at pointer)) s ≡ act_of (value_result m result) [] s }
    ensures made { (m : Kept) → IsMade m pointer.prov → IfOk result (IsOf m) }
{
    if is_aligned(align, pointer.addr) {
        Ok(pointer.value())
    } else {
        Err(Clause::PointerAlignment)
    }
}

// Aligned, where there is an alignment.
fn is_aligned(align: u64, addr: u64) -> bool
    ensures { result ≡ acts.is_aligned align addr }
{
    align == 0 || addr % align == 0
}

// The address that an integer gives, modulo 2^64 (own).
fn address(number: i128) -> u64
    ensures { result ≡ bits ULong number }
{
    let low = number.rem_euclid(0x1_0000_0000_0000_0000);
    u64::try_from(low).unwrap_or(0)
}

/// The value of `-`, `~` or `!` (6.5.3.3), or 6.5p5.
pub fn unary(op: UnOp, operand: &Value) -> Result<Value, Clause>
    ensures { (m : Kept) (rows : List Row) (s : Store) → run rows (unary_value op (value_in m operand.now)) s ≡ act_of (value_result m result) [] s }
{
    let number = as_integer(operand);
    match op {
        UnOp::Minus(kind) => minus(kind, number),
        UnOp::Complement(kind) => Ok(Value::Int(complement(kind, c_arith::convert(kind, number)))),
        UnOp::Not => Ok(flag(!truth(operand))),
    }
}

fn minus(kind: IntKind, number: i128) -> Result<Value, Clause>
    ensures { (m : Kept) (rows : List Row) (s : Store) → run rows (int_outcome (negated kind (conv kind number))) s ≡ act_of (value_result m result) [] s }
{
    let value = negate(kind, c_arith::convert(kind, number))?;
    Ok(Value::Int(value))
}

// 1 or 0.
pub(crate) fn flag(holds: bool) -> Value
    ensures { (m : Kept) → value_in m result ≡ bool_value holds }
{
    Value::Int(i128::from(holds))
}

/// The value of a binary operator on integers (6.5.5 to 6.5.7, 6.5.10 to 6.5.12), or the clause that it breaks; 0 where an
/// operand isn't of the kind.
pub fn binary(op: BinOp, kind: IntKind, left: i128, right: i128) -> Result<i128, Clause>
    ensures { result ≡ operated op kind left right }
{
    if kind.holds(left) {
        if is_operand(op, kind, right) {
            return apply(op, kind, left, right);
        }
    }
    Ok(0)
}

/// The value of `==` or `!=` (6.5.9); pointers are equal where their addresses are (own).
pub fn equal(op: EqOp, left: &Value, right: &Value) -> Value
    ensures { (m : Kept) → value_in m result ≡ nodes.equal op (value_in m left.now) (value_in m right.now) }
{
    let same = match (left, right) {
        (Value::Int(a), Value::Int(b)) => *a == *b,
        _ => place_of(left) == place_of(right),
    };
    let result = match op {
        EqOp::Equal => same,
        EqOp::NotEqual => !same,
    };
    Value::Int(i128::from(result))
}

// The address of an object or function pointer.
fn place_of(value: &Value) -> u64
    ensures { (m : Kept) → result ≡ address_in (value_in m value.now) }
{
    match value {
        Value::Func(addr) => *addr,
        _ => as_pointer(value).addr,
    }
}
