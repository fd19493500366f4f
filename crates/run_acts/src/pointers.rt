// Pointer arithmetic, comparisons, and updates.
ghost use Rattle.std.specs.Prelude.{◌≡◌, ◌<◌, ◌^◌, ◌==◌, ◌||◌, Bool, ℤ, pos, neg_ℤ, ◌*ℤ◌, unsigned_abs, IfOk, IfErr, OnErr};
ghost use Rattle.c_model.specs.Nodes as nodes;
ghost use Rattle.c_model.specs.Nodes.{given_back, is_empty};
ghost use Rattle.c_model.specs.Values.{pointer_value};
ghost use Rattle.c_typed.specs.declared.tree.Access.TheVariants as access;
ghost use Rattle.c_typed.specs.declared.tree.Change.TheVariants as change;
ghost use Rattle.c_types.specs.Types.{CType, type_of};
ghost use Rattle.mem_spec.specs.Script.{run, Done, Raised};
ghost use Rattle.mem_spec.specs.Streams.{Io};
ghost use Rattle.mem_objects.specs.Made.{IsMade};
ghost use Rattle.mem_objects.specs.Loads.{IfRaise};
ghost use Rattle.mem_objects.specs.Keeps.{Keeps};
ghost use Rattle.mem_objects.specs.Memory.{HasCell, AreKnown, act_of, store_of};
ghost use Rattle.mem_objects.specs.Pieces.{IsMadeValue};
ghost use Rattle.mem_objects.specs.Sound.{IsSound};
ghost use Rattle.run_acts.specs.Scripts.{holds_in, less_act};
ghost use Rattle.run_values.specs.Kept.{IsOf};
ghost use Rattle.run_acts.specs.Updates.{CanChange, IsNear, IsNearChange};
ghost use Rattle.run_values.specs.Views.{value_in, value_result, place_result, pointer_at};

use crate::numbers::{binary, flag};
use c_typed::{Change, RelOp};
use c_types::{BinOp, IntKind, Ty};
use exposure::Prov;
use prov_memory::{MemFault, Memory, Touched, Value};
use run_values::{Pointer, as_integer, as_pointer};
use std::cmp::Ordering;
use ub_base::{Clause, Event};

// So many bytes as the index and the size of an element make.
fn distance_of(size: u64, subtract: bool, index: i128) -> i128
    ensures { IsNear size index → result ≡ nodes.distance size subtract index }
{
    let distance = product(size, index);
    if subtract {
        opposite(distance)
    } else {
        distance
    }
}

fn product(size: u64, index: i128) -> i128
    ensures { IsNear size index → result ≡ index *ℤ pos size }
{
    i128::from(size).wrapping_mul(index)
}

fn opposite(distance: i128) -> i128
    ensures { unsigned_abs distance < 2 ^ 127 → result ≡ neg_ℤ distance }
{
    distance.wrapping_neg()
}

/// A pointer plus or minus an index of elements of `size` bytes (6.5.6p8).
pub fn moved(
    m: &mut Memory,
    pointer: Pointer,
    size: u64,
    subtract: bool,
    index: i128,
    t: &mut Touched,
) -> Result<Pointer, Clause>
    ensures exact { IsNear size index → IsMade m.old pointer.prov → (io : Io) → run m.old.rows
        (nodes.shifted m.old.rows (pointer_at pointer) (nodes.distance size subtract index)) (store_of m.old io) ≡ act_of (place_result result) t.new
        (store_of m.new io) }
    ensures same { OnErr result (m.new ≡ m.old) }
    ensures kept { Keeps m.old m.new }
    ensures made { IsMade m.old pointer.prov → IfOk result (λ p. IsMade m.new p.prov) }
{
    shifted(m, pointer, distance_of(size, subtract, index), t)
}

// A pointer that moves so many bytes within its object (6.5.6p8).
fn shifted(m: &mut Memory, pointer: Pointer, by: i128, t: &mut Touched) -> Result<Pointer, Clause>
    ensures exact { IsMade m.old pointer.prov → (io : Io) → run m.old.rows (nodes.shifted m.old.rows (pointer_at pointer) by) (store_of m.old io) ≡ act_of
        (place_result result) t.new (store_of m.new io) }
    ensures same { OnErr result (m.new ≡ m.old) }
    ensures kept { Keeps m.old m.new }
    ensures made { IsMade m.old pointer.prov → IfOk result (λ p. IsMade m.new p.prov) }
{
    let addr = m.shift(pointer.addr, pointer.prov, by, t)?;
    Ok(Pointer {
        addr,
        prov: pointer.prov,
    })
}

/// The place of the member at this offset (6.5.2.3p4), or 6.5.3.2p4 for a pointer to no object.
pub fn member(
    m: &mut Memory,
    pointer: Pointer,
    offset: u64,
    t: &mut Touched,
) -> Result<Pointer, Clause>
    ensures exact { IsMade m.old pointer.prov → (io : Io) → run m.old.rows (nodes.member m.old.rows offset (pointer_at pointer)) (store_of m.old io) ≡ act_of
        (place_result result) t.new (store_of m.new io) }
    ensures same { OnErr result (m.new ≡ m.old) }
    ensures kept { Keeps m.old m.new }
    ensures made { IsMade m.old pointer.prov → IfOk result (λ p. IsMade m.new p.prov) }
{
    if is_nowhere(pointer) {
        return Err(Clause::InvalidPointer);
    }
    shifted(m, pointer, i128::from(offset), t)
}

// Whether the pointer is null or was made from no object.
fn is_nowhere(pointer: Pointer) -> bool
    ensures { result ≡ ((pointer.addr == 0) || is_empty pointer.prov) }
{
    pointer.addr == 0 || matches!(pointer.prov, Prov::Empty)
}

/// The difference of two pointers to elements of `size` bytes (6.5.6p9).
pub fn distance(
    m: &mut Memory,
    left: Pointer,
    right: Pointer,
    size: u64,
    t: &mut Touched,
) -> Result<Value, Clause>
    ensures exact { IsMade m.old left.prov → IsMade m.old right.prov → (io : Io) →
        run m.old.rows (nodes.difference size (pointer_at left) (pointer_at right)) (store_of m.old io) ≡ act_of (value_result m.new result) t.new
        (store_of m.new io) }
    ensures same { OnErr result (m.new ≡ m.old) }
    ensures kept { Keeps m.old m.new }
    ensures made { IfOk result (IsOf m.new) }
{
    let count = m.diff(left.addr, left.prov, right.addr, right.prov, size, t)?;
    Ok(Value::Int(count))
}

/// The value of a relational operator (6.5.8), on two pointers or two integers.
pub fn related(
    m: &mut Memory,
    op: RelOp,
    pointers: bool,
    left: &Value,
    right: &Value,
    t: &mut Touched,
) -> Result<Value, Clause>
    ensures exact { IsMadeValue m.old left.now → IsMadeValue m.old right.now → (io : Io) → run m.old.rows
        (nodes.relational op pointers (value_in m.old left.now) (value_in m.old right.now)) (store_of m.old io) ≡ act_of (value_result m.new result) t.new
        (store_of m.new io) }
    ensures same { OnErr result (m.new ≡ m.old) }
    ensures kept { Keeps m.old m.new }
    ensures made { IfOk result (IsOf m.new) }
{
    t.clear();
    if pointers {
        let first = as_pointer(left);
        let second = as_pointer(right);
        return pointers_related(m, op, first, second, t);
    }
    let first = as_integer(left);
    let second = as_integer(right);
    let order = first.cmp(&second);
    Ok(flag(agrees(op, order)))
}

// Of two pointers.
fn pointers_related(
    m: &mut Memory,
    op: RelOp,
    left: Pointer,
    right: Pointer,
    t: &mut Touched,
) -> Result<Value, Clause>
    ensures exact { IsMade m.old left.prov → IsMade m.old right.prov → (io : Io) →
        run m.old.rows (less_act op (pointer_at left) (pointer_at right)) (store_of m.old io) ≡ act_of (value_result m.new result) t.new (store_of m.new io) }
    ensures same { OnErr result (m.new ≡ m.old) }
    ensures kept { Keeps m.old m.new }
    ensures made { IfOk result (IsOf m.new) }
{
    let order = m.less(left.addr, left.prov, right.addr, right.prov, t)?;
    Ok(flag(agrees(op, order)))
}

// Whether the operator holds of operands in this order.
fn agrees(op: RelOp, order: Ordering) -> bool
    ensures { result ≡ holds_in op order }
{
    match op {
        RelOp::Less => matches!(order, Ordering::Less),
        RelOp::Greater => matches!(order, Ordering::Greater),
        RelOp::LessEq => !matches!(order, Ordering::Greater),
        RelOp::GreaterEq => !matches!(order, Ordering::Less),
    }
}

/// The values of an object before and after an update (6.5.2.4, 6.5.3.1, 6.5.16.2). `ty` is the object's type where it
/// is a pointer; `spare` is overwritten.
pub fn changed(
    m: &mut Memory,
    change: Change,
    ty: &Ty,
    who: Event,
    place: Pointer,
    operand: i128,
    t: &mut Touched,
    spare: &mut Touched,
) -> Result<(Value, Value), MemFault>
    ensures exact { IfOk result (λ both. CanChange m.old place → IsNearChange change operand → (old : Bool) (io : Io) →
        run m.old.rows (nodes.update_value m.old.rows who change old (type_of ty.now) (pointer_at place) operand) (store_of m.old io) ≡ Done
        (given_back old (value_in m.new both.0) (value_in m.new both.1)) t.new (store_of m.new io)) }
    ensures raises { IfErr result (λ fault. IfRaise fault (λ c. CanChange m.old place → IsNearChange change operand → (old : Bool) (io : Io) →
        run m.old.rows (nodes.update_value m.old.rows who change old (type_of ty.now) (pointer_at place) operand) (store_of m.old io) ≡ Raised c)) }
    ensures after { IfOk result (λ both. CanChange m.old place → IsNearChange change operand → (io : Io) →
        value_in m.new both.1 ≡ nodes.changed change (value_in m.new both.0) operand) }
    ensures kept { Keeps m.old m.new }
    ensures made { IfOk result (λ both. IsSound m.old → IsOf m.new both.0 × IsOf m.new both.1) }
{
    match change {
        Change::Integer { op, kind, work } => changed_integer(m, op, kind, work, place, operand, t),
        Change::Pointer { size, subtract } => {
            changed_pointer(m, size, subtract, ty, who, place, operand, t, spare)
        }
    }
}

fn changed_integer(
    m: &mut Memory,
    op: BinOp,
    kind: IntKind,
    work: IntKind,
    place: Pointer,
    operand: i128,
    t: &mut Touched,
) -> Result<(Value, Value), MemFault>
    ensures exact { IfOk result (λ both. HasCell m.old place.prov → (who : Event) (ty : CType) (old : Bool) (io : Io) →
        run m.old.rows (nodes.update_value m.old.rows who (change.Integer op kind work) old ty (pointer_at place) operand) (store_of m.old io) ≡ Done
        (given_back old (value_in m.new both.0) (value_in m.new both.1)) t.new (store_of m.new io)) }
    ensures raises { IfErr result (λ fault. IfRaise fault (λ c. HasCell m.old place.prov → (who : Event) (ty : CType) (old : Bool) (io : Io) →
        run m.old.rows (nodes.update_value m.old.rows who (change.Integer op kind work) old ty (pointer_at place) operand) (store_of m.old io) ≡ Raised c)) }
    ensures after { IfOk result (λ both. value_in m.new both.1 ≡ nodes.changed (change.Integer op kind work) (value_in m.new both.0) operand) }
    ensures kept { Keeps m.old m.new }
    ensures made { IfOk result (λ both. IsOf m.new both.0 × IsOf m.new both.1) }
{
    let old = m.load_int(kind, place.addr, place.prov, t)?;
    let before = c_arith::convert(work, old);
    let new = binary(op, work, before, operand)?;
    let after = c_arith::convert(kind, new);
    Ok((Value::Int(old), Value::Int(after)))
}

fn changed_pointer(
    m: &mut Memory,
    size: u64,
    subtract: bool,
    ty: &Ty,
    who: Event,
    place: Pointer,
    operand: i128,
    t: &mut Touched,
    spare: &mut Touched,
) -> Result<(Value, Value), MemFault>
    ensures exact { IfOk result (λ both. CanChange m.old place → IsNear size operand → (old : Bool) (io : Io) →
        run m.old.rows (nodes.update_value m.old.rows who (change.Pointer size subtract) old (type_of ty.now) (pointer_at place) operand)
        (store_of m.old io) ≡ Done (given_back old (value_in m.new both.0) (value_in m.new both.1)) t.new (store_of m.new io)) }
    ensures raises { IfErr result (λ fault. IfRaise fault (λ c. CanChange m.old place → IsNear size operand → (old : Bool) (io : Io) →
        run m.old.rows (nodes.update_value m.old.rows who (change.Pointer size subtract) old (type_of ty.now) (pointer_at place) operand)
        (store_of m.old io) ≡ Raised c)) }
    ensures after { IfOk result (λ both. CanChange m.old place → IsNear size operand → (io : Io) →
        value_in m.new both.1 ≡ nodes.changed (change.Pointer size subtract) (value_in m.new both.0) operand) }
    ensures kept { Keeps m.old m.new }
    ensures made { IfOk result (λ both. IsSound m.old → IsOf m.new both.0 × IsOf m.new both.1) }
{
    let old = pointer_there(m, ty, who, place, t)?;
    let by = distance_of(size, subtract, operand);
    let addr = m.shift(old.addr, old.prov, by, spare)?;
    t.join(spare)?;
    let new = Pointer {
        addr,
        prov: old.prov,
    };
    let before = old.value();
    let after = new.value();
    Ok((before, after))
}

// The pointer that an object holds.
fn pointer_there(
    m: &mut Memory,
    ty: &Ty,
    who: Event,
    place: Pointer,
    t: &mut Touched,
) -> Result<Pointer, MemFault>
    ensures exact { IfOk result (λ p. HasCell m.old place.prov → AreKnown m.old → (io : Io) →
        run m.old.rows (nodes.load m.old.rows who access.Pointer (type_of ty.now) (pointer_at place)) (store_of m.old io) ≡ Done
        (pointer_value (pointer_at p)) t.new (store_of m.new io)) }
    ensures raises { IfErr result (λ fault. IfRaise fault (λ c. (io : Io) →
        run m.old.rows (nodes.load m.old.rows who access.Pointer (type_of ty.now) (pointer_at place)) (store_of m.old io) ≡ Raised c)) }
    ensures made { IfOk result (λ p. IsSound m.old → IsMade m.new p.prov) }
    ensures rows { m.new.rows ≡ m.old.rows }
    ensures kept { Keeps m.old m.new }
{
    let value = m.load_ptr(ty, who, 8, place.addr, place.prov, t)?;
    Ok(as_pointer(&value))
}
