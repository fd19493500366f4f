// Calls and their results (6.5.2.2).
ghost use Rattle.std.specs.Prelude.{IfOk, ◌≡◌, ◌≢◌, ℕ, ◌<◌, ◌≤◌, ◌^◌, ◌||◌, List, [], length, slice_get, is_some, Bool, true, Some, IfSome, IfNone, pos};
ghost use Rattle.std.specs.Option.{option_copied};
ghost use Rattle.addr_map.specs.declared.map.Row.{Row};
ghost use Rattle.c_model.specs.Nodes.{call_value};
ghost use Rattle.c_model.specs.Program.{Function as Called};
ghost use Rattle.c_model.specs.Runs.{status_of};
ghost use Rattle.c_model.specs.Steps.{function_of};
ghost use Rattle.c_model.specs.Values as model;
ghost use Rattle.c_model.specs.Values.{Int};
ghost use Rattle.c_types.specs.Same.{compatible_functions};
ghost use Rattle.c_typed.specs.declared.program.Function.{Function as Typed};
ghost use Rattle.c_types.specs.Types.{CType, signature_of};
ghost use Rattle.mem_spec.specs.Script.{run};
ghost use Rattle.mem_spec.specs.Store.{Store};
ghost use Rattle.mem_objects.specs.Memory.{Kept, act_of};
ghost use Rattle.run_acts.specs.Calls.{AreFunctions, AgreesAsCompatible, call_checks, checked_call, left_of, type_by};
ghost use Rattle.run_values.specs.Kept.{IsOf};
ghost use Rattle.run_values.specs.Views.{value_in, value_result};

use c_typed::{Function, Program};
use c_types::{FuncTy, Ty, compatible_functions};
use prov_memory::Value;
use run_objects::function_address;
use run_values::as_integer;
use ub_base::Clause;

/// The number of the function that a call through this address and type calls: 6.5.3.2p4 where no function that is
/// defined or of the library stands there, and 6.5.2.2p9 where its type isn't compatible.
pub fn callee(p: &Program, addr: u64, ty: &FuncTy) -> Result<u32, Clause>
    ensures exact { length p.now.functions ≤ 2 ^ 32 → (fs : List Called) → AreFunctions p.now.functions fs → (agree : CType → CType → Bool) →
        AgreesAsCompatible agree → (rows : List Row) (s : Store) →
        run rows (checked_call agree (type_by (signature_of ty.now)) (function_of fs 0 addr)) s ≡ act_of result [] s }
    // It is a function of the program, which the program defines or the library has.
    ensures callable { IfOk result (λ n. (f : Typed) × (slice_get p.now.functions n ≡ Some f) × ((is_some f.body || is_some f.library) ≡ true)) }
{
    let Some(number) = number_at(addr) else {
        return Err(Clause::InvalidPointer);
    };
    let Some(function) = p.functions.as_slice().get(number as usize) else {
        return Err(Clause::InvalidPointer);
    };
    check_call(function, ty)?;
    Ok(number)
}

// The number of the function whose address this is.
fn number_at(addr: u64) -> Option<u32>
    ensures some { IfSome result (λ n. addr ≡ model.function_address n) }
    ensures none { IfNone result ((n : ℕ) → n < 2 ^ 32 → addr ≡ model.function_address n → ⊥) }
{
    let number = u32::try_from(addr.saturating_sub(4096) / 16).ok()?;
    (function_address(number) == addr).then_some(number)
}

// Whether a call of this type may call it.
fn check_call(function: &Function, ty: &FuncTy) -> Result<(), Clause>
    ensures { result ≡ call_checks (is_some function.now.body || is_some function.now.library)
        (compatible_functions (signature_of function.now.ty) (signature_of ty.now)) }
{
    if function.body.is_none() && function.library.is_none() {
        return Err(Clause::InvalidPointer);
    }
    if compatible_functions(&function.ty, ty) {
        Ok(())
    } else {
        Err(Clause::IncompatibleCall)
    }
}

/// The value of a call from what its body left: 6.9.1p12 where that is missing and the call isn't discarded; a structure
/// or union stands nowhere any more (6.8.6.4p4).
pub fn answer(left: Value, discarded: bool) -> Result<Value, Clause>
    ensures exact { (m : Kept) (rows : List Row) (s : Store) → run rows (call_value discarded (value_in m left)) s ≡ act_of (value_result m result) [] s }
    ensures made { (m : Kept) → IsOf m left → IfOk result (IsOf m) }
{
    match left {
        Value::Missing => {
            if discarded {
                Ok(Value::Missing)
            } else {
                Err(Clause::MissingValue)
            }
        }
        Value::Block(mut block) => {
            block.unplace();
            Ok(Value::Block(block))
        }
        value => Ok(value),
    }
}

/// What a call of a function leaves that gives no result (6.9.1p12): 0 for `main` (5.1.2.2.3), and nothing where it has
/// the result type `void`.
pub fn left(p: &Program, function: u32) -> Value
    ensures main { function ≡ p.now.main → (m : Kept) → value_in m result ≡ Int (pos 0) }
    ensures other { (f : Typed) → function ≢ p.now.main → slice_get p.now.functions function ≡ Some f → (m : Kept) →
        value_in m result ≡ left_of (signature_of f.ty).result }
{
    if function == p.main {
        return Value::Int(0);
    }
    match function_at(p, function) {
        Some(function) => left_by(&function.ty),
        None => Value::Missing,
    }
}

fn function_at(p: &Program, function: u32) -> Option<&Function>
    ensures { option_copied result ≡ slice_get p.now.functions function }
{
    p.functions.as_slice().get(function as usize)
}

// The same by the type of the function.
fn left_by(ty: &FuncTy) -> Value
    ensures { (m : Kept) → value_in m result ≡ left_of (signature_of ty.now).result }
{
    match ty.result {
        Ty::Void => Value::Nothing,
        _ => Value::Missing,
    }
}

/// The exit status for the result of `main`: its value modulo 256 (own).
pub fn exit_status(left: &Value) -> u8
    ensures { (m : Kept) → result ≡ status_of (value_in m left.now) }
{
    as_integer(left).rem_euclid(256) as u8
}
