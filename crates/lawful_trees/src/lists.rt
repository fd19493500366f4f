// The types of what takes any number of operands: `,`, calls, and initializer lists (6.5.17, 6.5.2.2, 6.7.9).
ghost use Rattle.std.specs.Prelude.{◌≡◌, Bool, true, IsTrue, List, map};
ghost use Rattle.std.specs.List.{All};
ghost use Rattle.c_types.specs.Types.{void, none, type_of, params_of, qualified_of};
ghost use Rattle.c_typed.specs.declared.program.Program.{Program};
ghost use Rattle.c_typed.specs.declared.program.Constant.{Constant};
ghost use Rattle.c_typed.specs.declared.tree.Slot.{Slot};
ghost use Rattle.c_typed.specs.declared.tree.Node.TheOpen as shape;
ghost use Rattle.c_typed.specs.Lawful.{TypesAre, LastIs, Passed, CallTypes};
ghost use Rattle.c_typed.specs.Sites.{Blocks};
ghost use Rattle.lawful_trees.specs.Views.{types_of};

use crate::types::{gives, is_argument, is_result, is_void, value_is};
use c_typed::{Program, Typed};
use c_types::{Qual, Tags, Ty, same_type};

/// Whether the value of the last operand is that of the whole.
pub fn last_is(own: &Ty, operands: &[Typed]) -> bool
    ensures { IsTrue result → LastIs (type_of own.now) (types_of operands.now) }
{
    match operands.split_last() {
        Some((last, _)) => value_is(own, &last.ty),
        None => false,
    }
}

// The arguments behind an ellipsis are promoted (6.5.2.2p7).
fn are_promoted(tags: &Tags, arguments: &[Typed]) -> bool
    ensures { IsTrue result → Passed tags.now none true (types_of arguments.now) }
{
    let Some((argument, arguments)) = arguments.split_first() else {
        return true;
    };
    is_argument(tags, &argument.ty) && are_promoted(tags, arguments)
}

// The arguments have the types of the parameters; those behind an ellipsis are promoted.
fn passed(tags: &Tags, params: &[Qual], variadic: bool, arguments: &[Typed]) -> bool
    ensures { IsTrue result → Passed tags.now (params_of (map qualified_of params.now)) variadic (types_of arguments.now) }
{
    let Some((param, params)) = params.split_first() else {
        return arguments.is_empty() || (variadic && are_promoted(tags, arguments));
    };
    let Some((argument, arguments)) = arguments.split_first() else {
        return false;
    };
    same_type(&argument.ty, &param.ty) && passed(tags, params, variadic, arguments)
}

/// Whether it is a call of the first operand's function with the others (6.5.2.2p2).
pub fn call_types(program: &Program, own: &Ty, operands: &[Typed]) -> bool
    ensures { IsTrue result → (blocks : Blocks) (discarded : Bool) →
        TypesAre program.now blocks (shape.Call discarded) (type_of own.now) (types_of operands.now) }
{
    let Some((called, arguments)) = operands.split_first() else {
        return false;
    };
    calls(&program.tags, own, &called.ty, arguments)
}

// Whether the function takes these arguments and gives this type.
fn calls(tags: &Tags, own: &Ty, called: &Ty, arguments: &[Typed]) -> bool
    ensures { IsTrue result → CallTypes tags.now (type_of own.now) (type_of called.now) (types_of arguments.now) }
{
    match called {
        Ty::Pointer(target) => match &target.get().ty {
            Ty::Function(function) => {
                let function = function.get();
                let params = function.params.as_slice();
                gives(own, &function.result)
                    && is_result(tags, &function.result)
                    && passed(tags, params, function.variadic, arguments)
            }
            _ => false,
        },
        _ => false,
    }
}

// Whether none of the operands gives a value.
fn all_void(operands: &[Typed]) -> bool
    ensures { IsTrue result → All (λ t. t ≡ void) (types_of operands.now) }
{
    for operand in operands {
        if !is_void(&operand.ty) {
            return false;
        }
    }
    true
}

/// Whether an initializer list and its operands give no value.
pub fn list_types(own: &Ty, operands: &[Typed]) -> bool
    ensures { IsTrue result → (p : Program) (blocks : Blocks) (slot : Slot) (bytes : List Constant) →
        TypesAre p blocks (shape.List slot bytes) (type_of own.now) (types_of operands.now) }
{
    is_void(own) && all_void(operands)
}
