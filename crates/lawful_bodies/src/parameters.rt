// The parameters of a function, and those at the head of a body block (6.7.6.3, 6.9.1).
ghost use Rattle.std.specs.Prelude.{◌≡◌, IsTrue, map};
ghost use Rattle.c_types.specs.Types.{type_of, signature_of, qualified_of, params_of};
ghost use Rattle.c_typed.specs.Lawful.{StartsWith, IsNoArray, AreNoArrays, IsUsual};

use c_types::{FuncTy, Qual, Ty, same_qualified};

/// Whether the objects begin with the parameters.
pub(crate) fn starts_with(params: &[Qual], objects: &[Qual]) -> bool
    ensures { IsTrue result → StartsWith (params_of (map qualified_of params.now)) (map qualified_of objects.now) }
{
    let Some((param, params)) = params.split_first() else {
        return true;
    };
    let Some((object, objects)) = objects.split_first() else {
        return false;
    };
    same_qualified(object, param) && starts_with(params, objects)
}

fn is_no_array(ty: &Ty) -> bool
    ensures { IsTrue result → IsNoArray (type_of ty.now) }
{
    !matches!(ty, Ty::Array(_, _))
}

fn are_no_arrays(params: &[Qual]) -> bool
    ensures { IsTrue result → AreNoArrays (params_of (map qualified_of params.now)) }
{
    let Some((param, params)) = params.split_first() else {
        return true;
    };
    is_no_array(&param.ty) && are_no_arrays(params)
}

/// Whether the function gives and takes no arrays.
pub(crate) fn is_usual(ty: &FuncTy) -> bool
    ensures { IsTrue result → IsUsual (signature_of ty.now) }
{
    is_no_array(&ty.result) && are_no_arrays(ty.params.as_slice())
}
