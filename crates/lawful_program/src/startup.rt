// The function that is called at program startup (5.1.2.2.1).
ghost use Rattle.std.specs.Prelude.{◌≡◌, IsTrue};
ghost use Rattle.c_types.specs.Types.{type_of, signature_of};
ghost use Rattle.c_typed.specs.Lawful.{IsMainType};
ghost use Rattle.lawful_program.specs.Startup.{is_int, is_argument_vector, is_main};

use c_types::{FuncTy, IntKind, Ty};

fn is_int(ty: &Ty) -> bool
    ensures { result ≡ is_int (type_of ty.now) }
{
    matches!(ty, Ty::Int(IntKind::Int))
}

// A pointer to a pointer to `char`.
fn is_argument_vector(ty: &Ty) -> bool
    ensures { result ≡ is_argument_vector (type_of ty.now) }
{
    match ty {
        Ty::Pointer(outer) => match &outer.get().ty {
            Ty::Pointer(inner) => {
                !outer.get().constant
                    && !inner.get().constant
                    && matches!(inner.get().ty, Ty::Int(IntKind::Char))
            }
            _ => false,
        },
        _ => false,
    }
}

/// Whether it is one of the two types of `main` (5.1.2.2.1p1).
pub fn is_main_type(ty: &FuncTy) -> bool
    ensures exact { result ≡ is_main (signature_of ty.now) }
    ensures one_of_two { IsTrue result → IsMainType (signature_of ty.now) }
{
    if ty.variadic || !is_int(&ty.result) {
        return false;
    }
    let mut params = ty.params.as_slice().iter();
    match (params.next(), params.next(), params.next()) {
        (None, _, _) => true,
        (Some(count), Some(vector), None) => is_int(&count.ty) && is_argument_vector(&vector.ty),
        _ => false,
    }
}
