// Equal types.
ghost use Rattle.std.specs.Prelude.{◌≡◌, ◌↔◌, IsTrue, map};
ghost use Rattle.c_types.specs.Types.{CType, Qualified, type_of, qualified_of, signature_of, params_of};
ghost use Rattle.c_types.specs.Same.{same, same_qualified, SameIsEqual, MatchesIsTested, FunctionsAreTested, AgreesIsTested};

use crate::{FuncTy, Qual, Ty};

/// Whether the types are equal, so that no conversion stands between them. An enumerated type equals itself alone.
pub fn same_type(a: &Ty, b: &Ty) -> bool
    ensures equal { IsTrue result ↔ (type_of a.now ≡ type_of b.now) }
    ensures test { result ≡ same (type_of a.now) (type_of b.now) }
{
    is_equal(a, b)
}

/// The same with their top qualifiers.
pub fn same_qualified(a: &Qual, b: &Qual) -> bool
    ensures equal { IsTrue result ↔ (qualified_of a.now ≡ qualified_of b.now) }
    ensures test { result ≡ same_qualified (qualified_of a.now) (qualified_of b.now) }
{
    is_equal_qualified(a, b)
}

#[cycle(same)]
fn is_equal(a: &Ty, b: &Ty) -> bool
    ensures { IsTrue result ↔ (type_of a.now ≡ type_of b.now) }
{
    match a {
        Ty::Void => matches!(b, Ty::Void),
        Ty::Int(j) => match b {
            Ty::Int(k) => j == k,
            _ => false,
        },
        Ty::Enum(m) => match b {
            Ty::Enum(n) => m == n,
            _ => false,
        },
        Ty::Pointer(x) => match b {
            Ty::Pointer(y) => is_equal_qualified(x.get(), y.get()),
            _ => false,
        },
        Ty::Array(x, m) => match b {
            Ty::Array(y, n) => m == n && is_equal_qualified(x.get(), y.get()),
            _ => false,
        },
        Ty::Struct(m) => match b {
            Ty::Struct(n) => m == n,
            _ => false,
        },
        Ty::Union(m) => match b {
            Ty::Union(n) => m == n,
            _ => false,
        },
        Ty::Function(f) => match b {
            Ty::Function(g) => is_equal_function(f.get(), g.get()),
            _ => false,
        },
    }
}

#[cycle(same)]
fn is_equal_qualified(a: &Qual, b: &Qual) -> bool
    ensures { IsTrue result ↔ (qualified_of a.now ≡ qualified_of b.now) }
{
    a.constant == b.constant && is_equal(&a.ty, &b.ty)
}

#[cycle(same)]
fn is_equal_function(f: &FuncTy, g: &FuncTy) -> bool
    ensures { IsTrue result ↔ (signature_of f.now ≡ signature_of g.now) }
{
    f.variadic == g.variadic
        && is_equal(&f.result, &g.result)
        && are_equal(f.params.as_slice(), g.params.as_slice())
}

// Parameter by parameter, with their top qualifiers.
#[cycle(same)]
fn are_equal(a: &[Qual], b: &[Qual]) -> bool
    ensures { IsTrue result ↔ (params_of (map qualified_of a.now) ≡ params_of (map qualified_of b.now)) }
{
    let Some((x, a)) = a.split_first() else {
        return b.is_empty();
    };
    let Some((y, b)) = b.split_first() else {
        return false;
    };
    is_equal_qualified(x, y) && are_equal(a, b)
}

/// The tests of equal types, of compatible ones and of those that agree tell them.
pub fn law_same()
    ensures equal { SameIsEqual }
    ensures compatible { MatchesIsTested }
    ensures functions { FunctionsAreTested }
    ensures agree { AgreesIsTested }
{}
