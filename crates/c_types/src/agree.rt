// Compatible types (6.2.7).
ghost use Rattle.std.specs.Prelude.{◌≡◌, ◌↔◌, IsTrue, false, map};
ghost use Rattle.c_types.specs.Types.{type_of, qualified_of, signature_of, params_of, Compatible, Matches, EachMatches, SameEnumeration, SizesAgree, Alike};
ghost use Rattle.c_types.specs.Types.{SameSignature, Agrees, kind_of, are_forms, is_character, is_character_kind};
ghost use Rattle.c_types.specs.Same as tests;

use crate::{FuncTy, IntKind, Qual, Ty};

fn sizes_agree(a: Option<u64>, b: Option<u64>) -> bool
    ensures { IsTrue result ↔ SizesAgree a b }
{
    match (a, b) {
        (Some(m), Some(n)) => m == n,
        _ => true,
    }
}

fn same_enumeration(as_int: bool, m: u32, n: u32) -> bool
    ensures { IsTrue result ↔ SameEnumeration as_int m n }
{
    as_int || m == n
}

/// Whether the types are compatible (6.2.7p1).
pub fn compatible(a: &Ty, b: &Ty) -> bool
    ensures compatible { IsTrue result ↔ Compatible (type_of a.now) (type_of b.now) }
    ensures test { result ≡ tests.compatible (type_of a.now) (type_of b.now) }
{
    matches(false, a, b)
}

/// Whether two function types are compatible (6.7.6.3p15), as a call asks of the designator's type and the function's (6.5.2.2p9).
pub fn compatible_functions(f: &FuncTy, g: &FuncTy) -> bool
    ensures compatible { IsTrue result ↔ SameSignature false (signature_of f.now) (signature_of g.now) }
    ensures test { result ≡ tests.compatible_functions (signature_of f.now) (signature_of g.now) }
{
    same_signature(false, f, g)
}

// Whether the types are compatible, enumerations being read as they are declared, or as int.
#[cycle(matches)]
fn matches(as_int: bool, a: &Ty, b: &Ty) -> bool
    ensures { IsTrue result ↔ Matches as_int (type_of a.now) (type_of b.now) }
{
    match a {
        Ty::Void => matches!(b, Ty::Void),
        Ty::Int(j) => match b {
            Ty::Int(k) => j == k,
            Ty::Enum(_) => *j == IntKind::Int,
            _ => false,
        },
        Ty::Enum(m) => match b {
            Ty::Int(k) => *k == IntKind::Int,
            Ty::Enum(n) => same_enumeration(as_int, *m, *n),
            _ => false,
        },
        Ty::Pointer(x) => match b {
            Ty::Pointer(y) => alike(as_int, x.get(), y.get()),
            _ => false,
        },
        Ty::Array(x, m) => match b {
            Ty::Array(y, n) => alike(as_int, x.get(), y.get()) && sizes_agree(*m, *n),
            _ => false,
        },
        Ty::Struct(m) => match b {
            Ty::Struct(n) => m == n,
            _ => false,
        },
        Ty::Union(m) => match b {
            Ty::Union(n) => m == n,
            _ => false,
        },
        Ty::Function(f) => match b {
            Ty::Function(g) => same_signature(as_int, f.get(), g.get()),
            _ => false,
        },
    }
}

// Compatible, and identically qualified.
#[cycle(matches)]
fn alike(as_int: bool, a: &Qual, b: &Qual) -> bool
    ensures { IsTrue result ↔ Alike as_int (qualified_of a.now) (qualified_of b.now) }
{
    a.constant == b.constant && matches(as_int, &a.ty, &b.ty)
}

#[cycle(matches)]
fn same_signature(as_int: bool, f: &FuncTy, g: &FuncTy) -> bool
    ensures { IsTrue result ↔ SameSignature as_int (signature_of f.now) (signature_of g.now) }
{
    matches(as_int, &f.result, &g.result)
        && each_matches(as_int, f.params.as_slice(), g.params.as_slice())
        && f.variadic == g.variadic
}

// Parameter by parameter, without their top qualifiers.
#[cycle(matches)]
fn each_matches(as_int: bool, a: &[Qual], b: &[Qual]) -> bool
    ensures { IsTrue result ↔ EachMatches as_int (params_of (map qualified_of a.now)) (params_of (map qualified_of b.now)) }
{
    let Some((x, a)) = a.split_first() else {
        return b.is_empty();
    };
    let Some((y, b)) = b.split_first() else {
        return false;
    };
    matches(as_int, &x.ty, &y.ty) && each_matches(as_int, a, b)
}

// The integer type, each enumeration read as int.
fn kind_of(ty: &Ty) -> Option<IntKind>
    ensures { result ≡ kind_of (type_of ty.now) }
{
    match ty {
        Ty::Int(kind) => Some(*kind),
        Ty::Enum(_) => Some(IntKind::Int),
        _ => None,
    }
}

// Whether they are the signed and the unsigned form of one rank.
fn are_forms(a: Option<IntKind>, b: Option<IntKind>) -> bool
    ensures { result ≡ are_forms a b }
{
    match (a, b) {
        (Some(j), Some(k)) => j.rank() == k.rank() && j.is_signed() != k.is_signed(),
        _ => false,
    }
}

/// Whether an access by the type `a` may meet a scalar whose effective type is `e` (6.5p7): without top qualifiers and with
/// each enumeration read as int, they are compatible, or the signed and the unsigned form of one rank. That a character type
/// may meet anything is not part of it.
pub fn agrees(a: &Ty, e: &Ty) -> bool
    ensures agrees { IsTrue result ↔ Agrees (type_of a.now) (type_of e.now) }
    ensures test { result ≡ tests.agrees (type_of a.now) (type_of e.now) }
{
    meets(a, e)
}

fn meets(a: &Ty, e: &Ty) -> bool
    ensures { IsTrue result ↔ Agrees (type_of a.now) (type_of e.now) }
{
    matches(true, a, e) || are_forms(kind_of(a), kind_of(e))
}

impl IntKind {
    /// Whether it is one of the three character types (6.2.5p15).
    pub fn is_character(self) -> bool
        ensures { result ≡ is_character_kind self }
    {
        matches!(self, IntKind::Char | IntKind::SChar | IntKind::UChar)
    }
}

impl Ty {
    /// Whether it is one of the three character types (6.2.5p15).
    pub fn is_character(&self) -> bool
        ensures { result ≡ is_character (type_of self.now) }
    {
        match self {
            Ty::Int(kind) => kind.is_character(),
            _ => false,
        }
    }
}
