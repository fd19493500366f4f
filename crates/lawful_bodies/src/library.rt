// The types of the library functions (7.21, 7.22, 7.24).
ghost use Rattle.std.specs.Prelude.{◌≡◌, IsTrue, false, map};
ghost use Rattle.c_types.specs.Types.{void, int, pointer, type_of, qualified_of, params_of, signature_of, Matches, EachMatches, SameSignature};
ghost use Rattle.c_types.specs.declared.kind.IntKind.TheVariants.{Char};
ghost use Rattle.c_typed.specs.Lawful.{taking, fixed, printing, library_type};
ghost use Rattle.lawful_bodies.specs.Parts.{part_type};

use c_types::{FuncTy, IntKind, LibFunc, Qual, Ty};

/// The types of which those of the library functions are made.
#[derive(Clone, Copy, PartialEq, Eq)]
pub(crate) enum Part {
    Nothing,
    Int,
    /// `size_t`.
    Size,
    /// `void *`.
    Memory,
    /// `const void *`.
    ConstMemory,
    /// `char *`.
    Text,
    /// `const char *`.
    ConstText,
}

fn is_memory(ty: &Ty, constant: bool) -> bool
    ensures { IsTrue result → Matches false (pointer constant void) (type_of ty.now) }
{
    match ty {
        Ty::Pointer(target) => {
            target.get().constant == constant && matches!(target.get().ty, Ty::Void)
        }
        _ => false,
    }
}

fn is_text(ty: &Ty, constant: bool) -> bool
    ensures { IsTrue result → Matches false (pointer constant (int Char)) (type_of ty.now) }
{
    match ty {
        Ty::Pointer(target) => {
            target.get().constant == constant && matches!(target.get().ty, Ty::Int(IntKind::Char))
        }
        _ => false,
    }
}

/// Whether the type is compatible with the part.
fn is_part(part: Part, ty: &Ty) -> bool
    ensures { IsTrue result → Matches false (part_type part) (type_of ty.now) }
{
    match part {
        Part::Nothing => matches!(ty, Ty::Void),
        Part::Int => matches!(ty, Ty::Int(IntKind::Int) | Ty::Enum(_)),
        Part::Size => matches!(ty, Ty::Int(IntKind::ULong)),
        Part::Memory => is_memory(ty, false),
        Part::ConstMemory => is_memory(ty, true),
        Part::Text => is_text(ty, false),
        Part::ConstText => is_text(ty, true),
    }
}

/// Whether the parameters are as many as the parts, and compatible with them.
fn are_parts(parts: &[Part], params: &[Qual]) -> bool
    ensures { IsTrue result → EachMatches false (taking (map part_type parts.now)) (params_of (map qualified_of params.now)) }
{
    let Some((part, parts)) = parts.split_first() else {
        return params.is_empty();
    };
    let Some((param, params)) = params.split_first() else {
        return false;
    };
    is_part(*part, &param.ty) && are_parts(parts, params)
}

/// Whether the type is that of a function from the parts, without an ellipsis.
fn is_fixed(value: Part, parts: &[Part], ty: &FuncTy) -> bool
    ensures { IsTrue result → SameSignature false (fixed (part_type value) (map part_type parts.now)) (signature_of ty.now) }
{
    !ty.variadic && is_part(value, &ty.result) && are_parts(parts, ty.params.as_slice())
}

/// Whether the type is compatible with that of the library function (7.1.4p2).
pub(crate) fn library_fits(library: LibFunc, ty: &FuncTy) -> bool
    ensures { IsTrue result → SameSignature false (library_type library) (signature_of ty.now) }
{
    use Part::{ConstMemory, ConstText, Int, Memory, Nothing, Size, Text};
    match library {
        LibFunc::Malloc => is_fixed(Memory, &[Size], ty),
        LibFunc::Calloc => is_fixed(Memory, &[Size, Size], ty),
        LibFunc::Realloc => is_fixed(Memory, &[Memory, Size], ty),
        LibFunc::Free => is_fixed(Nothing, &[Memory], ty),
        LibFunc::Memcpy | LibFunc::Memmove => is_fixed(Memory, &[Memory, ConstMemory, Size], ty),
        LibFunc::Memset => is_fixed(Memory, &[Memory, Int, Size], ty),
        LibFunc::Memcmp => is_fixed(Int, &[ConstMemory, ConstMemory, Size], ty),
        LibFunc::Strlen => is_fixed(Size, &[ConstText], ty),
        LibFunc::Strcpy => is_fixed(Text, &[Text, ConstText], ty),
        LibFunc::Strcmp => is_fixed(Int, &[ConstText, ConstText], ty),
        LibFunc::Strchr => is_fixed(Text, &[ConstText, Int], ty),
        LibFunc::Getchar => is_fixed(Int, &[], ty),
        LibFunc::Putchar => is_fixed(Int, &[Int], ty),
        LibFunc::Puts => is_fixed(Int, &[ConstText], ty),
        LibFunc::Printf => is_printing(&[ConstText], ty),
        LibFunc::Fprintf => is_printing(&[Int, ConstText], ty),
        LibFunc::Sprintf => is_printing(&[Text, ConstText], ty),
        LibFunc::Snprintf => is_printing(&[Text, Size, ConstText], ty),
        LibFunc::Exit => is_fixed(Nothing, &[Int], ty),
        LibFunc::Abort => is_fixed(Nothing, &[], ty),
    }
}

/// Whether the type is that of a function from the parts to an int, with an ellipsis (7.21.6).
fn is_printing(parts: &[Part], ty: &FuncTy) -> bool
    ensures { IsTrue result → SameSignature false (printing (map part_type parts.now)) (signature_of ty.now) }
{
    ty.variadic && is_part(Part::Int, &ty.result) && are_parts(parts, ty.params.as_slice())
}
