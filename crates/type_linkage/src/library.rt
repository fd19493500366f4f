// The library functions of the profile and their types (7.21, 7.22, 7.24).
ghost use Rattle.std.specs.Prelude.{◌≡◌, map, IfOk};
ghost use Rattle.std.specs.Str.{bytes_eq};
ghost use Rattle.c_types.specs.Types.{pointer, type_of, qualified_of, signature_of};
ghost use Rattle.c_typed.specs.Lawful.{library_type};
ghost use Rattle.typing_env.specs.Names.{library_in, library_names};
ghost use Rattle.type_linkage.specs.Library.{memory_names, text_names, other_names, simple_type, parameter_of, function_of};

use c_types::{FuncTy, IntKind, LibFunc, Qual, Shared, Ty};
use std::alloc::Global;
use ub_base::{Items, NoMemory};

// Whether this word is the name.
fn is_name(word: &str, name: &[u8]) -> bool
    ensures { result ≡ bytes_eq word.now name.now }
{
    word.as_bytes() == name
}

// The functions of the heap and of memory.
fn memory_function(name: &[u8]) -> Option<LibFunc>
    ensures { result ≡ library_in name.now memory_names }
{
    if is_name("malloc", name) {
        Some(LibFunc::Malloc)
    } else if is_name("calloc", name) {
        Some(LibFunc::Calloc)
    } else if is_name("realloc", name) {
        Some(LibFunc::Realloc)
    } else if is_name("free", name) {
        Some(LibFunc::Free)
    } else if is_name("memcpy", name) {
        Some(LibFunc::Memcpy)
    } else if is_name("memmove", name) {
        Some(LibFunc::Memmove)
    } else if is_name("memset", name) {
        Some(LibFunc::Memset)
    } else if is_name("memcmp", name) {
        Some(LibFunc::Memcmp)
    } else {
        None
    }
}

// Those of texts and of characters.
fn text_function(name: &[u8]) -> Option<LibFunc>
    ensures { result ≡ library_in name.now text_names }
{
    if is_name("strlen", name) {
        Some(LibFunc::Strlen)
    } else if is_name("strcpy", name) {
        Some(LibFunc::Strcpy)
    } else if is_name("strcmp", name) {
        Some(LibFunc::Strcmp)
    } else if is_name("strchr", name) {
        Some(LibFunc::Strchr)
    } else if is_name("getchar", name) {
        Some(LibFunc::Getchar)
    } else if is_name("putchar", name) {
        Some(LibFunc::Putchar)
    } else if is_name("puts", name) {
        Some(LibFunc::Puts)
    } else {
        None
    }
}

// Those that print, and those that end the program.
fn other_function(name: &[u8]) -> Option<LibFunc>
    ensures { result ≡ library_in name.now other_names }
{
    if is_name("printf", name) {
        Some(LibFunc::Printf)
    } else if is_name("_cub_fprintf", name) {
        Some(LibFunc::Fprintf)
    } else if is_name("sprintf", name) {
        Some(LibFunc::Sprintf)
    } else if is_name("snprintf", name) {
        Some(LibFunc::Snprintf)
    } else if is_name("exit", name) {
        Some(LibFunc::Exit)
    } else if is_name("abort", name) {
        Some(LibFunc::Abort)
    } else {
        None
    }
}

/// The library function of this name.
pub fn library_function(name: &[u8]) -> Option<LibFunc>
    ensures { result ≡ library_in name.now library_names }
{
    match memory_function(name) {
        Some(function) => Some(function),
        None => match text_function(name) {
            Some(function) => Some(function),
            None => other_function(name),
        },
    }
}

// A type that library functions take or return.
#[derive(Clone, Copy)]
enum Simple {
    Int,
    Size,
    /// `char *`
    Text,
    /// `const char *`
    ConstText,
    /// `void *`
    Memory,
    /// `const void *`
    ConstMemory,
    Nothing,
}

fn pointer(alloc: Global, ty: Ty, constant: bool) -> Result<Ty, NoMemory>
    ensures { IfOk result (λ t. type_of t ≡ pointer constant (type_of ty)) }
{
    Ok(Ty::Pointer(Shared::new(alloc, Qual { ty, constant })?))
}

fn made(alloc: Global, simple: Simple) -> Result<Ty, NoMemory>
    ensures { IfOk result (λ t. type_of t ≡ simple_type simple) }
{
    match simple {
        Simple::Int => Ok(Ty::Int(IntKind::Int)),
        Simple::Size => Ok(Ty::Int(IntKind::ULong)),
        Simple::Text => pointer(alloc, Ty::Int(IntKind::Char), false),
        Simple::ConstText => pointer(alloc, Ty::Int(IntKind::Char), true),
        Simple::Memory => pointer(alloc, Ty::Void, false),
        Simple::ConstMemory => pointer(alloc, Ty::Void, true),
        Simple::Nothing => Ok(Ty::Void),
    }
}

fn function(
    alloc: Global,
    returned: Simple,
    params: &[Simple],
    variadic: bool,
) -> Result<FuncTy, NoMemory>
    ensures { IfOk result (λ f. signature_of f ≡ function_of returned params.now variadic) }
{
    let params = parameters(alloc, params)?;
    Ok(FuncTy {
        result: made(alloc, returned)?,
        params,
        variadic,
    })
}

fn parameter(alloc: Global, param: Simple) -> Result<Qual, NoMemory>
    ensures { IfOk result (λ q. qualified_of q ≡ parameter_of param) }
{
    Ok(Qual {
        ty: made(alloc, param)?,
        constant: false,
    })
}

fn parameters(alloc: Global, params: &[Simple]) -> Result<Items<Qual>, NoMemory>
    ensures { IfOk result (λ qs. map qualified_of qs ≡ map parameter_of params.now) }
{
    let mut quals = Items::new(alloc);
    for param in params {
        quals.push(parameter(alloc, *param)?)?;
    }
    Ok(quals)
}

/// The type of the library function.
pub fn library_type(alloc: Global, library: LibFunc) -> Result<FuncTy, NoMemory>
    ensures { IfOk result (λ f. signature_of f ≡ library_type library) }
{
    use Simple::{ConstMemory, ConstText, Int, Memory, Nothing, Size, Text};
    match library {
        LibFunc::Malloc => function(alloc, Memory, &[Size], false),
        LibFunc::Calloc => function(alloc, Memory, &[Size, Size], false),
        LibFunc::Realloc => function(alloc, Memory, &[Memory, Size], false),
        LibFunc::Free => function(alloc, Nothing, &[Memory], false),
        LibFunc::Memcpy | LibFunc::Memmove => {
            function(alloc, Memory, &[Memory, ConstMemory, Size], false)
        }
        LibFunc::Memset => function(alloc, Memory, &[Memory, Int, Size], false),
        LibFunc::Memcmp => function(alloc, Int, &[ConstMemory, ConstMemory, Size], false),
        LibFunc::Strlen => function(alloc, Size, &[ConstText], false),
        LibFunc::Strcpy => function(alloc, Text, &[Text, ConstText], false),
        LibFunc::Strcmp => function(alloc, Int, &[ConstText, ConstText], false),
        LibFunc::Strchr => function(alloc, Text, &[ConstText, Int], false),
        LibFunc::Getchar => function(alloc, Int, &[], false),
        LibFunc::Putchar => function(alloc, Int, &[Int], false),
        LibFunc::Puts => function(alloc, Int, &[ConstText], false),
        LibFunc::Printf => function(alloc, Int, &[ConstText], true),
        LibFunc::Fprintf => function(alloc, Int, &[Int, ConstText], true),
        LibFunc::Sprintf => function(alloc, Int, &[Text, ConstText], true),
        LibFunc::Snprintf => function(alloc, Int, &[Text, Size, ConstText], true),
        LibFunc::Exit => function(alloc, Nothing, &[Int], false),
        LibFunc::Abort => function(alloc, Nothing, &[], false),
    }
}
