// Declarations of functions (6.2.2, 6.7p3, 6.7.6.3p15, 7.1.3).
ghost use Rattle.std.specs.Prelude.{◌≡◌, ◌≢◌, ℕ, List, None, true, false, vec_len, slice_get, Some, IfOk, OnOk};
ghost use Rattle.std.specs.Option.{option_map};
ghost use Rattle.c_lex.specs.TokenText.{TokenText, text_at};
ghost use Rattle.c_types.specs.Types.{qualified_of, signature_of, composite_signature};
ghost use Rattle.c_types.specs.declared.ty.FuncTy.{FuncTy};
ghost use Rattle.c_typed.specs.declared.tree.Target.TheVariants as target;
ghost use Rattle.typing_env.specs.Env.{Env, Use, a_function, symbol_in};
ghost use Rattle.typing_env.specs.Names as names;
ghost use Rattle.type_scope.specs.Known.{Naming, known_by, linked_seen, routine_by, routine_seen};
ghost use Rattle.type_scope.specs.Reads.{Reads};
ghost use Rattle.type_scope.specs.Objects.{IsOneToOne};
ghost use Rattle.type_scope.specs.Uses.{is_used, HasUses};
ghost use Rattle.type_linkage.specs.Linkage.{given_of, prior_in};

use crate::library::{library_function, library_type};
use crate::linkage::{
    Linkage, as_function, bind, clash, copied_function, function_qual, function_type, is_internal,
    link, note_type, prior, redeclared,
};
use c_typed::Target;
use c_types::{FuncTy, LibFunc, Qual, compatible_functions, composite};
use std::alloc::Global;
use type_reasons::Reason;
use type_scope::{Definition, FunctionRow, Meaning, Source, State, TypeFault};
use ub_base::NoMemory;

// The number of a function; an object has none (6.2.7p2).
fn function_in(target: Target) -> Option<u32>
    ensures { result ≡ names.number_of_function target }
{
    match target {
        Target::Function(number) => Some(number),
        _ => None,
    }
}

// The library function that an external name stands for (7.1.3p1).
fn library_of(name: &[u8], internal: bool) -> Option<LibFunc>
    ensures { result ≡ names.library_of internal name.now }
{
    if internal {
        None
    } else {
        library_function(name)
    }
}

// Whether the type is that of the library's function (7.1.3p2).
fn fits_library(alloc: Global, ty: &FuncTy, library: Option<LibFunc>) -> Result<bool, NoMemory>
    ensures { IfOk result (λ fits. fits ≡ names.fits_library (signature_of ty.now) library) }
{
    match library {
        None => Ok(true),
        Some(library) => {
            let known = library_type(alloc, library)?;
            Ok(compatible_functions(&known, ty))
        }
    }
}

// Where a function that is declared first is defined: in the library, or nowhere so far.
fn first_definition(library: Option<LibFunc>) -> Definition
    ensures { (ty : FuncTy) → routine_by ty result ≡ names.new_function (signature_of ty) library }
{
    match library {
        Some(library) => Definition::Library(library),
        None => Definition::Nowhere,
    }
}

fn new_row(
    alloc: Global,
    ty: &FuncTy,
    internal: bool,
    library: Option<LibFunc>,
) -> Result<FunctionRow, NoMemory>
    ensures seen { IfOk result (λ row. routine_seen row ≡ names.new_function (signature_of ty.now) library) }
    ensures unused { IfOk result (λ row. row.used ≡ None) }
{
    let copy = copied_function(alloc, ty)?;
    let definition = first_definition(library);
    Ok(FunctionRow {
        ty: copy,
        internal,
        definition,
        used: None,
    })
}

fn add_function(state: &mut State, row: FunctionRow) -> Result<u32, NoMemory>
    ensures number { IfOk result (λ number. number ≡ vec_len state.old.functions) }
    ensures known { OnOk result ((n : Naming) (t : TokenText) (env : Env) →
        known_by n t state.new env ≡ names.with_function (routine_seen row) (known_by n t state.old env)) }
    ensures uses { OnOk result (row.used ≡ None → (n : Naming) (us : List Use) → is_used (target.Function (vec_len state.old.functions)) us ≡ false →
        HasUses n state.old us → HasUses n state.new us) }
    ensures rest { state.new ≡ record state.old { functions = state.new.functions } }
{
    let Ok(number) = u32::try_from(state.functions.len()) else {
        return Err(NoMemory);
    };
    state.functions.push(row)?;
    Ok(number)
}

fn new_function(
    state: &mut State,
    symbol: u32,
    ty: &FuncTy,
    qual: &Qual,
    internal: bool,
    library: Option<LibFunc>,
) -> Result<u32, NoMemory>
    ensures number { IfOk result (λ number. number ≡ vec_len state.old.functions) }
    ensures known { IfOk result (λ number. (n : Naming) (t : TokenText) (env : Env) → known_by n t state.new env ≡ names.with_link symbol internal
        (target.Function number) (qualified_of qual.now)
        (names.with_function (names.new_function (signature_of ty.now) library) (known_by n t state.old env))) }
    ensures uses { OnOk result ((n : Naming) (us : List Use) → is_used (target.Function (vec_len state.old.functions)) us ≡ false → HasUses n state.old us →
        HasUses n state.new us) }
    ensures rest { state.new ≡ record state.old { linked = state.new.linked; functions = state.new.functions } }
{
    let row = new_row(state.alloc, ty, internal, library)?;
    let number = add_function(state, row)?;
    link(state, symbol, Target::Function(number), internal, qual)?;
    Ok(number)
}

// The composite of the function types.
fn joined_functions(alloc: Global, old: &FuncTy, new: &FuncTy) -> Result<FuncTy, NoMemory>
    ensures { IfOk result (λ f. signature_of f ≡ composite_signature (signature_of old.now) (signature_of new.now)) }
{
    let first = function_type(alloc, old)?;
    let second = function_type(alloc, new)?;
    let joined = composite(alloc, &first, &second)?;
    match as_function(&joined) {
        Some(joined) => copied_function(alloc, joined),
        None => copied_function(alloc, old),
    }
}

// Gives the function the composite of its type so far and this one.
fn join_row(alloc: Global, row: &mut FunctionRow, ty: &FuncTy) -> Result<(), NoMemory>
    ensures seen { OnOk result (routine_seen row.new ≡ names.further_type (signature_of ty.now) (routine_seen row.old)) }
    ensures used { row.new.used ≡ row.old.used }
{
    let joined = joined_functions(alloc, &row.ty, ty)?;
    row.ty = joined;
    Ok(())
}

fn join_function(state: &mut State, number: u32, ty: &FuncTy) -> Result<(), NoMemory>
    ensures uses { OnOk result ((n : Naming) (us : List Use) → HasUses n state.old us → HasUses n state.new us) }
    ensures rest { state.new ≡ record state.old { functions = state.new.functions } }
    ensures known { OnOk result ((n : Naming) (t : TokenText) (env : Env) →
        known_by n t state.new env ≡ names.changing_function number (names.further_type (signature_of ty.now)) (known_by n t state.old env)) }
{
    let alloc = state.alloc;
    match state.functions.get_mut(number as usize) {
        Some(row) => join_row(alloc, row, ty),
        None => Ok(()),
    }
}

// A further declaration of the function.
fn further_function(
    state: &mut State,
    symbol: u32,
    number: u32,
    ty: &FuncTy,
    qual: &Qual,
) -> Result<(), NoMemory>
    ensures uses { OnOk result ((n : Naming) (us : List Use) → HasUses n state.old us → HasUses n state.new us) }
    ensures rest { state.new ≡ record state.old { linked = state.new.linked; functions = state.new.functions } }
    ensures known { OnOk result ((n : Naming) (t : TokenText) (env : Env) → known_by n t state.new env ≡ names.changing_function number
        (names.further_type (signature_of ty.now)) (names.with_further symbol (qualified_of qual.now) (known_by n t state.old env))) }
{
    note_type(state, symbol, qual)?;
    join_function(state, number, ty)
}

fn bind_function(state: &mut State, symbol: u32, number: u32, seen: Qual) -> Result<(), NoMemory>
    ensures rest { state.new ≡ record state.old { names = state.new.names } }
    ensures known { OnOk result ((n : Naming) (t : TokenText) (env : Env) →
        known_by n t state.new env ≡ names.bound symbol (a_function number (qualified_of seen).ty) (known_by n t state.old env)) }
{
    let meaning = Meaning::Function {
        number,
        ty: seen.ty,
    };
    bind(state, symbol, meaning)
}

// The number of a function that is declared, whose type fits the library's.
fn function_number(
    state: &mut State,
    source: &Source<'_>,
    at: u32,
    ty: &FuncTy,
    linkage: Linkage,
    library: Option<LibFunc>,
) -> Result<u32, TypeFault>
    ensures uses { OnOk result ((n : Naming) (us : List Use) → is_used (target.Function (vec_len state.old.functions)) us ≡ false → HasUses n state.old us →
        HasUses n state.new us) }
    ensures rest { state.new ≡ record state.old { names = state.new.names; linked = state.new.linked; functions = state.new.functions } }
    ensures reads { (n : Naming) → IsOneToOne n → (env : Env) → library ≡ names.library_of
        (names.is_internal (given_of linkage) (option_map (linked_seen n) (prior_in state.old (symbol_in source.now (slice_get source.now.list at)))))
        (text_at source.now at) → names.fits_library (signature_of ty.now) library ≡ true →
        Reads (λ number. number) (names.declare_function at (signature_of ty.now) (given_of linkage) (known_by n source.now state.old env)) result
        (known_by n source.now state.new env) }
{
    let qual = function_qual(state.alloc, ty)?;
    let found = match redeclared(state, source, at, &qual, linkage) {
        Ok(found) => found,
        Err(fault) => return Err(fault),
    };
    let symbol = found.symbol;
    match found.target {
        None => {
            let number = new_function(state, symbol, ty, &qual, found.internal, library)?;
            bind_function(state, symbol, number, found.seen)?;
            Ok(number)
        }
        Some(target) => {
            let Some(number) = function_in(target) else {
                return Err(source.fault(at, clash(state, symbol)));
            };
            further_function(state, symbol, number, ty, &qual)?;
            bind_function(state, symbol, number, found.seen)?;
            Ok(number)
        }
    }
}

/// Declares a function; the answer is its number.
pub fn declare_function(
    state: &mut State,
    source: &Source<'_>,
    at: u32,
    ty: FuncTy,
    linkage: Linkage,
) -> Result<u32, TypeFault>
    ensures uses { OnOk result ((n : Naming) (us : List Use) → is_used (target.Function (vec_len state.old.functions)) us ≡ false → HasUses n state.old us →
        HasUses n state.new us) }
    ensures rest { state.new ≡ record state.old { names = state.new.names; linked = state.new.linked; functions = state.new.functions } }
    ensures reads { (n : Naming) → IsOneToOne n → (env : Env) → Reads (λ number. number)
        (names.declare_function at (signature_of ty) (given_of linkage) (known_by n source.now state.old env)) result (known_by n source.now state.new env) }
{
    let internal = is_internal(linkage, prior(state, source.symbol(at)));
    let library = library_of(source.spelling(at), internal);
    if !fits_library(state.alloc, &ty, library)? {
        return Err(source.fault(at, Reason::LibraryName));
    }
    function_number(state, source, at, &ty, linkage, library)
}
