// Specifiers, declarators and static assertions, from their parts (6.7, 6.7.2 to 6.7.6, 6.7.8, 6.7.10).
ghost use Rattle.std.specs.Prelude.{◌≡◌, ◌+◌, ◌<◌, ◌^◌, ◌<ℤ◌, ℤ, List, Bool, true, Option, Some, None, IfOk, MatchOption, map, not, ◌||◌, if◌then◌else◌, pos};
ghost use Rattle.std.specs.Prelude.{int_le, reverse, drop};
ghost use Rattle.std.specs.Option.{option_map, option_copied};
ghost use Rattle.c_grammar.specs.Grammar as grammar;
ghost use Rattle.c_lex.specs.declared.token.Word.{Word};
ghost use Rattle.c_types.specs.Types.{type_of, qualified_of, params_of, pointer, array, function, Params};
ghost use Rattle.type_name_space.specs.Scopes.{visible};
ghost use Rattle.typing_env.specs.Env.{Env, symbol_of};
ghost use Rattle.typing_env.specs.Names.{meaning_in, meaning_of};
ghost use Rattle.typing_env.specs.Seen.{SeenTag, tag_seen};
ghost use Rattle.typing_words.specs.Tags as tags;
ghost use Rattle.typing_words.specs.Words.{said, type_named, type_table, plain, plain_option, typedef_in, is_function_type, may_be_restricted, pointer_by};
ghost use Rattle.typing_words.specs.Words.{array_with, counted_array, function_with, is_lone_void};
ghost use Rattle.typing_words.specs.Words as spec;
ghost use Rattle.type_scope.specs.Known.{Naming, known_by, meaning_seen};
ghost use Rattle.type_scope.specs.Reads.{Reads};
ghost use Rattle.type_scope.specs.Strings.{strings_of};
ghost use Rattle.type_declarators.specs.Finds.{Finds};
ghost use Rattle.type_declarators.specs.Keywords.{Says, IsSaid, AreCounted, storage_seen};
ghost use Rattle.type_declarators.specs.Literals as literals;
ghost use Rattle.type_declarators.specs.Parts.{is_name, qualified_so, is_plain, with_keywords, part_seen, parts_seen, applied, FitsCount, AllFit};

use crate::literal::literal_bytes;
use crate::words::{Storage, Words, pointer_words};
use c_ast::{Base, Declarator};
use c_lex::Word;
use c_typed::Slot;
use c_types::{FuncTy, Qual, Shared, Ty, copied_qual};
use std::alloc::Global;
use type_limits::is_within;
use type_operands::{Form, Operand, qualified};
use type_reasons::Reason;
use type_scope::{Meaning, Source, State, TypeFault, placed};
use ub_base::{Items, NoMemory};

/// A name, where there is one, and its type.
#[derive(Drop)]
pub struct Declared {
    pub name: Option<u32>,
    pub qual: Qual,
}

/// Whether the operand is a value.
pub fn is_value(operand: &Operand) -> bool
    ensures { result ≡ literals.is_value operand.now.form }
{
    matches!(operand.form, Form::Value)
}

/// A copy of the type in front of a list of declarators.
pub fn copy(state: &State, qual: &Qual) -> Result<Qual, TypeFault>
    ensures { Finds qualified_of (Some (qualified_of qual.now)) result }
{
    Ok(copied_qual(state.alloc, qual)?)
}

/// The type without a qualifier.
pub fn unqualified(ty: Ty) -> Qual
    ensures { qualified_of result ≡ plain (type_of ty) }
{
    Qual {
        ty,
        constant: false,
    }
}

/// The type that keywords alone name (6.7.2p2).
pub fn plain_type(source: &Source<'_>, words: &Words, at: u32) -> Result<Qual, TypeFault>
    ensures { (all : List Word) → AreCounted words.now.types all → Finds qualified_of (plain_option (type_named all type_table)) result }
{
    match words.named_type() {
        Some(ty) => Ok(unqualified(ty)),
        None => Err(source.fault(at, Reason::TypeSpecifiers)),
    }
}

// The type, where this is the meaning of a typedef name.
fn denoted(meaning: &Meaning) -> Option<&Qual>
    ensures { (n : Naming) → option_map qualified_of (option_copied result) ≡ typedef_in (Some (meaning_seen n meaning.now)) }
{
    match meaning {
        Meaning::Typedef(qual) => Some(qual),
        _ => None,
    }
}

// The type that the identifier denotes, where it is a typedef name.
fn typedef_named(state: &State, symbol: u32) -> Option<&Qual>
    ensures { (n : Naming) → option_map qualified_of (option_copied result) ≡ typedef_in
        (option_map (meaning_seen n) (meaning_in (visible symbol state.now.names.ordinary))) }
{
    match state.names.find(symbol) {
        Some(meaning) => denoted(meaning),
        None => None,
    }
}

/// The type that a typedef name denotes (6.7.8p3).
pub fn typedef_type(source: &Source<'_>, state: &State, name: u32) -> Result<Qual, TypeFault>
    ensures { (n : Naming) (env : Env) → let here = known_by n source.now state.now env in Finds qualified_of
        (typedef_in (meaning_of here (symbol_of here name))) result }
{
    match typedef_named(state, source.symbol(name)) {
        Some(qual) => copy(state, qual),
        None => Err(source.fault(name, Reason::TypeSpecifiers)),
    }
}

fn is_function(ty: &Ty) -> bool
    ensures { result ≡ is_function_type (type_of ty.now) }
{
    matches!(ty, Ty::Function(_))
}

fn may_be_restricted(ty: &Ty) -> bool
    ensures { result ≡ may_be_restricted (type_of ty.now) }
{
    match ty {
        Ty::Pointer(target) => !is_function(&target.get().ty),
        _ => false,
    }
}

// The type, const or restrict-qualified as well (6.7.3p2, 6.7.3p9).
fn qualified_by(
    source: &Source<'_>,
    alloc: Global,
    qual: Qual,
    restricted: bool,
    constant: bool,
    at: u32,
) -> Result<Qual, TypeFault>
    ensures { Finds qualified_of (qualified_so restricted constant (qualified_of qual)) result }
{
    if restricted && !may_be_restricted(&qual.ty) {
        return Err(source.fault(at, Reason::Restrict));
    }
    if !constant {
        return Ok(qual);
    }
    if is_function(&qual.ty) {
        return Err(source.fault(at, Reason::QualifiedFunction));
    }
    placed(source.line(at), qualified(alloc, &qual.ty, true))
}

fn is_plain(base: &Base) -> bool
    ensures { result ≡ is_plain base.now }
{
    matches!(base, Base::Plain)
}

/// The type of specifiers with their keywords: no further type specifier stands beside one that is no keyword, and the
/// qualifiers suit the type (6.7.2p2, 6.7.3p2, 6.7.3p9).
pub fn with_words(
    source: &Source<'_>,
    alloc: Global,
    qual: Qual,
    words: &Words,
    base: &Base,
    at: u32,
) -> Result<Qual, TypeFault>
    ensures { (o : Option spec.Words) → Says words.now o → Finds qualified_of (with_keywords (is_plain base.now) o (qualified_of qual)) result }
{
    if let Some(reason) = words.refusal() {
        return Err(source.fault(at, reason));
    }
    if !is_plain(base) && !words.name_no_type() {
        return Err(source.fault(at, Reason::TypeSpecifiers));
    }
    qualified_by(source, alloc, qual, words.restricted, words.constant, at)
}

/// A part of a declarator (6.7.6p3).
#[derive(Drop)]
pub enum Derivation {
    /// A pointer, itself const or restrict-qualified.
    Pointer { constant: bool, restricted: bool },
    /// An array, with its count where the declarator has one.
    Array(Option<i128>),
    /// A function with these parameters, variadic or not.
    Function(Items<Qual>, bool),
}

/// A `*` with its qualifiers (6.7.6.1).
pub fn pointer_part(source: &Source<'_>, words: &[Word], at: u32) -> Result<Derivation, TypeFault>
    ensures { Finds part_seen (pointer_by (said words.now)) result }
{
    match pointer_words(words) {
        Some((constant, restricted)) => Ok(Derivation::Pointer {
            constant,
            restricted,
        }),
        None => Err(source.fault(at, Reason::LeftOutQualifier)),
    }
}

fn pointer_to(alloc: Global, target: Qual) -> Result<Ty, NoMemory>
    ensures { IfOk result (λ t. type_of t ≡ pointer (qualified_of target).constant (qualified_of target).ty) }
{
    Ok(Ty::Pointer(Shared::new(alloc, target)?))
}

// A pointer to the type; a restrict-qualified one to an object or incomplete type (6.7.3p2, 6.7.6.1).
fn pointer(
    source: &Source<'_>,
    alloc: Global,
    target: Qual,
    constant: bool,
    restricted: bool,
    at: u32,
) -> Result<Qual, TypeFault>
    ensures { (t : List SeenTag) → Finds qualified_of (spec.derived_by t (qualified_of target) (spec.pointer_to constant restricted)) result }
{
    if restricted && is_function(&target.ty) {
        return Err(source.fault(at, Reason::Restrict));
    }
    Ok(Qual {
        ty: pointer_to(alloc, target)?,
        constant,
    })
}

// The count of an array: above 0 (6.7.6.2p1).
fn count_of(number: i128) -> Option<u64>
    ensures some { MatchOption result (number <ℤ pos (2 ^ 64) → int_le number (pos 0) ≡ true) (λ n. number ≡ pos n) }
    ensures above { MatchOption result (Unit {0}) (λ n. 0 < n) }
{
    if number <= 0 {
        return None;
    }
    match u64::try_from(number) {
        Ok(count) => Some(count),
        Err(_) => None,
    }
}

// Whether the type is complete (6.2.5p22).
fn is_complete(state: &State, ty: &Ty) -> bool
    ensures { result ≡ tags.is_complete (map tag_seen state.now.tags) (type_of ty.now) }
{
    state.tags.extent(ty).is_some()
}

// Whether the type without its qualifier is.
pub(crate) fn is_complete_qual(state: &State, qual: &Qual) -> bool
    ensures { result ≡ tags.is_complete (map tag_seen state.now.tags) (qualified_of qual.now).ty }
{
    is_complete(state, &qual.ty)
}

fn array_of(alloc: Global, element: Qual, count: Option<u64>) -> Result<Ty, NoMemory>
    ensures { IfOk result (λ t. type_of t ≡ array (qualified_of element).constant (qualified_of element).ty count) }
{
    Ok(Ty::Array(Shared::new(alloc, element)?, count))
}

// An array of so many elements (6.7.6.2p1).
fn counted_array(
    source: &Source<'_>,
    state: &State,
    element: Qual,
    number: i128,
    at: u32,
) -> Result<Qual, TypeFault>
    ensures { number <ℤ pos (2 ^ 64) → Finds qualified_of (counted_array (map tag_seen state.now.tags) (qualified_of element) number) result }
{
    let Some(count) = count_of(number) else {
        return Err(source.fault(at, Reason::ArrayLength));
    };
    let ty = array_of(state.alloc, element, Some(count))?;
    if !is_complete(state, &ty) {
        return Err(source.fault(at, Reason::TypeTooLarge));
    }
    Ok(unqualified(ty))
}

// An array of the type, which is complete (6.7.6.2p1); without a count it is incomplete.
fn array(
    source: &Source<'_>,
    state: &State,
    element: Qual,
    count: Option<i128>,
    at: u32,
) -> Result<Qual, TypeFault>
    ensures { FitsCount (Derivation.Array count) → Finds qualified_of (array_with (map tag_seen state.now.tags) (qualified_of element) count) result }
{
    if !is_complete(state, &element.ty) {
        return Err(source.fault(at, Reason::ArrayLength));
    }
    match count {
        None => Ok(unqualified(array_of(state.alloc, element, None)?)),
        Some(number) => counted_array(source, state, element, number, at),
    }
}

fn may_be_returned(ty: &Ty) -> bool
    ensures { (ps : Params) (v : Bool) → function_with (type_of ty.now) ps v ≡ (if result then Some (plain (function (type_of ty.now) ps v)) else None) }
{
    !matches!(ty, Ty::Array(_, _) | Ty::Function(_))
}

fn function_of(
    alloc: Global,
    returned: Ty,
    params: Items<Qual>,
    variadic: bool,
) -> Result<Ty, NoMemory>
    ensures { IfOk result (λ t. type_of t ≡ function (type_of returned) (params_of (map qualified_of params)) variadic) }
{
    let f = FuncTy {
        result: returned,
        params,
        variadic,
    };
    Ok(Ty::Function(Shared::new(alloc, f)?))
}

// A function that returns the type (6.7.6.3p1).
fn function(
    source: &Source<'_>,
    alloc: Global,
    returned: Qual,
    params: Items<Qual>,
    variadic: bool,
    at: u32,
) -> Result<Qual, TypeFault>
    ensures { Finds qualified_of (function_with (qualified_of returned).ty (params_of (map qualified_of params)) variadic) result }
{
    let Qual { ty, constant: _ } = returned;
    if !may_be_returned(&ty) {
        return Err(source.fault(at, Reason::FunctionResult));
    }
    Ok(unqualified(function_of(alloc, ty, params, variadic)?))
}

fn derived_by(
    source: &Source<'_>,
    state: &State,
    part: Derivation,
    qual: Qual,
    at: u32,
) -> Result<Qual, TypeFault>
    ensures { FitsCount part → Finds qualified_of (spec.derived_by (map tag_seen state.now.tags) (qualified_of qual) (part_seen part)) result }
{
    match part {
        Derivation::Pointer {
            constant,
            restricted,
        } => pointer(source, state.alloc, qual, constant, restricted, at),
        Derivation::Array(count) => array(source, state, qual, count, at),
        Derivation::Function(params, variadic) => {
            function(source, state.alloc, qual, params, variadic, at)
        }
    }
}

// What the parts make of the type, the last one first.
fn applied(
    source: &Source<'_>,
    state: &State,
    mut parts: Vec<Derivation>,
    mut qual: Qual,
    at: u32,
) -> Result<Qual, TypeFault>
    ensures { AllFit parts.items → Finds qualified_of (applied (map tag_seen state.now.tags) (parts_seen parts.items) (qualified_of qual)) result }
{
    while let Some(part) = parts.pop() {
        match derived_by(source, state, part, qual, at) {
            Ok(next) => qual = next,
            Err(fault) => return Err(fault),
        }
    }
    Ok(qual)
}

// The type, where it is within the limits of types (own).
fn limited(source: &Source<'_>, qual: Qual, at: u32) -> Result<Qual, TypeFault>
    ensures { Finds qualified_of (spec.limited_type (qualified_of qual)) result }
{
    if !is_within(&qual.ty) {
        return Err(source.fault(at, Reason::TypeTooHigh));
    }
    Ok(qual)
}

/// The type that the parts of a declarator make of the type in front of it. The part next to the name, which is the first of
/// them, is derived last (6.7.6p4). It is within the limits of types (own).
pub fn derived(
    source: &Source<'_>,
    state: &State,
    parts: Vec<Derivation>,
    base: Qual,
    at: u32,
) -> Result<Qual, TypeFault>
    ensures { AllFit parts.items → Finds qualified_of (spec.derived (map tag_seen state.now.tags) (parts_seen parts.items) (qualified_of base)) result }
{
    if parts.as_slice().is_empty() {
        return Ok(base);
    }
    match applied(source, state, parts, base, at) {
        Ok(qual) => limited(source, qual, at),
        Err(fault) => Err(fault),
    }
}

/// Whether the declarator is a name alone.
pub fn is_name(d: &Declarator) -> bool
    ensures { result ≡ is_name d.now }
{
    matches!(d, Declarator::Ident(Some(_)))
}

/// The number of the token of the name that it declares.
pub fn name_of(d: &Declarator) -> Option<u32>
    ensures { result ≡ grammar.name_of d.now }
{
    match d {
        Declarator::Ident(name) => *name,
        Declarator::Pointer(_, d) => name_of(d.get()),
        Declarator::Array(d, _) => name_of(d.get()),
        Declarator::Function(d, _, _) => name_of(d.get()),
    }
}

fn is_void_type(ty: &Ty) -> bool
    ensures { result ≡ spec.is_void (type_of ty.now) }
{
    matches!(ty, Ty::Void)
}

fn is_void_qual(qual: &Qual) -> bool
    ensures { result ≡ spec.is_void (qualified_of qual.now).ty }
{
    is_void_type(&qual.ty)
}

/// Whether the parameter is the `void` that stands for no parameters, if it is the only item of its list (6.7.6.3p10).
pub fn is_void(words: &Words, param: &Declared) -> bool
    ensures { (ws : spec.Words) → IsSaid words.now ws → result ≡ is_lone_void ws param.now.name (qualified_of param.now.qual) }
{
    words.storage == Storage::None
        && !words.function
        && param.name.is_none()
        && !param.qual.constant
        && is_void_type(&param.qual.ty)
}

// The type of a parameter: an array becomes a pointer to its element, a function one to it (6.7.6.3p7, 6.7.6.3p8).
fn adjusted(alloc: Global, qual: Qual) -> Result<Qual, NoMemory>
    ensures { IfOk result (λ q. qualified_of q ≡ spec.adjusted (qualified_of qual)) }
{
    let Qual { ty, constant } = qual;
    match ty {
        Ty::Array(element, _) => Ok(unqualified(Ty::Pointer(element))),
        Ty::Function(f) => {
            let target = unqualified(Ty::Function(f));
            Ok(unqualified(pointer_to(alloc, target)?))
        }
        ty => Ok(Qual { ty, constant }),
    }
}

// Whether a parameter of this storage class is a `register` one; no other class may stand there (6.7.6.3p2).
fn is_register(storage: Storage) -> Option<bool>
    ensures { result ≡ spec.is_register (storage_seen storage) }
{
    match storage {
        Storage::None => Some(false),
        Storage::Register => Some(true),
        Storage::Typedef | Storage::Extern | Storage::Static | Storage::Auto => None,
    }
}

fn number_of(index: usize) -> u32
    ensures { index < 2 ^ 32 → result ≡ index }
{
    match u32::try_from(index) {
        Ok(number) => number,
        Err(_) => u32::MAX,
    }
}

// Declares a parameter where it has a name: an object of the function's body block (6.2.1p7, 6.9.1p9).
fn declare_parameter(
    source: &Source<'_>,
    state: &mut State,
    name: Option<u32>,
    index: usize,
    qual: &Qual,
    register: bool,
) -> Result<(), TypeFault>
    ensures reads { index < 2 ^ 32 → (n : Naming) (env : Env) → Reads (λ u. u)
        (spec.declare_parameter name index (qualified_of qual.now) register (known_by n source.now state.old env)) result
        (known_by n source.now state.new env) }
    ensures rest { state.new ≡ record state.old { names = state.new.names } }
{
    match name {
        None => Ok(()),
        Some(at) => {
            let meaning = Meaning::Object {
                slot: Slot::Auto {
                    block: 0,
                    decl: number_of(index),
                },
                qual: copied_qual(state.alloc, qual)?,
                register,
            };
            state.declare(source, at, meaning)
        }
    }
}

/// A parameter, which is declared in its scope where it has a name; the answer is its type (6.7.6.3). `index` is its number.
pub fn parameter(
    source: &Source<'_>,
    state: &mut State,
    words: &Words,
    param: Declared,
    index: usize,
    at: u32,
) -> Result<Qual, TypeFault>
    ensures reads { index < 2 ^ 32 → (ws : spec.Words) → IsSaid words.now ws → (n : Naming) (env : Env) →
        Reads qualified_of (spec.parameter index ws param.name (qualified_of param.qual) (known_by n source.now state.old env)) result
        (known_by n source.now state.new env) }
    ensures rest { state.new ≡ record state.old { names = state.new.names } }
{
    let Declared { name, qual } = param;
    let at = name.unwrap_or(at);
    let Some(register) = is_register(words.storage) else {
        return Err(source.fault(at, Reason::ParameterStorage));
    };
    if words.function {
        return Err(source.fault(at, Reason::FunctionSpecifier));
    }
    if is_void_qual(&qual) {
        return Err(source.fault(at, Reason::VoidParameter));
    }
    let qual = adjusted(state.alloc, qual)?;
    match declare_parameter(source, state, name, index, &qual, register) {
        Ok(()) => Ok(qual),
        Err(fault) => Err(fault),
    }
}

fn is_zero(number: i128) -> bool
    ensures { result ≡ literals.is_zero number }
{
    number.unsigned_abs() == 0
}

/// A static assertion: its constant isn't 0, and its message is a string literal (6.7.10p1, 6.7.10p2).
pub fn assertion(
    source: &Source<'_>,
    alloc: Global,
    number: i128,
    at: u32,
    message: u32,
) -> Result<(), TypeFault>
    ensures { let count = strings_of (drop message source.now.list) in message + count < 2 ^ 32 →
        Finds (λ u. u) (literals.asserted number (literals.bytes_from source.now count message)) result }
{
    if is_zero(number) {
        return Err(source.fault(at, Reason::AssertionFails));
    }
    match literal_bytes(alloc, source, message, source.string_count(message)) {
        Ok(_bytes) => Ok(()),
        Err(fault) => Err(fault),
    }
}
