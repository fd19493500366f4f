// What a declaration of an identifier with linkage redeclares, and the types of one identifier (6.2.2, 6.7p3).
ghost use Rattle.std.specs.Prelude.{◌≡◌, None, ◌||◌, false, true, not, map, slice_get, Some, IfOk, OnOk, is_some};
ghost use Rattle.std.specs.Option.{option_map, option_copied};
ghost use Rattle.c_lex.specs.TokenText.{TokenText};
ghost use Rattle.c_types.specs.Types.{type_of, qualified_of, signature_of, composite_qualified};
ghost use Rattle.c_types.specs.Same.{same_qualifier};
ghost use Rattle.c_types.specs.declared.ty.FuncTy.{FuncTy};
ghost use Rattle.type_name_space.specs.Scopes.{visible, at_depth};
ghost use Rattle.typing_env.specs.Env.{Env, Object, symbol_in};
ghost use Rattle.typing_env.specs.Names as names;
ghost use Rattle.typing_env.specs.Names.{meaning_in};
ghost use Rattle.type_scope.specs.Known.{Naming, known_by, meaning_seen, linked_seen, target_seen};
ghost use Rattle.type_scope.specs.Reads.{Reads};
ghost use Rattle.type_scope.specs.Objects.{IsOneToOne};
ghost use Rattle.type_linkage.specs.Linkage.{given_of, held_target, target_held, if_held, entity_in, prior_in, redeclared_seen, function_qualified};
ghost use Rattle.type_linkage.specs.Linkage.{signature_in, one_more_type};

use c_typed::{Slot, Target};
use c_types::{
    FuncTy, Qual, Shared, Ty, compatible, composite, copied, copied_qual, same_qualified,
};
use std::alloc::Global;
use type_reasons::Reason;
use type_scope::{Linked, Meaning, Source, State, TypeFault};
use ub_base::{Items, NoMemory};

/// How a declaration gives linkage: `static` at file scope; nothing at file scope; `extern`.
#[derive(Clone, Copy, Debug, PartialEq, Eq)]
pub enum Linkage {
    Internal,
    Plain,
    Extern,
}

// 1. Types of one identifier.

fn same_qualifier(a: bool, b: bool) -> bool
    ensures { result ≡ same_qualifier a b }
{
    if a { b } else { !b }
}

// Whether the types are compatible, and both const or neither (6.2.7p2, 6.7.3p10).
fn are_alike(known: &Qual, qual: &Qual) -> bool
    ensures { result ≡ names.alike (qualified_of known.now) (qualified_of qual.now) }
{
    if same_qualifier(known.constant, qual.constant) {
        compatible(&known.ty, &qual.ty)
    } else {
        false
    }
}

// Whether the type is like each of these.
fn suits_all(qual: &Qual, types: &[Qual]) -> bool
    ensures { result ≡ names.all_alike (qualified_of qual.now) (map qualified_of types.now) }
{
    for known in types {
        if !are_alike(known, qual) {
            return false;
        }
    }
    true
}

fn is_among(qual: &Qual, types: &[Qual]) -> bool
    ensures { result ≡ names.is_among (qualified_of qual.now) (map qualified_of types.now) }
{
    for known in types {
        if same_qualified(known, qual) {
            return true;
        }
    }
    false
}

// Copies of these types.
fn copied_quals(alloc: Global, quals: &[Qual]) -> Result<Items<Qual>, NoMemory>
    ensures { IfOk result (λ qs. map qualified_of qs ≡ map qualified_of quals.now) }
{
    let mut copies = Items::new(alloc);
    for qual in quals {
        copies.push(copied_qual(alloc, qual)?)?;
    }
    Ok(copies)
}

fn composite_qual(alloc: Global, old: &Qual, new: &Qual) -> Result<Qual, NoMemory>
    ensures { IfOk result (λ q. qualified_of q ≡ composite_qualified (qualified_of old.now) (qualified_of new.now)) }
{
    Ok(Qual {
        ty: composite(alloc, &old.ty, &new.ty)?,
        constant: old.constant,
    })
}

/// A copy of the function type.
pub fn copied_function(alloc: Global, ty: &FuncTy) -> Result<FuncTy, NoMemory>
    ensures { IfOk result (λ f. signature_of f ≡ signature_of ty.now) }
{
    let params = copied_quals(alloc, ty.params.as_slice())?;
    Ok(FuncTy {
        result: copied(alloc, &ty.result)?,
        params,
        variadic: ty.variadic,
    })
}

// The function type as a type.
pub fn function_type(alloc: Global, ty: &FuncTy) -> Result<Ty, NoMemory>
    ensures { IfOk result (λ t. type_of t ≡ names.type_of_signature (signature_of ty.now)) }
{
    Ok(Ty::Function(Shared::new(alloc, copied_function(alloc, ty)?)?))
}

// The type as that of an identifier.
pub fn function_qual(alloc: Global, ty: &FuncTy) -> Result<Qual, NoMemory>
    ensures { IfOk result (λ q. qualified_of q ≡ function_qualified (signature_of ty.now)) }
{
    Ok(Qual {
        ty: function_type(alloc, ty)?,
        constant: false,
    })
}

// The function type that a type is, if it is one.
pub fn as_function(ty: &Ty) -> Option<&FuncTy>
    ensures { option_map signature_of (option_copied result) ≡ signature_in (type_of ty.now) }
{
    match ty {
        Ty::Function(function) => Some(function.get()),
        _ => None,
    }
}

// 2. Linkage.

// What the meaning stands for, where that can have linkage.
fn target_of(meaning: &Meaning) -> Option<Target>
    ensures { result ≡ held_target meaning.now }
{
    match meaning {
        Meaning::Object {
            slot: Slot::Static(number),
            qual: _,
            register: _,
        } => Some(Target::Static(*number)),
        Meaning::Function { number, ty: _ } => Some(Target::Function(*number)),
        _ => None,
    }
}

fn is_target(a: Target, b: Target) -> bool
    ensures { result ≡ names.is_target a b }
{
    match a {
        Target::Static(m) => match b {
            Target::Static(n) => m == n,
            _ => false,
        },
        Target::Function(m) => match b {
            Target::Function(n) => m == n,
            _ => false,
        },
        Target::Literal(m) => match b {
            Target::Literal(n) => m == n,
            _ => false,
        },
    }
}

// The identifier with linkage that is spelled so.
pub fn entity(state: &State, symbol: u32) -> Option<&Linked>
    ensures { option_copied result ≡ entity_in state.now symbol }
{
    match state.linked.find(symbol) {
        Some(binding) => Some(&binding.meaning),
        None => None,
    }
}

fn target_held(meaning: Option<&Meaning>) -> Option<Target>
    ensures { result ≡ target_held (option_copied meaning.entry) }
{
    match meaning {
        Some(meaning) => target_of(meaning),
        None => None,
    }
}

// The identifier, where it stands for this.
pub fn if_linked<'a>(target: Option<Target>, entity: Option<&'a Linked>) -> Option<&'a Linked>
    ensures { option_copied result ≡ if_held target (option_copied entity.entry) }
{
    match target {
        Some(target) => match entity {
            Some(known) if is_target(known.target, target) => Some(known),
            _ => None,
        },
        None => None,
    }
}

// The one that the visible declaration declares.
pub fn prior(state: &State, symbol: u32) -> Option<&Linked>
    ensures { option_copied result ≡ prior_in state.now symbol }
{
    if_linked(target_held(state.names.find(symbol)), entity(state, symbol))
}

// Whether the identifier would be internal (6.2.2p3, 6.2.2p4, 6.2.2p5).
pub fn is_internal(linkage: Linkage, prior: Option<&Linked>) -> bool
    ensures { (n : Naming) → result ≡ names.is_internal (given_of linkage) (option_map (linked_seen n) (option_copied prior.entry)) }
{
    match linkage {
        Linkage::Internal => true,
        Linkage::Plain => false,
        Linkage::Extern => match prior {
            Some(known) => known.internal,
            None => false,
        },
    }
}

// Whether it isn't both internal and external (6.2.2p7).
fn keeps_linkage(internal: bool, entity: Option<&Linked>) -> bool
    ensures { (n : Naming) → result ≡ names.keeps_linkage internal (option_map (linked_seen n) (option_copied entity.entry)) }
{
    match entity {
        Some(known) => same_qualifier(known.internal, internal),
        None => true,
    }
}

pub fn is_known(found: Option<&Linked>) -> bool
    ensures { result ≡ is_some (option_copied found.entry) }
{
    found.is_some()
}

// Whether no declaration of this scope stands in its way (6.7p3).
fn may_redeclare(state: &State, symbol: u32, prior: Option<&Linked>) -> bool
    ensures { result ≡ (not (is_some (meaning_in (at_depth state.now.names.depth (visible symbol state.now.names.ordinary)))) || is_some
        (option_copied prior.entry)) }
{
    !state.is_taken(symbol) || is_known(prior)
}

// Whether its declarations have types like this one.
fn agrees(qual: &Qual, entity: Option<&Linked>) -> bool
    ensures { (n : Naming) → result ≡ names.agrees (qualified_of qual.now) (option_map (linked_seen n) (option_copied entity.entry)) }
{
    match entity {
        Some(known) => suits_all(qual, known.types.as_slice()),
        None => true,
    }
}

// The composite with the type of a meaning.
fn composite_with(alloc: Global, qual: &Qual, meaning: Option<&Meaning>) -> Result<Qual, NoMemory>
    ensures { (n : Naming) → IfOk result (λ q. qualified_of q ≡ names.composite_with (qualified_of qual.now)
        (names.type_visible (option_map (meaning_seen n) (option_copied meaning.entry)))) }
{
    match meaning {
        Some(
            Meaning::Object {
                slot: _,
                qual: old,
                register: _,
            },
        ) => composite_qual(alloc, old, qual),
        Some(Meaning::Function { number: _, ty }) => Ok(Qual {
            ty: composite(alloc, ty, &qual.ty)?,
            constant: false,
        }),
        _ => copied_qual(alloc, qual),
    }
}

// The type that the identifier has from here on: the composite with that of the visible declaration, where that has linkage
// (6.2.7p4).
fn type_seen(state: &State, symbol: u32, qual: &Qual, linked: bool) -> Result<Qual, NoMemory>
    ensures { (n : Naming) → IfOk result (λ q. qualified_of q ≡ names.type_seen (qualified_of qual.now)
        (option_map (meaning_seen n) (meaning_in (visible symbol state.now.names.ordinary))) linked) }
{
    if linked {
        composite_with(state.alloc, qual, state.names.find(symbol))
    } else {
        copied_qual(state.alloc, qual)
    }
}

// Why a declaration of the identifier clashes with an earlier one whose type isn't compatible: one in this scope, or in
// another one.
pub fn clash(state: &State, symbol: u32) -> Reason {
    if state.is_taken(symbol) {
        Reason::IncompatibleDeclarations
    } else {
        Reason::IncompatibleScopes
    }
}

// What a declaration with linkage finds.
#[derive(Drop)]
pub struct Found {
    pub symbol: u32,
    pub internal: bool,
    /// What the identifier stands for, where it is known.
    pub target: Option<Target>,
    /// The type that it has from here on.
    pub seen: Qual,
}

// What the identifier stands for, where it is known.
fn known_target(state: &State, symbol: u32) -> Option<Target>
    ensures { result ≡ option_map (λ l. l.target) (entity_in state.now symbol) }
{
    match entity(state, symbol) {
        Some(known) => Some(known.target),
        None => None,
    }
}

// Which rule a declaration of this type breaks, if it breaks one.
fn broken_rule(state: &State, symbol: u32, qual: &Qual, linkage: Linkage) -> Option<Reason>
    ensures { (n : Naming) → IsOneToOne n → (t : TokenText) (env : Env) →
        is_some result ≡ not (names.may_stand (qualified_of qual.now) (given_of linkage) symbol (known_by n t state.now env)) }
{
    let prior = prior(state, symbol);
    let entity = entity(state, symbol);
    if !keeps_linkage(is_internal(linkage, prior), entity) {
        Some(Reason::LinkageClash)
    } else if !may_redeclare(state, symbol, prior) {
        Some(Reason::DeclaredTwice)
    } else if !agrees(qual, entity) {
        Some(clash(state, symbol))
    } else {
        None
    }
}

// What the declaration finds; refused where it breaks a rule.
pub fn redeclared(
    state: &State,
    source: &Source<'_>,
    at: u32,
    qual: &Qual,
    linkage: Linkage,
) -> Result<Found, TypeFault>
    ensures reads { (n : Naming) → IsOneToOne n → (env : Env) → Reads (redeclared_seen n state.now)
        (names.redeclared at (qualified_of qual.now) (given_of linkage) (known_by n source.now state.now env)) result (known_by n source.now state.now env) }
    ensures symbol { IfOk result (λ r. r.symbol ≡ symbol_in source.now (slice_get source.now.list at)) }
    ensures internal { (n : Naming) → IfOk result (λ r. r.internal ≡ names.is_internal (given_of linkage)
        (option_map (linked_seen n) (prior_in state.now r.symbol))) }
    ensures target { IfOk result (λ r. r.target ≡ option_map (λ l. l.target) (entity_in state.now r.symbol)) }
{
    let symbol = source.symbol(at);
    if let Some(reason) = broken_rule(state, symbol, qual, linkage) {
        return Err(source.fault(at, reason));
    }
    let prior = prior(state, symbol);
    Ok(Found {
        symbol,
        internal: is_internal(linkage, prior),
        target: known_target(state, symbol),
        seen: type_seen(state, symbol, qual, is_known(prior))?,
    })
}

// 3. What a declaration makes known.

// A row with the type among the types of its declarations; none where it is there already.
fn further_row(alloc: Global, known: &Linked, qual: &Qual) -> Result<Option<Linked>, NoMemory>
    ensures { (n : Naming) → IfOk result (λ row. option_map (linked_seen n) row ≡ one_more_type (qualified_of qual.now) (linked_seen n known.now)) }
{
    if is_among(qual, known.types.as_slice()) {
        return Ok(None);
    }
    let mut types = copied_quals(alloc, known.types.as_slice())?;
    types.push(copied_qual(alloc, qual)?)?;
    Ok(Some(Linked {
        target: known.target,
        internal: known.internal,
        types,
    }))
}

// Notes the type of a further declaration of the identifier.
pub fn note_type(state: &mut State, symbol: u32, qual: &Qual) -> Result<(), NoMemory>
    ensures known { OnOk result ((n : Naming) (t : TokenText) (env : Env) →
        known_by n t state.new env ≡ names.with_further symbol (qualified_of qual.now) (known_by n t state.old env)) }
    ensures rest { state.new ≡ record state.old { linked = state.new.linked } }
{
    let Some(known) = entity(state, symbol) else {
        return Ok(());
    };
    match further_row(state.alloc, known, qual)? {
        Some(row) => state.linked.change(symbol, row),
        None => {}
    }
    Ok(())
}

// Notes an identifier with linkage.
pub fn link(
    state: &mut State,
    symbol: u32,
    target: Target,
    internal: bool,
    qual: &Qual,
) -> Result<(), NoMemory>
    ensures known { OnOk result ((n : Naming) (t : TokenText) (env : Env) →
        known_by n t state.new env ≡ names.with_link symbol internal (target_seen n target) (qualified_of qual.now) (known_by n t state.old env)) }
    ensures rest { state.new ≡ record state.old { linked = state.new.linked } }
{
    let alloc = state.alloc;
    let mut types = Items::new(alloc);
    types.push(copied_qual(alloc, qual)?)?;
    let row = Linked {
        target,
        internal,
        types,
    };
    state.linked.add(symbol, 0, row)
}

// Declares the identifier in this scope, or gives the declaration there this meaning.
pub fn bind(state: &mut State, symbol: u32, meaning: Meaning) -> Result<(), NoMemory>
    ensures known { OnOk result ((n : Naming) (t : TokenText) (env : Env) →
        known_by n t state.new env ≡ names.bound symbol (meaning_seen n meaning) (known_by n t state.old env)) }
    ensures rest { state.new ≡ record state.old { names = state.new.names } }
{
    if state.is_taken(symbol) {
        state.names.change(symbol, meaning);
        Ok(())
    } else {
        state.names.declare(symbol, meaning)
    }
}
