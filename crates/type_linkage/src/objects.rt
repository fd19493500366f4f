// Declarations of objects whose identifiers have linkage, and static objects of blocks (6.2.2, 6.7p3, 6.9.2).
ghost use Rattle.std.specs.Prelude.{◌≡◌, ◌≢◌, ℕ, List, None, false, true, Some, IfOk, OnOk, is_some};
ghost use Rattle.c_lex.specs.TokenText.{TokenText};
ghost use Rattle.c_types.specs.Types.{qualified_of};
ghost use Rattle.c_typed.specs.declared.tree.Slot.TheVariants as slot;
ghost use Rattle.c_typed.specs.declared.tree.Target.{Target as TheTarget};
ghost use Rattle.c_typed.specs.declared.tree.Target.TheVariants as target;
ghost use Rattle.typing_env.specs.Env.{Env, Object, Use, an_object};
ghost use Rattle.typing_env.specs.Names as names;
ghost use Rattle.type_scope.specs.Known.{Naming, known_by, target_seen, IsKnown};
ghost use Rattle.type_scope.specs.Reads.{Follows};
ghost use Rattle.type_scope.specs.Objects.{IsOneToOne, IsRowOf, HasPlaces, HasObjects, row_in};
ghost use Rattle.type_scope.specs.Uses.{is_used, IsUsedObject, HasUses};
ghost use Rattle.type_linkage.specs.Linkage.{given_of, if_held, entity_in, IsNamedOk, IsNamed, static_declared};

use crate::linkage::{
    Linkage, bind, clash, entity, if_linked, is_known, link, note_type, redeclared,
};
use c_typed::{Slot, Target};
use c_types::{Qual, copied_qual};
use type_scope::{Meaning, ObjectRow, Source, State, TypeFault};
use ub_base::NoMemory;

// The number of an object; a function has none (6.2.7p2).
fn object_in(target: Target) -> Option<u32>
    ensures { result ≡ names.name_of_object target }
{
    match target {
        Target::Static(number) => Some(number),
        _ => None,
    }
}

fn put_object_type(state: &mut State, number: u32, qual: Qual)
    ensures rest { state.new ≡ record state.old { objects = state.new.objects } }
    ensures row { (o : Object) → IsRowOf o (row_in state.old number) → IsRowOf (record o { qual = qualified_of qual }) (row_in state.new number) }
    ensures others { (m : ℕ) → m ≢ number → row_in state.new m ≡ row_in state.old m }
    ensures places { HasPlaces state.old → HasPlaces state.new }
    ensures used { (t : TheTarget) (us : List Use) → IsUsedObject t us (row_in state.old number) → IsUsedObject t us (row_in state.new number) }
{
    if let Some(row) = state.objects.get_mut(number as usize) {
        row.qual = qual;
    }
}

// Gives the object this type.
fn set_object_type(state: &mut State, number: u32, qual: Qual)
    ensures rest { state.new ≡ record state.old { objects = state.new.objects } }
    ensures rows { (n : Naming) → IsOneToOne n → (env : Env) → HasObjects n state.old env →
        HasObjects n state.new (names.changing_object (n number) (λ o. record o { qual = qualified_of qual }) env) }
    ensures uses { (n : Naming) (us : List Use) → HasUses n state.old us → HasUses n state.new us }
{
    put_object_type(state, number, qual);
}

fn new_object(state: &mut State, symbol: u32, qual: &Qual, internal: bool) -> Result<u32, NoMemory>
    ensures known { IfOk result (λ number. (n : Naming) (t : TokenText) (env : Env) →
        known_by n t state.new env ≡ names.with_link symbol internal (target_seen n (target.Static number)) (qualified_of qual.now)
        (known_by n t state.old env)) }
    ensures rows { IfOk result (λ number. (n : Naming) → IsOneToOne n → (env : Env) (at : ℕ) → HasObjects n state.old env →
        names.object_named at env.objects ≡ None → n number ≡ at →
        HasObjects n state.new (names.with_object (names.new_object at (qualified_of qual.now)) env)) }
    ensures uses { IfOk result (λ number. (n : Naming) (us : List Use) → HasPlaces state.old → is_used (target.Static (n number)) us ≡ false →
        HasUses n state.old us → HasUses n state.new us) }
    ensures rest { state.new ≡ record state.old { linked = state.new.linked; objects = state.new.objects; declared = state.new.declared } }
{
    let alloc = state.alloc;
    let number = state.add_object(ObjectRow::new(alloc, copied_qual(alloc, qual)?, internal))?;
    link(state, symbol, Target::Static(number), internal, qual)?;
    Ok(number)
}

// A further declaration of the object; at file scope the type that the identifier has there is the object's so far.
fn further_object(
    state: &mut State,
    symbol: u32,
    number: u32,
    qual: &Qual,
    seen: &Qual,
) -> Result<(), NoMemory>
    ensures known { OnOk result ((n : Naming) (t : TokenText) (env : Env) →
        known_by n t state.new env ≡ names.with_further symbol (qualified_of qual.now) (known_by n t state.old env)) }
    ensures rows { OnOk result ((n : Naming) → IsOneToOne n → (env : Env) → env.depth ≡ state.old.names.depth → HasObjects n state.old env →
        HasObjects n state.new (names.file_type (n number) (qualified_of seen.now) env)) }
    ensures uses { OnOk result ((n : Naming) (us : List Use) → HasUses n state.old us → HasUses n state.new us) }
    ensures rest { state.new ≡ record state.old { linked = state.new.linked; objects = state.new.objects } }
{
    note_type(state, symbol, qual)?;
    if state.names.is_file() {
        let seen = copied_qual(state.alloc, seen)?;
        set_object_type(state, number, seen);
    }
    Ok(())
}

fn bind_object(state: &mut State, symbol: u32, number: u32, seen: Qual) -> Result<(), NoMemory>
    ensures known { OnOk result ((n : Naming) (t : TokenText) (env : Env) →
        known_by n t state.new env ≡ names.bound symbol (an_object (slot.Static (n number)) (qualified_of seen) false) (known_by n t state.old env)) }
    ensures rest { state.new
        ≡ record state.old { names = state.new.names } }
{
    let meaning = Meaning::Object {
        slot: Slot::Static(number),
        qual: seen,
        register: false,
    };
    bind(state, symbol, meaning)
}

// The number of an object with linkage that is declared.
fn object_number(
    state: &mut State,
    source: &Source<'_>,
    at: u32,
    qual: &Qual,
    linkage: Linkage,
) -> Result<u32, TypeFault>
    ensures reads { (n : Naming) → IsOneToOne n → IsNamed n source.now at state.old result → (env : Env) → IsKnown n source.now state.old env →
        Follows n (IsKnown n source.now state.new) (names.declare_object at (qualified_of qual.now) (given_of linkage) env) result }
    ensures rows { (n : Naming) → IsOneToOne n → IsNamed n source.now at state.old result → (env : Env) → IsKnown n source.now state.old env →
        HasObjects n state.old env → names.object_named at env.objects ≡ None →
        Follows n (HasObjects n state.new) (names.declare_object at (qualified_of qual.now) (given_of linkage) env) result }
    ensures uses { OnOk result ((n : Naming) → IsNamed n source.now at state.old result → (us : List Use) → HasPlaces state.old →
        is_used (target.Static at) us ≡ false → HasUses n state.old us → HasUses n state.new us) }
    ensures rest { state.new
        ≡ record state.old { names = state.new.names; linked = state.new.linked; objects = state.new.objects; declared = state.new.declared } }
{
    let found = match redeclared(state, source, at, qual, linkage) {
        Ok(found) => found,
        Err(fault) => return Err(fault),
    };
    let symbol = found.symbol;
    match found.target {
        None => {
            let number = new_object(state, symbol, qual, found.internal)?;
            bind_object(state, symbol, number, found.seen)?;
            Ok(number)
        }
        Some(target) => {
            let Some(number) = object_in(target) else {
                return Err(source.fault(at, clash(state, symbol)));
            };
            further_object(state, symbol, number, qual, &found.seen)?;
            bind_object(state, symbol, number, found.seen)?;
            Ok(number)
        }
    }
}

/// Declares an object with linkage; the answer is its number.
pub fn declare_object(
    state: &mut State,
    source: &Source<'_>,
    at: u32,
    qual: Qual,
    linkage: Linkage,
) -> Result<u32, TypeFault>
    ensures reads { (n : Naming) → IsOneToOne n → IsNamed n source.now at state.old result → (env : Env) → IsKnown n source.now state.old env →
        Follows n (IsKnown n source.now state.new) (names.declare_object at (qualified_of qual) (given_of linkage) env) result }
    ensures rows { (n : Naming) → IsOneToOne n → IsNamed n source.now at state.old result → (env : Env) → IsKnown n source.now state.old env →
        HasObjects n state.old env → names.object_named at env.objects ≡ None →
        Follows n (HasObjects n state.new) (names.declare_object at (qualified_of qual) (given_of linkage) env) result }
    ensures uses { OnOk result ((n : Naming) → IsNamed n source.now at state.old result → (us : List Use) → HasPlaces state.old →
        is_used (target.Static at) us ≡ false → HasUses n state.old us → HasUses n state.new us) }
    ensures rest { state.new
        ≡ record state.old { names = state.new.names; linked = state.new.linked; objects = state.new.objects; declared = state.new.declared } }
{
    object_number(state, source, at, &qual, linkage)
}

// Whether the identifier with linkage that is spelled so stands for the object.
fn is_linked_object(state: &State, symbol: u32, number: u32) -> bool
    ensures { result ≡ is_some (if_held (Some (target.Static number)) (entity_in state.now symbol)) }
{
    is_known(if_linked(Some(Target::Static(number)), entity(state, symbol)))
}

// Notes the type of a further declaration of the identifier, where that stands for the object.
fn note_object_type(
    state: &mut State,
    symbol: u32,
    number: u32,
    qual: &Qual,
) -> Result<(), NoMemory>
    ensures known { OnOk result ((n : Naming) → IsOneToOne n → (t : TokenText) (env : Env) →
        known_by n t state.new env ≡ names.with_further_of (target.Static (n number)) symbol (qualified_of qual.now) (known_by n t state.old env)) }
    ensures rest { state.new ≡ record state.old { linked = state.new.linked } }
{
    if is_linked_object(state, symbol, number) {
        note_type(state, symbol, qual)
    } else {
        Ok(())
    }
}

/// Gives an object with static storage the type that its initializer completes, and so the identifier that declares it here.
pub fn complete_object(
    state: &mut State,
    symbol: u32,
    number: u32,
    qual: &Qual,
) -> Result<(), NoMemory>
    ensures known { OnOk result ((n : Naming) → IsOneToOne n → (t : TokenText) (env : Env) →
        known_by n t state.new env ≡ names.renamed symbol (an_object (slot.Static (n number)) (qualified_of qual.now) false)
        (names.with_further_of (target.Static (n number)) symbol (qualified_of qual.now) (known_by n t state.old env))) }
    ensures rows { OnOk result ((n : Naming) → IsOneToOne n → (env : Env) → HasObjects n state.old env →
        HasObjects n state.new (names.changing_object (n number) (λ o. record o { qual = qualified_of qual.now }) env)) }
    ensures uses { OnOk result ((n : Naming) (us : List Use) → HasUses n state.old us → HasUses n state.new us) }
    ensures rest { state.new
        ≡ record state.old { names = state.new.names; linked = state.new.linked; objects = state.new.objects } }
{
    let alloc = state.alloc;
    set_object_type(state, number, copied_qual(alloc, qual)?);
    note_object_type(state, symbol, number, qual)?;
    let meaning = Meaning::Object {
        slot: Slot::Static(number),
        qual: copied_qual(alloc, qual)?,
        register: false,
    };
    state.names.change(symbol, meaning);
    Ok(())
}

/// Declares an object of block scope with static storage: without linkage, and defined; the answer is its number.
pub fn declare_local_static(
    state: &mut State,
    source: &Source<'_>,
    at: u32,
    qual: Qual,
) -> Result<u32, TypeFault>
    ensures reads { (n : Naming) → IsNamedOk n at result → (env : Env) → IsKnown n source.now state.old env →
        Follows (λ number. tt) (IsKnown n source.now state.new) (static_declared at (qualified_of qual) env) result }
    ensures rows { (n : Naming) → IsOneToOne n → IsNamedOk n at result → (env : Env) → IsKnown n source.now state.old env → HasObjects n state.old env →
        names.object_named at env.objects ≡ None → Follows (λ number. tt) (HasObjects n state.new) (static_declared at (qualified_of qual) env) result }
    ensures uses { OnOk result ((n : Naming) → IsNamedOk n at result → (us : List Use) → HasPlaces state.old → is_used (target.Static at) us ≡ false →
        HasUses n state.old us → HasUses n state.new us) }
    ensures rest { state.new
        ≡ record state.old { names = state.new.names; objects = state.new.objects; declared = state.new.declared; defined = state.new.defined } }
{
    let alloc = state.alloc;
    let copy = copied_qual(alloc, &qual)?;
    let number = state.add_object(ObjectRow::new(alloc, qual, true))?;
    state.define_object(number, source.line(at));
    let meaning = Meaning::Object {
        slot: Slot::Static(number),
        qual: copy,
        register: false,
    };
    match state.declare(source, at, meaning) {
        Ok(()) => Ok(number),
        Err(fault) => Err(fault),
    }
}
