// Declarations (6.7).

use c_ast::{Base, Declaration, Declarator, Init, Part, Specs};
use c_typed::{Entry, Slot};
use c_types::{FuncTy, Qual, Ty, copied_qual};
use std::alloc::Global;
use type_declarators::declarator::{Declared, copy, name_of};
use type_declarators::words::{Storage, Words};
use type_expressions::expression::{declared, specified};
use type_initializers::{automatic, initialize};
use type_linkage::{
    Linkage, complete_object, copied_function, declare_function, declare_local_static,
    declare_object,
};
use type_reasons::Reason;
use type_scope::{Meaning, Source, State, TypeFault};
use ub_base::{Items, NoMemory};

/// A token near a declaration: the first name that it declares, or a tag or typedef name in its specifiers.
pub fn near(specs: &Specs, first: Option<&Declarator>) -> u32 {
    let name = match first {
        Some(d) => name_of(d),
        None => None,
    };
    match (name, &specs.base) {
        (Some(at), _) => at,
        (None, Base::Typedef(at)) => *at,
        (
            None,
            Base::Tagged {
                union: _,
                tag: Some(at),
                members: _,
            }
            | Base::Enumerated {
                tag: Some(at),
                enumerators: _,
            },
        ) => *at,
        _ => 0,
    }
}

fn first_declarator(d: &Declaration) -> Option<&Declarator> {
    match d.parts.as_slice() {
        [part, ..] => Some(&part.declarator),
        [] => None,
    }
}

// Whether specifiers without a declarator declare something: a tag, or the constants of an enumeration (6.7p2).
fn declares_alone(specs: &Specs) -> bool {
    matches!(
        &specs.base,
        Base::Tagged {
            union: _,
            tag: Some(_),
            members: _,
        } | Base::Enumerated {
            tag: _,
            enumerators: Some(_),
        }
    )
}

/// What the specifiers of a declaration say and the type that they give, with a token near it. Where no declarator follows,
/// they declare something, and no function (6.7p2, 6.7.4p2).
pub fn begun(
    source: &Source<'_>,
    state: &mut State,
    d: &Declaration,
) -> Result<(Words, Qual, u32), TypeFault> {
    let at = near(&d.specs, first_declarator(d));
    let alone = d.parts.is_empty();
    let (words, base) = specified(source, state, &d.specs, at, alone)?;
    if alone && !declares_alone(&d.specs) {
        return Err(source.fault(at, Reason::DeclaresNothing));
    }
    if alone && words.function {
        return Err(source.fault(at, Reason::FunctionSpecifier));
    }
    Ok((words, base, at))
}

/// The name and the type of an init-declarator.
pub fn named_part(
    source: &Source<'_>,
    state: &mut State,
    part: &Part,
    base: &Qual,
    at: u32,
) -> Result<(u32, Qual), TypeFault> {
    let base = copy(state, base)?;
    let at = name_of(&part.declarator).unwrap_or(at);
    let Declared { name, qual } = declared(source, state, &part.declarator, base, at)?;
    match name {
        Some(name) => Ok((name, qual)),
        None => Err(source.fault(at, Reason::DeclaresNothing)),
    }
}

/// Declares a typedef name, which has no initializer and no function specifier (6.7.4p2, 6.7.8).
pub fn typedef_name(
    source: &Source<'_>,
    state: &mut State,
    words: &Words,
    part: &Part,
    name: u32,
    qual: Qual,
) -> Result<(), TypeFault> {
    no_initializer(source, part, name, Reason::InitializedEntity)?;
    if words.function {
        return Err(source.fault(name, Reason::FunctionSpecifier));
    }
    state.declare_typedef(source, name, qual)
}

/// Whether the declaration of this name may have such words: that of `main` has no function specifier (6.7.4p4).
pub fn may_say(source: &Source<'_>, words: &Words, name: u32) -> bool {
    !words.function || source.spelling(name) != b"main".as_slice()
}

/// Without an initializer (6.7.9p3): a typedef name, a function or an `extern` object of block scope has none.
pub fn no_initializer(
    source: &Source<'_>,
    part: &Part,
    at: u32,
    reason: Reason,
) -> Result<(), TypeFault> {
    if part.init.is_some() {
        return Err(source.fault(at, reason));
    }
    Ok(())
}

/// The function type, where the type is one.
pub fn function_type(alloc: Global, qual: &Qual) -> Result<Option<FuncTy>, NoMemory> {
    match &qual.ty {
        Ty::Function(f) => Ok(Some(copied_function(alloc, f.get())?)),
        _ => Ok(None),
    }
}

// An automatic object (6.2.4p5): in scope from here on, its initializer included.
fn automatic_object(
    source: &Source<'_>,
    state: &mut State,
    name: u32,
    qual: Qual,
    register: bool,
    init: &Option<Init>,
) -> Result<Entry, TypeFault> {
    let alloc = state.alloc;
    let (block, decl) = state.task.add(copied_qual(alloc, &qual)?)?;
    let slot = Slot::Auto { block, decl };
    let meaning = Meaning::Object {
        slot,
        qual: copied_qual(alloc, &qual)?,
        register,
    };
    state.declare(source, name, meaning)?;
    match init {
        None => {
            if state.tags.extent(&qual.ty).is_none() {
                return Err(source.fault(name, Reason::IncompleteObject));
            }
            Ok(Entry::Declare(decl))
        }
        Some(init) => {
            let (tree, qual) = automatic(source, state, slot, qual, init, name)?;
            state.task.complete(decl, copied_qual(alloc, &qual)?);
            let meaning = Meaning::Object {
                slot,
                qual,
                register,
            };
            state.names.change(source.symbol(name), meaning);
            Ok(Entry::Initializer(tree))
        }
    }
}

// A static object of block scope (6.2.4p3).
fn local_static(
    source: &Source<'_>,
    state: &mut State,
    name: u32,
    qual: Qual,
    init: &Option<Init>,
) -> Result<(), TypeFault> {
    let copy = copied_qual(state.alloc, &qual)?;
    let number = declare_local_static(state, source, name, copy)?;
    let qual = match init {
        None => qual,
        Some(init) => initialize(source, state, number, qual, init, name)?,
    };
    if state.tags.extent(&qual.ty).is_none() {
        return Err(source.fault(name, Reason::IncompleteObject));
    }
    complete_object(state, source.symbol(name), number, &qual)?;
    Ok(())
}

// A function declared in a block has no storage class but `extern` (6.7.1p7).
fn local_function(
    source: &Source<'_>,
    state: &mut State,
    words: &Words,
    name: u32,
    ty: FuncTy,
) -> Result<(), TypeFault> {
    if !matches!(words.storage, Storage::None | Storage::Extern) {
        return Err(source.fault(name, Reason::LocalFunctionStorage));
    }
    if !may_say(source, words, name) {
        return Err(source.fault(name, Reason::MainSpecifier));
    }
    let _number = declare_function(state, source, name, ty, Linkage::Extern)?;
    Ok(())
}

/// One init-declarator of a declaration in a block; an automatic object gives an entry of the block.
fn local_part(
    source: &Source<'_>,
    state: &mut State,
    words: &Words,
    part: &Part,
    base: &Qual,
    at: u32,
) -> Result<Option<Entry>, TypeFault> {
    let (name, qual) = named_part(source, state, part, base, at)?;
    if words.storage == Storage::Typedef {
        typedef_name(source, state, words, part, name, qual)?;
        return Ok(None);
    }
    if let Some(ty) = function_type(state.alloc, &qual)? {
        no_initializer(source, part, name, Reason::InitializedEntity)?;
        local_function(source, state, words, name, ty)?;
        return Ok(None);
    }
    if words.function {
        return Err(source.fault(name, Reason::FunctionSpecifier));
    }
    match words.storage {
        Storage::Extern => {
            no_initializer(source, part, name, Reason::ExternInitializer)?;
            let _number = declare_object(state, source, name, qual, Linkage::Extern)?;
            Ok(None)
        }
        Storage::Static => {
            local_static(source, state, name, qual, &part.init)?;
            Ok(None)
        }
        storage => {
            let register = storage == Storage::Register;
            let entry = automatic_object(source, state, name, qual, register, &part.init)?;
            Ok(Some(entry))
        }
    }
}

/// A declaration in a block: adds the entries of its automatic objects (6.8.2).
pub fn local_declaration(
    source: &Source<'_>,
    state: &mut State,
    d: &Declaration,
    entries: &mut Items<Entry>,
) -> Result<(), TypeFault> {
    let (words, base, at) = begun(source, state, d)?;
    for part in d.parts.as_slice() {
        if let Some(entry) = local_part(source, state, &words, part, &base, at)? {
            entries.push(entry)?;
        }
    }
    Ok(())
}

// Whether the specifiers define a type.
fn defines_type(specs: &Specs) -> bool {
    matches!(
        &specs.base,
        Base::Tagged {
            union: _,
            tag: _,
            members: Some(_),
        } | Base::Enumerated {
            tag: _,
            enumerators: Some(_),
        }
    )
}

/// The declaration in front of a `for`: of automatic objects alone (6.8.5p3).
pub fn loop_declaration(
    source: &Source<'_>,
    state: &mut State,
    d: &Declaration,
    entries: &mut Items<Entry>,
) -> Result<(), TypeFault> {
    let (words, base, at) = begun(source, state, d)?;
    let automatic = matches!(
        words.storage,
        Storage::None | Storage::Auto | Storage::Register
    );
    if defines_type(&d.specs) || !automatic || d.parts.is_empty() {
        return Err(source.fault(at, Reason::LoopDeclaration));
    }
    for part in d.parts.as_slice() {
        match local_part(source, state, &words, part, &base, at)? {
            Some(entry) => entries.push(entry)?,
            None => return Err(source.fault(at, Reason::LoopDeclaration)),
        }
    }
    Ok(())
}
