// Declarations of file scope (6.9.2).

use crate::block::{begun, function_type, may_say, named_part, no_initializer, typedef_name};
use c_ast::{Declaration, Part};
use c_types::{FuncTy, Qual, copied_qual};
use lawful_program::is_main_type;
use type_declarators::words::{Storage, Words};
use type_initializers::initialize;
use type_linkage::{Linkage, complete_object, declare_function, declare_object};
use type_reasons::Reason;
use type_scope::{Source, State, TypeFault};

fn linkage_of(storage: Storage) -> Option<Linkage> {
    match storage {
        Storage::None => Some(Linkage::Plain),
        Storage::Static => Some(Linkage::Internal),
        Storage::Extern => Some(Linkage::Extern),
        Storage::Typedef | Storage::Auto | Storage::Register => None,
    }
}

// A function without storage class is declared as with `extern` (6.2.2p5).
fn function_linkage(storage: Storage) -> Option<Linkage> {
    match linkage_of(storage)? {
        Linkage::Plain => Some(Linkage::Extern),
        linkage => Some(linkage),
    }
}

// An object of file scope; without initializer and `extern` its definition is tentative (6.9.2). The type of a tentative
// definition with internal linkage is complete (6.9.2p3).
fn global_object(
    source: &Source<'_>,
    state: &mut State,
    words: &Words,
    part: &Part,
    name: u32,
    qual: Qual,
) -> Result<(), TypeFault> {
    let Some(linkage) = linkage_of(words.storage) else {
        return Err(source.fault(name, Reason::ExternalStorage));
    };
    if words.function {
        return Err(source.fault(name, Reason::FunctionSpecifier));
    }
    let copy = copied_qual(state.alloc, &qual)?;
    let number = declare_object(state, source, name, copy, linkage)?;
    if part.init.is_some() || words.storage != Storage::Extern {
        state.define_object(number, source.line(name));
    }
    let qual = joined_type(state, number, qual)?;
    match &part.init {
        Some(init) => {
            let qual = initialize(source, state, number, qual, init, name)?;
            complete_object(state, source.symbol(name), number, &qual)?;
        }
        None => {
            if words.storage == Storage::Static && state.tags.extent(&qual.ty).is_none() {
                return Err(source.fault(name, Reason::IncompleteTentative));
            }
        }
    }
    Ok(())
}

// The type of the object by all its declarations so far.
fn joined_type(state: &State, number: u32, qual: Qual) -> Result<Qual, TypeFault> {
    match state.objects.get(number as usize) {
        Some(row) => Ok(copied_qual(state.alloc, &row.qual)?),
        None => Ok(qual),
    }
}

// Why a function of file scope doesn't have the storage class: a typedef name is no definition (6.9.1p4, 6.9p2).
fn storage_reason(storage: Storage) -> Reason {
    match storage {
        Storage::Typedef => Reason::DefinitionStorage,
        _ => Reason::ExternalStorage,
    }
}

/// A function declared at file scope; the answer is its number.
pub fn global_function(
    source: &Source<'_>,
    state: &mut State,
    words: &Words,
    name: u32,
    ty: FuncTy,
) -> Result<u32, TypeFault> {
    let Some(linkage) = function_linkage(words.storage) else {
        return Err(source.fault(name, storage_reason(words.storage)));
    };
    let main = source.spelling(name) == b"main".as_slice();
    if !may_say(source, words, name) {
        return Err(source.fault(name, Reason::MainSpecifier));
    }
    if main && !is_main_type(&ty) {
        return Err(source.fault(name, Reason::MainType));
    }
    let number = declare_function(state, source, name, ty, linkage)?;
    if main {
        state.main = Some(number);
    }
    Ok(number)
}

fn global_part(
    source: &Source<'_>,
    state: &mut State,
    words: &Words,
    part: &Part,
    base: &Qual,
    at: u32,
) -> Result<(), TypeFault> {
    let (name, qual) = named_part(source, state, part, base, at)?;
    if words.storage == Storage::Typedef {
        return typedef_name(source, state, words, part, name, qual);
    }
    match function_type(state.alloc, &qual)? {
        Some(ty) => {
            no_initializer(source, part, name, Reason::InitializedEntity)?;
            let _number = global_function(source, state, words, name, ty)?;
            Ok(())
        }
        None => global_object(source, state, words, part, name, qual),
    }
}

/// A declaration of file scope.
pub fn global_declaration(
    source: &Source<'_>,
    state: &mut State,
    d: &Declaration,
) -> Result<(), TypeFault> {
    let (words, base, at) = begun(source, state, d)?;
    if matches!(words.storage, Storage::Auto | Storage::Register) {
        return Err(source.fault(at, Reason::ExternalStorage));
    }
    for part in d.parts.as_slice() {
        global_part(source, state, &words, part, &base, at)?;
    }
    Ok(())
}
