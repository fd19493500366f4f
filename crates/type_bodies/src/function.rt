// What function definitions are made of, apart from their statements (6.9.1).

use c_ast::{Declarator, Param};
use c_typed::{Block, Body};
use c_types::{FuncTy, Qual, Ty, copied, copied_qual};
use type_declarators::declarator::{is_name, name_of};
use type_linkage::copied_function;
use type_reasons::Reason;
use type_scope::{Definition, State, Task, TypeFault};
use ub_base::Items;

/// The parameters of the function that the declarator declares, where it declares one itself (6.9.1p2).
pub fn own_params(d: &Declarator) -> Option<&[Param]> {
    match d {
        Declarator::Ident(_) => None,
        Declarator::Pointer(_, d) => own_params(d.get()),
        Declarator::Array(d, _) => own_params(d.get()),
        Declarator::Function(d, params, _) => {
            if is_name(d.get()) {
                Some(params.as_slice())
            } else {
                own_params(d.get())
            }
        }
    }
}

fn are_named(params: &[Param]) -> bool {
    for param in params {
        if name_of(&param.declarator).is_none() {
            return false;
        }
    }
    true
}

fn are_complete(state: &State, params: &[Qual]) -> bool {
    for param in params {
        if state.tags.extent(&param.ty).is_none() {
            return false;
        }
    }
    true
}

/// Why a function of this type may not be defined: its types are complete, its parameters have names, and there is no ellipsis
/// (6.9.1p3, 6.9.1p5, 6.7.6.3p4; the ellipsis is own).
pub fn undefinable(state: &State, ty: &FuncTy, params: &[Param]) -> Option<Reason> {
    if ty.variadic {
        return Some(Reason::LeftOutVariadic);
    }
    if !(ty.params.is_empty() || are_named(params)) {
        return Some(Reason::ParameterName);
    }
    if !are_complete(state, ty.params.as_slice()) {
        return Some(Reason::ParameterType);
    }
    if matches!(ty.result, Ty::Void) || state.tags.extent(&ty.result).is_some() {
        None
    } else {
        Some(Reason::DefinedResult)
    }
}

/// Why the function may not be defined again: it has a body, or is a library function (6.9p3, 6.9p5, 7.1.3p2).
pub fn defined_before(state: &State, number: u32) -> Option<Reason> {
    let Some(row) = state.functions.get(number as usize) else {
        return Some(Reason::ExternalDefinition);
    };
    match &row.definition {
        Definition::Nowhere => None,
        Definition::Library(_) => Some(Reason::LibraryName),
        Definition::Own(_, _) if row.internal => Some(Reason::InternalDefinition),
        Definition::Own(_, _) => Some(Reason::ExternalDefinition),
    }
}

/// Begins the body of the function.
pub fn begin_body(state: &mut State, number: u32, ty: &FuncTy) -> Result<(), TypeFault> {
    let alloc = state.alloc;
    state.task = Task::new(alloc, copied(alloc, &ty.result)?);
    let _block = state.task.enter(alloc)?;
    for param in ty.params.as_slice() {
        let _place = state.task.add(copied_qual(alloc, param)?)?;
    }
    let own = copied_function(alloc, ty)?;
    if let Some(row) = state.functions.get_mut(number as usize) {
        row.definition = Definition::Own(own, None);
    }
    Ok(())
}

/// Ends it: each label that a `goto` names is there (6.8.6.1p1).
pub fn end_body(
    state: &mut State,
    number: u32,
    entries: Items<c_typed::Entry>,
) -> Result<(), TypeFault> {
    if let Some(line) = state.task.undefined_label() {
        return Err(TypeFault::NotTyped {
            line,
            reason: Reason::GotoLabel,
        });
    }
    let (block, objects) = state.task.leave(state.alloc);
    if let Some(row) = state.functions.get_mut(number as usize)
        && let Definition::Own(_, body) = &mut row.definition
    {
        *body = Some(Body::Block(Block {
            number: block,
            objects,
            entries,
        }));
    }
    Ok(())
}
