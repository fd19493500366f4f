// External definitions (6.9).
ghost use Rattle.std.specs.Prelude.{IfOk};
ghost use Rattle.c_typed.specs.Lawful.{HasMain, MainHasType, LibraryIsExternal, LiteralsHaveBytes, StaticsAreComplete, IsNumbered, IsLawful};

use crate::statement::block_items;
use c_ast::{Declaration, Declarator, Entry as SyntaxEntry, Specs, Unit, UnitEntry};
use c_lex::Tokens;
use c_typed::Program;
use c_types::FuncTy;
use std::alloc::Global;
use type_bodies::{begin_body, defined_before, end_body, own_params, undefinable};
use type_declarations::{function_type, global_declaration, global_function, near};
use type_declarators::declarator::{Declared, assertion};
use type_declarators::words::Words;
use type_expressions::expression::{constant, declared, specified};
use type_linkage::copied_function;
use type_program::{final_order, finished};
use type_reasons::Reason;
use type_scope::{Source, State, TypeFault};

// What a function definition declares: its words, the token of its name and its type, where it has one of a function.
fn heading(
    source: &Source<'_>,
    state: &mut State,
    specs: &Specs,
    declarator: &Declarator,
    at: u32,
) -> Result<(Words, Option<u32>, Option<FuncTy>), TypeFault> {
    let (words, base) = specified(source, state, specs, at, false)?;
    let Declared { name, qual } = declared(source, state, declarator, base, at)?;
    let ty = function_type(state.alloc, &qual)?;
    Ok((words, name, ty))
}

// Begins the body of a function of this type, and gives the number of the function.
fn begun(
    source: &Source<'_>,
    state: &mut State,
    words: &Words,
    name: u32,
    ty: &FuncTy,
) -> Result<u32, TypeFault> {
    let own = copied_function(state.alloc, ty)?;
    let number = global_function(source, state, words, name, own)?;
    if let Some(reason) = defined_before(state, number) {
        return Err(source.fault(name, reason));
    }
    state.enter_body()?;
    begin_body(state, number, ty)?;
    Ok(number)
}

// A function definition (6.9.1).
fn function_definition(
    source: &Source<'_>,
    state: &mut State,
    specs: &Specs,
    declarator: &Declarator,
    body: &[SyntaxEntry],
) -> Result<(), TypeFault> {
    let at = near(specs, Some(declarator));
    let (words, name, ty) = heading(source, state, specs, declarator, at)?;
    let (Some(name), Some(params), Some(ty)) = (name, own_params(declarator), ty) else {
        return Err(source.fault(at, Reason::DefinedByTypedef));
    };
    if let Some(reason) = undefinable(state, &ty, params) {
        return Err(source.fault(name, reason));
    }
    let number = begun(source, state, &words, name, &ty)?;
    let entries = block_items(source, state, body)?;
    end_body(state, number, entries)?;
    state.leave_scope();
    Ok(())
}

fn external(source: &Source<'_>, state: &mut State, entry: &UnitEntry) -> Result<(), TypeFault> {
    match entry {
        UnitEntry::Empty => Ok(()),
        UnitEntry::Assertion(e, message) => {
            let number = constant(source, state, e, Reason::AssertionConstant)?;
            assertion(source, state.alloc, number, e.at, *message)
        }
        UnitEntry::Declaration(d) => global_declaration(source, state, d),
        UnitEntry::Function {
            specs,
            declarator,
            body,
        } => function_definition(source, state, specs, declarator, body.as_slice()),
    }
}

// All that the unit declares, objects standing as `order` says.
fn all_declared(
    alloc: Global,
    source: &Source<'_>,
    unit: &Unit,
    order: Vec<u32>,
) -> Result<State, TypeFault> {
    let mut state = State::new(alloc, source, order)?;
    for entry in unit.entries.as_slice() {
        external(source, &mut state, entry)?;
    }
    Ok(state)
}

/// The typed program of the unit, whose tokens these are; or the line on which it breaks a constraint or a rule of the
/// profile. Objects with static storage are numbered in the order of their first definitions: where one is named before an
/// object that is defined earlier, the unit is read again with the order known.
pub fn resolve(alloc: Global, tokens: &Tokens<'_>, unit: &Unit) -> Result<Program, TypeFault>
    ensures main { IfOk result HasMain }
    ensures main_type { IfOk result MainHasType }
    ensures library { IfOk result LibraryIsExternal }
    ensures literals { IfOk result LiteralsHaveBytes }
    ensures complete { IfOk result StaticsAreComplete }
    ensures numbered { IfOk result IsNumbered }
    ensures lawful { IfOk result IsLawful }
{
    let source = Source::new(alloc, tokens)?;
    let state = all_declared(alloc, &source, unit, Vec::new(alloc))?;
    match final_order(alloc, &state)? {
        None => finished(alloc, &source, state),
        Some(order) => {
            let state = all_declared(alloc, &source, unit, order)?;
            finished(alloc, &source, state)
        }
    }
}
