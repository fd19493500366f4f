// The program, once all is declared (6.9p3, 6.9p5, 6.9.2).
ghost use Rattle.std.specs.Prelude.{IfOk};
ghost use Rattle.std.specs.List.{All};
ghost use Rattle.c_typed.specs.Lawful.{HasMain, MainHasType, IsExternal, LibraryIsExternal, HasBytes, LiteralsHaveBytes, StaticsAreComplete, IsNumbered};
ghost use Rattle.c_typed.specs.Lawful.{IsLawful};

use crate::lines::{Broken, earlier, undefined};
use crate::startup::main_of;
use crate::statics::{Checked, program_statics};
use c_typed::{Function, Program};
use c_types::Tags;
use lawful_program::is_lawful;
use std::alloc::Global;
use type_reasons::Reason;
use type_scope::{Definition, FunctionRow, Literal, ObjectRow, Source, State, TypeFault};
use ub_base::{Bytes, Items, NoMemory};

/// Where each object with static storage stands, by the order of first declarations: those that are defined in the order of
/// their first definitions, then the others. None where that is the order in which they stand.
pub fn final_order(alloc: Global, state: &State) -> Result<Option<Vec<u32>>, NoMemory> {
    let mut order = Vec::new(alloc);
    let mut next = state.defined;
    let mut same = true;
    for (at, row) in state.objects.iter().enumerate() {
        let place = match row.defined {
            Some(place) => place,
            None => {
                let place = next;
                next = next.saturating_add(1);
                place
            }
        };
        if place as usize != at {
            same = false;
        }
        order.push(place)?;
    }
    Ok(if same { None } else { Some(order) })
}

fn function_fault(row: &FunctionRow) -> Option<Broken> {
    match &row.definition {
        Definition::Library(_) | Definition::Own(_, Some(_)) => None,
        Definition::Nowhere | Definition::Own(_, None) => undefined(row.used, row.internal),
    }
}

// The first line on which a function is used that isn't defined.
fn first_fault(functions: &[FunctionRow]) -> Option<Broken> {
    let mut first = None;
    for row in functions {
        first = earlier(first, function_fault(row));
    }
    first
}

fn last_line(source: &Source<'_>, reason: Reason) -> TypeFault {
    TypeFault::NotTyped {
        line: source.last_line(),
        reason,
    }
}

// A function has the type of its definition, where the unit has one.
fn program_function(row: FunctionRow) -> Function
    ensures { IsExternal result }
{
    let FunctionRow {
        ty,
        internal: _,
        definition,
        used: _,
    } = row;
    match definition {
        Definition::Nowhere => Function {
            ty,
            library: None,
            body: None,
        },
        Definition::Library(library) => Function {
            ty,
            library: Some(library),
            body: None,
        },
        Definition::Own(ty, body) => Function {
            ty,
            library: None,
            body,
        },
    }
}

fn program_functions(alloc: Global, rows: Vec<FunctionRow>) -> Result<Items<Function>, NoMemory>
    ensures { IfOk result (All IsExternal) }
{
    let mut functions = Items::new(alloc);
    for row in rows {
        functions.push(program_function(row))?;
    }
    Ok(functions)
}

fn program_literals(alloc: Global, rows: Vec<Literal>) -> Result<Items<Bytes>, NoMemory>
    ensures { IfOk result (All HasBytes) }
{
    let mut literals = Items::new(alloc);
    for row in rows {
        literals.push(row.bytes)?;
    }
    Ok(literals)
}

// What a program is made of, of all that was declared.
#[derive(Drop)]
struct Parts {
    tags: Tags,
    objects: Vec<ObjectRow>,
    functions: Vec<FunctionRow>,
    literals: Vec<Literal>,
    main: Option<u32>,
}

// Lets go of what only declarations need.
fn parts_of(state: State) -> Parts {
    let State {
        alloc: _,
        names: _,
        tags,
        tag_rows: _,
        enumerations: _,
        objects,
        declared: _,
        defined: _,
        order: _,
        functions,
        linked: _,
        literals,
        unevaluated: _,
        main,
        task: _,
    } = state;
    Parts {
        tags,
        objects,
        functions,
        literals,
        main,
    }
}

// The program of its parts, which may still be unlawful.
fn joined(alloc: Global, source: &Source<'_>, parts: Parts) -> Result<Program, TypeFault>
    ensures main { IfOk result HasMain }
    ensures main_type { IfOk result MainHasType }
    ensures library { IfOk result LibraryIsExternal }
    ensures literals { IfOk result LiteralsHaveBytes }
    ensures complete { IfOk result StaticsAreComplete }
{
    let Parts {
        tags,
        objects,
        functions,
        literals,
        main,
    } = parts;
    let Checked { statics, fault } = program_statics(alloc, &tags, objects)?;
    if let Some(broken) = earlier(fault, first_fault(functions.as_slice())) {
        return Err(broken.into());
    }
    let functions = program_functions(alloc, functions)?;
    let Some(main) = main_of(functions.as_slice(), main) else {
        return Err(last_line(source, Reason::MainType));
    };
    let literals = program_literals(alloc, literals)?;
    Ok(Program {
        functions,
        statics,
        literals,
        tags,
        main,
    })
}

/// The program of all that is declared; faulty where something that is used isn't defined, where something that is defined is
/// incomplete, where there is no `main` (5.1.2.2.1, 6.9p5), or where the program isn't lawful (own).
pub fn finished(alloc: Global, source: &Source<'_>, state: State) -> Result<Program, TypeFault>
    ensures main { IfOk result HasMain }
    ensures main_type { IfOk result MainHasType }
    ensures library { IfOk result LibraryIsExternal }
    ensures literals { IfOk result LiteralsHaveBytes }
    ensures complete { IfOk result StaticsAreComplete }
    ensures numbered { IfOk result IsNumbered }
    ensures lawful { IfOk result IsLawful }
{
    let program = joined(alloc, source, parts_of(state))?;
    if is_lawful(alloc, &program)? {
        Ok(program)
    } else {
        Err(last_line(source, Reason::Unlawful))
    }
}
