// A function: its body, its type and its height (6.9.1, 7.1.4).
ghost use Rattle.std.specs.Prelude.{◌≡◌, ◌≢◌, ◌<◌, ◌^◌, [], false, IsTrue, IfOk, OnOk, length};
ghost use Rattle.std.specs.List.{All, AllPairs, Contains};
ghost use Rattle.c_types.specs.Types.{signature_of};
ghost use Rattle.c_typed.specs.Sites.{summary, expressions};
ghost use Rattle.c_typed.specs.Height.{body_height};
ghost use Rattle.c_typed.specs.Lawful.{BeginsWith, BodyIsLawful, ExpressionIsLawful, FunctionIsLawful, LibraryFits, StatementsAreLawful, Where};

use crate::distinct::{are_distinct, are_in};
use crate::found::{Found, Inside};
use crate::full::{Place, body_trees};
use crate::library::library_fits;
use crate::parameters::{is_usual, starts_with};
use crate::statements::statement;
use crate::stop::{Stop, must};
use c_typed::{Body, Function, Program, body_height};
use c_types::{FuncTy, Tags};
use std::alloc::Global;
use ub_base::{Items, NoMemory};

/// Whether the function is lawful in the program: its body, that it gives and takes no arrays, that it has the type of the
/// library function that it stands for, and that its trees are not too high.
pub fn is_lawful_function(
    alloc: Global,
    program: &Program,
    function: &Function,
) -> Result<bool, NoMemory>
    ensures { IfOk result (λ b. IsTrue b → FunctionIsLawful program.now function.now) }
{
    match lawful_function(alloc, program, function) {
        Ok(()) => Ok(true),
        Err(Stop::Unlawful) => Ok(false),
        Err(Stop::NoMemory) => Err(NoMemory),
    }
}

fn lawful_function(alloc: Global, program: &Program, function: &Function) -> Result<(), Stop>
    ensures { OnOk result (FunctionIsLawful program.now function.now) }
{
    must(is_usual(&function.ty) && fits_library(function))?;
    match &function.body {
        None => Ok(()),
        Some(body) => lawful_body(alloc, program, &function.ty, body),
    }
}

fn fits_library(function: &Function) -> bool
    ensures { IsTrue result → Where (LibraryFits function.now) function.now.library }
{
    match function.library {
        None => true,
        Some(library) => library_fits(library, &function.ty),
    }
}

fn lawful_body(alloc: Global, program: &Program, ty: &FuncTy, body: &Body) -> Result<(), Stop>
    ensures body { OnOk result (BodyIsLawful program.now (signature_of ty.now) body.now) }
    ensures height { OnOk result (body_height body.now < 2 ^ 32) }
{
    must(body_height(body) < u32::MAX)?;
    must(is_fixed(ty) && begins_with(ty, body))?;
    lawful_statements(alloc, &program.tags, body)?;
    let _count = lawful_expressions(alloc, program, ty, body)?;
    Ok(())
}

fn is_fixed(ty: &FuncTy) -> bool
    ensures { IsTrue result → (signature_of ty.now).variadic ≡ false }
{
    !ty.variadic
}

/// Whether the body is a block that begins with the parameters.
fn begins_with(ty: &FuncTy, body: &Body) -> bool
    ensures { IsTrue result → BeginsWith (signature_of ty.now).params (summary body.now).blocks }
{
    match body {
        Body::Block(block) => starts_with(ty.params.as_slice(), block.objects.as_slice()),
        _ => false,
    }
}

fn lawful_statements(alloc: Global, tags: &Tags, body: &Body) -> Result<(), Stop>
    ensures { OnOk result (StatementsAreLawful tags.now (summary body.now)) }
{
    let mut found = Found {
        alloc,
        next: 0,
        labels: Items::new(alloc),
        jumps: Items::new(alloc),
        cases: Items::new(alloc),
        has_default: false,
    };
    let inside = Inside {
        breaks: false,
        continues: false,
    };
    statement(tags, &mut found, body, inside)?;
    nothing_open(alloc, &found)?;
    Ok(())
}

/// Goes on only where no label of a `switch` is left, and where each label stands once and each jump names one.
fn nothing_open(alloc: Global, found: &Found) -> Result<(), Stop>
    ensures no_case { OnOk result (found.now.cases ≡ []) }
    ensures no_default { OnOk result (found.now.has_default ≡ false) }
    ensures distinct { OnOk result (AllPairs ◌≢◌ found.now.labels) }
    ensures defined { OnOk result (All (Contains found.now.labels) found.now.jumps) }
    ensures few { OnOk result (found.now.next < 2 ^ 32) }
{
    let labels = found.labels.as_slice();
    must(found.cases.is_empty())?;
    must(!found.has_default)?;
    must(are_distinct(alloc, labels)?)?;
    must(are_in(alloc, labels, found.jumps.as_slice())?)?;
    let _next = found.next;
    Ok(())
}

/// How many full expressions the body has, where each is lawful.
fn lawful_expressions(
    alloc: Global,
    program: &Program,
    ty: &FuncTy,
    body: &Body,
) -> Result<u32, Stop>
    ensures full { OnOk result (All (ExpressionIsLawful program.now (signature_of ty.now)) (expressions body.now)) }
    ensures count { IfOk result (λ n. length (expressions body.now) ≡ n) }
{
    let mut place = Place {
        alloc,
        around: Vec::new(alloc),
        count: 0,
    };
    body_trees(body, &mut place, program, ty)?;
    Ok(place.count)
}
