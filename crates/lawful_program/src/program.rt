// The whole program (5.1.2.2.1, 6.4.5, 6.9).
ghost use Rattle.std.specs.Prelude.{IsTrue, IfOk};
ghost use Rattle.std.specs.List.{All};
ghost use Rattle.c_typed.specs.Lawful.{AreBytes, HasMain, MainHasType, IsExternal, HasBytes, IsNumbered, FunctionIsLawful, StaticIsLawful, IsLawful};

use crate::startup::is_main_type;
use crate::statics::is_lawful_static;
use c_typed::{Function, Program, Static};
use lawful_bodies::is_lawful_function;
use lawful_trees::are_bytes;
use std::alloc::Global;
use ub_base::{Bytes, NoMemory};

fn has_main(program: &Program) -> bool
    ensures body { IsTrue result → HasMain program.now }
    ensures main_type { IsTrue result → MainHasType program.now }
{
    match program.functions.get(program.main as usize) {
        Some(function) => function.body.is_some() && is_main_type(&function.ty),
        None => false,
    }
}

// A library function isn't defined (7.1.3p2).
fn is_external(function: &Function) -> bool
    ensures { IsTrue result → IsExternal function.now }
{
    function.library.is_none() || function.body.is_none()
}

fn are_external(functions: &[Function]) -> bool
    ensures { IsTrue result → All IsExternal functions.now }
{
    for function in functions {
        if !is_external(function) {
            return false;
        }
    }
    true
}

fn have_bytes(literals: &[Bytes]) -> bool
    ensures some { IsTrue result → All HasBytes literals.now }
    ensures bytes { IsTrue result → All AreBytes literals.now }
{
    for literal in literals {
        if !has_bytes(literal) {
            return false;
        }
    }
    true
}

// A string literal has its closing zero at least (6.4.5p6).
fn has_bytes(literal: &Bytes) -> bool
    ensures some { IsTrue result → HasBytes literal.now }
    ensures bytes { AreBytes literal.now }
{
    let bytes = literal.as_slice();
    are_bytes(bytes);
    !bytes.is_empty()
}

fn are_lawful_functions(
    alloc: Global,
    program: &Program,
    functions: &[Function],
) -> Result<bool, NoMemory>
    ensures { IfOk result (λ b. IsTrue b → All (FunctionIsLawful program.now) functions.now) }
{
    for function in functions {
        if !is_lawful_function(alloc, program, function)? {
            return Ok(false);
        }
    }
    Ok(true)
}

fn are_lawful_statics(
    alloc: Global,
    program: &Program,
    statics: &[Static],
) -> Result<bool, NoMemory>
    ensures { IfOk result (λ b. IsTrue b → All (StaticIsLawful program.now) statics.now) }
{
    for object in statics {
        if !is_lawful_static(alloc, program, object)? {
            return Ok(false);
        }
    }
    Ok(true)
}

const MOST: usize = u32::MAX as usize;

// Whether a number of 32 bits is left for each thing that has one.
fn is_numbered(program: &Program) -> bool
    ensures { IsTrue result → IsNumbered program.now }
{
    program.functions.len() <= MOST
        && program.statics.len() <= MOST
        && program.literals.len() <= MOST
        && program.tags.len() <= MOST
}

/// Whether the program is lawful.
pub fn is_lawful(alloc: Global, program: &Program) -> Result<bool, NoMemory>
    ensures { IfOk result (λ b. IsTrue b → IsLawful program.now) }
{
    if !has_main(program) || !is_numbered(program) {
        return Ok(false);
    }
    let functions = program.functions.as_slice();
    if !are_external(functions) || !have_bytes(program.literals.as_slice()) {
        return Ok(false);
    }
    if !are_lawful_statics(alloc, program, program.statics.as_slice())? {
        return Ok(false);
    }
    are_lawful_functions(alloc, program, functions)
}
