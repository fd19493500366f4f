// Addresses that an object's constants may be (6.5.6p8, 6.6p9).
ghost use Rattle.std.specs.Prelude.{IsTrue};
ghost use Rattle.std.specs.List.{All};
ghost use Rattle.c_typed.specs.declared.tree.Target.TheVariants as to;
ghost use Rattle.c_typed.specs.Lawful.{AddressIsLawful, AreBytes, ContentIsLawful};

use crate::names::can_be_called;
use c_typed::{Constant, Content, Program, Target};
use layout::size;

fn lies_in_static(program: &Program, number: u32, offset: u64) -> bool
    ensures { IsTrue result → AddressIsLawful program.now (to.Static number) offset }
{
    match program.statics.get(number as usize) {
        Some(object) => offset <= size(&program.tags, &object.qual.ty),
        None => false,
    }
}

fn lies_in_literal(program: &Program, number: u32, offset: u64) -> bool
    ensures { IsTrue result → AddressIsLawful program.now (to.Literal number) offset }
{
    match program.literals.get(number as usize) {
        Some(bytes) => offset <= bytes.len() as u64,
        None => false,
    }
}

fn is_of_function(program: &Program, number: u32, offset: u64) -> bool
    ensures { IsTrue result → AddressIsLawful program.now (to.Function number) offset }
{
    match program.functions.get(number as usize) {
        Some(function) => can_be_called(function) && offset == 0,
        None => false,
    }
}

// An address lies in its object or one past it, is one of a function where its offset is 0.
fn is_lawful_address(program: &Program, target: Target, offset: u64) -> bool
    ensures { IsTrue result → AddressIsLawful program.now target offset }
{
    match target {
        Target::Static(number) => lies_in_static(program, number, offset),
        Target::Literal(number) => lies_in_literal(program, number, offset),
        Target::Function(number) => is_of_function(program, number, offset),
    }
}

/// A slice of bytes has no others: its type says so.
pub fn are_bytes(bytes: &[u8])
    ensures { AreBytes bytes.now }
{}

// Whether an address that it may be is lawful.
fn is_lawful_content(program: &Program, content: &Content) -> bool
    ensures { IsTrue result → ContentIsLawful program.now content.now }
{
    match content {
        Content::Zeros(_) => true,
        Content::Bytes(bytes) => {
            are_bytes(bytes.as_slice());
            true
        }
        Content::Address { target, offset } => is_lawful_address(program, *target, *offset),
    }
}

/// Whether each address among the constants is lawful.
pub fn are_lawful_contents(program: &Program, constants: &[Constant]) -> bool
    ensures { IsTrue result → All (λ c. ContentIsLawful program.now c.content) constants.now }
{
    for constant in constants {
        if !is_lawful_content(program, &constant.content) {
            return false;
        }
    }
    true
}
