// Objects with static storage (6.7.9, 6.9.2).
ghost use Rattle.std.specs.Prelude.{IsTrue, IfOk};
ghost use Rattle.std.specs.List.{All};
ghost use Rattle.c_types.specs.Types.{type_of};
ghost use Rattle.c_types.specs.Leaves.{scalars};
ghost use Rattle.c_typed.specs.Lawful.{IsSized, ContentSuits, StaticIsLawful};

use crate::places::type_takes;
use c_typed::{Constant, Content, Program, Static};
use c_types::{Tags, Ty};
use lawful_trees::{are_lawful_contents, parts_fit};
use layout::size;
use std::alloc::Global;
use ub_base::NoMemory;

fn is_sized(tags: &Tags, ty: &Ty) -> bool
    ensures { IsTrue result → IsSized tags.now (type_of ty.now) }
{
    match tags.extent(ty) {
        Some(extent) => 0 < extent.size,
        None => false,
    }
}

// Whether an address stands only where the type has a pointer, to what the address is aligned for.
fn is_aligned(program: &Program, ty: &Ty, constant: &Constant) -> bool
    ensures { IsTrue result → ContentSuits program.now (scalars program.now.tags (type_of ty.now)) constant.now.at constant.now.content }
{
    match &constant.content {
        Content::Zeros(_) | Content::Bytes(_) => true,
        Content::Address { target, offset } => {
            let depth = program.tags.len();
            type_takes(program, depth, (*target, *offset), ty, constant.at)
        }
    }
}

fn are_aligned(program: &Program, ty: &Ty, constants: &[Constant]) -> bool
    ensures { IsTrue result → All (λ c. ContentSuits program.now (scalars program.now.tags (type_of ty.now)) c.at c.content) constants.now }
{
    for constant in constants {
        if !is_aligned(program, ty, constant) {
            return false;
        }
    }
    true
}

/// Whether an object with static storage is lawful in its program.
pub fn is_lawful_static(alloc: Global, program: &Program, object: &Static) -> Result<bool, NoMemory>
    ensures { IfOk result (λ b. IsTrue b → StaticIsLawful program.now object.now) }
{
    let ty = &object.qual.ty;
    let constants = object.constants.as_slice();
    if !is_sized(&program.tags, ty)
        || !are_lawful_contents(program, constants)
        || !are_aligned(program, ty, constants)
    {
        return Ok(false);
    }
    parts_fit(alloc, size(&program.tags, ty), constants)
}
