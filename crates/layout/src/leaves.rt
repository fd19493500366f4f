// The scalars of a type, one by one.

ghost use Rattle.std.specs.Prelude.{◌≡◌, ◌++◌, IfOk, OnOk, IsSome, map};
ghost use Rattle.c_types.specs.Types.{type_of};
ghost use Rattle.c_types.specs.Layout.{extent, extents};
ghost use Rattle.c_types.specs.Leaves.{scalars, shifted, repeated_scalars, all_leaves};
ghost use Rattle.c_types.specs.Leaves as listed;
ghost use Rattle.c_types.specs.Shapes.{form_of, forms_of, put_of};
ghost use Rattle.layout.specs.Listed.{scalar_of, capped};

use crate::shape;
use c_types::{Placed, Shape, Tags, Ty, copied};
use std::alloc::Global;
use ub_base::{Items, NoMemory};

/// A scalar and where it begins, in bytes.
#[derive(Drop)]
pub struct Leaf {
    pub offset: u64,
    pub ty: Ty,
}

/// The scalars of a complete type with their offsets, in the order of elements and members; `Tags::extent` tells whether a type
/// is complete.
pub fn scalars_at(alloc: Global, tags: &Tags, ty: &Ty) -> Result<Items<Leaf>, NoMemory>
    requires { IsSome (extent (extents tags.now) (type_of ty.now)) }
    ensures { IfOk result (λ ls. map scalar_of ls ≡ scalars tags.now (type_of ty.now)) }
{
    tags.law_extents();
    let shape = shape(alloc, tags, ty)?;
    let mut leaves = Items::new(alloc);
    add_leaves(alloc, &mut leaves, 0, &shape)?;
    Ok(leaves)
}

// Adds the scalars of a part that begins at the offset.
#[cycle(leaves)]
fn add_leaves(
    alloc: Global,
    leaves: &mut Items<Leaf>,
    offset: u64,
    shape: &Shape,
) -> Result<(), NoMemory>
    ensures { OnOk result (map scalar_of leaves.new ≡ map scalar_of leaves.old ++ map capped (shifted offset (listed.leaves (form_of shape.now)))) }
{
    match shape {
        Shape::Leaf(ty) => {
            let ty = copied(alloc, ty)?;
            leaves.push(Leaf { offset, ty })?;
            Ok(())
        }
        Shape::Repeat { count, step, part } => {
            add_repeated(alloc, leaves, offset, *count, *step, part.get())
        }
        Shape::Parts(parts) => add_parts(alloc, leaves, offset, parts.as_slice()),
    }
}

#[cycle(leaves)]
fn add_repeated(
    alloc: Global,
    leaves: &mut Items<Leaf>,
    offset: u64,
    count: u64,
    step: u64,
    part: &Shape,
) -> Result<(), NoMemory>
    ensures { OnOk result (map scalar_of leaves.new ≡ map scalar_of leaves.old ++ map capped
        (shifted offset (repeated_scalars count step (listed.leaves (form_of part.now))))) }
{
    for i in 0..count {
        let at = offset.saturating_add(i.saturating_mul(step));
        add_leaves(alloc, leaves, at, part)?;
    }
    Ok(())
}

#[cycle(leaves)]
fn add_parts(
    alloc: Global,
    leaves: &mut Items<Leaf>,
    offset: u64,
    parts: &[Placed],
) -> Result<(), NoMemory>
    ensures { OnOk result (map scalar_of leaves.new ≡ map scalar_of leaves.old ++ map capped (shifted offset (all_leaves (forms_of (map put_of parts.now))))) }
{
    for placed in parts {
        let at = offset.saturating_add(placed.offset);
        add_leaves(alloc, leaves, at, &placed.part)?;
    }
    Ok(())
}
