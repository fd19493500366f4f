// The shape of a type: its scalars by their places.

ghost use Rattle.std.specs.Prelude.{◌≡◌, ◌<◌, ◌≤◌, ◌+◌, ◌++◌, IfOk, OnOk, map};
ghost use Rattle.c_types.specs.Types.{type_of};
ghost use Rattle.c_types.specs.Shapes.{form_of, forms_of, put_of};
ghost use Rattle.c_types.specs.Leaves.{scalars, scalars_with, scalars_by, leaves, all_leaves};
ghost use Rattle.c_types.specs.Layout.{number_in};
ghost use Rattle.layout.specs.Opened.{single_of, entered, remaining, contribution, open_work, work, IsRoomy, AreRoomy};

use crate::{offset_of, size};
use c_types::{Placed, Shape, Tags, Ty, copied};
use std::alloc::Global;
use ub_base::{Boxed, Items, NoMemory};

/// The scalars of a complete type by their places, the members of a union side by side. Members of members stand in one
/// list, so the shape is no deeper than the arrays of more than one element that are one inside the other.
pub fn shape(alloc: Global, tags: &Tags, ty: &Ty) -> Result<Shape, NoMemory>
    ensures { IfOk result (λ s. leaves (form_of s) ≡ scalars tags.now (type_of ty.now)) }
{
    shape_within(alloc, tags, tags.len(), ty)
}

// The same, with at most so many structures and unions one inside the other.
#[cycle(shape)]
fn shape_within(alloc: Global, tags: &Tags, depth: usize, ty: &Ty) -> Result<Shape, NoMemory>
    ensures { IfOk result (λ s. leaves (form_of s) ≡ scalars_with (scalars_by depth tags.now) tags.now (type_of ty.now)) }
{
    single_shape(alloc, tags, depth, single_of(ty))
}

// The same of a type that is no array of one element.
#[cycle(shape)]
fn single_shape(alloc: Global, tags: &Tags, depth: usize, ty: &Ty) -> Result<Shape, NoMemory>
    ensures { IfOk result (λ s. leaves (form_of s) ≡ scalars_with (scalars_by depth tags.now) tags.now (type_of ty.now)) }
{
    match ty {
        Ty::Int(_) | Ty::Enum(_) | Ty::Pointer(_) => Ok(Shape::Leaf(copied(alloc, ty)?)),
        Ty::Array(element, count) => {
            let element = &element.get().ty;
            let part = shape_within(alloc, tags, depth, element)?;
            Ok(Shape::Repeat {
                count: known_count(*count),
                step: size(tags, element),
                part: Boxed::new(alloc, part)?,
            })
        }
        Ty::Struct(tag) | Ty::Union(tag) => {
            Ok(Shape::Parts(parts_within(alloc, tags, depth, *tag)?))
        }
        _ => Ok(Shape::Parts(Items::new(alloc))),
    }
}

// What an array of one element is made of, which is no array of one element; another type itself.
fn single_of(ty: &Ty) -> &Ty
    ensures { type_of result.now ≡ single_of (type_of ty.now) }
{
    match ty {
        Ty::Array(element, Some(1)) => single_of(&element.get().ty),
        _ => ty,
    }
}

fn known_count(count: Option<u64>) -> u64
    ensures { result ≡ number_in count }
{
    match count {
        Some(count) => count,
        None => 0,
    }
}

// A structure or union of whose members those from a number on are still to be placed.
#[derive(Clone, Copy)]
struct Open {
    tag: u32,
    next: usize,
    // where it begins in the object, in bytes
    offset: u64,
    // how many structures and unions may be one inside the other in a member
    depth: usize,
}

// Opens a structure or union that begins at the offset, the innermost so far.
fn enter(opened: &mut Items<Open>, depth: usize, tag: u32, offset: u64) -> Result<(), NoMemory>
    ensures { OnOk result (opened.new ≡ entered depth tag offset opened.old) }
{
    if depth > 0 {
        opened.push(Open {
            tag,
            next: 0,
            offset,
            depth: depth - 1,
        })?;
    }
    Ok(())
}

// The parts of a structure or union, those of its members' members among them.
#[cycle(shape)]
fn parts_within(
    alloc: Global,
    tags: &Tags,
    depth: usize,
    tag: u32,
) -> Result<Items<Placed>, NoMemory>
    ensures { IfOk result (λ ps. all_leaves (forms_of (map put_of ps)) ≡ scalars_by depth tags.now tag) }
{
    tags.law_extents();
    let mut parts = Items::new(alloc);
    let mut opened = Items::new(alloc);
    enter(&mut opened, depth, tag, 0)?;
    while let Some(current) = opened.pop() {
        place_member(alloc, tags, current, &mut parts, &mut opened)?;
    }
    Ok(parts)
}

// Places the next member of a structure or union, or opens it where it is one itself.
#[cycle(shape)]
fn place_member(
    alloc: Global,
    tags: &Tags,
    current: Open,
    parts: &mut Items<Placed>,
    opened: &mut Items<Open>,
) -> Result<(), NoMemory>
    requires own { IsRoomy tags.now current }
    requires others { AreRoomy tags.now opened.old }
    ensures placed { OnOk result (all_leaves (forms_of (map put_of parts.new)) ++ remaining tags.now opened.new ≡ all_leaves
        (forms_of (map put_of parts.old)) ++ (contribution tags.now current ++ remaining tags.now opened.old)) }
    ensures roomy { OnOk result (AreRoomy tags.now opened.new) }
    ensures less { OnOk result (work tags.now opened.new < open_work tags.now current + work tags.now opened.old) }
{
    tags.law_extents();
    let Some(content) = tags.get(current.tag) else {
        return Ok(());
    };
    let Some(member) = content.members.as_slice().get(current.next) else {
        return Ok(());
    };
    let offset = current.offset + offset_of(tags, current.tag, current.next);
    opened.push(Open {
        tag: current.tag,
        next: current.next + 1,
        offset: current.offset,
        depth: current.depth,
    })?;
    match single_of(&member.qual.ty) {
        Ty::Struct(tag) | Ty::Union(tag) => enter(opened, current.depth, *tag, offset),
        ty => {
            let part = single_shape(alloc, tags, current.depth, ty)?;
            parts.push(Placed { offset, part })?;
            Ok(())
        }
    }
}
