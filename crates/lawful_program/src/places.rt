// Where an address may stand in a type (6.2.5p20, 6.3.2.3p7).
ghost use Rattle.std.specs.Prelude.{ℕ, ◌<◌, IsTrue, IfSome};
ghost use Rattle.c_types.specs.Types.{type_of, qualified_of};
ghost use Rattle.c_types.specs.Layout.{size_of, type_of_member};
ghost use Rattle.c_types.specs.Leaves.{shifted, scalars_by};
ghost use Rattle.c_typed.specs.Lawful.{IsScalar, SuitsSome};
ghost use Rattle.lawful_program.specs.Places.{scalars_within, LooksOn, LooksOnElement, IsOfTag};

use crate::addresses::suits_scalar;
use c_typed::{Program, Target};
use c_types::{Extent, Member, Qual, Ty};
use layout::{offset_of, size};

/// Where the elements of an array, or the parts of another type, are looked at.
#[derive(Clone, Copy)]
struct Inner<'t> {
    ty: &'t Ty,
    at: u64,
}

// The offset in the element that holds an offset of an array of so many; none where there is no such element.
fn in_element(program: &Program, element: &Qual, count: u64, at: u64) -> Option<u64>
    requires { 0 < size_of program.now.tags (qualified_of element.now).ty }
    ensures { IfSome result (λ further. LooksOnElement program.now (qualified_of element.now) count at further) }
{
    let step = size(&program.tags, &element.ty);
    if at / step < count {
        Some(at % step)
    } else {
        None
    }
}

// The element of an array, and of arrays in it, that holds the offset, which is counted from its begin; another type itself.
// None where there is no such element.
fn element_at<'t>(program: &Program, ty: &'t Ty, at: u64) -> Option<Inner<'t>>
    ensures { IfSome result (λ i. LooksOn program.now (type_of ty.now) at (type_of i.ty.now) i.at) }
{
    match ty {
        Ty::Array(element, Some(count)) => {
            let element = element.get();
            if size(&program.tags, &element.ty) == 0 {
                return None;
            }
            match in_element(program, element, *count, at) {
                None => None,
                Some(further) => element_at(program, &element.ty, further),
            }
        }
        _ => Some(Inner { ty, at }),
    }
}

/// Whether some scalar of the type that begins at the offset may be the address, with at most so many structures and unions one
/// inside the other.
#[cycle(takes)]
pub fn type_takes(program: &Program, depth: usize, address: (Target, u64), ty: &Ty, at: u64) -> bool
    ensures { IsTrue result → SuitsSome program.now address.0 address.1 at (scalars_within depth program.now.tags (type_of ty.now)) }
{
    let Some(inner) = element_at(program, ty, at) else {
        return false;
    };
    match tag_of(inner.ty) {
        Some(tag) => tag_takes(program, depth, address, tag, inner.at),
        None => scalar_takes(program, address, inner.ty, inner.at),
    }
}

fn tag_of(ty: &Ty) -> Option<u32>
    ensures { IfSome result (IsOfTag (type_of ty.now)) }
{
    match ty {
        Ty::Struct(tag) => Some(*tag),
        Ty::Union(tag) => Some(*tag),
        _ => None,
    }
}

fn is_scalar(ty: &Ty) -> bool
    ensures { IsTrue result → IsScalar (type_of ty.now) }
{
    matches!(ty, Ty::Int(_) | Ty::Enum(_) | Ty::Pointer(_))
}

fn scalar_takes(program: &Program, address: (Target, u64), ty: &Ty, at: u64) -> bool
    ensures { IsTrue result → (depth : ℕ) → SuitsSome program.now address.0 address.1 at (scalars_within depth program.now.tags (type_of ty.now)) }
{
    at == 0 && is_scalar(ty) && suits_scalar(program, ty, address.0, address.1)
}

#[cycle(takes)]
fn tag_takes(program: &Program, depth: usize, address: (Target, u64), tag: u32, at: u64) -> bool
    ensures { IsTrue result → SuitsSome program.now address.0 address.1 at (scalars_by depth program.now.tags tag) }
{
    if depth == 0 {
        return false;
    }
    let Some(content) = program.tags.get(tag) else {
        return false;
    };
    let members = content.members.as_slice();
    for (i, member) in members.iter().enumerate() {
        let offset = offset_of(&program.tags, tag, i);
        if member_takes(program, depth - 1, address, member, offset, at) {
            return true;
        }
    }
    false
}

// The same of a member that stands at an offset.
#[cycle(takes)]
fn member_takes(
    program: &Program,
    depth: usize,
    address: (Target, u64),
    member: &Member,
    offset: u64,
    at: u64,
) -> bool
    ensures { IsTrue result → SuitsSome program.now address.0 address.1 at
        (shifted offset (scalars_within depth program.now.tags (type_of_member member.now))) }
{
    if at < offset || ends_before(program, member, at - offset) {
        return false;
    }
    type_takes(program, depth, address, &member.qual.ty, at - offset)
}

// Whether the member ends before the offset in it, so that none of its parts needs to be looked at.
fn ends_before(program: &Program, member: &Member, at: u64) -> bool {
    let extent: Option<Extent> = program.tags.extent(&member.qual.ty);
    match extent {
        Some(extent) => extent.size <= at,
        None => true,
    }
}
