// Members by name (6.5.2.3), those of unnamed structures and unions among them (6.7.2.1p13).

ghost use Rattle.std.specs.Prelude.{◌≡◌, ◌<◌, ◌∷◌, [], length};
ghost use Rattle.std.specs.Option.{option_map};
ghost use Rattle.c_types.specs.Types.{type_of};
ghost use Rattle.layout.specs.Listed.{place_of, nearer, const_place};
ghost use Rattle.layout.specs.Names.{itself, inside, brought, named, names, names_by};

use crate::offset_of;
use c_types::{Member, Qual, Tags, Ty};

/// A member: where it stands in the structure or union that was asked, its type, and whether it is const, whatever its type
/// says, by an unnamed structure or union that it is reached through (6.7.2.1p13).
#[derive(Clone, Copy)]
pub struct Found<'t> {
    pub offset: u64,
    pub qual: &'t Qual,
    pub constant: bool,
}

/// The member of this name, itself or through unnamed structures and unions; `None` exactly where there is none.
pub fn find<'t>(tags: &'t Tags, tag: u32, name: &[u8]) -> Option<Found<'t>>
    ensures { option_map place_of result ≡ named name.now (names tags.now tag) }
{
    tags.law_extents();
    find_within(tags, tags.len(), tag, name)
}

// The same, with fewer than so many structures and unions one inside the other.
#[cycle(within)]
fn find_within<'t>(tags: &'t Tags, depth: usize, tag: u32, name: &[u8]) -> Option<Found<'t>>
    ensures { option_map place_of result ≡ option_map nearer (named name.now (names_by depth tags.now tag)) }
{
    if depth == 0 {
        return None;
    }
    let members = tags.get(tag)?.members.as_slice();
    for (i, member) in members.iter().enumerate() {
        if let Some(found) = found_at(tags, depth - 1, member, name) {
            let offset = offset_of(tags, tag, i).saturating_add(found.offset);
            return Some(Found { offset, ..found });
        }
    }
    None
}

// The member itself, or one inside it, from where it begins.
#[cycle(within)]
fn found_at<'t>(tags: &'t Tags, depth: usize, member: &'t Member, name: &[u8]) -> Option<Found<'t>>
    ensures { option_map place_of result ≡ option_map nearer (named name.now (brought (names_by depth tags.now) member.now)) }
{
    if member.name.len() != 0 {
        return own(member, name);
    }
    let found = find_inside(tags, depth, &member.qual.ty, name);
    also_const(found, member.qual.constant)
}

// The same in a type, which has members where it is a structure or union.
#[cycle(within)]
fn find_inside<'t>(tags: &'t Tags, depth: usize, ty: &Ty, name: &[u8]) -> Option<Found<'t>>
    ensures { option_map place_of result ≡ option_map nearer (named name.now (inside (names_by depth tags.now) (type_of ty.now))) }
{
    match ty {
        Ty::Struct(tag) | Ty::Union(tag) => find_within(tags, depth, *tag, name),
        _ => None,
    }
}

// What was found inside an unnamed structure or union, which is const or isn't.
fn also_const<'t>(found: Option<Found<'t>>, constant: bool) -> Option<Found<'t>>
    ensures { option_map place_of result ≡ option_map (const_place constant) (option_map place_of found.entry) }
{
    let found = found?;
    Some(Found {
        constant: constant || found.constant,
        ..found
    })
}

// A member that has a name, if it is this one.
fn own<'t>(member: &'t Member, name: &[u8]) -> Option<Found<'t>>
    requires { 0 < length member.now.name }
    ensures { option_map place_of result ≡ named name.now (itself member.now ∷ []) }
{
    if member.name.as_slice() == name {
        Some(Found {
            offset: 0,
            qual: &member.qual,
            constant: false,
        })
    } else {
        None
    }
}
