// Members of structures and unions (6.5.2.3).
ghost use Rattle.std.specs.Prelude.{◌≡◌, Some};
ghost use Rattle.c_types.specs.Types.{type_of, qualified_of};
ghost use Rattle.type_operands.specs.Terms.{term_of, expression_of, Gives};
ghost use Rattle.type_operators.specs.Members.{found_of, part_of};
ghost use Rattle.type_operators.specs.Members as spec;
ghost use Rattle.type_operands.specs.Layouts.{layouts};

use c_typed::{Access, Node, Typed};
use c_types::{Qual, Shared, Tags, Ty, copied};
use layout::find;
use std::alloc::Global;
use type_operands::{
    Form, Operand, access_of, object_of, place, qualified, value, value_of, with_child,
};
use type_reasons::{Reason, Refused};

fn tag_of(ty: &Ty) -> Option<u32>
    ensures { result ≡ spec.tag_of (type_of ty.now) }
{
    match ty {
        Ty::Struct(tag) | Ty::Union(tag) => Some(*tag),
        _ => None,
    }
}

// The member with this name of a structure or union object: its offset, and its type with the qualifier of the object too, and
// with that of an unnamed structure or union that it is in (6.5.2.3p3, 6.7.2.1p13).
struct Found {
    offset: u64,
    qual: Qual,
}

#[tactic(auto, unfolding(crate::specs::Members::member_of))]
fn member_of(alloc: Global, tags: &Tags, object: &Qual, name: &[u8]) -> Result<Found, Refused>
    ensures { Gives found_of result (spec.member_of (layouts tags.now) (qualified_of object.now) name.now) }
{
    let Some(tag) = tag_of(&object.ty) else {
        return Err(Refused::Constraint(Reason::MemberOfValue));
    };
    match find(tags, tag, name) {
        None => Err(Refused::Constraint(Reason::MemberOfValue)),
        Some(member) => {
            let constant = member.constant || member.qual.constant || object.constant;
            let qual = qualified(alloc, &member.qual.ty, constant)?;
            Ok(Found {
                offset: member.offset,
                qual,
            })
        }
    }
}

fn member_behind(alloc: Global, tags: &Tags, ty: &Ty, name: &[u8]) -> Result<Found, Refused>
    ensures { Gives found_of result (spec.member_behind (layouts tags.now) (type_of ty.now) name.now) }
{
    match object_of(ty) {
        None => Err(Refused::Constraint(Reason::MemberOfPointer)),
        Some(object) => member_of(alloc, tags, object, name),
    }
}

// The place of a member of the object that the tree points to.
#[tactic(auto, unfolding(crate::specs::Members::member_place))]
fn member_place(
    alloc: Global,
    tags: &Tags,
    tree: Typed,
    name: &[u8],
    register: bool,
    line: u32,
) -> Result<Operand, Refused>
    ensures { Gives expression_of result (spec.member_place (layouts tags.now) (term_of tree) name.now register line) }
{
    let Found { offset, qual } = member_behind(alloc, tags, &tree.ty, name)?;
    let node = Node::Member { offset };
    let ty = Ty::Pointer(Shared::new(alloc, qual)?);
    Ok(place(with_child(alloc, node, ty, line, tree)?, register))
}

// A member of a structure or union value: how it lies in memory, and its type.
struct Part {
    offset: u64,
    access: Access,
    ty: Ty,
}

#[tactic(auto, unfolding(crate::specs::Members::part_behind))]
fn part_behind(alloc: Global, tags: &Tags, ty: &Ty, name: &[u8]) -> Result<Part, Refused>
    ensures { Gives part_of result (spec.part_behind (layouts tags.now) (type_of ty.now) name.now) }
{
    let Some(tag) = tag_of(ty) else {
        return Err(Refused::Constraint(Reason::MemberOfValue));
    };
    let Some(member) = find(tags, tag, name) else {
        return Err(Refused::Constraint(Reason::MemberOfValue));
    };
    let Some(access) = access_of(tags, &member.qual.ty) else {
        return Err(Refused::Constraint(Reason::ArrayOfValue));
    };
    let ty = copied(alloc, &member.qual.ty)?;
    Ok(Part {
        offset: member.offset,
        access,
        ty,
    })
}

// A member of a structure or union value: a part of it, which is no array (own).
#[tactic(auto, unfolding(crate::specs::Members::member_part))]
fn member_part(
    alloc: Global,
    tags: &Tags,
    tree: Typed,
    name: &[u8],
    line: u32,
) -> Result<Operand, Refused>
    ensures { Gives expression_of result (spec.member_part (layouts tags.now) (term_of tree) name.now line) }
{
    let Part { offset, access, ty } = part_behind(alloc, tags, &tree.ty, name)?;
    let node = Node::Part { offset, access };
    Ok(value(with_child(alloc, node, ty, line, tree)?))
}

/// `E.name` (6.5.2.3p3).
pub fn member_of_value(
    alloc: Global,
    tags: &Tags,
    operand: Operand,
    name: &[u8],
    line: u32,
) -> Result<Operand, Refused>
    ensures { Gives expression_of result (spec.member_of_value (layouts tags.now) (expression_of operand) name.now line) }
{
    let Operand {
        tree,
        form,
        line: _,
    } = operand;
    match form {
        Form::Place { register } => member_place(alloc, tags, tree, name, register, line),
        Form::Value => member_part(alloc, tags, tree, name, line),
        Form::NullPointer | Form::Designator | Form::Void => Err(Refused::Constraint(
            Reason::MemberOfValue,
        )),
    }
}

/// `E->name` (6.5.2.3p4).
#[tactic(auto, unfolding(crate::specs::Members::member_of_pointer))]
pub fn member_of_pointer(
    alloc: Global,
    tags: &Tags,
    operand: Operand,
    name: &[u8],
    line: u32,
) -> Result<Operand, Refused>
    ensures { Gives expression_of result (spec.member_of_pointer (layouts tags.now) (expression_of operand) name.now line) }
{
    let tree = value_of(alloc, tags, operand)?;
    member_place(alloc, tags, tree, name, false, line)
}
