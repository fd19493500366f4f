// The scalar types that tags name.
ghost use Rattle.std.specs.Prelude.{◌≡◌, ℕ, ◌+◌, ◌-◌, ◌≤◌, ◌++◌, List, [], ◌∷◌, Some, None, map, true, false, slice_get, IfOk, IfSome, if◌then◌else◌, nat_le};
ghost use Rattle.std.specs.Option.{option_copied};
ghost use Rattle.c_types.specs.Types.{CType, type_of, kind_of, int};
ghost use Rattle.c_types.specs.Shapes.{form_of, put_of, forms_of};
ghost use Rattle.mem_spec.specs.Agreement.{Tag, read_as_int, scalar_size, spanning, spanning_parts};
ghost use Rattle.mem_objects.specs.Cells.{type_numbered};
ghost use Rattle.mem_objects.specs.Tags.{Spans};

use crate::TypeId;
use c_types::{IntKind, Placed, Shape, Ty, same_type};
use ub_base::NoMemory;

/// The first number of a type that isn't an integer type.
pub const FIRST: u32 = 13;

/// The number of an integer type, an enumeration read as int.
pub fn kind_id(ty: &Ty) -> Option<TypeId>
    ensures some { IfSome result (λ id. (ts : List CType) → (type_numbered ts id.number ≡ Some (read_as_int (type_of ty.now))) × (id.number ≤ 12)) }
    ensures none { result ≡ None → read_as_int (type_of ty.now) ≡ type_of ty.now }
    ensures plain { result ≡ None → kind_of (type_of ty.now) ≡ None }
{
    match ty {
        Ty::Int(kind) => Some(TypeId::of_kind(*kind)),
        Ty::Enum(_) => Some(TypeId::of_kind(IntKind::Int)),
        _ => None,
    }
}

/// The integer type.
pub fn int_type(kind: IntKind) -> Ty
    ensures { type_of result ≡ int kind }
{
    Ty::Int(kind)
}

/// How many bytes a scalar of the type has.
pub fn scalar_size(ty: &Ty) -> u64
    ensures size { result ≡ scalar_size (type_of ty.now) }
    ensures short { result ≤ 8 }
{
    match ty {
        Ty::Int(kind) => kind.bytes(),
        Ty::Enum(_) => 4,
        _ => 8,
    }
}

/// Which scalar of a shape spans a byte, and where in it the byte stands.
#[derive(Clone, Copy)]
pub enum Spanned<'a> {
    None,
    One(&'a Ty, u8),
    Several,
}

impl<'a> Spanned<'a> {
    fn and(self, other: Spanned<'a>) -> Spanned<'a>
        ensures { (xs ys : List Tag) → Spans self.entry xs → Spans other.entry ys → Spans result (xs ++ ys) }
    {
        match self {
            Spanned::None => other,
            Spanned::One(ty, index) => match other {
                Spanned::None => Spanned::One(ty, index),
                Spanned::One(_, _) => Spanned::Several,
                Spanned::Several => Spanned::Several,
            },
            Spanned::Several => Spanned::Several,
        }
    }
}

/// The place of the type in a list of types.
pub fn place_of(types: &[Ty], ty: &Ty) -> Option<usize>
    ensures some { IfSome result (λ at. slice_get (map type_of types.now) at ≡ Some (type_of ty.now)) }
    ensures none { result ≡ None → (at : ℕ) → slice_get (map type_of types.now) at ≡ Some (type_of ty.now) → ⊥ }
{
    for at in 0..types.len() {
        if is_at(types, at, ty) {
            return Some(at);
        }
    }
    None
}

fn is_at(types: &[Ty], at: usize, ty: &Ty) -> bool
    ensures same { result ≡ true → slice_get (map type_of types.now) at ≡ Some (type_of ty.now) }
    ensures other { result ≡ false → slice_get (map type_of types.now) at ≡ Some (type_of ty.now) → ⊥ }
{
    match type_at(types, at) {
        None => false,
        Some(known) => same_type(known, ty),
    }
}

fn type_at(types: &[Ty], at: usize) -> Option<&Ty>
    ensures { option_copied result ≡ slice_get types.now at }
{
    types.get(at)
}

/// The number of the type at the place, where it has one.
pub fn id_at(at: usize) -> Result<TypeId, NoMemory>
    ensures { IfOk result (λ id. id.number ≡ at + 13) }
{
    let number = u32::try_from(at.saturating_add(13)).map_err(|_| NoMemory)?;
    Ok(TypeId { number })
}

/// The scalar that spans the byte of an object of this shape.
#[cycle(scalar)]
pub fn scalar_at<'a>(shape: &'a Shape, at: u64) -> Spanned<'a>
    ensures { Spans result (spanning (form_of shape.now) at) }
{
    match shape {
        Shape::Leaf(ty) => {
            if at < scalar_size(ty) {
                Spanned::One(ty, at as u8)
            } else {
                Spanned::None
            }
        }
        Shape::Repeat { count, step, part } => {
            if *step != 0 && at / *step < *count {
                scalar_at(part.get(), at % *step)
            } else {
                Spanned::None
            }
        }
        Shape::Parts(parts) => part_at(parts.as_slice(), at),
    }
}

// A part that begins behind the byte doesn't span it.
#[cycle(scalar)]
fn part_at<'a>(parts: &'a [Placed], at: u64) -> Spanned<'a>
    ensures { Spans result (spanning_parts (forms_of (map put_of parts.now)) at) }
{
    let mut found = Spanned::None;
    for placed in parts {
        found = found.and(placed_at(placed, at));
    }
    found
}

#[cycle(scalar)]
fn placed_at<'a>(placed: &'a Placed, at: u64) -> Spanned<'a>
    ensures { Spans result (if nat_le (put_of placed.now).offset at then spanning (put_of placed.now).part (at - (put_of placed.now).offset) else []) }
{
    if placed.offset <= at {
        scalar_at(&placed.part, at - placed.offset)
    } else {
        Spanned::None
    }
}
