// Where the scalars of a type stand.

ghost use Rattle.std.specs.Prelude.{◌↔◌, IsTrue, map};
ghost use Rattle.c_types.specs.Types.{type_of};

use crate::Ty;
use crate::agree::agrees;
use ub_base::{Boxed, Items};

/// The scalars of a type by their places (own): one scalar; a part again and again, `step` bytes apart; or parts at
/// offsets, those of a union side by side.
#[cycle(shape)]
#[derive(Drop)]
pub enum Shape {
    Leaf(Ty),
    Repeat {
        count: u64,
        step: u64,
        part: Boxed<Shape>,
    },
    Parts(Items<Placed>),
}

/// A part and its offset in bytes.
#[cycle(shape)]
#[derive(Drop)]
pub struct Placed {
    pub offset: u64,
    pub part: Shape,
}

impl Shape {
    ghost use Rattle.c_types.specs.Shapes.{form_of, Suits};

    /// Whether an access of the scalar type at the offset suits the object: a character type suits everything, another type
    /// where some scalar that begins there agrees with it (6.5p7; the leaves of the declared type are own). The offset lies in the object.
    pub fn suits(&self, ty: &Ty, at: u64) -> bool
        ensures { IsTrue result ↔ Suits (type_of ty.now) (form_of self.now) at }
    {
        ty.is_character() || leaf_agrees(ty, self, at)
    }
}

ghost use Rattle.c_types.specs.Shapes.{form_of, put_of, forms_of, LeafAgrees, SomeAgrees, PlacedAgrees};

// Whether some scalar that begins at the offset agrees with the type.
#[cycle(leaf)]
fn leaf_agrees(ty: &Ty, shape: &Shape, at: u64) -> bool
    ensures { IsTrue result ↔ LeafAgrees (type_of ty.now) (form_of shape.now) at }
{
    match shape {
        Shape::Leaf(leaf) => at == 0 && agrees(ty, leaf),
        Shape::Repeat { count, step, part } => {
            *step != 0 && at / *step < *count && leaf_agrees(ty, part.get(), at % *step)
        }
        Shape::Parts(parts) => some_agrees(ty, parts.as_slice(), at),
    }
}

#[cycle(leaf)]
fn some_agrees(ty: &Ty, parts: &[Placed], at: u64) -> bool
    ensures { IsTrue result ↔ SomeAgrees (type_of ty.now) (forms_of (map put_of parts.now)) at }
{
    for placed in parts {
        if placed_agrees(ty, placed, at) {
            return true;
        }
    }
    false
}

// The same of one part.
#[cycle(leaf)]
fn placed_agrees(ty: &Ty, placed: &Placed, at: u64) -> bool
    ensures { IsTrue result ↔ PlacedAgrees (type_of ty.now) (put_of placed.now) at }
{
    placed.offset <= at && leaf_agrees(ty, &placed.part, at - placed.offset)
}
