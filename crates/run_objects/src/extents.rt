// What the type of an object says of it, and where functions stand.
ghost use Rattle.std.specs.Prelude.{◌≡◌, ◌+◌, ◌^◌, min, max, IfOk, option_map};
ghost use Rattle.c_types.specs.Shapes.{form_of};
ghost use Rattle.c_types.specs.Types.{qualified_of, type_of};
ghost use Rattle.c_model.specs.Values as model;
ghost use Rattle.run_objects.specs.Extents as extents;
ghost use Rattle.run_objects.specs.Extents.{extent_of, HasForm};

use crate::shapes::shape;
use c_types::{Extent, Qual, Shape, Tags, Ty};
use std::alloc::Global;
use std::rc::Rc;
use ub_base::NoMemory;

/// The size and alignment of a complete type, one byte elsewhere.
pub fn extent(tags: &Tags, ty: &Ty) -> Extent
    ensures { result ≡ extent_of tags.now (type_of ty.now) }
{
    match tags.extent(ty) {
        Some(extent) => extent,
        None => Extent { size: 1, align: 1 },
    }
}

/// The scalars of a complete type by their places, in the form in which the definitions of runs have them.
pub fn shape_of(alloc: Global, tags: &Tags, ty: &Ty) -> Result<Option<Rc<Shape>>, NoMemory>
    ensures { IfOk result (λ o. HasForm tags.now (type_of ty.now) (option_map (λ s. form_of s.value) o)) }
{
    match tags.extent(ty) {
        None => Ok(None),
        Some(_) => {
            let shape = shape(alloc, tags, ty)?;
            Ok(Some(Rc::new(alloc, shape)?))
        }
    }
}

/// Whether an object of this type is defined const: an array where its elements are (6.7.3p9).
pub fn is_constant(qual: &Qual) -> bool
    ensures { result ≡ extents.is_constant (qualified_of qual.now) }
{
    if qual.constant {
        return true;
    }
    match &qual.ty {
        Ty::Array(element, _) => is_constant(element.get()),
        _ => false,
    }
}

/// The bytes that an object of this size counts (own).
pub fn counted(size: u64) -> u64
    ensures { result ≡ max size 16 }
{
    size.max(16)
}

/// The sum of two counts of bytes; one above 2^62 counts as 2^62 (own).
pub fn total(a: u64, b: u64) -> u64
    ensures { result ≡ min (a + b) (2 ^ 62) }
{
    a.saturating_add(b).min(1 << 62)
}

/// The address of a function by its number (own).
pub fn function_address(function: u32) -> u64
    ensures { result ≡ model.function_address function }
{
    u64::from(function).saturating_mul(16).saturating_add(4096)
}
