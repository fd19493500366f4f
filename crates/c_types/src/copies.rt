// Copies of types.
ghost use Rattle.std.specs.Prelude.{◌≡◌, IfOk};
ghost use Rattle.c_types.specs.Types.{type_of, qualified_of};

use crate::{Qual, Ty};
use std::alloc::Global;
use ub_base::NoMemory;

/// A copy of the type, which shares its parts with it: no deeper work than one level.
pub fn copied(_alloc: Global, ty: &Ty) -> Result<Ty, NoMemory>
    ensures { IfOk result (λ t. type_of t ≡ type_of ty.now) }
{
    match ty {
        Ty::Void => Ok(Ty::Void),
        Ty::Int(kind) => Ok(Ty::Int(*kind)),
        Ty::Enum(tag) => Ok(Ty::Enum(*tag)),
        Ty::Pointer(target) => Ok(Ty::Pointer(target.share()?)),
        Ty::Array(element, count) => Ok(Ty::Array(element.share()?, *count)),
        Ty::Struct(tag) => Ok(Ty::Struct(*tag)),
        Ty::Union(tag) => Ok(Ty::Union(*tag)),
        Ty::Function(f) => Ok(Ty::Function(f.share()?)),
    }
}

/// A copy of the type with its top qualifier.
pub fn copied_qual(alloc: Global, qual: &Qual) -> Result<Qual, NoMemory>
    ensures { IfOk result (λ q. qualified_of q ≡ qualified_of qual.now) }
{
    let ty = copied(alloc, &qual.ty)?;
    Ok(Qual {
        ty,
        constant: qual.constant,
    })
}
