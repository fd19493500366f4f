// Types with a qualifier (6.7.3).
ghost use Rattle.std.specs.Prelude.{Some};
ghost use Rattle.c_types.specs.Types.{type_of, qualified_of};
ghost use Rattle.type_operands.specs.Terms.{Gives};
ghost use Rattle.type_operands.specs.Qualifiers as spec;

use c_types::{Qual, Shared, Ty, copied};
use std::alloc::Global;
use type_reasons::Refused;

/// The type, const where `constant` is true; of an array its element is (6.7.3p9).
pub fn qualified(alloc: Global, ty: &Ty, constant: bool) -> Result<Qual, Refused>
    ensures { Gives qualified_of result (Some (spec.qualified constant (type_of ty.now))) }
{
    match ty {
        Ty::Array(element, count) => {
            let element = element.get();
            let qual = qualified(alloc, &element.ty, element.constant || constant)?;
            Ok(Qual {
                ty: Ty::Array(Shared::new(alloc, qual)?, *count),
                constant: false,
            })
        }
        ty => Ok(Qual {
            ty: copied(alloc, ty)?,
            constant,
        }),
    }
}
