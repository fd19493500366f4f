// The elements that pointers step over (6.5.6).
ghost use Rattle.std.specs.Prelude.{◌≡◌};
ghost use Rattle.c_types.specs.Types.{type_of};
ghost use Rattle.type_operands.specs.Conversions as spec;
ghost use Rattle.type_operands.specs.Layouts.{layouts};

use crate::operand::object_of;
use c_types::{Tags, Ty};

// The bytes of the elements that a pointer steps over: of a complete object type (6.5.6p2).
#[tactic(auto, unfolding(crate::specs::Conversions::step))]
pub fn step_of(tags: &Tags, ty: &Ty) -> Option<u64>
    ensures { result ≡ spec.step (layouts tags.now) (type_of ty.now) }
{
    let target = object_of(ty)?;
    let e = tags.extent(&target.ty)?;
    Some(e.size)
}
