// What the addresses that an object with static storage holds are aligned for (6.3.2.3p7).
ghost use Rattle.std.specs.Prelude.{IsTrue};
ghost use Rattle.c_types.specs.Types.{type_of};
ghost use Rattle.c_typed.specs.declared.tree.Target.TheVariants as to;
ghost use Rattle.c_typed.specs.Lawful.{Divides, AddressSuits, SuitsType};

use c_typed::{Program, Target};
use c_types::Ty;
use layout::align;

fn divides(align: u64, n: u64) -> bool
    ensures { IsTrue result → Divides align n }
{
    align != 0 && n % align == 0
}

fn static_suits(program: &Program, align_of: u64, number: u32, offset: u64) -> bool
    ensures { IsTrue result → AddressSuits program.now align_of (to.Static number) offset }
{
    match program.statics.get(number as usize) {
        Some(object) => {
            divides(align_of, align(&program.tags, &object.qual.ty)) && divides(align_of, offset)
        }
        None => false,
    }
}

// The address is a multiple of the alignment, wherever its object begins.
fn address_suits(program: &Program, align: u64, target: Target, offset: u64) -> bool
    ensures { IsTrue result → AddressSuits program.now align target offset }
{
    match target {
        Target::Static(number) => static_suits(program, align, number, offset),
        Target::Literal(_) => align == 1,
        Target::Function(_) => true,
    }
}

/// Whether a scalar of this type may be the address: only a pointer may, to what it is aligned for.
pub fn suits_scalar(program: &Program, ty: &Ty, target: Target, offset: u64) -> bool
    ensures { IsTrue result → SuitsType program.now (type_of ty.now) target offset }
{
    match ty {
        Ty::Pointer(pointed) => {
            let align = align(&program.tags, &pointed.get().ty);
            address_suits(program, align, target, offset)
        }
        _ => false,
    }
}
