// The function that is called at program startup (5.1.2.2.1).
ghost use Rattle.std.specs.Prelude.{slice_get, IfSome};
ghost use Rattle.c_types.specs.Types.{signature_of};
ghost use Rattle.c_typed.specs.Lawful.{There, HasBody, IsMainType};

use c_typed::Function;
use lawful_program::is_main_type;

/// The function that is called at program startup, where it has a body and one of its types.
pub fn main_of(functions: &[Function], main: Option<u32>) -> Option<u32>
    ensures body { IfSome result (λ number. There (slice_get functions.now number) HasBody) }
    ensures main_type { IfSome result (λ number. There (slice_get functions.now number) (λ f. IsMainType (signature_of f.ty))) }
{
    let number = main?;
    let function = functions.get(number as usize)?;
    if function.body.is_some() && is_main_type(&function.ty) {
        Some(number)
    } else {
        None
    }
}
